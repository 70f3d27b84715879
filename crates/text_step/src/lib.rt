// The lines of the world's steps: document 01's "Step files", and document 02.
#![tactic(auto)]

ghost use Rattle.std.specs.Prelude.{◌≡◌};
ghost use Rattle.text_entry.specs.Parts.{kind_front, whole};
ghost use Rattle.text_entry.specs.Read.{part, read_field, read_kind};
ghost use Rattle.text_entry.specs.Table.{made, or_else as or_step};
ghost use Rattle.text_step.specs.Answers.{OrElse, crash_values, role_read};
ghost use Rattle.text_step.specs.Kinds.{role, sent_take, sent_vote, setup_kind, open_kind, propose_kind, deliver_kind, tell_kind, restore_kind, follow_kind, crash_kind, back_kind};
ghost use Rattle.text_step.specs.Step.{reading, reading_of, take_of, vote_of, setup_of, open_of, propose_of, deliver_of, tell_of, restore_of, follow_of, crash_of, back_of};

use model_steps::{Role, Step};
use text_entry::decimals::{byte, decimals};
use text_entry::value::Number;
use text_entry::{Unread, fields, value};

// A take or a vote, which is sent to a coordinator.
fn read_request(line: &[u8]) -> Result<Step, Unread>
    ensures { result ≡ reading_of (or_step (made take_of (read_kind sent_take line.now)) (made vote_of (read_kind sent_vote line.now))) }
{
    let Some((parts, rest)) = text_entry::entry_parts(line) else {
        return Err(Unread::Unreadable);
    };
    let Some((to, rest)) = fields::decimal(rest, b"to") else {
        return Err(Unread::Unreadable);
    };
    if !rest.is_empty() {
        return Err(Unread::Unreadable);
    }
    Ok(Step::Request {
        entry: parts.entry()?,
        to: byte(to)?,
    })
}

fn read_setup(line: &[u8]) -> Result<Step, Unread>
    ensures { result ≡ reading_of (made setup_of (read_kind setup_kind line.now)) }
{
    let [acceptors] = decimals::<1>(line, b"setup", &[b"acceptors"])?;
    Ok(Step::Setup { acceptors })
}

fn read_open(line: &[u8]) -> Result<Step, Unread>
    ensures { result ≡ reading_of (made open_of (read_kind open_kind line.now)) }
{
    let [coord, inst, ballot] = decimals::<3>(line, b"open", &[b"coord", b"inst", b"ballot"])?;
    Ok(Step::Open {
        coord,
        inst,
        ballot,
    })
}

fn read_propose(line: &[u8]) -> Result<Step, Unread>
    ensures { result ≡ reading_of (made propose_of (read_kind propose_kind line.now)) }
{
    let [coord, inst, ballot] = decimals::<3>(line, b"propose", &[b"coord", b"inst", b"ballot"])?;
    Ok(Step::Propose {
        coord,
        inst,
        ballot,
    })
}

fn read_deliver(line: &[u8]) -> Result<Step, Unread>
    ensures { result ≡ reading_of (made deliver_of (read_kind deliver_kind line.now)) }
{
    let [msg] = decimals::<1>(line, b"deliver", &[b"msg"])?;
    Ok(Step::Deliver { msg })
}

fn read_tell(line: &[u8]) -> Result<Step, Unread>
    ensures { result ≡ reading_of (made tell_of (read_kind tell_kind line.now)) }
{
    let [coord, process, tx] = decimals::<3>(line, b"tell", &[b"coord", b"proc", b"tx"])?;
    Ok(Step::Tell { coord, process, tx })
}

fn read_restore(line: &[u8]) -> Result<Step, Unread>
    ensures { result ≡ reading_of (made restore_of (read_kind restore_kind line.now)) }
{
    let [coord, process] = decimals::<2>(line, b"restore", &[b"coord", b"proc"])?;
    Ok(Step::Restore { coord, process })
}

fn read_follow(line: &[u8]) -> Result<Step, Unread>
    ensures { result ≡ reading_of (made follow_of (read_kind follow_kind line.now)) }
{
    let [coord, process, tx] = decimals::<3>(line, b"follow", &[b"coord", b"proc", b"tx"])?;
    Ok(Step::Follow { coord, process, tx })
}

fn read_back(line: &[u8]) -> Result<Step, Unread>
    ensures { result ≡ reading_of (made back_of (read_kind back_kind line.now)) }
{
    let [process, turn] = decimals::<2>(line, b"back", &[b"proc", b"turn"])?;
    Ok(Step::Back { process, turn })
}

// The field `role`.
fn role(rest: &[u8]) -> Option<(Role, &[u8])>
    ensures { role_read result ≡ read_field role (part 0 rest.now) }
{
    let word = fields::keyed(rest, b"role")?;
    if let Some(behind) = value::after(word, b"acceptor") {
        return Some((Role::Acceptor, behind));
    }
    if let Some(behind) = value::after(word, b"coord") {
        return Some((Role::Coord, behind));
    }
    let behind = value::after(word, b"proc")?;
    Some((Role::Proc, behind))
}

// The party of a crash, its number of any size.
fn crash_party(line: &[u8]) -> Option<(Role, Number)>
    ensures { crash_values result ≡ whole (kind_front crash_kind line.now) }
{
    let rest = fields::named(line, b"crash")?;
    let (role, rest) = role(rest)?;
    let (id, rest) = fields::decimal(rest, b"id")?;
    if rest.is_empty() {
        Some((role, id))
    } else {
        None
    }
}

fn read_crash(line: &[u8]) -> Result<Step, Unread>
    ensures { result ≡ reading_of (made crash_of (read_kind crash_kind line.now)) }
{
    let Some((role, id)) = crash_party(line) else {
        return Err(Unread::Unreadable);
    };
    Ok(Step::Crash {
        role,
        id: byte(id)?,
    })
}

// What was read; or of a line that does not read so, what it reads as otherwise.
fn or_else<F: FnOnce() -> Result<Step, Unread>>(
    read: Result<Step, Unread>,
    otherwise: F,
) -> Result<Step, Unread>
    requires { F.pre otherwise }
    ensures { OrElse read result (F.post otherwise result) }
{
    match read {
        Err(Unread::Unreadable) => otherwise(),
        _ => read,
    }
}

// The step whose text the line is. No line is of two kinds, so the order is free: most lines of a
// trace deliver a message.
pub fn read_step(line: &[u8]) -> Result<Step, Unread>
    ensures { result ≡ reading line.now }
{
    let read = read_deliver(line);
    let read = or_else(read, || read_request(line));
    let read = or_else(read, || read_setup(line));
    let read = or_else(read, || read_open(line));
    let read = or_else(read, || read_propose(line));
    let read = or_else(read, || read_tell(line));
    let read = or_else(read, || read_restore(line));
    let read = or_else(read, || read_follow(line));
    let read = or_else(read, || read_back(line));
    or_else(read, || read_crash(line))
}
