// The text of steps: document 01's "Step files".
#![tactic(auto)]

pub mod decimals;
pub mod fields;
pub mod value;

ghost use Rattle.std.proofs.Math.Option.{some};
ghost use Rattle.std.specs.Prelude.{◌≡◌};
ghost use Rattle.text_entry.specs.Kinds.{list, say, take_kind, turn, turn_presence, upd, update_form, vote_kind};
ghost use Rattle.text_entry.specs.Parts.{either_parts, entry_of, kind_parts, take_parts, vote_parts};
ghost use Rattle.text_entry.specs.Read.{part, read_field};
ghost use Rattle.text_entry.specs.Seen.{capped, found, said, seen};
ghost use Rattle.text_entry.specs.Entry.{is_outside, reading_of, reading};

use decimals::byte;
use log_entry::limits::FIRST_TURN;
use log_entry::{Entry, Request, Say};
use value::Number;

// Why a line is not read: it is no text of what is asked for, or the text of it with a number
// beyond a byte.
#[derive(Clone, Copy, Debug, PartialEq, Eq)]
pub enum Unread {
    Unreadable,
    Outside,
}

// Whether a line is not read for a number beyond a byte.
pub fn is_outside<T>(reading: &Result<T, Unread>) -> bool
    ensures { result ≡ is_outside reading.now }
{
    matches!(reading, Err(Unread::Outside))
}

// The values of an entry's fields, its numbers of any size.
#[derive(Clone, Copy)]
pub enum EntryParts {
    Take {
        process: Number,
        turn: Number,
        store: Number,
    },
    Vote {
        process: Number,
        turn: Number,
        by: Number,
        store: Number,
        tx: Number,
        list: Number,
        say: Say,
        update: Number,
    },
}

impl EntryParts {
    // The entry of these values.
    pub fn entry(self) -> Result<Entry, Unread>
        ensures { result ≡ reading_of (some (entry_of self)) }
    {
        match self {
            EntryParts::Take {
                process,
                turn,
                store,
            } => Ok(Entry {
                process: byte(process)?,
                turn: byte(turn)?,
                store: byte(store)?,
                request: Request::Take,
            }),
            EntryParts::Vote {
                process,
                turn,
                by,
                store,
                tx,
                list,
                say,
                update,
            } => Ok(Entry {
                process: byte(process)?,
                turn: byte(turn)?,
                store: byte(store)?,
                request: Request::Vote {
                    by: byte(by)?,
                    tx: byte(tx)?,
                    list: byte(list)?,
                    say,
                    update,
                },
            }),
        }
    }
}

// The field `turn`, and the first turn in a line without it.
fn turned(rest: &[u8]) -> Option<(Number, &[u8])>
    ensures { seen result ≡ capped (read_field (turn turn_presence) (part 0 rest.now)) }
{
    fields::decimal_or(rest, b"turn", FIRST_TURN)
}

// The field `list`.
fn listed(rest: &[u8]) -> Option<(Number, &[u8])>
    ensures { seen result ≡ read_field list (part 0 rest.now) }
{
    let digits = fields::keyed(rest, b"list")?;
    value::list_digits(digits)
}

// The field `say`.
fn said(rest: &[u8]) -> Option<(Say, &[u8])>
    ensures { said result ≡ read_field say (part 0 rest.now) }
{
    let word = fields::keyed(rest, b"say")?;
    if let Some(behind) = value::after(word, b"abort") {
        return Some((Say::Abort, behind));
    }
    let behind = value::after(word, b"commit")?;
    Some((Say::Commit, behind))
}

// The field `upd`.
fn updated(rest: &[u8]) -> Option<(Number, &[u8])>
    ensures { seen result ≡ read_field (upd update_form) (part 0 rest.now) }
{
    let digits = fields::keyed(rest, b"upd")?;
    value::update_digits(digits)
}

// The values of a line that begins with a take's name and fields, and what is left behind them.
fn take_parts(line: &[u8]) -> Option<(EntryParts, &[u8])>
    ensures { found result ≡ kind_parts take_parts take_kind line.now }
{
    let rest = fields::named(line, b"take")?;
    let (process, rest) = fields::decimal(rest, b"proc")?;
    let (turn, rest) = turned(rest)?;
    let (store, rest) = fields::decimal(rest, b"store")?;
    let take = EntryParts::Take {
        process,
        turn,
        store,
    };
    Some((take, rest))
}

// The values of a line that begins with a vote's name and fields, and what is left behind them.
fn vote_parts(line: &[u8]) -> Option<(EntryParts, &[u8])>
    ensures { found result ≡ kind_parts vote_parts vote_kind line.now }
{
    let rest = fields::named(line, b"vote")?;
    let (process, rest) = fields::decimal(rest, b"proc")?;
    let (turn, rest) = turned(rest)?;
    let (by, rest) = fields::decimal(rest, b"by")?;
    let (store, rest) = fields::decimal(rest, b"store")?;
    let (tx, rest) = fields::decimal(rest, b"tx")?;
    let (list, rest) = listed(rest)?;
    let (say, rest) = said(rest)?;
    let (update, rest) = updated(rest)?;
    let vote = EntryParts::Vote {
        process,
        turn,
        by,
        store,
        tx,
        list,
        say,
        update,
    };
    Some((vote, rest))
}

// The values of a line that begins with an entry's name and fields, and what is left behind them.
pub fn entry_parts(line: &[u8]) -> Option<(EntryParts, &[u8])>
    ensures { found result ≡ either_parts line.now }
{
    take_parts(line).or_else(|| vote_parts(line))
}

// The entry whose text the line is.
pub fn read_entry(line: &[u8]) -> Result<Entry, Unread>
    ensures { result ≡ reading line.now }
{
    let Some((parts, rest)) = entry_parts(line) else {
        return Err(Unread::Unreadable);
    };
    if !rest.is_empty() {
        return Err(Unread::Unreadable);
    }
    parts.entry()
}
