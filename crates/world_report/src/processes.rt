// Processes as they are printed: what each heard, the restore that it took, and the follows since.
ghost use Rattle.std.specs.Prelude.{◌*◌};
ghost use Rattle.log_entry.specs.Limits.{processes};
ghost use Rattle.text_report.specs.Within.{Within, longest_line};
ghost use Rattle.world_report.specs.Longest.{longest_follows, longest_heard, longest_heard_line, longest_restore, longest_running, longest_running_line};
ghost use Rattle.world_report.specs.Processes.{by_process, follow_line, follow_text, follows_text, heard_line, heard_text, listed_text, outcome_text, restore_line, restore_text, restores_text, running_line, running_text};

use log_core::Replay;
use log_entry::limits::{PROCESS_PLACES, PROCESSES, TRANSACTIONS};
use log_entry::sets;
use log_votes::Outcome;
use model_protocol::{Followed, Follows, Process};
use text_ascii::Page;

pub fn heard_line(page: &mut Page, proc: u8, tx: u8, outcome: Outcome)
    ensures { Within longest_heard_line page.old page.new (heard_line proc tx outcome) }
{
    text_report::byte_fields(page, b"proc=", proc, b" tx=", tx);
    text_report::outcome_field(page, b" heard=", outcome);
    text_report::end(page);
}

// The transaction's line, if its outcome was heard.
pub fn put_outcome(page: &mut Page, proc: u8, tx: u8, outcome: Outcome)
    ensures { Within longest_heard_line page.old page.new (outcome_text proc tx outcome) }
{
    if !matches!(outcome, Outcome::Open) {
        heard_line(page, proc, tx, outcome);
    }
}

// What the process heard.
pub fn put_heard(page: &mut Page, proc: u8, p: &Process)
    ensures { Within longest_heard page.old page.new (heard_text proc p.now) }
{
    for tx in 0..TRANSACTIONS {
        put_outcome(page, proc, tx, p.heard[usize::from(tx)].outcome);
    }
}

// What all processes heard.
pub fn put_all_heard(page: &mut Page, ps: &[Process; PROCESS_PLACES])
    ensures { Within (processes * longest_heard) page.old page.new (by_process heard_text ps.now) }
{
    for proc in 1..=PROCESSES {
        put_heard(page, proc, &ps[usize::from(proc)]);
    }
}

pub fn restore_line(page: &mut Page, proc: u8, store: u8, position: u8)
    ensures { Within longest_line page.old page.new (restore_line proc store position) }
{
    text_report::byte_fields(page, b"proc=", proc, b" store=", store);
    text_report::byte_field(page, b" position=", position);
    text_report::end(page);
}

pub fn running_line(page: &mut Page, tx: u8)
    ensures { Within longest_running_line page.old page.new (running_line tx) }
{
    text_report::byte_field(page, b"running=", tx);
    text_report::end(page);
}

// The transaction's line, if the set of those listed as running has it.
pub fn put_listed(page: &mut Page, running: u32, tx: u8)
    ensures { Within longest_running_line page.old page.new (listed_text running tx) }
{
    if sets::has(running, tx) {
        running_line(page, tx);
    }
}

// What the restore listed as running.
pub fn put_running(page: &mut Page, running: u32)
    ensures { Within longest_running page.old page.new (running_text running) }
{
    for tx in 0..TRANSACTIONS {
        put_listed(page, running, tx);
    }
}

pub fn follow_line(page: &mut Page, tx: u8, f: Followed)
    ensures { Within longest_line page.old page.new (follow_line tx f) }
{
    text_report::byte_field(page, b"follow=", tx);
    text_report::outcome_field(page, b" outcome=", f.outcome);
    text_report::update_field(page, b" upd=", f.update);
    text_report::end(page);
}

// The transaction's line, if the set of those followed has it.
pub fn put_follow(page: &mut Page, followed: u32, tx: u8, f: Followed)
    ensures { Within longest_line page.old page.new (follow_text followed tx f) }
{
    if sets::has(followed, tx) {
        follow_line(page, tx, f);
    }
}

// The follows that were taken since the restore.
pub fn put_follows(page: &mut Page, followed: u32, follows: &Follows)
    ensures { Within longest_follows page.old page.new (follows_text followed follows.now) }
{
    for tx in 0..TRANSACTIONS {
        put_follow(page, followed, tx, follows.of[usize::from(tx)]);
    }
}

// The restore that the process took, if it took one, and the follows since.
pub fn put_restore(page: &mut Page, proc: u8, p: &Process, replay: &Replay, follows: &Follows)
    ensures { Within longest_restore page.old page.new (restore_text proc p.now replay.now follows.now) }
{
    if p.position == 0 {
        return;
    }
    restore_line(page, proc, p.store, p.position);
    text_report::put_replay(page, p.store, replay);
    put_running(page, p.running);
    put_follows(page, p.followed, follows);
}

// The restores of all processes, and the follows since.
pub fn put_restores(
    page: &mut Page,
    ps: &[Process; PROCESS_PLACES],
    replays: &[Replay; PROCESS_PLACES],
    follows: &[Follows; PROCESS_PLACES],
)
    ensures { Within (processes * longest_restore) page.old page.new (restores_text ps.now replays.now follows.now) }
{
    for proc in 1..=PROCESSES {
        let i = usize::from(proc);
        put_restore(page, proc, &ps[i], &replays[i], &follows[i]);
    }
}
