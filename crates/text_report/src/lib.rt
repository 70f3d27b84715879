// What is printed of a log and of answers, line by line on a page.
#![tactic(auto)]

ghost use Rattle.std.specs.Prelude.{◌*◌, ◌+◌, ◌++◌, length};
ghost use Rattle.log_entry.specs.Limits.{stores, transactions};
ghost use Rattle.text_ascii.specs.Hex.{update_digits};
ghost use Rattle.text_ascii.specs.Page.{Puts};
ghost use Rattle.log_core.specs.Replay.{replay_rows};
ghost use Rattle.text_lines.specs.Answers.{answers_of};
ghost use Rattle.text_report.specs.Report.{answers_text, each, end as end_bytes, field, held_text, holder_line, holder_text, log_text, outcome_field, outcome_word, replay_line, replay_text, row_text, rows_of, step_line, tx_line, tx_text, update_field};
ghost use Rattle.text_report.specs.Within.{Within, longest_answer, longest_answers, longest_field, longest_line, longest_log, longest_replay, outcome_bytes};

use log_core::{Log, Replay};
use log_entry::limits::{STORE_PLACES, STORES, TRANSACTION_PLACES, TRANSACTIONS, Update};
use log_votes::{Outcome, Row};
use text_ascii::{Page, UPDATE_DIGITS};
use text_lines::{ANSWERED_LINES, Answers};

// No printed line is longer than a replay's: three fields of a byte, an update and the LF. `From`
// is not for constants, so they widen by `as`.
pub const LINE_BYTES: usize = 32 + UPDATE_DIGITS as usize;

// No answer's line is longer: its number has at most five digits, and its answer is a byte.
pub const ANSWER_BYTES: usize = 22;

// No log has more lines.
pub const LOG_LINES: usize = TRANSACTION_PLACES + STORE_PLACES + STORE_PLACES * TRANSACTION_PLACES;

// A key and its decimal.
pub fn field(page: &mut Page, key: &[u8], n: u32)
    ensures { Puts page.old page.new (field key.now n) }
{
    page.word(key);
    page.decimal(n);
}

// A key and the decimal of a byte.
pub fn byte_field(page: &mut Page, key: &[u8], n: u8)
    ensures { Within (longest_field key.now) page.old page.new (field key.now n) }
{
    field(page, key, u32::from(n));
}

// Two keys, each with the decimal of a byte.
pub fn byte_fields(page: &mut Page, key: &[u8], n: u8, next: &[u8], m: u8)
    ensures { Within (longest_field key.now + longest_field next.now) page.old page.new (field key.now n ++ field next.now m) }
{
    byte_field(page, key, n);
    byte_field(page, next, m);
}

pub fn outcome_word(page: &mut Page, outcome: Outcome)
    ensures { Within outcome_bytes page.old page.new (outcome_word outcome) }
{
    match outcome {
        Outcome::Open => page.word(b"open"),
        Outcome::Commit => page.word(b"commit"),
        Outcome::Abort => page.word(b"abort"),
    }
}

// A key and an outcome.
pub fn outcome_field(page: &mut Page, key: &[u8], outcome: Outcome)
    ensures { Within (length key.now + outcome_bytes) page.old page.new (outcome_field key.now outcome) }
{
    page.word(key);
    outcome_word(page, outcome);
}

// A key and an update.
pub fn update_field(page: &mut Page, key: &[u8], update: Update)
    ensures { Within (length key.now + update_digits) page.old page.new (update_field key.now update) }
{
    page.word(key);
    page.hex(UPDATE_DIGITS, update);
}

// The end of a line.
pub fn end(page: &mut Page)
    ensures { Within (length end_bytes) page.old page.new end_bytes }
{
    page.word(b"\n");
}

pub fn step_line(page: &mut Page, number: u16, answer: u8)
    ensures { Within longest_answer page.old page.new (step_line number answer) }
{
    field(page, b"step=", u32::from(number));
    byte_field(page, b" answer=", answer);
    end(page);
}

pub fn tx_line(page: &mut Page, tx: u8, outcome: Outcome, group: u8)
    ensures { Within longest_line page.old page.new (tx_line tx outcome group) }
{
    byte_field(page, b"tx=", tx);
    outcome_field(page, b" outcome=", outcome);
    byte_field(page, b" group=", group);
    end(page);
}

pub fn holder_line(page: &mut Page, store: u8, holder: u8)
    ensures { Within longest_line page.old page.new (holder_line store holder) }
{
    byte_fields(page, b"store=", store, b" holder=", holder);
    end(page);
}

pub fn replay_line(page: &mut Page, store: u8, group: u8, tx: u8, update: Update)
    ensures { Within longest_line page.old page.new (replay_line store (record { group = group; tx = tx; update = update })) }
{
    byte_fields(page, b"store=", store, b" group=", group);
    byte_field(page, b" tx=", tx);
    update_field(page, b" upd=", update);
    end(page);
}

// The line of a transaction with this row, if a vote is kept.
fn tx(page: &mut Page, row: &Row, tx: u8)
    ensures { Within longest_line page.old page.new (row_text row.now tx) }
{
    if row.any_kept() {
        tx_line(page, tx, row.outcome(), row.group);
    }
}

// The line of a store with this holder, if it is held.
fn holder(page: &mut Page, holder: u8, store: u8)
    ensures { Within longest_line page.old page.new (held_text holder store) }
{
    if holder != 0 {
        holder_line(page, store, holder);
    }
}

// A replay of the store.
pub fn put_replay(page: &mut Page, store: u8, replay: &Replay)
    ensures { Within longest_replay page.old page.new (replay_text store (rows_of replay.now)) }
{
    for i in 0..usize::from(replay.count.min(TRANSACTIONS)) {
        replay_line(
            page,
            store,
            replay.groups[i],
            replay.txs[i],
            replay.updates[i],
        );
    }
}

// The store's replay in the log.
pub fn replay(page: &mut Page, log: Log, store: u8)
    ensures { Within longest_replay page.old page.new (replay_text store (replay_rows log store)) }
{
    let replay = log.replay(store);
    put_replay(page, store, &replay);
}

fn outcomes(page: &mut Page, log: &Log)
    ensures { Within (transactions * longest_line) page.old page.new (each (tx_text log.now) transactions) }
{
    for i in 0..TRANSACTIONS {
        tx(page, &log.rows[usize::from(i)], i);
    }
}

fn holders(page: &mut Page, log: &Log)
    ensures { Within (stores * longest_line) page.old page.new (each (holder_text log.now) stores) }
{
    for i in 0..STORES {
        holder(page, log.holders[usize::from(i)], i);
    }
}

fn replays(page: &mut Page, log: &Log)
    ensures { Within (stores * longest_replay) page.old page.new (each (λ s. replay_text s (replay_rows log.now s)) stores) }
{
    for i in 0..STORES {
        replay(page, *log, i);
    }
}

// A log as it is printed.
pub fn put_log(page: &mut Page, log: &Log)
    ensures { Within longest_log page.old page.new (log_text log.now) }
{
    outcomes(page, log);
    holders(page, log);
    replays(page, log);
}

// The answers, each with its line's number.
pub fn put_answers(page: &mut Page, answers: &Answers)
    ensures { Within longest_answers page.old page.new (answers_text (answers_of answers.now)) }
{
    for i in 0..answers.count.min(ANSWERED_LINES) {
        step_line(page, i + 1, answers.answers[usize::from(i)]);
    }
}
