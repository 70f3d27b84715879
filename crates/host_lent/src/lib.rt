// The log after the records that a host lends. Document 01, "Hosts in C".
#![tactic(auto)]

ghost use Rattle.std.specs.Prelude.{cond, ◌≡◌, ◌+◌, ◌-◌, ◌<◌, ◌^◌, ◌≤◌};
ghost use Rattle.log_entry.specs.Bits.{has};
ghost use Rattle.log_entry.specs.Limits.{transactions};
ghost use Rattle.log_votes.specs.Row.{empty_row};
ghost use Rattle.log_core.specs.Log.{opened};
ghost use Rattle.host_lent.specs.Lent.{lent_log, log_after, no_limit};

use host_records::RECORD_SIZE;
use log_core::refusal::take_refusal;
use log_core::{Entered, Log};
use log_entry::limits::{PROCESS_PLACES, SMALL_STORES, STORE_PLACES, STORES, TRANSACTION_PLACES};
use log_entry::refusal::Refusal;
use log_entry::{Limit, Request, sets};
use log_votes::{Row, Tally};

mod summaries;

// A row in short: its tally, the list of its kept commit votes if there are any, and its group.
#[derive(Clone, Copy)]
pub struct Summary {
    pub tally: Tally,
    pub list: u8,
    pub group: u8,
}

// The set of running transactions, with this one in it if it runs, and else without.
fn noted(running: u32, tx: u8, runs: bool) -> u32
    requires tx_lt_transactions { tx < transactions }
    requires tx_bound { cond (has running tx) (2 ^ tx) 0 ≤ running }
    requires tx_bound_2 { running - cond (has running tx) (2 ^ tx) 0 + cond runs (2 ^ tx) 0 < 2 ^ 32 }
    ensures { result ≡ running - cond (has running tx) (2 ^ tx) 0 + cond runs (2 ^ tx) 0 }
{
    let bit = 1u32 << tx;
    if sets::has(running, tx) {
        if runs {
            return running;
        }
        return running - bit;
    }
    if runs {
        return running + bit;
    }
    running
}

// The log after records that are within the buffer, and the answer. The log is kept in its parts,
// and each effect is stored in place, so that no record copies the log. What a record is decided on
// is kept beside it: the rows in short, what the last group remembers, and `running`, the set of
// the running transactions. The row without votes is a parameter, so that the compiler copies it as
// one piece.
fn entered(none: Row, stores: u8, records: &[[u8; RECORD_SIZE]]) -> Entered
    requires { none ≡ empty_row }
    ensures { result ≡ log_after (opened stores) records.now }
{
    let mut rows = [none; TRANSACTION_PLACES];
    let mut holders: [u8; STORE_PLACES] = [0; STORE_PLACES];
    let mut turns: [u8; STORE_PLACES] = [0; STORE_PLACES];
    let mut takers: [u16; STORE_PLACES] = [0; STORE_PLACES];
    let mut latest: [u8; PROCESS_PLACES] = [0; PROCESS_PLACES];
    let mut groups: u8 = 0;
    let mut remembered: [u32; TRANSACTION_PLACES] = [0; TRANSACTION_PLACES];
    let summary = Summary::none();
    let mut summaries = [summary; TRANSACTION_PLACES];
    let mut last: u32 = 0;
    let mut running: u32 = 0;
    let mut answer = Ok(());
    for record in records {
        let read = host_records::read(stores, record);
        let Ok(e) = read else {
            answer = read.map(|_| ());
            break;
        };
        // Indices are widened by `as`: with `From` the proof that they are inside does not close.
        let store = e.store as usize;
        let Request::Vote { by, tx, .. } = e.request else {
            let process = e.process as usize;
            let refused = take_refusal(holders, takers[store], latest[process], e);
            if refused.is_err() {
                answer = refused;
                break;
            }
            holders[store] = e.process;
            turns[store] = e.turn;
            takers[store] = takers[store] | (1u16 << e.process);
            latest[process] = e.turn;
            continue;
        };
        let place = tx as usize;
        let old = summaries[place];
        let holding = by as usize;
        let f = old
            .parts(e, holders[holding], turns[holding], groups, last)
            .decide(e);
        if f.answer.is_err() {
            answer = f.answer;
            break;
        }
        summaries[place] = old.keeping(e, f.group);
        // A row made anew: a changed one would be copied with the bytes that fill it up, and that
        // takes a third longer.
        let kept = rows[place].keeping(e);
        let votes = kept.votes;
        rows[place] = Row {
            votes,
            group: f.group,
        };
        let after = noted(running, tx, f.runs);
        if f.begins {
            groups = f.group;
            last = running;
            let i = f.group - 1;
            remembered[i as usize] = running;
        }
        running = after;
    }
    let log = Log {
        rows,
        holders,
        turns,
        takers,
        latest,
        groups,
        remembered,
        stores,
    };
    Entered { log, answer }
}

// Whether no log is opened with so many stores.
fn no_limit(stores: u32) -> bool
    ensures { result ≡ no_limit stores }
{
    stores != u32::from(STORES) && stores != u32::from(SMALL_STORES)
}

// The log of so many stores after the lent records, and the answer: the first refusal found, or
// that all were accepted.
pub fn lent_log(stores: u32, lent: &[u8], count: usize) -> Entered
    ensures { result ≡ lent_log stores lent.now count }
{
    let (records, _) = lent.as_chunks::<RECORD_SIZE>();
    if no_limit(stores) || records.len() < count {
        return Entered {
            log: Log::empty(Limit::Full),
            answer: Err(Refusal::OutsideLimits),
        };
    }
    entered(Row::none(), stores as u8, &records[..count])
}
