// The calls of hosts: the log after the records that a host lends (docs/SCOPE.md, "Hosts in C"). C
// calls them by `release_log_c`.
#![tactic(auto)]

ghost use Rattle.std.specs.Prelude.{◌≡◌, ◌*◌, ◌≤◌, length};
ghost use Rattle.host_records.specs.Numbers.{numbers};
ghost use Rattle.host_records.specs.Record.{record_size};
ghost use Rattle.release_log.specs.Add.{add_answer, add_bytes, added_answer};
ghost use Rattle.release_log.specs.Parts.{entry_answer, entry_bytes};
ghost use Rattle.release_log.specs.Query.{answer_to, bytes_after, involvement_query, outcome_query, query_answer, replay_query};

use host_lent::lent_log;
use host_records::{Numbers, RECORD_SIZE};
use log_core::Log;
use log_entry::Entry;
use log_entry::limits::{Update, no_store, no_transaction};
use log_entry::refusal::{Answer, Refusal, number};

mod values;

// The new entry after the records, whose log is `log`.
fn add_entry(records: &mut [u8], count: usize, log: Log, e: Entry) -> Answer
    requires { count * record_size ≤ length records.old }
    ensures value { result ≡ entry_answer records.old count log e }
    ensures records_after { records.new ≡ entry_bytes records.old count log e }
{
    log.answer_to(e)?;
    let at = count * RECORD_SIZE;
    if records.len() - at < RECORD_SIZE {
        return Err(Refusal::NoPlace);
    }
    let record = host_records::record_of(e);
    records[at..at + RECORD_SIZE].copy_from_slice(&record);
    Ok(())
}

// In these calls numbers are narrowed by `as` behind the test of their limit, and an index of 32
// bits is widened by it, since `usize` has no `From` of one.

// The entry that the numbers stand for, after the lent records.
fn add(stores: u32, records: &mut [u8], count: usize, numbers: Numbers) -> Answer
    ensures value { result ≡ added_answer stores records.old count numbers }
    ensures records_after { records.new ≡ add_bytes stores records.old count numbers }
{
    let lent = lent_log(stores, records, count);
    lent.answer?;
    let e = numbers.read(stores as u8)?;
    add_entry(records, count, lent.log, e)
}

// A new entry: its record is stored after the lent ones.
pub fn release_log_add(
    stores: u32,
    records: &mut [u8],
    count: usize,
    kind: u32,
    process: u32,
    by: u32,
    store: u32,
    tx: u32,
    list: u32,
    say: u32,
    turn: u32,
    update: Update,
) -> u32
    ensures value { result ≡ add_answer stores records.old count (numbers kind process by store tx list say turn update) }
    ensures records_after { records.new ≡ add_bytes stores records.old count (numbers kind process by store tx list say turn update) }
{
    let numbers = Numbers {
        kind,
        process,
        by,
        store,
        tx,
        list,
        say,
        turn,
        update,
    };
    u32::from(number(add(stores, records, count, numbers)))
}

// The answer to a query for an outcome.
fn outcome(stores: u32, records: &[u8], count: usize, tx: u32, out: &mut [u8]) -> Answer
    ensures value { result ≡ query_answer (outcome_query stores records.now count tx) out.old }
    ensures out_after { out.new ≡ bytes_after (outcome_query stores records.now count tx) out.old }
{
    let lent = lent_log(stores, records, count);
    lent.answer?;
    if no_transaction(stores as u8, tx) {
        return Err(Refusal::OutsideLimits);
    }
    let row = lent.log.rows[tx as usize];
    values::answer_byte(out, row.outcome().number())
}

// The outcome of a transaction.
pub fn release_log_outcome(
    stores: u32,
    records: &[u8],
    count: usize,
    tx: u32,
    out: &mut [u8],
) -> u32
    ensures value { result ≡ answer_to (outcome_query stores records.now count tx) out.old }
    ensures out_after { out.new ≡ bytes_after (outcome_query stores records.now count tx) out.old }
{
    u32::from(number(outcome(stores, records, count, tx, out)))
}

// The answer to a query for an involvement.
fn involvement(
    stores: u32,
    records: &[u8],
    count: usize,
    tx: u32,
    store: u32,
    out: &mut [u8],
) -> Answer
    ensures value { result ≡ query_answer (involvement_query stores records.now count tx store) out.old }
    ensures out_after { out.new ≡ bytes_after (involvement_query stores records.now count tx store) out.old }
{
    let lent = lent_log(stores, records, count);
    lent.answer?;
    let limit = stores as u8;
    if no_transaction(limit, tx) || no_store(limit, store) {
        return Err(Refusal::OutsideLimits);
    }
    let row = lent.log.rows[tx as usize];
    values::answer_byte(out, row.involvement(store as u8).number())
}

// Whether a store is involved in a transaction.
pub fn release_log_involvement(
    stores: u32,
    records: &[u8],
    count: usize,
    tx: u32,
    store: u32,
    out: &mut [u8],
) -> u32
    ensures value { result ≡ answer_to (involvement_query stores records.now count tx store) out.old }
    ensures out_after { out.new ≡ bytes_after (involvement_query stores records.now count tx store) out.old }
{
    u32::from(number(involvement(stores, records, count, tx, store, out)))
}

// The answer to a query for a replay.
fn replay(stores: u32, records: &[u8], count: usize, store: u32, out: &mut [u8]) -> Answer
    ensures value { result ≡ query_answer (replay_query stores records.now count store) out.old }
    ensures out_after { out.new ≡ bytes_after (replay_query stores records.now count store) out.old }
{
    let lent = lent_log(stores, records, count);
    lent.answer?;
    if no_store(stores as u8, store) {
        return Err(Refusal::OutsideLimits);
    }
    values::answer_rows(out, lent.log.replay(store as u8))
}

// A store's replay.
pub fn release_log_replay(
    stores: u32,
    records: &[u8],
    count: usize,
    store: u32,
    out: &mut [u8],
) -> u32
    ensures value { result ≡ answer_to (replay_query stores records.now count store) out.old }
    ensures out_after { out.new ≡ bytes_after (replay_query stores records.now count store) out.old }
{
    u32::from(number(replay(stores, records, count, store, out)))
}
