// The library for hosts in C: each call of `release_log` under its name and with its clauses.
#![tactic(auto)]

ghost use Rattle.std.specs.Prelude.{◌≡◌};
ghost use Rattle.host_records.specs.Numbers.{numbers};
ghost use Rattle.release_log.specs.Add.{add_answer, add_bytes};
ghost use Rattle.release_log.specs.Query.{answer_to, bytes_after, involvement_query, outcome_query, replay_query};

use log_entry::limits::Update;

// A new entry: its record is stored after the lent ones.
#[unsafe(no_mangle)]
pub extern "C" fn release_log_add(
    stores: u32,
    records: &mut [u8],
    count: usize,
    kind: u32,
    process: u32,
    by: u32,
    store: u32,
    tx: u32,
    list: u32,
    say: u32,
    turn: u32,
    update: Update,
) -> u32
    ensures value { result ≡ add_answer stores records.old count (numbers kind process by store tx list say turn update) }
    ensures records_after { records.new ≡ add_bytes stores records.old count (numbers kind process by store tx list say turn update) }
{
    release_log::release_log_add(
        stores, records, count, kind, process, by, store, tx, list, say, turn, update,
    )
}

// The outcome of a transaction.
#[unsafe(no_mangle)]
pub extern "C" fn release_log_outcome(
    stores: u32,
    records: &[u8],
    count: usize,
    tx: u32,
    out: &mut [u8],
) -> u32
    ensures value { result ≡ answer_to (outcome_query stores records.now count tx) out.old }
    ensures out_after { out.new ≡ bytes_after (outcome_query stores records.now count tx) out.old }
{
    release_log::release_log_outcome(stores, records, count, tx, out)
}

// Whether a store is involved in a transaction.
#[unsafe(no_mangle)]
pub extern "C" fn release_log_involvement(
    stores: u32,
    records: &[u8],
    count: usize,
    tx: u32,
    store: u32,
    out: &mut [u8],
) -> u32
    ensures value { result ≡ answer_to (involvement_query stores records.now count tx store) out.old }
    ensures out_after { out.new ≡ bytes_after (involvement_query stores records.now count tx store) out.old }
{
    release_log::release_log_involvement(stores, records, count, tx, store, out)
}

// A store's replay.
#[unsafe(no_mangle)]
pub extern "C" fn release_log_replay(
    stores: u32,
    records: &[u8],
    count: usize,
    store: u32,
    out: &mut [u8],
) -> u32
    ensures value { result ≡ answer_to (replay_query stores records.now count store) out.old }
    ensures out_after { out.new ≡ bytes_after (replay_query stores records.now count store) out.old }
{
    release_log::release_log_replay(stores, records, count, store, out)
}
