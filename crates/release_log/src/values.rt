// Values written to a query's second buffer.
ghost use Rattle.std.specs.Prelude.{[], ◌∷◌, ◌≡◌, ◌≤◌, take};
ghost use Rattle.log_core.specs.Replay.{rows_in};
ghost use Rattle.log_entry.specs.Limits.{transactions};
ghost use Rattle.release_log.specs.Parts.{place_answer, place_bytes};
ghost use Rattle.release_log.specs.Query.{replay_value, row_bytes};

use log_core::{Replay, Replayed};
use log_entry::limits::UPDATE_BYTES;
use log_entry::refusal::{Answer, Refusal};

// Where the update begins in a row, after its group and its transaction.
const UPDATE_AT: usize = 2;
// The bytes of a row.
const ROW_SIZE: usize = UPDATE_AT + UPDATE_BYTES;

// A value of one byte.
#[tactic(auto, unfolding(crate::specs::Parts::place_answer, crate::specs::Parts::place_bytes))]
pub(crate) fn answer_byte(out: &mut [u8], value: u8) -> Answer
    ensures value { result ≡ place_answer (value ∷ []) out.old }
    ensures out_after { out.new ≡ place_bytes (value ∷ []) out.old }
{
    if out.len() < 1 {
        return Err(Refusal::NoPlace);
    }
    out[0] = value;
    Ok(())
}

fn row_bytes(r: Replayed) -> [u8; ROW_SIZE]
    ensures { result ≡ row_bytes r }
{
    let mut bytes = [0u8; ROW_SIZE];
    bytes[0] = r.group;
    bytes[1] = r.tx;
    host_records::put_low_first(&mut bytes, UPDATE_AT, r.update);
    bytes
}

// A replay: the number of its rows, and the rows.
pub(crate) fn answer_rows(out: &mut [u8], replay: Replay) -> Answer
    requires { replay.count ≤ transactions }
    ensures value { result ≡ place_answer (replay_value (take replay.count (rows_in replay))) out.old }
    ensures out_after { out.new ≡ place_bytes (replay_value (take replay.count (rows_in replay))) out.old }
{
    // The same number at two widths, for the byte that is stored and for places: `as` says it as
    // well.
    let count = replay.count;
    let rows = count as usize;
    if out.len() < 1 + rows * ROW_SIZE {
        return Err(Refusal::NoPlace);
    }
    out[0] = count;
    for i in 0..rows {
        let row = Replayed {
            group: replay.groups[i],
            tx: replay.txs[i],
            update: replay.updates[i],
        };
        let at = 1 + i * ROW_SIZE;
        out[at..at + ROW_SIZE].copy_from_slice(&row_bytes(row));
    }
    Ok(())
}
