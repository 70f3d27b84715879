// Document 01's queue, lent as a row of entries, at most eight.
#![tactic(auto)]

ghost use Rattle.std.specs.Prelude.{◌≡◌};
ghost use Rattle.std.specs.List.{list_any};
ghost use Rattle.log_entry.specs.Entry.{same_entry};
ghost use Rattle.model_protocol.specs.Queue.{is_in};

use log_entry::Entry;

// Whether an entry of a lent row is equal, in std's words.
fn any_equal(entries: &[Entry], e: Entry) -> bool
    ensures { result ≡ list_any (same_entry e) entries.now }
{
    entries.iter().any(|x| e.same(*x))
}

// Whether an equal entry is in a lent row.
#[tactic(auto, using(crate::proofs::RowLaws::is_in_any))]
pub fn is_among(entries: &[Entry], e: Entry) -> bool
    ensures { result ≡ is_in e entries.now }
{
    any_equal(entries, e)
}
