// What the next holder of a store needs of the votes that earlier holders cast.
ghost use Rattle.std.specs.Prelude.{◌≡◌};
ghost use Rattle.log_core.specs.Follow.{awaited_of, awaits};
ghost use Rattle.log_core.specs.Log.{vote_at};

use crate::Log;
use log_entry::limits::TRANSACTIONS;
use log_votes::sets::{Test, set_of};
use log_votes::{Row, Vote};

// Whether the transaction runs with a kept commit vote of the store.
fn awaits(row: Row, store: u8) -> bool
    ensures { result ≡ awaits store row }
{
    row.running() & row.vote_of(store).is_commit()
}

// That test, at one store.
#[derive(Clone, Copy)]
struct AwaitedAt {
    store: u8,
}

impl Test<Row> for AwaitedAt {
    ghost passing = { λ it row. awaits it.store row };

    fn passes(&self, row: &Row) -> bool {
        awaits(*row, self.store)
    }
}

impl Log {
    // The running transactions with a kept commit vote of the store, bit t for transaction t.
    #[tactic(auto, unfolding(crate::specs::Follow::awaited_of))]
    pub fn awaited(self, store: u8) -> u32
        ensures { result ≡ awaited_of self store }
    {
        set_of(&self.rows, &AwaitedAt { store })
    }

    // The store's vote on the transaction.
    pub fn vote_on(self, tx: u8, store: u8) -> Vote
        ensures { result ≡ vote_at self tx store }
    {
        if TRANSACTIONS <= tx {
            return Vote::Absent;
        }
        self.rows[usize::from(tx)].vote_of(store)
    }
}
