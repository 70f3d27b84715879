// What the log answers. A number outside its limits names nothing: no vote, no group, no holder.
ghost use Rattle.std.specs.Prelude.{◌≡◌};
ghost use Rattle.log_core.specs.Log.{group_of, holder_of, involvement_of, outcome_of, turn_of};

use crate::Log;
use log_entry::limits::{STORES, TRANSACTIONS};
use log_votes::{Involvement, Outcome};

impl Log {
    pub fn outcome(self, tx: u8) -> Outcome
        ensures { result ≡ outcome_of self tx }
    {
        if TRANSACTIONS <= tx {
            return Outcome::Open;
        }
        self.rows[usize::from(tx)].outcome()
    }

    // The transaction's group, 0 if none.
    pub fn group(self, tx: u8) -> u8
        ensures { result ≡ group_of self tx }
    {
        if TRANSACTIONS <= tx {
            return 0;
        }
        self.rows[usize::from(tx)].group
    }

    // The store's holder, 0 if none.
    pub fn holder(self, store: u8) -> u8
        ensures { result ≡ holder_of self store }
    {
        if STORES <= store {
            return 0;
        }
        self.holders[usize::from(store)]
    }

    // The turn of the store's holder, 0 if there is none.
    pub fn turn(self, store: u8) -> u8
        ensures { result ≡ turn_of self store }
    {
        if STORES <= store {
            return 0;
        }
        self.turns[usize::from(store)]
    }

    pub fn involvement(self, tx: u8, store: u8) -> Involvement
        ensures { result ≡ involvement_of self tx store }
    {
        if TRANSACTIONS <= tx {
            return Involvement::Unknown;
        }
        self.rows[usize::from(tx)].involvement(store)
    }
}
