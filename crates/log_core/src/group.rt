// The groups of committed transactions.
ghost use Rattle.std.specs.Prelude.{◌≡◌, cond, ◌-◌, eqb, get_or};
ghost use Rattle.log_core.specs.Group.{next_group, running_set};
ghost use Rattle.log_votes.specs.Outcome.{running};

use crate::Log;
use log_entry::limits::{TRANSACTION_PLACES, TRANSACTIONS};
use log_votes::Row;
use log_votes::sets::{Test, set_of};

// What the group remembers, of what all groups remember.
pub fn remembered_in(all: [u32; TRANSACTION_PLACES], g: u8) -> u32
    ensures { result ≡ cond (eqb g 0) 0 (get_or all (g - 1) 0) }
{
    if g == 0 {
        return 0;
    }
    if TRANSACTIONS < g {
        return 0;
    }
    let i = g - 1;
    all[usize::from(i)]
}

// The group of a transaction that commits after `groups` groups: the last one, if it joins that,
// and else a new one.
pub fn next_group(groups: u8, joins: bool) -> u8
    ensures { result ≡ cond joins groups (next_group groups) }
{
    if joins {
        return groups;
    }
    if TRANSACTIONS <= groups {
        return TRANSACTIONS;
    }
    groups + 1
}

// Whether a transaction runs.
#[derive(Clone, Copy)]
struct Runs;

impl Test<Row> for Runs {
    ghost passing = { λ _ row. running row };

    fn passes(&self, row: &Row) -> bool {
        row.running()
    }
}

impl Log {
    // The transactions that run, bit t for transaction t.
    pub fn running_set(self) -> u32
        ensures { result ≡ running_set self.rows }
    {
        set_of(&self.rows, &Runs)
    }
}
