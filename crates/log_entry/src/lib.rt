// An entry of the commit log: a request that a process makes.
#![tactic(auto)]

ghost use Rattle.std.specs.Prelude.{◌≡◌};
ghost use Rattle.log_entry.specs.Entry.{ill_formed, no_process, no_turn, outside, same_entry, take_entry, vote_entry, is_take, list_of, says_commit, tx_of};
ghost use Rattle.log_entry.specs.Limits.{stores_with};

use limits::{PROCESSES, SMALL_STORES, STORES, Update, no_list, stores_of, transactions_of};

pub mod limits;
pub mod refusal;
pub mod sets;

// Document 01's say.
#[derive(Clone, Copy, Debug, PartialEq, Eq)]
pub enum Say {
    Abort,
    Commit,
}

// What the process asks for.
#[derive(Clone, Copy, Debug, PartialEq, Eq)]
pub enum Request {
    // To hold the store.
    Take,
    // To keep a vote for the store.
    Vote {
        // The store that the voting process holds.
        by: u8,
        tx: u8,
        // Document 01's list: bit s for store s.
        list: u8,
        say: Say,
        update: Update,
    },
}

// Document 01's entries: `take` (process, store), or `vote` (process, by, store, tx, list, say,
// update). Document 02: "Takes and votes gain `turn=`".
#[derive(Clone, Copy, Debug, PartialEq, Eq)]
pub struct Entry {
    pub process: u8,
    // The turn of the process: in which of its starts it is.
    pub turn: u8,
    pub store: u8,
    pub request: Request,
}

// The two limits that a log may be opened with.
#[derive(Clone, Copy)]
pub enum Limit {
    // Stores 0 to 7 and transactions 0 to 31.
    Full,
    // Stores 0 to 2 and transactions 0 to 7.
    Small,
}

impl Limit {
    // The limit as a number: how many stores the log has.
    pub fn stores(self) -> u8
        ensures { result ≡ stores_with self }
    {
        match self {
            Limit::Full => STORES,
            Limit::Small => SMALL_STORES,
        }
    }
}

// Whether no process has the number.
pub fn no_process(p: u8) -> bool
    ensures { result ≡ no_process p }
{
    (p == 0) | (PROCESSES < p)
}

// Whether no turn has the number. A byte is never above the last turn.
pub fn no_turn(t: u8) -> bool
    ensures { result ≡ no_turn t }
{
    t == 0
}

impl Entry {
    pub fn take_of(process: u8, turn: u8, store: u8) -> Entry
        ensures { result ≡ take_entry process turn store }
    {
        Entry {
            process,
            turn,
            store,
            request: Request::Take,
        }
    }

    pub fn vote_of(
        process: u8,
        turn: u8,
        by: u8,
        store: u8,
        tx: u8,
        list: u8,
        commit: bool,
        update: Update,
    ) -> Entry
        ensures { result ≡ vote_entry process turn by store tx list commit update }
    {
        let say = if commit { Say::Commit } else { Say::Abort };
        Entry {
            process,
            turn,
            store,
            request: Request::Vote {
                by,
                tx,
                list,
                say,
                update,
            },
        }
    }

    // Whether it is a take, and else a vote.
    pub fn is_take(self) -> bool
        ensures { result ≡ is_take self }
    {
        matches!(self.request, Request::Take)
    }

    // The transaction that a vote is on. A take is on none: 0.
    pub fn tx(self) -> u8
        ensures { result ≡ tx_of self }
    {
        match self.request {
            Request::Take => 0,
            Request::Vote { tx, .. } => tx,
        }
    }

    // The list of a vote. A take has none: 0.
    pub fn list(self) -> u8
        ensures { result ≡ list_of self }
    {
        match self.request {
            Request::Take => 0,
            Request::Vote { list, .. } => list,
        }
    }

    // Whether it is a vote that says commit.
    pub fn says_commit(self) -> bool
        ensures { result ≡ says_commit self }
    {
        matches!(
            self.request,
            Request::Vote {
                say: Say::Commit,
                ..
            }
        )
    }

    // Refusal 2, by a log of limit n: a number outside its limits.
    #[tactic(auto, unfolding(crate::specs::Entry::outside))]
    pub fn outside(self, n: u8) -> bool
        ensures { result ≡ outside n self }
    {
        let stores = stores_of(n);
        if no_process(self.process) || no_turn(self.turn) || stores <= self.store {
            return true;
        }
        match self.request {
            Request::Take => false,
            Request::Vote { by, tx, list, .. } => {
                stores <= by || transactions_of(n) <= tx || no_list(n, list)
            }
        }
    }

    // Refusal 7, of a vote. A take names no list, and so its store is not in it.
    #[tactic(auto, unfolding(crate::specs::Entry::ill_formed))]
    pub fn ill_formed(self) -> bool
        ensures { result ≡ ill_formed self }
    {
        let Request::Vote {
            by,
            list,
            say,
            update,
            ..
        } = self.request
        else {
            return true;
        };
        let lacks = !sets::has(list, self.store) || !sets::has(list, by);
        match say {
            Say::Commit => lacks || by != self.store,
            Say::Abort => lacks || update != 0,
        }
    }

    // Whether the two are equal in all values.
    #[tactic(auto, unfolding(crate::specs::Entry::same_entry))]
    pub fn same(self, other: Entry) -> bool
        ensures { result ≡ same_entry self other }
    {
        self == other
    }
}
