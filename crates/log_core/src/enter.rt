// Entries taken into the log.
ghost use Rattle.log_entry.specs.Entry.{is_take, tx_of};
ghost use Rattle.std.specs.Prelude.{◌≡◌, cond, false, true, ◌<◌, ◌≤◌};
ghost use Rattle.log_entry.specs.Entry.{outside, take_entry, vote_entry};
ghost use Rattle.log_entry.specs.Limits.{transactions};
ghost use Rattle.log_core.specs.Enter.{enter, stored};

use crate::group::remembered_in;
use crate::{Effect, Entered, Log, Parts};
use log_entry::limits::Update;
use log_entry::refusal::{Answer, Refusal};
use log_entry::{Entry, Request};

// The place of the row that an entry is decided on: a vote's transaction, and for a take any.
pub fn row_place(e: Entry) -> usize
    ensures { result ≡ cond (is_take e) 0 (tx_of e) }
{
    usize::from(e.tx())
}

impl Log {
    // The process takes the store, in this turn.
    pub fn take(mut self, process: u8, turn: u8, store: u8) -> Entered
        ensures { result ≡ enter self (take_entry process turn store) }
    {
        let e = Entry::take_of(process, turn, store);
        self.enter(e)
    }

    // The process, which holds `by`, votes for the store on the transaction. It is for a caller
    // with the numbers of a vote; the programs have entries.
    pub fn vote(
        mut self,
        process: u8,
        turn: u8,
        by: u8,
        store: u8,
        tx: u8,
        list: u8,
        commit: bool,
        update: Update,
    ) -> Entered
        ensures { result ≡ enter self (vote_entry process turn by store tx list commit update) }
    {
        let e = Entry::vote_of(process, turn, by, store, tx, list, commit, update);
        self.enter(e)
    }

    // The log with the effect of an accepted entry stored.
    fn stored(mut self, e: Entry, f: Effect) -> Log
        requires e_value { outside self.stores e ≡ false }
        requires group_nonzero { f.begins ≡ true → (0 < f.group) × (f.group ≤ transactions) }
        ensures { result ≡ stored self e f }
    {
        match e.request {
            Request::Take => {
                let store = usize::from(e.store);
                let process = usize::from(e.process);
                self.holders[store] = e.process;
                self.turns[store] = e.turn;
                self.latest[process] = e.turn;
                self.takers[store] |= 1u16 << e.process;
                self
            }
            Request::Vote { tx, .. } => {
                let tx = usize::from(tx);
                let mut row = self.rows[tx].keeping(e);
                row.group = f.group;
                if !f.begins {
                    self.rows[tx] = row;
                    return self;
                }
                let running = self.running_set();
                self.rows[tx] = row;
                self.groups = f.group;
                let i = f.group - 1;
                self.remembered[usize::from(i)] = running;
                self
            }
        }
    }

    // Any entry: decided on its parts, and the effect stored.
    pub fn enter(mut self, e: Entry) -> Entered
        ensures { result ≡ enter self e }
    {
        if e.outside(self.stores) {
            return Entered {
                log: self,
                answer: Err(Refusal::OutsideLimits),
            };
        }
        let store = usize::from(e.store);
        let process = usize::from(e.process);
        let tx = row_place(e);
        let remembered = self.remembered;
        let p = Parts {
            row: self.rows[tx],
            holders: self.holders,
            turns: self.turns,
            takers: self.takers[store],
            latest: self.latest[process],
            groups: self.groups,
            remembered: remembered_in(remembered, self.groups),
            stores: self.stores,
        };
        let f = p.decide(e);
        if f.answer.is_err() {
            return Entered {
                log: self,
                answer: f.answer,
            };
        }
        Entered {
            log: self.stored(e, f),
            answer: Ok(()),
        }
    }

    // The answer to an entry.
    pub fn answer_to(self, e: Entry) -> Answer
        ensures { result ≡ (enter self e).answer }
    {
        if e.outside(self.stores) {
            return Err(Refusal::OutsideLimits);
        }
        let store = usize::from(e.store);
        let process = usize::from(e.process);
        let tx = row_place(e);
        let p = Parts {
            row: self.rows[tx],
            holders: self.holders,
            turns: self.turns,
            takers: self.takers[store],
            latest: self.latest[process],
            groups: 0,
            remembered: 0,
            stores: self.stores,
        };
        p.refusal(e)
    }
}
