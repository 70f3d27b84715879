// An entry decided on the few parts of the log that it concerns.
ghost use Rattle.std.specs.Prelude.{false, ◌≡◌, length};
ghost use Rattle.log_entry.specs.Entry.{is_take, outside};
ghost use Rattle.log_entry.specs.Limits.{stores};
ghost use Rattle.log_core.specs.declared.Parts.{Parts};
ghost use Rattle.log_core.specs.Decide.{effect_of, refusal, vote_parts_of};

use crate::group::next_group;
use crate::refusal::take_refusal;
use crate::{Effect, Parts, VoteParts};
use log_entry::refusal::{Answer, Refusal};
use log_entry::{Entry, Request, sets};

impl Parts {
    // The answer to the entry.
    pub fn refusal(self, e: Entry) -> Answer
        ensures { result ≡ refusal self e }
    {
        if e.outside(self.stores) {
            return Err(Refusal::OutsideLimits);
        }
        match e.request {
            Request::Take => take_refusal(self.holders, self.takers, self.latest, e),
            Request::Vote { by, .. } => {
                let by = usize::from(by);
                self.row.vote_refusal(self.holders[by], self.turns[by], e)
            }
        }
    }

    // What the entry is answered, and what it changes.
    pub fn decide(self, e: Entry) -> Effect
        ensures { result ≡ effect_of self e }
    {
        let row = self.row;
        let group = row.group;
        if e.outside(self.stores) {
            return Effect {
                answer: Err(Refusal::OutsideLimits),
                group,
                begins: false,
                runs: false,
            };
        }
        match e.request {
            Request::Take => Effect {
                answer: take_refusal(self.holders, self.takers, self.latest, e),
                group,
                begins: false,
                runs: false,
            },
            Request::Vote { by, .. } => {
                let by = usize::from(by);
                let p = VoteParts {
                    tally: row.tally(),
                    clash: row.any_clash(e),
                    group,
                    holder: self.holders[by],
                    turn: self.turns[by],
                    groups: self.groups,
                    remembered: self.remembered,
                };
                p.decide(e)
            }
        }
    }
}

impl VoteParts {
    // What a vote within its limits is answered, and what it changes: on all parts of which these
    // are.
    pub fn decide(self, e: Entry) -> Effect
        ensures { (p : Parts) → self ≡ vote_parts_of p e → length p.row.votes ≡ stores → outside p.stores e ≡ false → is_take e ≡ false → result ≡ effect_of p e }
    {
        let tally = self.tally;
        let group = self.group;
        let answer = tally.refusal(self.clash, self.holder, self.turn, e);
        if answer.is_err() {
            return Effect {
                answer,
                group,
                begins: false,
                runs: false,
            };
        }
        let o = tally.outcome_with(e);
        if !o.is_commit() {
            return Effect {
                answer: Ok(()),
                group,
                begins: false,
                runs: o.is_open(),
            };
        }
        let joins = sets::has(self.remembered, e.tx());
        Effect {
            answer: Ok(()),
            group: next_group(self.groups, joins),
            begins: !joins,
            runs: false,
        }
    }
}
