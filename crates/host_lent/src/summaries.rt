// A row in short, so that a vote is decided without looking at the row.
ghost use Rattle.std.specs.Prelude.{false, ◌≡◌, ◌<◌};
ghost use Rattle.log_entry.specs.Limits.{stores};
ghost use Rattle.log_votes.specs.declared.Row.{Row};
ghost use Rattle.log_votes.specs.Refusal.{any_clash};
ghost use Rattle.log_votes.specs.Vote.{vote_kept};
ghost use Rattle.log_votes.specs.Row.{in_group, keeping, vote_of_store};
ghost use Rattle.host_lent.specs.Summary.{IsOf, clashes_with, no_summary, summary_parts};

use crate::Summary;
use log_core::VoteParts;
use log_entry::{Entry, sets};
use log_votes::Tally;

impl Summary {
    // That of the row without votes.
    pub fn none() -> Summary
        ensures { result ≡ no_summary }
    {
        let tally = Tally {
            kept: 0,
            commits: 0,
        };
        Summary {
            tally,
            list: 0,
            group: 0,
        }
    }

    // Whether the vote clashes with the list of a kept commit vote.
    pub fn clashes(self, e: Entry) -> bool
        ensures { result ≡ clashes_with self e }
    {
        if self.tally.commits == 0 {
            return false;
        }
        if e.says_commit() {
            return self.list != e.list();
        }
        !sets::within(e.list(), self.list)
    }

    // What a vote on the row is decided on.
    pub fn parts(self, e: Entry, holder: u8, turn: u8, groups: u8, remembered: u32) -> VoteParts
        ensures { result ≡ summary_parts self e holder turn groups remembered }
    {
        VoteParts {
            tally: self.tally,
            clash: self.clashes(e),
            group: self.group,
            holder,
            turn,
            groups,
            remembered,
        }
    }

    // That of the row with an accepted vote, in its group.
    pub fn keeping(self, e: Entry, group: u8) -> Summary
        ensures { (r : Row) → IsOf self r → e.store < stores → any_clash e r.votes ≡ false → vote_kept (vote_of_store e.store r) ≡ false → IsOf result (in_group (keeping r e) group) }
    {
        let tally = self.tally.keeping(e);
        if e.says_commit() {
            return Summary {
                tally,
                list: e.list(),
                group,
            };
        }
        Summary {
            tally,
            list: self.list,
            group,
        }
    }
}
