// The replay of a store.
ghost use Rattle.std.specs.Prelude.{◌≡◌};
ghost use Rattle.log_core.specs.Replay.{no_replay, replay_of};

use crate::{Log, Replay};
use log_entry::limits::TRANSACTIONS;

impl Log {
    // The replay, put into an empty one. Its indices are casts: the proof of what is filled speaks
    // of the numbers themselves.
    fn replay_into(self, store: u8, mut out: Replay) -> Replay
        requires { out ≡ no_replay }
        ensures { result ≡ replay_of self store }
    {
        for before in 0..self.groups {
            let g = before + 1;
            for tx in 0..TRANSACTIONS {
                if self.rows[tx as usize].group != g {
                    continue;
                }
                let row = self.rows[tx as usize];
                if !row.replays(store, g) {
                    continue;
                }
                let update = row.update_of(store);
                let n = out.count;
                let at = n as usize;
                out.groups[at] = g;
                out.txs[at] = tx;
                out.updates[at] = update;
                out.count = n + 1;
            }
        }
        out
    }

    // Without a group there is nothing to replay, and the log need not be looked at.
    pub fn replay(self, store: u8) -> Replay
        ensures { result ≡ replay_of self store }
    {
        let empty = Replay::none();
        if self.groups == 0 {
            return empty;
        }
        self.replay_into(store, empty)
    }
}
