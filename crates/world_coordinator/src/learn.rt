// What a coordinator learns, and the log that it feeds.
ghost use Rattle.std.specs.Prelude.{◌≡◌, ◌+◌, min};
ghost use Rattle.log_core.specs.Enter.{feed};
ghost use Rattle.model_steps.specs.Limits.{instances};
ghost use Rattle.model_protocol.specs.Batch.{entries_of};
ghost use Rattle.model_protocol.specs.Coordinator.{learning};

use crate::queue::left_by;
use log_core::Log;
use model_protocol::{Batch, Coordinator};
use model_steps::limits::INSTANCES;
use world_fresh::{new_round, no_batch};

// The batch is applied in order; a refused entry is skipped.
#[tactic(auto, using(crate::proofs::LearnLaws::turns))]
pub fn fed(mut log: Log, batch: Batch) -> Log
    ensures { result ≡ feed log (entries_of batch) }
{
    for e in batch.as_slice() {
        log = log.enter(*e).log;
    }
    log
}

// One instance more; they end at 15.
fn one_more(applied: u8) -> u8
    ensures { result ≡ min (applied + 1) instances }
{
    applied.saturating_add(1).min(INSTANCES)
}

// The coordinator after a majority accepted its proposal; the batch is for its log.
#[tactic(auto, unfolding(model_protocol::specs::Coordinator::learning))]
pub fn learning(mut c: Coordinator) -> Coordinator
    ensures { result ≡ learning c }
{
    let learned = c.round.proposal.unwrap_or(no_batch());
    c.applied = one_more(c.applied);
    c.queue = left_by(c.queue, learned);
    c.round = new_round(0);
    c
}
