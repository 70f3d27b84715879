// The round of the ballot that a coordinator opened last in its current instance.
ghost use Rattle.std.specs.Prelude.{cond, ◌≡◌, ◌<◌, ltb};
ghost use Rattle.log_entry.specs.Bits.{with};
ghost use Rattle.model_paxos.specs.Majority.{majority};
ghost use Rattle.model_protocol.specs.Coordinator.{batch_to_propose, counting, is_current, promise_heard, proposing};
ghost use Rattle.world_coordinator.specs.Limits.{set_places};

use crate::limits::SET_PLACES;
use crate::queue::first_batch;
use model_protocol::{Batch, Coordinator, Round};

// Whether the instance is the current one, and the ballot the one opened last.
pub fn is_current(c: Coordinator, i: u8, b: u8) -> bool
    ensures { result ≡ is_current c i b }
{
    i == c.applied && b == c.round.ballot
}

// More than half of the n acceptors are in the set.
pub fn is_majority(n: u8, set: u8) -> bool
    ensures { result ≡ majority n set }
{
    u8::count_ones(set) > u32::from(n / 2)
}

fn with_acceptor(set: u8, a: u8) -> u8
    requires { a < set_places }
    ensures { result ≡ with set a }
{
    set | (1 << a)
}

// The promise of acceptor a, with its accepted pair, is heard; a number past the set changes
// nothing.
#[tactic(auto, unfolding(model_protocol::specs::Coordinator::promise_heard))]
pub fn promise_heard(mut round: Round, a: u8, accepted: u8, batch: Batch) -> Round
    ensures { result ≡ cond (ltb a set_places) (promise_heard round a accepted batch) round }
{
    if a < SET_PLACES {
        round.promises = with_acceptor(round.promises, a);
        if round.accepted < accepted {
            round.accepted = accepted;
            round.batch = batch;
        }
    }
    round
}

// The accepted batch of highest ballot among the promises; if none, the first queue entries.
#[tactic(auto, unfolding(model_protocol::specs::Coordinator::batch_to_propose))]
pub fn batch_to_propose(c: Coordinator) -> Batch
    ensures { result ≡ batch_to_propose c }
{
    if c.round.accepted == 0 {
        first_batch(c.queue)
    } else {
        c.round.batch
    }
}

pub fn proposing(mut round: Round, batch: Batch) -> Round
    ensures { result ≡ proposing round batch }
{
    round.proposal = Some(batch);
    round
}

// The acceptance of acceptor a is heard; a number past the set changes nothing.
pub fn counting(mut round: Round, a: u8) -> Round
    ensures { result ≡ cond (ltb a set_places) (counting round a) round }
{
    if a < SET_PLACES {
        round.acceptances = with_acceptor(round.acceptances, a);
    }
    round
}
