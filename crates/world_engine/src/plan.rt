// What a step does to the parts of the world that it touches: in place, in the room that is lent.
ghost use Rattle.std.specs.Prelude.{◌≡◌};
ghost use Rattle.model_protocol.specs.Step.{acceptors_counted};
ghost use Rattle.world_parts.specs.Plan.{plan_of};
ghost use Rattle.world_engine.specs.Changed.{change_in};

use log_entry::refusal::Refusal;
use model_protocol::Change;
use model_steps::{Step, limits};
use world_parts::changes;

// What a step does, its numbers being within their limits.
fn plan(change: &mut Change, s: Step)
    ensures { change.new ≡ plan_of change.old.parts s }
{
    match s {
        Step::Setup { acceptors } => world_requests::setup(change, acceptors),
        Step::Request { entry, to } => world_requests::request(change, entry, to),
        Step::Open {
            coord,
            inst,
            ballot,
        } => world_ballots::open(change, coord, inst, ballot),
        Step::Propose {
            coord,
            inst,
            ballot,
        } => world_ballots::propose(change, coord, inst, ballot),
        Step::Deliver { msg } => world_deliveries::deliver(change, msg),
        Step::Tell { coord, process, tx } => world_requests::tell(change, coord, process, tx),
        Step::Restore { coord, process } => world_requests::restore(change, coord, process),
        Step::Follow { coord, process, tx } => world_requests::follow(change, coord, process, tx),
        Step::Crash { role, id } => world_requests::crash(change, role, id),
        Step::Back { process, turn } => world_requests::back(change, process, turn),
    }
}

// Before setup five acceptors count.
fn counted(acceptors: u8) -> u8
    ensures { result ≡ acceptors_counted acceptors }
{
    if acceptors == 0 {
        return limits::MOST_ACCEPTORS;
    }
    acceptors
}

// The same, whatever its numbers.
#[tactic(auto, unfolding(crate::specs::Changed::change_in, model_protocol::specs::Step::step_refusal, log_entry::specs::Refusal::first_refusal, world_parts::specs::Plan::plan_of))]
pub fn change(s: Step, change: &mut Change)
    ensures { change.new ≡ change_in s change.old.parts }
{
    if limits::outside(counted(change.parts.acceptors), s) {
        changes::without_messages(change, Err(Refusal::OutsideLimits));
        return;
    }
    plan(change, s);
}
