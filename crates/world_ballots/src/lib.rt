// The steps of a ballot: open and propose.
#![tactic(auto)]

ghost use Rattle.std.specs.Prelude.{false, ◌||◌, ◌≡◌, eqb};
ghost use Rattle.model_steps.specs.declared.Role.TheVariants.{Coord};
ghost use Rattle.model_steps.specs.declared.Step.TheVariants.{Open, Propose};
ghost use Rattle.model_protocol.specs.Step.{cannot_open, cannot_propose};
ghost use Rattle.model_protocol.specs.Send.{lacks_numbers};
ghost use Rattle.model_protocol.specs.World.{is_down};
ghost use Rattle.world_parts.specs.Refusal.{first_of, tests};
ghost use Rattle.world_parts.specs.Plan.{plan_of};

use log_entry::refusal::Answer;
use model_owners::owner;
use model_protocol::{Change, Message, Parts};
use model_steps::Role;
use world_coordinator::round;
use world_fresh::new_round;
use world_messages::{parties, send};
use world_parts::refusal::Tests;
use world_parts::{changes, refusal};

// Whether the coordinator, of number coord, may not open the ballot.
fn ballot_barred(p: &Parts, coord: u8, inst: u8, ballot: u8) -> bool
    ensures { result ≡ (eqb p.now.acceptors 0 || cannot_open p.now.coordinator coord inst ballot) }
{
    let c = &p.coordinator;
    p.acceptors == 0 || inst != c.applied || owner(ballot) != coord || ballot <= c.round.ballot
}

// The answer to coordinator coord where it is to send to each acceptor. `barred`: 5 applies.
// It has a namesake in world_requests: the conditions of those steps are others.
fn refusal_to(p: &Parts, coord: u8, barred: bool) -> Answer
    ensures { result ≡ first_of (tests false (is_down p.now.down Coord coord) barred (lacks_numbers p.now.sent p.now.acceptors) false) }
{
    refusal::first_of(Tests {
        unsent: false,
        down: parties::is_down(p.down, Role::Coord, coord),
        unmet: barred,
        full: send::lacks_numbers(p.sent, p.acceptors),
        ill: false,
    })
}

#[tactic(auto, unfolding(world_parts::specs::Plan::plan_of, model_protocol::specs::Step::step_checks, model_protocol::specs::Step::change_of, log_entry::specs::Refusal::first_refusal))]
pub fn open(change: &mut Change, coord: u8, inst: u8, ballot: u8)
    ensures { change.new ≡ plan_of change.old.parts (Open coord inst ballot) }
{
    let barred = ballot_barred(&change.parts, coord, inst, ballot);
    let answer = refusal_to(&change.parts, coord, barred);
    if answer.is_err() {
        changes::without_messages(change, answer);
        return;
    }
    let prepare = Message::Prepare {
        inst,
        ballot,
        acceptor: 0,
    };
    let all = change.parts.acceptors;
    changes::sending(change, all, prepare);
    change.parts.coordinator.round = new_round(ballot);
}

// Whether the coordinator may not propose.
fn proposal_barred(p: &Parts, inst: u8, ballot: u8) -> bool
    ensures { result ≡ (eqb p.now.acceptors 0 || cannot_propose p.now.acceptors p.now.coordinator inst ballot) }
{
    let c = &p.coordinator;
    p.acceptors == 0
        || inst != c.applied
        || ballot != c.round.ballot
        || !round::is_majority(p.acceptors, c.round.promises)
        || c.round.proposal.is_some()
        || (c.round.accepted == 0 && c.queue.count == 0)
}

#[tactic(auto, unfolding(world_parts::specs::Plan::plan_of, model_protocol::specs::Step::step_checks, model_protocol::specs::Step::change_of, log_entry::specs::Refusal::first_refusal))]
pub fn propose(change: &mut Change, coord: u8, inst: u8, ballot: u8)
    ensures { change.new ≡ plan_of change.old.parts (Propose coord inst ballot) }
{
    let barred = proposal_barred(&change.parts, inst, ballot);
    let answer = refusal_to(&change.parts, coord, barred);
    if answer.is_err() {
        changes::without_messages(change, answer);
        return;
    }
    let batch = round::batch_to_propose(change.parts.coordinator);
    let accept = Message::Accept {
        inst,
        ballot,
        acceptor: 0,
        batch,
    };
    let all = change.parts.acceptors;
    changes::sending(change, all, accept);
    change.parts.coordinator.round = round::proposing(change.parts.coordinator.round, batch);
}
