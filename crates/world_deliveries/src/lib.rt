// The step deliver: what a message of each kind does to its receiver.
#![tactic(auto)]

ghost use Rattle.std.specs.Prelude.{cond, ◌&&◌, not, true, ◌≡◌, ◌<◌};
ghost use Rattle.log_entry.specs.Limits.{transactions};
ghost use Rattle.model_steps.specs.declared.Step.TheVariants.{Deliver};
ghost use Rattle.model_paxos.specs.Majority.{majority};
ghost use Rattle.model_protocol.specs.Acceptor.{accepting, accepts, promises, promising};
ghost use Rattle.model_protocol.specs.Change.{coordinator_now, done, keeps_follow, learns, process_now, sending, slot_now, takes_replay};
ghost use Rattle.model_protocol.specs.Coordinator.{counting, is_heard, learning, promise_heard, proposal_of, with_queue, with_round};
ghost use Rattle.model_protocol.specs.Deliver.{delivery_change, no_place_for};
ghost use Rattle.model_protocol.specs.Message.{accepted_from, promise_from, said_kind};
ghost use Rattle.model_protocol.specs.Process.{following, hearing_outcome, takes_follow, takes_restore, taking};
ghost use Rattle.model_protocol.specs.Queue.{is_full, is_in, joining, queued};
ghost use Rattle.model_protocol.specs.Send.{lacks_numbers};
ghost use Rattle.world_parts.specs.Plan.{plan_of};

use log_entry::Entry;
use log_votes::Outcome;
use model_protocol::{Batch, Change, Coordinator, Message, Parts, Process, Queue};
use model_steps::limits::MOST_ACCEPTORS;
use world_coordinator::{learn, queue, round};
use world_fresh::no_batch;
use world_messages::{parties, send};
use world_parts::refusal::Tests;
use world_parts::{changes, refusal};

// Whether the queue is full for the entry.
fn is_full_for(q: Queue, e: Entry) -> bool
    ensures { result ≡ (is_full q && not (is_in e (queued q))) }
{
    queue::is_full(q) && !queue::is_queued(q, e)
}

// Whether an acceptor that answers lacks a number for it.
fn lacks_answer(answers: bool, sent: u8) -> bool
    ensures { result ≡ (answers && lacks_numbers sent 1) }
{
    answers && send::lacks_numbers(sent, 1)
}

fn no_room(p: &Parts) -> bool
    ensures { result ≡ no_place_for p.now (said_kind p.now.message) }
{
    match p.message {
        Message::Request { entry, .. } => is_full_for(p.coordinator.queue, entry),
        Message::Prepare { ballot, .. } => {
            lacks_answer(world_acceptor::promises(p.slot, ballot), p.sent)
        }
        Message::Accept { ballot, .. } => {
            lacks_answer(world_acceptor::accepts(p.slot, ballot), p.sent)
        }
        _ => false,
    }
}

fn request(change: &mut Change, entry: Entry)
    ensures { change.new ≡ done (coordinator_now change.old.parts (with_queue change.old.parts.coordinator (joining change.old.parts.coordinator.queue entry))) }
{
    changes::without_messages(change, Ok(()));
    change.parts.coordinator.queue = queue::join(change.parts.coordinator.queue, entry);
}

fn prepare(change: &mut Change, inst: u8, ballot: u8, acceptor: u8)
    ensures { change.new ≡ cond (promises change.old.parts.slot ballot) (sending (slot_now change.old.parts (promising change.old.parts.slot ballot)) 1 (promise_from inst ballot acceptor change.old.parts.slot.ballot change.old.parts.slot.batch)) (done change.old.parts) }
{
    if !world_acceptor::promises(change.parts.slot, ballot) {
        changes::without_messages(change, Ok(()));
        return;
    }
    let promise = Message::Promise {
        inst,
        ballot,
        acceptor,
        accepted: change.parts.slot.ballot,
        batch: change.parts.slot.batch,
    };
    changes::sending(change, 1, promise);
    change.parts.slot = world_acceptor::promising(change.parts.slot, ballot);
}

fn accept(change: &mut Change, inst: u8, ballot: u8, acceptor: u8, batch: Batch)
    ensures { change.new ≡ cond (accepts change.old.parts.slot ballot) (sending (slot_now change.old.parts (accepting ballot batch)) 1 (accepted_from inst ballot acceptor)) (done change.old.parts) }
{
    if !world_acceptor::accepts(change.parts.slot, ballot) {
        changes::without_messages(change, Ok(()));
        return;
    }
    let accepted = Message::Accepted {
        inst,
        ballot,
        acceptor,
    };
    changes::sending(change, 1, accepted);
    change.parts.slot = world_acceptor::accepting(ballot, batch);
}

// Whether a promise or an acceptance is one that the coordinator counts.
fn is_heard(c: &Coordinator, inst: u8, ballot: u8, acceptor: u8) -> bool
    ensures { result ≡ is_heard c.now inst ballot acceptor }
{
    round::is_current(*c, inst, ballot) && acceptor < MOST_ACCEPTORS
}

fn promise(change: &mut Change, inst: u8, ballot: u8, acceptor: u8, accepted: u8, batch: Batch)
    ensures { change.new ≡ cond (is_heard change.old.parts.coordinator inst ballot acceptor) (done (coordinator_now change.old.parts (with_round change.old.parts.coordinator (promise_heard change.old.parts.coordinator.round acceptor accepted batch)))) (done change.old.parts) }
{
    if !is_heard(&change.parts.coordinator, inst, ballot, acceptor) {
        changes::without_messages(change, Ok(()));
        return;
    }
    changes::without_messages(change, Ok(()));
    change.parts.coordinator.round = round::promise_heard(
        change.parts.coordinator.round,
        acceptor,
        accepted,
        batch,
    );
}

fn accepted(change: &mut Change, inst: u8, ballot: u8, acceptor: u8)
    ensures { change.new ≡ cond (is_heard change.old.parts.coordinator inst ballot acceptor) (cond (majority change.old.parts.acceptors (counting change.old.parts.coordinator.round acceptor).acceptances) (learns (coordinator_now change.old.parts (learning change.old.parts.coordinator)) (proposal_of change.old.parts.coordinator.round)) (done (coordinator_now change.old.parts (with_round change.old.parts.coordinator (counting change.old.parts.coordinator.round acceptor))))) (done change.old.parts) }
{
    if !is_heard(&change.parts.coordinator, inst, ballot, acceptor) {
        changes::without_messages(change, Ok(()));
        return;
    }
    let counted = round::counting(change.parts.coordinator.round, acceptor);
    if !round::is_majority(change.parts.acceptors, counted.acceptances) {
        changes::without_messages(change, Ok(()));
        change.parts.coordinator.round = counted;
        return;
    }
    let proposal = change.parts.coordinator.round.proposal;
    changes::learns(change, proposal.unwrap_or(no_batch()));
    change.parts.coordinator = learn::learning(change.parts.coordinator);
}

fn tell(change: &mut Change, tx: u8, outcome: Outcome)
    ensures { change.new ≡ done (process_now change.old.parts (hearing_outcome change.old.parts.process tx outcome)) }
{
    changes::without_messages(change, Ok(()));
    change.parts.process = world_process::hearing(change.parts.process, tx, outcome);
}

fn restore(change: &mut Change, turn: u8, store: u8, position: u8, running: u32)
    ensures { change.new ≡ cond (takes_restore change.old.parts.process turn position) (takes_replay (process_now change.old.parts (taking change.old.parts.process store position running))) (done change.old.parts) }
{
    if !world_process::takes_restore(change.parts.process, turn, position) {
        changes::without_messages(change, Ok(()));
        return;
    }
    changes::takes_replay(change);
    change.parts.process = world_process::taking(change.parts.process, store, position, running);
}

// The process took a follow of the transaction.
fn following(mut h: Process, tx: u8) -> Process
    requires { tx < transactions }
    ensures { result ≡ following h tx }
{
    h.followed |= 1 << tx;
    h
}

// The same, if it takes the follow. Of a process that is handed over by value, and not lent, it is
// known that its sets have a bit for each transaction and no more.
fn followed(h: Process, store: u8, tx: u8) -> Process
    ensures { takes_follow h store tx ≡ true → result ≡ following h tx }
{
    if world_process::takes_follow(h, store, tx) {
        return following(h, tx);
    }
    h
}

fn follow(change: &mut Change, store: u8, tx: u8)
    ensures { change.new ≡ cond (takes_follow change.old.parts.process store tx) (keeps_follow (process_now change.old.parts (following change.old.parts.process tx))) (done change.old.parts) }
{
    if !world_process::takes_follow(change.parts.process, store, tx) {
        changes::without_messages(change, Ok(()));
        return;
    }
    changes::keeps_follow(change);
    change.parts.process = followed(change.parts.process, store, tx);
}

// The message is handed to its receiver.
#[tactic(auto, unfolding(model_protocol::specs::Deliver::delivery_change))]
fn hand(change: &mut Change)
    ensures { change.new ≡ delivery_change change.old.parts (said_kind change.old.parts.message) }
{
    match change.parts.message {
        Message::Request { entry, .. } => request(change, entry),
        Message::Prepare {
            inst,
            ballot,
            acceptor,
        } => prepare(change, inst, ballot, acceptor),
        Message::Accept {
            inst,
            ballot,
            acceptor,
            batch,
        } => accept(change, inst, ballot, acceptor, batch),
        Message::Promise {
            inst,
            ballot,
            acceptor,
            accepted,
            batch,
        } => promise(change, inst, ballot, acceptor, accepted, batch),
        Message::Accepted {
            inst,
            ballot,
            acceptor,
        } => accepted(change, inst, ballot, acceptor),
        Message::Tell { tx, outcome, .. } => tell(change, tx, outcome),
        Message::Restore {
            turn,
            store,
            position,
            running,
            ..
        } => restore(change, turn, store, position, running),
        Message::Follow { store, tx, .. } => follow(change, store, tx),
    }
}

#[tactic(auto, unfolding(world_parts::specs::Plan::plan_of, model_protocol::specs::Step::step_checks, model_protocol::specs::Step::change_of, log_entry::specs::Refusal::first_refusal))]
pub fn deliver(change: &mut Change, msg: u8)
    ensures { change.new ≡ plan_of change.old.parts (Deliver msg) }
{
    let down = parties::receiver_down(change.parts.down, change.parts.message);
    let answer = refusal::first_of(Tests {
        unsent: change.parts.sent <= msg,
        down: down,
        unmet: change.parts.acceptors == 0,
        full: no_room(&change.parts),
        ill: false,
    });
    if answer.is_err() {
        changes::without_messages(change, answer);
        return;
    }
    hand(change);
}
