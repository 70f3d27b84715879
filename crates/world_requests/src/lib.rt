// The steps that need no ballot: setup, take and vote, tell, restore, follow, crash, back.
#![tactic(auto)]

ghost use Rattle.std.specs.Prelude.{◌≡◌, false, ◌&&◌, ◌||◌, not, eqb, leb};
ghost use Rattle.log_entry.specs.Entry.{ill_formed, is_take};
ghost use Rattle.log_entry.specs.Limits.{stores};
ghost use Rattle.log_votes.specs.Outcome.{is_open};
ghost use Rattle.log_core.specs.Follow.{awaited_of};
ghost use Rattle.log_core.specs.Log.{outcome_of, turn_of};
ghost use Rattle.model_steps.specs.declared.Role.TheVariants.{Coord, Proc};
ghost use Rattle.model_steps.specs.declared.Step.TheVariants.{Back, Crash, Follow, Request, Restore, Setup, Tell};
ghost use Rattle.model_protocol.specs.Change.{sending};
ghost use Rattle.model_protocol.specs.Message.{follow_to, restore_to, said_outcome, said_store};
ghost use Rattle.model_protocol.specs.Step.{held_from, held_store, message_for, other_turn, update_of, voter_not_holder, voting_store};
ghost use Rattle.model_protocol.specs.World.{is_down};
ghost use Rattle.model_protocol.specs.Send.{lacks_numbers};
ghost use Rattle.world_parts.specs.Refusal.{first_of, tests};
ghost use Rattle.world_parts.specs.Plan.{decided, plan_of};
ghost use Rattle.world_requests.specs.Held.{store_number};

use log_core::Log;
use log_entry::Entry;
use log_entry::limits::{STORE_PLACES, STORES, Update};
use log_entry::refusal::{Answer, Refusal};
use log_votes::Vote;
use model_protocol::{Change, Down, Message, Parts, Process};
use model_steps::{Role, Step};
use world_fresh::started_in;
use world_messages::{parties, send};
use world_parts::refusal::Tests;
use world_parts::{changes, refusal};

#[tactic(auto, unfolding(world_parts::specs::Plan::plan_of, model_protocol::specs::Step::step_checks, model_protocol::specs::Step::change_of, log_entry::specs::Refusal::first_refusal))]
pub fn setup(change: &mut Change, n: u8)
    ensures { change.new ≡ plan_of change.old.parts (Setup n) }
{
    if change.parts.acceptors != 0 {
        changes::without_messages(change, Err(Refusal::NotMet));
        return;
    }
    changes::without_messages(change, Ok(()));
    change.parts.acceptors = n;
}

// Whether the entry is a vote by a process that does not believe that it holds `by`.
fn voter_not_holder(e: Entry, p: Process) -> bool
    ensures { result ≡ voter_not_holder e p }
{
    match e.request {
        log_entry::Request::Take => false,
        log_entry::Request::Vote { by, .. } => !world_process::believes(p, by),
    }
}

// Whether there was no setup, or the entry has another turn than the process, or is a vote by a
// process that does not believe that it holds `by`.
fn request_barred(n: u8, e: Entry, p: Process) -> bool
    ensures { result ≡ (eqb n 0 || other_turn e p || voter_not_holder e p) }
{
    n == 0 || e.turn != p.turn || voter_not_holder(e, p)
}

fn ill_formed(e: Entry) -> bool
    ensures { result ≡ (not (is_take e) && ill_formed e) }
{
    !e.is_take() && e.ill_formed()
}

// Whether the coordinator or the process is down.
fn either_down(d: Down, coord: u8, process: u8) -> bool
    ensures { result ≡ (is_down d Coord coord || is_down d Proc process) }
{
    parties::is_down(d, Role::Coord, coord) || parties::is_down(d, Role::Proc, process)
}

// A function of its own: with the tests in `request` its proof does not close.
fn request_refusal(p: &Parts, e: Entry, to: u8) -> Answer
    ensures { result ≡ first_of (tests false (is_down p.now.down Proc e.process || is_down p.now.down Coord to) (eqb p.now.acceptors 0 || other_turn e p.now.process || voter_not_holder e p.now.process) (lacks_numbers p.now.sent 1) (not (is_take e) && ill_formed e)) }
{
    refusal::first_of(Tests {
        unsent: false,
        down: either_down(p.down, to, e.process),
        unmet: request_barred(p.acceptors, e, p.process),
        full: send::lacks_numbers(p.sent, 1),
        ill: ill_formed(e),
    })
}

#[tactic(auto, unfolding(world_parts::specs::Plan::plan_of, model_protocol::specs::Step::step_checks, model_protocol::specs::Step::change_of, log_entry::specs::Refusal::first_refusal))]
pub fn request(change: &mut Change, e: Entry, to: u8)
    ensures { change.new ≡ plan_of change.old.parts (Request e to) }
{
    let answer = request_refusal(&change.parts, e, to);
    if answer.is_err() {
        changes::without_messages(change, answer);
        return;
    }
    changes::sending(change, 1, Message::Request { to, entry: e });
}

// The answer to a coordinator that is to send the process a message. `barred`: 5 applies, setup or
// not.
fn refusal_to(p: &Parts, coord: u8, process: u8, barred: bool) -> Answer
    ensures { result ≡ first_of (tests false (is_down p.now.down Coord coord || is_down p.now.down Proc process) (eqb p.now.acceptors 0 || barred) (lacks_numbers p.now.sent 1) false) }
{
    refusal::first_of(Tests {
        unsent: false,
        down: either_down(p.down, coord, process),
        unmet: (p.acceptors == 0) | barred,
        full: send::lacks_numbers(p.sent, 1),
        ill: false,
    })
}

// Whether the transaction of the message is not decided.
fn undecided(m: Message) -> bool
    ensures { result ≡ is_open (said_outcome m) }
{
    match m {
        Message::Tell { outcome, .. } | Message::Follow { outcome, .. } => outcome.is_open(),
        _ => true,
    }
}

// Whether the message is of no store.
fn of_no_store(m: Message) -> bool
    ensures { result ≡ leb stores (said_store m) }
{
    match m {
        Message::Restore { store, .. } | Message::Follow { store, .. } => STORES <= store,
        _ => false,
    }
}

// The message goes to the process, unless the step is refused.
fn sends(change: &mut Change, coord: u8, process: u8, barred: bool)
    ensures { change.new ≡ decided change.old.parts (first_of (tests false (is_down change.old.parts.down Coord coord || is_down change.old.parts.down Proc process) (eqb change.old.parts.acceptors 0 || barred) (lacks_numbers change.old.parts.sent 1) false)) (sending change.old.parts 1 change.old.parts.message) }
{
    let answer = refusal_to(&change.parts, coord, process, barred);
    if answer.is_err() {
        changes::without_messages(change, answer);
        return;
    }
    let m = change.parts.message;
    changes::sending(change, 1, m);
}

#[tactic(auto, unfolding(world_parts::specs::Plan::plan_of, model_protocol::specs::Step::step_checks, model_protocol::specs::Step::change_of, log_entry::specs::Refusal::first_refusal))]
pub fn tell(change: &mut Change, coord: u8, process: u8, tx: u8)
    ensures { change.new ≡ plan_of change.old.parts (Tell coord process tx) }
{
    let barred = undecided(change.parts.message);
    sends(change, coord, process, barred);
}

#[tactic(auto, unfolding(world_parts::specs::Plan::plan_of, model_protocol::specs::Step::step_checks, model_protocol::specs::Step::change_of, log_entry::specs::Refusal::first_refusal))]
pub fn restore(change: &mut Change, coord: u8, process: u8)
    ensures { change.new ≡ plan_of change.old.parts (Restore coord process) }
{
    let answer = refusal_to(
        &change.parts,
        coord,
        process,
        of_no_store(change.parts.message),
    );
    if answer.is_err() {
        changes::without_messages(change, answer);
        return;
    }
    let m = change.parts.message;
    changes::gives_replay(change, m);
}

#[tactic(auto, unfolding(world_parts::specs::Plan::plan_of, model_protocol::specs::Step::step_checks, model_protocol::specs::Step::change_of, log_entry::specs::Refusal::first_refusal))]
pub fn follow(change: &mut Change, coord: u8, process: u8, tx: u8)
    ensures { change.new ≡ plan_of change.old.parts (Follow coord process tx) }
{
    let barred = undecided(change.parts.message) | of_no_store(change.parts.message);
    sends(change, coord, process, barred);
}

// The store that the process holds.
#[tactic(auto, using(crate::proofs::HeldLaws::held))]
fn held_store(holders: [u8; STORE_PLACES], process: u8) -> Option<u8>
    ensures { store_number result ≡ held_from process 0 holders }
{
    for s in 0..STORES {
        if holders[usize::from(s)] == process {
            return Some(s);
        }
    }
    None
}

fn restored(log: Log, applied: u8, process: u8) -> Message
    ensures { result ≡ restore_to process (turn_of log (held_store log process)) (held_store log process) applied (awaited_of log (held_store log process)) }
{
    let store = held_store(log.holders, process).unwrap_or(STORES);
    Message::Restore {
        to: process,
        turn: log.turn(store),
        store,
        position: applied,
        running: log.awaited(store),
    }
}

// The store that the process holds, if it has a kept commit vote on the transaction.
fn voting_store(log: Log, process: u8, tx: u8) -> Option<u8>
    ensures { store_number result ≡ voting_store log process tx }
{
    let store = held_store(log.holders, process)?;
    if log.vote_on(tx, store).is_commit() {
        Some(store)
    } else {
        None
    }
}

// The update of the store's vote on the transaction; 0 unless the transaction is committed.
fn update_of(log: Log, tx: u8, store: u8) -> Update
    ensures { result ≡ update_of log tx store }
{
    if !log.outcome(tx).is_commit() {
        return 0;
    }
    match log.vote_on(tx, store) {
        Vote::Absent => 0,
        Vote::Abort { update, .. } | Vote::Commit { update, .. } => update,
    }
}

fn followed(log: Log, process: u8, tx: u8) -> Message
    ensures { result ≡ follow_to process (voting_store log process tx) tx (outcome_of log tx) (update_of log tx (voting_store log process tx)) }
{
    let store = voting_store(log, process, tx).unwrap_or(STORES);
    Message::Follow {
        to: process,
        store,
        tx,
        outcome: log.outcome(tx),
        update: update_of(log, tx, store),
    }
}

// The message of a step, where `delivered` is the one that it delivers: a tell, a restore or a
// follow sends what the log of a coordinator that applied n instances says.
#[tactic(auto, unfolding(model_protocol::specs::Step::message_for))]
pub fn said(s: Step, delivered: Message, log: Log, applied: u8) -> Message
    ensures { result ≡ message_for s delivered log applied }
{
    match s {
        Step::Tell { process, tx, .. } => Message::Tell {
            to: process,
            tx,
            outcome: log.outcome(tx),
        },
        Step::Restore { process, .. } => restored(log, applied, process),
        Step::Follow { process, tx, .. } => followed(log, process, tx),
        _ => delivered,
    }
}

#[tactic(auto, unfolding(world_parts::specs::Plan::plan_of, model_protocol::specs::Step::step_checks, model_protocol::specs::Step::change_of, log_entry::specs::Refusal::first_refusal))]
pub fn crash(change: &mut Change, role: Role, id: u8)
    ensures { change.new ≡ plan_of change.old.parts (Crash role id) }
{
    let answer = refusal::first_of(Tests {
        unsent: false,
        down: parties::is_down(change.parts.down, role, id),
        unmet: change.parts.acceptors == 0,
        full: false,
        ill: false,
    });
    if answer.is_err() {
        changes::without_messages(change, answer);
        return;
    }
    changes::without_messages(change, Ok(()));
    change.parts.down = parties::crashed(change.parts.down, role, id);
}

// Neither 3 nor 6 stops a process from coming back.
#[tactic(auto, unfolding(world_parts::specs::Plan::plan_of, model_protocol::specs::Step::step_checks, model_protocol::specs::Step::change_of, log_entry::specs::Refusal::first_refusal))]
pub fn back(change: &mut Change, process: u8, turn: u8)
    ensures { change.new ≡ plan_of change.old.parts (Back process turn) }
{
    if change.parts.acceptors == 0 || turn <= change.parts.process.turn {
        changes::without_messages(change, Err(Refusal::NotMet));
        return;
    }
    changes::starts_anew(change);
    change.parts.process = started_in(turn);
    change.parts.down = parties::up_again(change.parts.down, process);
}
