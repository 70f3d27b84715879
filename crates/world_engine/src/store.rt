// The parts of a step, taken from their places and put back.
ghost use Rattle.std.specs.Prelude.{◌≡◌, ◌<◌, true};
ghost use Rattle.model_steps.specs.Limits.{messages};
ghost use Rattle.model_protocol.specs.Change.{is_given};
ghost use Rattle.model_protocol.specs.Message.{said_store};
ghost use Rattle.model_protocol.specs.Step.{message_for, parts_at, put_back};
ghost use Rattle.log_core.specs.Enter.{feed};
ghost use Rattle.log_core.specs.Replay.{no_replay};
ghost use Rattle.model_protocol.specs.Batch.{entries_of};
ghost use Rattle.model_protocol.specs.Process.{with_follow};
ghost use Rattle.model_protocol.specs.World.{coordinator_of, log_of, no_follows, replay_with};
ghost use Rattle.world_engine.specs.There.{There};

use log_core::{Log, Replay};
use model_protocol::{Batch, Beside, Change, Follows, Message, Parts, Places, World};
use model_steps::Step;
use world_coordinator::learn;
use world_fresh::no_follows;
use world_parts::place;

// The message that a step is about: the one that it delivers, or what the coordinator's log says.
#[tactic(auto, using(log_votes::proofs::InList::in_list, crate::proofs::PlaceLaws::not_asked))]
pub(crate) fn message_of(w: &World, s: Step, delivered: Message, at: Places) -> Message
    requires { There at }
    ensures { result ≡ message_for s delivered (log_of w.now at.coordinator) (coordinator_of w.now at.coordinator).applied }
{
    let c = usize::from(at.coordinator);
    if place::asks_log(s) {
        world_requests::said(s, delivered, w.logs[c], w.coordinators[c].applied)
    } else {
        delivered
    }
}

// The parts are put into the room that is lent for them.
#[tactic(auto, using(log_votes::proofs::InList::in_list))]
pub(crate) fn take_parts(w: &World, at: Places, message: Message, parts: &mut Parts)
    requires { There at }
    ensures { parts.new ≡ parts_at w.now at message }
{
    parts.acceptors = w.acceptors;
    parts.sent = w.sent;
    parts.down = w.down;
    parts.coordinator = w.coordinators[usize::from(at.coordinator)];
    parts.slot = w.slots[at.slot];
    parts.process = w.processes[usize::from(at.process)];
    parts.message = message;
}

// The store that the message names; 0 if it names none.
fn store_of(m: &Message) -> u8
    ensures { result ≡ said_store m.now }
{
    match m {
        Message::Restore { store, .. } | Message::Follow { store, .. } => *store,
        _ => 0,
    }
}

// What few steps do beside the parts is in functions of its own: the compiler clears the room of a
// function whenever it is called, and most steps need no second log, replay or follows.
fn learn_batch(log: &mut Log, batch: &Batch)
    ensures { log.new ≡ feed log.old (entries_of batch.now) }
{
    *log = learn::fed(*log, *batch);
}

fn keep_follow(follows: &mut Follows, m: &Message)
    ensures { follows.new ≡ with_follow follows.old m.now }
{
    *follows = world_process::with_follow(*follows, *m);
}

fn start_anew(restored: &mut Replay, follows: &mut Follows)
    ensures restored { restored.new ≡ no_replay }
    ensures follows { follows.new ≡ no_follows }
{
    *restored = Replay::none();
    *follows = no_follows();
}

// The parts go to their places, and what the step does beside them is done. `from` is the number of
// the message delivered.
pub(crate) fn put_back(w: &mut World, at: Places, from: usize, change: &Change)
    requires there { There at }
    requires from_there { from < messages }
    requires room { is_given change.now.beside ≡ true → w.old.sent < messages }
    ensures { w.new ≡ put_back w.old at (replay_with w.old from) change.now }
{
    let c = usize::from(at.coordinator);
    let p = usize::from(at.process);
    w.acceptors = change.parts.acceptors;
    w.down = change.parts.down;
    w.coordinators[c] = change.parts.coordinator;
    w.slots[at.slot] = change.parts.slot;
    w.processes[p] = change.parts.process;
    match &change.beside {
        Beside::Nothing => {}
        Beside::Learns(batch) => learn_batch(&mut w.logs[c], batch),
        Beside::GivesReplay => {
            w.replays[usize::from(w.sent)] = w.logs[c].replay(store_of(&change.message));
        }
        Beside::TakesReplay => w.restored[p] = w.replays[from],
        Beside::KeepsFollow => keep_follow(&mut w.follows[p], &change.parts.message),
        Beside::StartsAnew => start_anew(&mut w.restored[p], &mut w.follows[p]),
    }
}
