// What stands in a place that is not used, and every value as in the fresh world.
#![tactic(auto)]

ghost use Rattle.std.specs.Prelude.{[], ◌≡◌};
ghost use Rattle.model_protocol.specs.Batch.{no_batch, no_entry};
ghost use Rattle.model_protocol.specs.Message.{no_message};
ghost use Rattle.model_protocol.specs.Queue.{queue_of};
ghost use Rattle.model_protocol.specs.World.{all_up, empty_slot, fresh_coordinator, fresh_world, new_round, no_follows, started_in};

use log_core::{Log, Replay};
use log_entry::limits::{FIRST_TURN, PROCESS_PLACES, TRANSACTION_PLACES};
use log_entry::{Entry, Limit};
use log_votes::Outcome;
use model_protocol::limits::{
    ACCEPTOR_PLACES, BATCH_PLACES, COORDINATOR_PLACES, MESSAGE_PLACES, QUEUE_PLACES, SLOT_PLACES,
};
use model_protocol::{
    AcceptorSlot, Batch, Coordinator, Down, Followed, Follows, Heard, Message, Process, Queue,
    Round, World,
};

// The place of no entry: a vote of zeros, which says abort. It and the blanks below are no
// `Default`: a row of N entries has none, and their clauses name the blank, which that of `Default`
// does not.
pub fn no_entry() -> Entry
    ensures { result ≡ no_entry }
{
    Entry::vote_of(0, 0, 0, 0, 0, 0, false, 0)
}

#[tactic(auto, unfolding(model_protocol::specs::Batch::no_batch))]
pub fn no_batch() -> Batch
    ensures { result ≡ no_batch }
{
    let blank = no_entry();
    Batch {
        entries: [blank; BATCH_PLACES],
        count: 0,
    }
}

#[tactic(auto, unfolding(model_protocol::specs::Queue::queue_of))]
pub fn empty_queue() -> Queue
    ensures { result ≡ queue_of [] }
{
    let blank = no_entry();
    Queue {
        entries: [blank; QUEUE_PLACES],
        count: 0,
    }
}

// The round of a ballot that was just opened; of ballot 0, where none was.
pub fn new_round(ballot: u8) -> Round
    ensures { result ≡ new_round ballot }
{
    Round {
        ballot,
        promises: 0,
        accepted: 0,
        batch: no_batch(),
        proposal: None,
        acceptances: 0,
    }
}

#[tactic(auto, unfolding(model_protocol::specs::World::fresh_coordinator))]
pub fn fresh_coordinator() -> Coordinator
    ensures { result ≡ fresh_coordinator }
{
    Coordinator {
        applied: 0,
        queue: empty_queue(),
        round: new_round(0),
    }
}

pub fn no_message() -> Message
    ensures { result ≡ no_message }
{
    Message::Request {
        to: 0,
        entry: no_entry(),
    }
}

pub fn empty_slot() -> AcceptorSlot
    ensures { result ≡ empty_slot }
{
    AcceptorSlot {
        promised: 0,
        ballot: 0,
        batch: no_batch(),
    }
}

// A process that starts in this turn.
#[tactic(auto, unfolding(model_protocol::specs::World::started_in))]
pub fn started_in(turn: u8) -> Process
    ensures { result ≡ started_in turn }
{
    let nothing = Heard {
        outcome: Outcome::Open,
    };
    Process {
        turn,
        heard: [nothing; TRANSACTION_PLACES],
        store: 0,
        position: 0,
        running: 0,
        followed: 0,
    }
}

#[tactic(auto, unfolding(model_protocol::specs::World::no_follows))]
pub fn no_follows() -> Follows
    ensures { result ≡ no_follows }
{
    let none = Followed {
        outcome: Outcome::Open,
        update: 0,
    };
    Follows {
        of: [none; TRANSACTION_PLACES],
    }
}

#[tactic(auto, unfolding(model_protocol::specs::World::all_up))]
fn all_up() -> Down
    ensures { result ≡ all_up }
{
    Down {
        acceptors: [false; ACCEPTOR_PLACES],
        coordinators: [false; COORDINATOR_PLACES],
        processes: [false; PROCESS_PLACES],
    }
}

#[tactic(auto, unfolding(model_protocol::specs::World::fresh_world))]
pub fn fresh_world() -> World
    ensures { result ≡ fresh_world }
{
    let slot = empty_slot();
    let coordinator = fresh_coordinator();
    let log = Log::empty(Limit::Full);
    let process = started_in(FIRST_TURN);
    let none = no_message();
    let replay = Replay::none();
    let follows = no_follows();
    // Named before the world, since built within it the compiler copies them once more.
    let replays = [replay; MESSAGE_PLACES];
    World {
        acceptors: 0,
        slots: [slot; SLOT_PLACES],
        coordinators: [coordinator; COORDINATOR_PLACES],
        logs: [log; COORDINATOR_PLACES],
        restored: [replay; PROCESS_PLACES],
        follows: [follows; PROCESS_PLACES],
        down: all_up(),
        messages: [none; MESSAGE_PLACES],
        replays,
        sent: 0,
        processes: [process; PROCESS_PLACES],
    }
}
