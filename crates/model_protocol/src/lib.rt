// The coordinated commit service: messages, acceptors, coordinators, processes, and the world that
// joins them. These are the values; what each step does to them stands in specs/.
#![tactic(auto)]

ghost use Rattle.std.specs.Prelude.{◌≡◌, take};

use limits::{
    ACCEPTOR_PLACES, BATCH_PLACES, COORDINATOR_PLACES, MESSAGE_PLACES, QUEUE_PLACES, SLOT_PLACES,
};
use log_core::{Log, Replay};
use log_entry::Entry;
use log_entry::limits::{PROCESS_PLACES, TRANSACTION_PLACES, Update};
use log_entry::refusal::Answer;
use log_votes::Outcome;

pub mod limits;

// The first `count` entries of a row: nothing is on the heap. A count of one byte would have seven
// after it that nothing uses, and they would be copied with every step.
#[derive(Clone, Copy)]
pub struct Entries<const N: usize> {
    pub entries: [Entry; N],
    pub count: usize,
}

// A batch.
pub type Batch = Entries<BATCH_PLACES>;

// The entries that a coordinator was sent, oldest first.
pub type Queue = Entries<QUEUE_PLACES>;

impl<const N: usize> Entries<N> {
    // All of the row where the count is above it.
    pub fn as_slice(&self) -> &[Entry]
        ensures { result.now ≡ take self.now.count self.now.entries }
    {
        &self.entries[..self.count.min(N)]
    }
}

// A message, by its kind.
#[derive(Clone, Copy)]
pub enum Message {
    // To the coordinator `to`.
    Request {
        to: u8,
        entry: Entry,
    },
    // To the acceptor, from the ballot's coordinator.
    Prepare {
        inst: u8,
        ballot: u8,
        acceptor: u8,
    },
    // The same, with the batch proposed.
    Accept {
        inst: u8,
        ballot: u8,
        acceptor: u8,
        batch: Batch,
    },
    // From the acceptor, to the ballot's coordinator: the ballot that it accepted, 0 if none, and
    // the batch that goes with it.
    Promise {
        inst: u8,
        ballot: u8,
        acceptor: u8,
        accepted: u8,
        batch: Batch,
    },
    // The same way.
    Accepted {
        inst: u8,
        ballot: u8,
        acceptor: u8,
    },
    // To the process `to`, from a coordinator, as the two below.
    Tell {
        to: u8,
        tx: u8,
        outcome: Outcome,
    },
    // The holder's turn, the sender's applied count as position, and the transactions that run with
    // a kept commit vote of the store, bit t for transaction t. The world has its replay.
    Restore {
        to: u8,
        turn: u8,
        store: u8,
        position: u8,
        running: u32,
    },
    // With the update of the store's commit vote, 0 if the transaction was aborted.
    Follow {
        to: u8,
        store: u8,
        tx: u8,
        outcome: Outcome,
        update: Update,
    },
}

// What an acceptor holds of an instance, 0 at first. Ballot 0 is none and stands below all others:
// `accepts` and `promises` of specs/ compare it with them as a number.
#[derive(Clone, Copy)]
pub struct AcceptorSlot {
    pub promised: u8,
    // The accepted ballot, 0 if none, and its batch.
    pub ballot: u8,
    pub batch: Batch,
}

// The ballot that a coordinator opened last in its current instance, and what came of it. The small
// fields stand together: bytes between them that nothing uses would be copied with every step.
#[derive(Clone, Copy)]
pub struct Round {
    // 0 if it opened none there: `cannot_open` compares it with the next ballot as a number.
    pub ballot: u8,
    // The acceptors whose promise was heard, bit a for acceptor a.
    pub promises: u8,
    // The highest accepted ballot among the promises, 0 if none; `batch` is its batch. A promise
    // names 0 for none too, and `promise_heard` compares the two as numbers.
    pub accepted: u8,
    // The acceptors whose acceptance was heard, bit a for acceptor a.
    pub acceptances: u8,
    pub batch: Batch,
    // The batch proposed, if one was.
    pub proposal: Option<Batch>,
}

#[derive(Clone, Copy)]
pub struct Coordinator {
    // How many instances it applied; the next is its current one.
    pub applied: u8,
    pub queue: Queue,
    pub round: Round,
}

// What a process heard of a transaction; open if nothing.
#[derive(Clone, Copy)]
pub struct Heard {
    pub outcome: Outcome,
}

#[derive(Clone, Copy)]
pub struct Process {
    // Its present turn: 1 at first, and then the one that it came back with last.
    pub turn: u8,
    // By transaction.
    pub heard: [Heard; TRANSACTION_PLACES],
    // The last restore that it took: store, position, and the transactions listed as running, bit t
    // for transaction t. Position 0 if it took none: `takes_restore` compares it as a number.
    pub store: u8,
    pub position: u8,
    pub running: u32,
    // Those of which it took a follow since then, bit t for transaction t. The world has the
    // follows.
    pub followed: u32,
}

// What a follow says of its transaction.
#[derive(Clone, Copy)]
pub struct Followed {
    pub outcome: Outcome,
    pub update: Update,
}

// The follows that a process took, by transaction.
#[derive(Clone, Copy)]
pub struct Follows {
    pub of: [Followed; TRANSACTION_PLACES],
}

// Who is down. No value stands beside a flag here.
#[derive(Clone, Copy)]
pub struct Down {
    pub acceptors: [bool; ACCEPTOR_PLACES],
    pub coordinators: [bool; COORDINATOR_PLACES],
    // Processes are numbered from 1.
    pub processes: [bool; PROCESS_PLACES],
}

// The world. What stands beside its party and not in it (logs, replays, follows) is so for speed:
// no step copies it that does not look at it (docs/PERFORMANCE.md has what each of these brought).
#[derive(Clone, Copy)]
pub struct World {
    // How many acceptors there are; before setup there are 0.
    pub acceptors: u8,
    // Acceptor a's slot of instance i stands at a * 16 + i: a step names its slot by this one
    // place, as `slot_of` does.
    pub slots: [AcceptorSlot; SLOT_PLACES],
    pub coordinators: [Coordinator; COORDINATOR_PLACES],
    // By coordinator.
    pub logs: [Log; COORDINATOR_PLACES],
    // By process: the replay of the last restore that it took.
    pub restored: [Replay; PROCESS_PLACES],
    // By process: the follows that it took. Those of now are those that it has in `followed`.
    pub follows: [Follows; PROCESS_PLACES],
    pub down: Down,
    // The first `sent` were sent, numbered from 0.
    pub messages: [Message; MESSAGE_PLACES],
    // By message: of a restore the store's replay.
    pub replays: [Replay; MESSAGE_PLACES],
    pub sent: u8,
    // Processes are numbered from 1. They stand last: a fresh one has a turn, so it is not all
    // zeros, and what stands behind it the compiler would copy once more when a world is made.
    pub processes: [Process; PROCESS_PLACES],
}

// The parts of the world that a step looks at and may change: of coordinators, slots, processes and
// messages the one that it is about.
#[derive(Clone, Copy)]
pub struct Parts {
    pub acceptors: u8,
    pub sent: u8,
    pub down: Down,
    pub coordinator: Coordinator,
    pub slot: AcceptorSlot,
    pub process: Process,
    // The message that the step delivers, or that it sends by what the coordinator's log says.
    pub message: Message,
}

// What a step does to the logs, replays and follows, which stand beside the parts.
#[derive(Clone, Copy)]
pub enum Beside {
    Nothing,
    // The coordinator learned this batch, for its log.
    Learns(Batch),
    // By the coordinator's log its store's replay goes with the message sent.
    GivesReplay,
    // The process takes the replay of the message delivered.
    TakesReplay,
    // The process takes the follow that is the message delivered.
    KeepsFollow,
    // The process starts anew: what stands beside it is as in a fresh world.
    StartsAnew,
}

// The answer to a step, the parts after it, and what it sends.
#[derive(Clone, Copy)]
pub struct Change {
    pub answer: Answer,
    pub parts: Parts,
    // So many messages: this one first, and then the same to acceptors 1, 2 and so on.
    pub count: u8,
    pub message: Message,
    pub beside: Beside,
}

// Where in the world the parts of a step stand.
#[derive(Clone, Copy)]
pub struct Places {
    pub coordinator: u8,
    pub slot: usize,
    pub process: u8,
}

// The world after a step, and the answer.
#[derive(Clone, Copy)]
pub struct Stepped {
    pub world: World,
    pub answer: Answer,
}
