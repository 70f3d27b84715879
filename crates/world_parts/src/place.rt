// Where in the world the parts of a step stand.
ghost use Rattle.std.specs.Prelude.{◌≡◌};
ghost use Rattle.world_parts.specs.Asks.{asks_log};
ghost use Rattle.model_protocol.specs.Message.{said_kind};
ghost use Rattle.model_protocol.specs.Places.{delivery_places, message_at, only_slot, only_coordinator, only_owner, only_process, places_of};

use log_entry::limits::PROCESSES;
use model_owners::owner;
use model_protocol::limits::{INSTANCE_PLACES, SLOT_PLACES};
use model_protocol::{Message, Places};
use model_steps::Step;
use model_steps::limits::{COORDINATORS, MESSAGES};

// The message that the step delivers; message 0 if it delivers none.
pub fn message_at(s: Step) -> u8
    ensures { result ≡ message_at s }
{
    match s {
        Step::Deliver { msg } => msg % MESSAGES,
        _ => 0,
    }
}

// Whether the step sends what a coordinator's log says.
pub fn asks_log(s: Step) -> bool
    ensures { result ≡ asks_log s }
{
    matches!(
        s,
        Step::Tell { .. } | Step::Restore { .. } | Step::Follow { .. }
    )
}

fn only_coordinator(k: u8) -> Places
    ensures { result ≡ only_coordinator k }
{
    Places {
        coordinator: k % COORDINATORS,
        slot: 0,
        process: 0,
    }
}

fn only_owner(ballot: u8) -> Places
    ensures { result ≡ only_owner ballot }
{
    Places {
        coordinator: owner(ballot),
        slot: 0,
        process: 0,
    }
}

fn only_slot(acceptor: u8, inst: u8) -> Places
    ensures { result ≡ only_slot acceptor inst }
{
    Places {
        coordinator: 0,
        slot: (usize::from(acceptor) * INSTANCE_PLACES + usize::from(inst)) % SLOT_PLACES,
        process: 0,
    }
}

fn only_process(k: u8) -> Places
    ensures { result ≡ only_process k }
{
    Places {
        coordinator: 0,
        slot: 0,
        process: k % (PROCESSES + 1),
    }
}

// Where the receiver of the message stands.
fn delivery_places(m: Message) -> Places
    ensures { result ≡ delivery_places m (said_kind m) }
{
    match m {
        Message::Request { to, .. } => only_coordinator(to),
        Message::Prepare { acceptor, inst, .. } | Message::Accept { acceptor, inst, .. } => {
            only_slot(acceptor, inst)
        }
        Message::Promise { ballot, .. } | Message::Accepted { ballot, .. } => only_owner(ballot),
        Message::Tell { to, .. } | Message::Restore { to, .. } | Message::Follow { to, .. } => {
            only_process(to)
        }
    }
}

// The places of a step; m is the message that it delivers.
#[tactic(auto, unfolding(model_protocol::specs::Places::places_of))]
pub fn places(s: Step, m: Message) -> Places
    ensures { result ≡ places_of s m }
{
    match s {
        Step::Setup { .. } | Step::Crash { .. } => only_coordinator(0),
        Step::Request { entry, .. } => only_process(entry.process),
        Step::Deliver { .. } => delivery_places(m),
        Step::Open { coord, .. }
        | Step::Propose { coord, .. }
        | Step::Tell { coord, .. }
        | Step::Restore { coord, .. }
        | Step::Follow { coord, .. } => only_coordinator(coord),
        Step::Back { process, .. } => only_process(process),
    }
}
