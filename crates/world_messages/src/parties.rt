// Who is down.
ghost use Rattle.std.specs.Prelude.{◌≡◌};
ghost use Rattle.model_protocol.specs.Deliver.{receiver_down};
ghost use Rattle.model_protocol.specs.Message.{said_kind};
ghost use Rattle.model_protocol.specs.World.{crashed, is_down, up_again};

use log_entry::limits::PROCESS_PLACES;
use model_owners::owner;
use model_protocol::limits::{ACCEPTOR_PLACES, COORDINATOR_PLACES};
use model_protocol::{Down, Message};
use model_steps::Role;

pub fn is_down(d: Down, role: Role, id: u8) -> bool
    ensures { result ≡ is_down d role id }
{
    let i = usize::from(id);
    match role {
        Role::Acceptor => i < ACCEPTOR_PLACES && d.acceptors[i],
        Role::Coord => i < COORDINATOR_PLACES && d.coordinators[i],
        Role::Proc => i < PROCESS_PLACES && d.processes[i],
    }
}

pub fn receiver_down(d: Down, m: Message) -> bool
    ensures { result ≡ receiver_down d m (said_kind m) }
{
    match m {
        Message::Request { to, .. } => is_down(d, Role::Coord, to),
        Message::Prepare { acceptor, .. } | Message::Accept { acceptor, .. } => {
            is_down(d, Role::Acceptor, acceptor)
        }
        Message::Promise { ballot, .. } | Message::Accepted { ballot, .. } => {
            is_down(d, Role::Coord, owner(ballot))
        }
        Message::Tell { to, .. } | Message::Restore { to, .. } | Message::Follow { to, .. } => {
            is_down(d, Role::Proc, to)
        }
    }
}

// The party is down from now on.
pub fn crashed(mut d: Down, role: Role, id: u8) -> Down
    ensures { result ≡ crashed d role id }
{
    let i = usize::from(id);
    match role {
        Role::Acceptor => {
            if i < ACCEPTOR_PLACES {
                d.acceptors[i] = true;
            }
        }
        Role::Coord => {
            if i < COORDINATOR_PLACES {
                d.coordinators[i] = true;
            }
        }
        Role::Proc => {
            if i < PROCESS_PLACES {
                d.processes[i] = true;
            }
        }
    }
    d
}

// The process is up from now on.
pub fn up_again(mut d: Down, process: u8) -> Down
    ensures { result ≡ up_again d process }
{
    let i = usize::from(process);
    if i < PROCESS_PLACES {
        d.processes[i] = false;
    }
    d
}
