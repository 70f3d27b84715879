// The limits of what a step names. `specs/Limits.antt` has the same numbers for the contracts.
ghost use Rattle.std.specs.Prelude.{◌≡◌, ◌||◌, not, leb};
ghost use Rattle.log_entry.specs.Entry.{no_process, no_turn, outside};
ghost use Rattle.log_entry.specs.Limits.{stores, transactions};
ghost use Rattle.model_steps.specs.Limits.{can_set_up, instances, no_ballot, no_coordinator, no_party, outside_step};

use crate::{Role, Step};
use log_entry::Entry;
use log_entry::limits::{STORES, TRANSACTIONS};

pub const COORDINATORS: u8 = 3;

// There are 3 acceptors or 5.
pub const FEWEST_ACCEPTORS: u8 = 3;

pub const MOST_ACCEPTORS: u8 = 5;

pub const INSTANCES: u8 = 16;

// Ballots are 1 to 255, the largest byte; 0 is none.
pub const BALLOTS: u8 = 255;

pub const MESSAGES: u8 = 128;

// A command for each line that a program answers: 1,000, and line 1,001. `From` is not for
// constants: the second widens by `as`.
pub const COMMANDS: u16 = 1001;

pub const COMMAND_PLACES: usize = COMMANDS as usize;

// Whether a setup may name so many acceptors.
pub fn can_set_up(n: u8) -> bool
    ensures { result ≡ can_set_up n }
{
    n == FEWEST_ACCEPTORS || n == MOST_ACCEPTORS
}

fn no_party(acceptors: u8, role: Role, id: u8) -> bool
    ensures { result ≡ no_party acceptors role id }
{
    match role {
        Role::Acceptor => acceptors <= id,
        Role::Coord => COORDINATORS <= id,
        Role::Proc => log_entry::no_process(id),
    }
}

// Refusal 2, where this many acceptors count.
#[tactic(auto, unfolding(crate::specs::Limits::outside_step))]
pub fn outside(acceptors: u8, s: Step) -> bool
    ensures { result ≡ outside_step acceptors s }
{
    match s {
        Step::Setup { acceptors: n } => !can_set_up(n),
        Step::Request { entry, to } => entry.outside(STORES) || COORDINATORS <= to,
        Step::Open {
            coord,
            inst,
            ballot,
        }
        | Step::Propose {
            coord,
            inst,
            ballot,
        } => COORDINATORS <= coord || INSTANCES <= inst || ballot == 0,
        Step::Deliver { msg } => MESSAGES <= msg,
        Step::Tell { coord, process, tx } | Step::Follow { coord, process, tx } => {
            COORDINATORS <= coord || log_entry::no_process(process) || TRANSACTIONS <= tx
        }
        Step::Restore { coord, process } => {
            COORDINATORS <= coord || log_entry::no_process(process)
        }
        Step::Crash { role, id } => no_party(acceptors, role, id),
        Step::Back { process, turn } => log_entry::no_process(process) || log_entry::no_turn(turn),
    }
}
