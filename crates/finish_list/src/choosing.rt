// The choice: the lowest coordinator that can close its current instance, and its lowest ballot.
ghost use Rattle.std.specs.Prelude.{◌<◌, ◌&&◌, not, ◌≡◌, leb};
ghost use Rattle.model_steps.specs.Limits.{can_set_up, coordinators, instances};
ghost use Rattle.model_protocol.specs.Send.{lacks_numbers};
ghost use Rattle.model_finish.specs.Choice.{ballot_of, choice_of, first_from, has_work, highest_promised};
ghost use Rattle.model_finish.specs.Such.{numbers_needed, quorum};
ghost use Rattle.finish_list.specs.Found.{BallotIs, ChoiceIs};

use crate::{acceptors, ballots};
use model_finish::Choice;
use model_protocol::limits::INSTANCE_PLACES;
use model_protocol::{Coordinator, World};
use model_steps::limits::{COORDINATORS, INSTANCES};
use model_steps::{Role, limits};
use world_messages::{parties, send};

// Whether n acceptors are set up, so many being up suffice, and so many message numbers sent leave
// enough.
fn allows(n: u8, up: usize, sent: u8) -> bool
    ensures { result ≡ (can_set_up n && leb (quorum n) up && not (lacks_numbers sent (numbers_needed n))) }
{
    if !limits::can_set_up(n) {
        return false;
    }
    let m = acceptors::quorum(n);
    usize::from(m) <= up && !send::lacks_numbers(sent, 2 * n + 2 * m)
}

fn has_work(c: &Coordinator) -> bool
    ensures { result ≡ has_work c.now }
{
    0 < c.queue.count && c.applied < INSTANCES
}

// The highest ballot that an acceptor promised in the instance.
fn highest_promised(w: &World, inst: u8) -> u8
    ensures { result ≡ highest_promised w.now inst w.now.acceptors }
{
    let mut highest: u8 = 0;
    for a in 0..w.acceptors {
        let i = usize::from(a) * INSTANCE_PLACES + usize::from(inst);
        if let Some(slot) = w.slots.get(i) {
            highest = highest.max(slot.promised);
        }
    }
    highest
}

// The lowest ballot with which the coordinator can close its current instance, if it can.
fn ballot_of(w: &World, coord: u8) -> Option<u8>
    requires { coord < coordinators }
    ensures { BallotIs result (ballot_of w.now coord) }
{
    let c = &w.coordinators[usize::from(coord)];
    if parties::is_down(w.down, Role::Coord, coord) {
        return None;
    }
    if !has_work(c) {
        return None;
    }
    let promised = highest_promised(w, c.applied);
    ballots::lowest_own(coord, c.round.ballot.max(promised))
}

// The first coordinator that can, and its ballot.
fn first(w: &World) -> Option<Choice>
    ensures { ChoiceIs result (first_from w.now 0 coordinators) }
{
    for coord in 0..COORDINATORS {
        if let Some(ballot) = ballot_of(w, coord) {
            return Some(Choice { coord, ballot });
        }
    }
    None
}

// The lowest coordinator that can close its current instance, and its lowest ballot for it, if any
// can.
pub fn choose(w: &World) -> Option<Choice>
    ensures { ChoiceIs result (choice_of w.now) }
{
    let up = acceptors::up_below(w.down, w.acceptors);
    if !allows(w.acceptors, up.as_slice().len(), w.sent) {
        return None;
    }
    first(w)
}
