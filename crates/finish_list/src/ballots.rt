// The ballots of a coordinator.
ghost use Rattle.model_finish.specs.Choice.{lowest_own};
ghost use Rattle.finish_list.specs.Found.{BallotIs};

use model_owners::owner;
use model_steps::limits::BALLOTS;

// The coordinator's lowest ballot above this one, if it has one.
pub fn lowest_own(coord: u8, low: u8) -> Option<u8>
    ensures { BallotIs result (lowest_own coord low) }
{
    for b in low..BALLOTS {
        if owner(b + 1) == coord {
            return Some(b + 1);
        }
    }
    None
}
