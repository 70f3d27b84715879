// Why a take is refused.
ghost use Rattle.std.specs.Prelude.{◌≡◌};
ghost use Rattle.log_entry.specs.Refusal.{first_refusal};
ghost use Rattle.log_core.specs.Refusal.{holds_another, take_checks, wrong_turn};

use log_entry::limits::STORE_PLACES;
use log_entry::refusal::{Answer, Refusal};
use log_entry::{Entry, sets};

// Whether the process holds a store other than this one.
#[tactic(auto, using(log_votes::proofs::ScanLaws::scan))]
pub fn holds_another(holders: [u8; STORE_PLACES], process: u8, store: u8) -> bool
    ensures { result ≡ holds_another holders process store }
{
    for (s, holder) in holders.iter().enumerate() {
        if *holder == process && s != usize::from(store) {
            return true;
        }
    }
    false
}

// Whether a take has the wrong turn, by the set of those that took its store and the turn of its
// process's last accepted take.
#[tactic(auto, unfolding(crate::specs::Refusal::wrong_turn))]
fn wrong_turn(takers: u16, latest: u8, e: Entry) -> bool
    ensures { result ≡ wrong_turn takers latest e }
{
    e.turn < latest || e.turn == latest && sets::has(takers, e.process)
}

// The answer to a take within its limits.
#[tactic(auto, unfolding(log_entry::specs::Refusal::first_refusal))]
pub fn take_refusal(holders: [u8; STORE_PLACES], takers: u16, latest: u8, e: Entry) -> Answer
    ensures { result ≡ first_refusal (take_checks holders takers latest e) }
{
    if holds_another(holders, e.process, e.store) {
        return Err(Refusal::HoldsAnother);
    }
    if wrong_turn(takers, latest, e) {
        return Err(Refusal::WrongTurn);
    }
    Ok(())
}
