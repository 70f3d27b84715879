// Refusals 3 to 7 in the order in which they are tried.
ghost use Rattle.std.specs.Prelude.{◌≡◌};
ghost use Rattle.world_parts.specs.Refusal.{first_of};

use log_entry::refusal::{Answer, Refusal};

// Whether the condition of each refusal after 2 holds: plain tests, with no value beside them.
#[derive(Clone, Copy)]
pub struct Tests {
    // 4: the message was not sent yet.
    pub unsent: bool,
    // 3: a party is down.
    pub down: bool,
    // 5: a condition of the step is not met.
    pub unmet: bool,
    // 6: no message number or no place in the queue is left.
    pub full: bool,
    // 7: the vote is ill-formed.
    pub ill: bool,
}

// The answer: the first refusal whose condition holds.
#[tactic(auto, unfolding(log_entry::specs::Refusal::first_refusal))]
pub fn first_of(t: Tests) -> Answer
    ensures { result ≡ first_of t }
{
    if t.unsent {
        return Err(Refusal::NotSentYet);
    }
    if t.down {
        return Err(Refusal::PartyDown);
    }
    if t.unmet {
        return Err(Refusal::NotMet);
    }
    if t.full {
        return Err(Refusal::NoPlace);
    }
    if t.ill {
        return Err(Refusal::IllFormedVote);
    }
    Ok(())
}
