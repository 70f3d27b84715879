// The numbers of messages.
ghost use Rattle.std.specs.Prelude.{◌≡◌, ltb, ◌-◌};
ghost use Rattle.model_steps.specs.Limits.{messages};

use model_steps::limits::MESSAGES;

// Whether fewer than n message numbers are left.
pub fn lacks_numbers(sent: u8, n: u8) -> bool
    ensures { result ≡ ltb (messages - sent) n }
{
    MESSAGES.saturating_sub(sent) < n
}
