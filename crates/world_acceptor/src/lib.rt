// What an acceptor does with a prepare and an accept, in the slot of the instance.
#![tactic(auto)]

ghost use Rattle.std.specs.Prelude.{◌≡◌};
ghost use Rattle.model_protocol.specs.Acceptor.{accepting, accepts, promises, promising};
ghost use Rattle.model_protocol.specs.World.{empty_slot};

use model_protocol::{AcceptorSlot, Batch};

// Whether a prepare of the ballot does something.
pub fn promises(x: AcceptorSlot, ballot: u8) -> bool
    ensures { result ≡ promises x ballot }
{
    x.promised < ballot
}

// It promises the ballot.
pub fn promising(mut x: AcceptorSlot, ballot: u8) -> AcceptorSlot
    ensures { result ≡ promising x ballot }
{
    x.promised = ballot;
    x
}

// Whether an accept of the ballot does something.
pub fn accepts(x: AcceptorSlot, ballot: u8) -> bool
    ensures { result ≡ accepts x ballot }
{
    x.promised <= ballot
}

// It promises and accepts the ballot with its batch.
pub fn accepting(ballot: u8, batch: Batch) -> AcceptorSlot
    ensures { result ≡ accepting ballot batch }
{
    AcceptorSlot {
        promised: ballot,
        ballot: ballot,
        batch: batch,
    }
}
