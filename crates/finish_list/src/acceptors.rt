// Which acceptors are up, and how many make a majority.
ghost use Rattle.std.specs.Prelude.{min, ◌≡◌, ◌<◌, ◌++◌, [], ◌∷◌, length};
ghost use Rattle.model_steps.specs.Limits.{most_acceptors};
ghost use Rattle.model_finish.specs.Such.{quorum, up_below};

use model_protocol::Down;
use model_protocol::limits::ACCEPTOR_PLACES;
use model_steps::Role;
use model_steps::limits::MOST_ACCEPTORS;
use std::marker::Model;
use world_messages::parties;

// The acceptors that are up, the lowest first: the first `count`. The places behind them are 0, so
// that the list says all of the row. Without that it could not be `Copy`.
#[derive(Clone, Copy)]
pub struct Up {
    pub ids: [u8; ACCEPTOR_PLACES],
    pub count: usize,
}

impl Model for Up {
    ghost use Rattle.std.specs.Prelude.{List, ℕ, ◌≡◌, ◌≤◌, ◌++◌, drop, length, refl, replicate, take};
    ghost use Rattle.std.proofs.Common.{arith, length-take-le, take-append-drop};
    ghost use Rattle.model_steps.specs.Limits.{most_acceptors};

    ghost Value = { List ℕ };

    ghost view = { λ u. take u.count u.ids };

    ghost invariant = { λ u. (u.count ≤ most_acceptors) × (length u.ids ≡ most_acceptors) × (drop u.count u.ids ≡ drop u.count (replicate most_acceptors 0)) };

    ghost inverse = { λ list. record { ids = list ++ drop (length list) (replicate most_acceptors 0); count = length list } };

    ghost inverse_ok = { λ u h. rw (length-take-le u.count u.ids (omega (arith, h.0, h.1)), ← h.2, take-append-drop u.count u.ids) refl };
}

impl Up {
    fn none() -> Up
        ensures { result ≡ [] }
    {
        Up {
            ids: [0; ACCEPTOR_PLACES],
            count: 0,
        }
    }

    fn push(&mut self, id: u8)
        requires { length self.old < most_acceptors }
        ensures { self.new ≡ self.old ++ id ∷ [] }
    {
        self.ids[self.count] = id;
        self.count += 1;
    }

    pub fn as_slice(&self) -> &[u8]
        ensures { result.now ≡ self.now }
    {
        &self.ids[..self.count]
    }
}

// m of n acceptors.
pub fn quorum(n: u8) -> u8
    ensures { result ≡ quorum n }
{
    n / 2 + 1
}

// Those of the first n acceptors that are up. There are at most five.
pub fn up_below(d: Down, n: u8) -> Up
    ensures { result ≡ up_below d (min n most_acceptors) }
{
    let mut up = Up::none();
    for a in 0..n.min(MOST_ACCEPTORS) {
        if !parties::is_down(d, Role::Acceptor, a) {
            up.push(a);
        }
    }
    up
}
