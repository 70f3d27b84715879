// The limits of what a coordinator holds. `specs/Limits.antt` has the same numbers for the
// contracts.
// The acceptors that a set has a bit for.
pub(crate) const SET_PLACES: u8 = 8;
