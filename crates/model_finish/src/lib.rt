// A way to finish: which coordinator can close its current instance, and the steps that close it.
// The definitions stand in specs/, and the proof that these steps close it in proofs/.
#![tactic(auto)]

// The coordinator, and the ballot that it opens. Ballot 0 if no coordinator can close an instance:
// the claims on `choice_of` speak of it so.
#[derive(Clone, Copy)]
pub struct Choice {
    pub coord: u8,
    pub ballot: u8,
}
