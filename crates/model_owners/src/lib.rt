// Who owns each ballot, by a table. A definition cannot name a constant of the code, so
// specs/Owners.antt has the same rows, and `owner` promises what they say.
#![tactic(auto)]

ghost use Rattle.std.specs.Prelude.{◌≡◌};
ghost use Rattle.model_owners.specs.Owners.{owner};

// Ballots in a row of the table.
const IN_ROW: usize = 16;

const ROWS: usize = 16;

// The coordinator that owns each ballot. Beside each row stand its ballots. Above the places stands
// what each adds to the row's first ballot. Entry 0 is unused.
const OWNERS: [[u8; IN_ROW]; ROWS] = [
    //  1  2  3  4  5  6  7  8  9 10 11 12 13 14 15
    [0, 1, 2, 0, 1, 2, 0, 1, 2, 0, 1, 2, 0, 1, 2, 0], // 0 to 15
    [1, 2, 0, 1, 2, 0, 1, 2, 0, 1, 2, 0, 1, 2, 0, 1], // 16 to 31
    [2, 0, 1, 2, 0, 1, 2, 0, 1, 2, 0, 1, 2, 0, 1, 2], // 32 to 47
    [0, 1, 2, 0, 1, 2, 0, 1, 2, 0, 1, 2, 0, 1, 2, 0], // 48 to 63
    [1, 2, 0, 1, 2, 0, 1, 2, 0, 1, 2, 0, 1, 2, 0, 1], // 64 to 79
    [2, 0, 1, 2, 0, 1, 2, 0, 1, 2, 0, 1, 2, 0, 1, 2], // 80 to 95
    [0, 1, 2, 0, 1, 2, 0, 1, 2, 0, 1, 2, 0, 1, 2, 0], // 96 to 111
    [1, 2, 0, 1, 2, 0, 1, 2, 0, 1, 2, 0, 1, 2, 0, 1], // 112 to 127
    [2, 0, 1, 2, 0, 1, 2, 0, 1, 2, 0, 1, 2, 0, 1, 2], // 128 to 143
    [0, 1, 2, 0, 1, 2, 0, 1, 2, 0, 1, 2, 0, 1, 2, 0], // 144 to 159
    [1, 2, 0, 1, 2, 0, 1, 2, 0, 1, 2, 0, 1, 2, 0, 1], // 160 to 175
    [2, 0, 1, 2, 0, 1, 2, 0, 1, 2, 0, 1, 2, 0, 1, 2], // 176 to 191
    [0, 1, 2, 0, 1, 2, 0, 1, 2, 0, 1, 2, 0, 1, 2, 0], // 192 to 207
    [1, 2, 0, 1, 2, 0, 1, 2, 0, 1, 2, 0, 1, 2, 0, 1], // 208 to 223
    [2, 0, 1, 2, 0, 1, 2, 0, 1, 2, 0, 1, 2, 0, 1, 2], // 224 to 239
    [0, 1, 2, 0, 1, 2, 0, 1, 2, 0, 1, 2, 0, 1, 2, 0], // 240 to 255
];

// The coordinator that the ballot belongs to.
#[tactic(auto, unfolding(crate::specs::Owners::owner, crate::specs::Owners::owners))]
pub fn owner(ballot: u8) -> u8
    ensures { result ≡ owner ballot }
{
    let at = usize::from(ballot);
    OWNERS[at / IN_ROW][at % IN_ROW]
}
