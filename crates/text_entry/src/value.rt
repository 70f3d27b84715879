// Values that stand at the front of what is left of a line. Each function answers the value and
// what is left behind it, or nothing where it does not read.
ghost use Rattle.std.specs.Prelude.{◌≤◌, ◌≡◌};
ghost use Rattle.text_ascii.specs.Hex.{list_digits, update_digits};
ghost use Rattle.text_entry.specs.Fields.{in_decimal, in_hex};
ghost use Rattle.text_entry.specs.Kinds.{update_form};
ghost use Rattle.text_entry.specs.Read.{after as after_reading, part, read_digits, read_value};
ghost use Rattle.text_entry.specs.Seen.{capped, first_digit, first_hex_digit, found, left, seen};

use log_entry::limits::Update;
use text_ascii::{EARLIER_DIGITS, LIST_DIGITS, UPDATE_DIGITS};

// A number of a line. The widest one is an update.
pub type Number = Update;

// A byte holds the numbers below this one.
pub const BYTE_NUMBERS: Number = 256;

// What is left behind these bytes.
#[tactic(auto, using(crate::proofs::Words::stripped))]
pub fn after<'a>(rest: &'a [u8], word: &[u8]) -> Option<&'a [u8]>
    ensures { left result ≡ after_reading word.now (part 0 rest.now) }
{
    rest.strip_prefix(word)
}

// A digit.
fn digit(rest: &[u8]) -> Option<(Number, &[u8])>
    ensures { found result ≡ first_digit rest.now }
{
    match rest {
        [c @ b'0'..=b'9', behind @ ..] => Some((Number::from(*c - b'0'), behind)),
        _ => None,
    }
}

// All digits in front.
fn digits(mut rest: &[u8]) -> (Number, &[u8])
    ensures { part result.0 result.1.now ≡ capped (read_digits 0 rest.now) }
{
    let mut number: Number = 0;
    // One digit after the other: what is none ends the loop.
    while let Some((digit, behind)) = digit(rest) {
        number = (number * 10 + digit).min(BYTE_NUMBERS);
        rest = behind;
    }
    (number, rest)
}

// A decimal.
pub fn decimal(rest: &[u8]) -> Option<(Number, &[u8])>
    ensures { seen result ≡ capped (read_value in_decimal rest.now) }
{
    let (first, behind) = digit(rest)?;
    if first == 0 && digit(behind).is_some() {
        return None;
    }
    Some(digits(rest))
}

// A lower-case hexadecimal digit.
fn hex_digit(rest: &[u8]) -> Option<(Number, &[u8])>
    ensures { found result ≡ first_hex_digit rest.now }
{
    let (c, behind) = rest.split_first()?;
    match *c {
        b'0'..=b'9' => Some((Number::from(*c - b'0'), behind)),
        b'a'..=b'f' => Some((Number::from(*c - b'a') + 10, behind)),
        _ => None,
    }
}

// A given count of hexadecimal digits.
fn hex(mut rest: &[u8], count: u32) -> Option<(Number, &[u8])>
    requires { count ≤ update_digits }
    ensures { seen result ≡ read_value (in_hex count) rest.now }
{
    let mut number: Number = 0;
    for _ in 0..count {
        let (digit, behind) = hex_digit(rest)?;
        number = number * 16 + digit;
        rest = behind;
    }
    Some((number, rest))
}

// The digits of a list.
pub fn list_digits(rest: &[u8]) -> Option<(Number, &[u8])>
    ensures { seen result ≡ read_value (in_hex list_digits) rest.now }
{
    hex(rest, LIST_DIGITS)
}

// The digits of an update, or else as many as it had earlier.
pub fn update_digits(rest: &[u8]) -> Option<(Number, &[u8])>
    ensures { seen result ≡ read_value update_form rest.now }
{
    hex(rest, UPDATE_DIGITS).or_else(|| hex(rest, EARLIER_DIGITS))
}
