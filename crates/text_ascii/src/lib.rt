// Numbers and words as ASCII bytes, put on a page one behind the other.
#![tactic(auto)]

ghost use Rattle.std.specs.Prelude.{◌<◌, ◌≤◌, ◌≡◌, [], ◌∷◌};
ghost use Rattle.text_ascii.specs.Decimal.{decimal as decimal_bytes};
ghost use Rattle.text_ascii.specs.Hex.{hex_digit, hex as hex_bytes};
ghost use Rattle.text_ascii.specs.Page.{Puts};

use log_entry::limits::{UPDATE_BYTES, Update};

// A list is two hexadecimal digits, an update two for each of its bytes.
pub const LIST_DIGITS: u32 = 2;

// `From` is not for constants, so this widens by `as`.
pub const UPDATE_DIGITS: u32 = 2 * UPDATE_BYTES as u32;
// An update had as many earlier.
pub const EARLIER_DIGITS: u32 = 8;

// A page in a lent buffer, and the place where the next byte goes. What has no room is left out.
#[derive(Drop)]
pub struct Page<'a> {
    pub bytes: &'a mut [u8],
    pub at: usize,
}

impl Page<'_> {
    pub fn byte(&mut self, b: u8)
        ensures { Puts self.old self.new (b ∷ []) }
    {
        if self.at < self.bytes.len() {
            self.bytes[self.at] = b;
            self.at += 1;
        }
    }

    pub fn word(&mut self, bytes: &[u8])
        ensures { Puts self.old self.new bytes.now }
    {
        for b in bytes {
            self.byte(*b);
        }
    }

    // A digit is narrowed by `as`: it is below 10.
    pub fn decimal(&mut self, n: u32)
        ensures { Puts self.old self.new (decimal_bytes n) }
    {
        if n < 10 {
            self.byte(b'0' + n as u8);
            return;
        }
        self.decimal(n / 10);
        self.byte(b'0' + (n % 10) as u8);
    }

    // The last hexadecimal digits of a number, as many as asked.
    pub fn hex(&mut self, digits: u32, n: Update)
        ensures { Puts self.old self.new (hex_bytes digits n) }
    {
        if digits == 0 {
            return;
        }
        self.hex(digits - 1, n / 16);
        self.byte(hex_digit(n % 16));
    }
}

// The digit is narrowed by `as`: it is below 16.
fn hex_digit(d: Update) -> u8
    requires { d < 16 }
    ensures { result ≡ hex_digit d }
{
    if d < 10 {
        return b'0' + d as u8;
    }
    b'a' + (d - 10) as u8
}
