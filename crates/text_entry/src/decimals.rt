// Lines whose fields are decimals.
ghost use Rattle.std.proofs.Math.Option.{some};
ghost use Rattle.std.specs.Prelude.{Err, cond, eqb, length, ◌≡◌};
ghost use Rattle.text_entry.specs.declared.Unread.TheVariants.{Unreadable};
ghost use Rattle.text_entry.specs.Decimals.{byte_of, bytes_of, decimal_fields};
ghost use Rattle.text_entry.specs.Fields.{kind};
ghost use Rattle.text_entry.specs.Parts.{front, whole};
ghost use Rattle.text_entry.specs.Read.{part, read_kind};

use crate::value::Number;
use crate::{Unread, fields};

// The number as a byte, if it fits one.
pub fn byte(n: Number) -> Result<u8, Unread>
    ensures { result ≡ byte_of n }
{
    u8::try_from(n).map_err(|_| Unread::Outside)
}

// The numbers of fields with decimals, of these keys, that the rest of a line consists of.
fn numbers<const N: usize>(line: &[u8], keys: &[&[u8]]) -> Option<[Number; N]>
    requires { length keys.now ≡ N }
    ensures { result ≡ whole (front (decimal_fields keys.now) (part 0 line.now)) }
{
    let mut numbers = [0; N];
    let mut rest = line;
    for i in 0..N {
        let (number, behind) = fields::decimal(rest, keys[i])?;
        numbers[i] = number;
        rest = behind;
    }
    if rest.is_empty() { Some(numbers) } else { None }
}

// The numbers as bytes, if each fits one.
fn bytes<const N: usize>(numbers: [Number; N]) -> Result<[u8; N], Unread>
    ensures { result ≡ bytes_of (some numbers.entry) }
{
    let mut bytes = [0; N];
    for i in 0..N {
        bytes[i] = byte(numbers[i])?;
    }
    Ok(bytes)
}

// The decimals of a line of this name with fields of these keys. With another number of keys than
// of decimals no line reads.
pub fn decimals<const N: usize>(line: &[u8], name: &[u8], keys: &[&[u8]]) -> Result<[u8; N], Unread>
    ensures { result ≡ cond (eqb (length keys.now) N) (bytes_of (read_kind (kind name.now (decimal_fields keys.now)) line.now)) (Err Unreadable) }
{
    if keys.len() != N {
        return Err(Unread::Unreadable);
    }
    let Some(rest) = fields::named(line, name) else {
        return Err(Unread::Unreadable);
    };
    let numbers: Option<[Number; N]> = numbers(rest, keys);
    match numbers {
        Some(numbers) => bytes(numbers),
        None => Err(Unread::Unreadable),
    }
}
