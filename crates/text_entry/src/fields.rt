// Names and fields of a line, read one after the other. Each function answers what is left of the
// line behind them, or nothing where they do not read.
ghost use Rattle.std.specs.Prelude.{◌≡◌};
ghost use Rattle.text_entry.specs.Decimals.{decimal_field, decimal_or};
ghost use Rattle.text_entry.specs.Fields.{keyed, named as named_fields};
ghost use Rattle.text_entry.specs.Read.{after, part, read_field};
ghost use Rattle.text_entry.specs.Seen.{capped, left, seen};

use crate::value;
use crate::value::Number;

// A step's name, as a line begins with it.
pub fn named<'a>(line: &'a [u8], name: &[u8]) -> Option<&'a [u8]>
    ensures { left result ≡ after (named_fields name.now) (part 0 line.now) }
{
    let step = value::after(line, b"do=")?;
    value::after(step, name)
}

// A key.
pub fn keyed<'a>(rest: &'a [u8], key: &[u8]) -> Option<&'a [u8]>
    ensures { left result ≡ after (keyed key.now) (part 0 rest.now) }
{
    let space = value::after(rest, b" ")?;
    let name = value::after(space, key)?;
    value::after(name, b"=")
}

// A field with a decimal.
pub fn decimal<'a>(rest: &'a [u8], key: &[u8]) -> Option<(Number, &'a [u8])>
    ensures { seen result ≡ capped (read_field (decimal_field key.now) (part 0 rest.now)) }
{
    let found = keyed(rest, key)?;
    value::decimal(found)
}

// A field with a decimal that a line may be without, and the number that the line then means.
pub fn decimal_or<'a>(rest: &'a [u8], key: &[u8], absent: u8) -> Option<(Number, &'a [u8])>
    ensures { seen result ≡ capped (read_field (decimal_or key.now absent) (part 0 rest.now)) }
{
    match keyed(rest, key) {
        Some(found) => value::decimal(found),
        None => Some((Number::from(absent), rest)),
    }
}
