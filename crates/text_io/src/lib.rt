// The pieces of an input, and the programs that answer what they read.
#![tactic(auto)]

ghost use Rattle.std.specs.Prelude.{ℕ, List, ◌<◌, ◌≡◌, cond, take};
ghost use Rattle.std.specs.Io.KnownBytes.{Consumes};
ghost use Rattle.std.specs.Process.{exit_status};
ghost use Rattle.io.specs.Counts.{IsPrefixLen};
ghost use Rattle.text_io.specs.Exchange.{PrintsFed, PrintsRead};
ghost use Rattle.text_io.specs.Reading.{More, MoreOf, WasRead, WasReadOf, max_pieces};
ghost use Rattle.text_io.specs.Writing.{WasWritten};

use std::io::{Read, Write};
use std::process::ExitCode;
use text_lines::{Input, Session};

pub mod files;

// The reading ends after this many pieces, which no input has.
pub const MAX_PIECES: u64 = 9223372036854775808;

// An input as far as it is read: how many pieces it was fed, and how many bytes the last one had.
#[derive(Clone, Copy)]
pub struct Reading<S> {
    pub input: Input<S>,
    pub pieces: u64,
    pub last: usize,
}

// What was read, how many bytes of the buffer were printed, and whether the writer took them all:
// no value stands beside that.
#[derive(Clone, Copy)]
pub struct Exchange<S> {
    pub reading: Reading<S>,
    pub printed: usize,
    pub is_written: bool,
}

impl<S> Exchange<S> {
    // The status that a program ends with: 1 if the output could not be written.
    pub fn status(&self) -> ExitCode
        ensures { exit_status result ≡ cond self.now.is_written 0 1 }
    {
        ExitCode::from(u8::from(!self.is_written))
    }
}

// What a program prints for the bytes that its session was fed.
pub trait Program<const N: usize> {
    type Session: Session;

    // Of the bytes of an input, the first bytes of a buffer are what is printed, so many.
    ghost prints: { List ℕ → List ℕ → ℕ → Type 0 };

    // The first bytes of the buffer, as many as the answer says.
    fn output_of(input: &Input<Self::Session>, out: &mut [u8; N]) -> usize
        ensures { PrintsFed Self.Session.state Self.Session.over Self.Session.step Self.Session.first prints input.now out.new result };

    ghost within: { (bytes buffer : List ℕ) (used : ℕ) → prints bytes buffer used → IsPrefixLen used buffer };
}

// One piece of what a reader gives: the first bytes of the buffer, as many as the answer says.
// None are left where the input has ended, or where the reading failed.
pub fn read_piece<R: Read>(reader: &mut R, buffer: &mut [u8]) -> usize
    ensures piece { IsPrefixLen result buffer.new }
    ensures bytes { Consumes (R.remaining reader.old) (R.remaining reader.new) (take result buffer.new) }
{
    match reader.read(buffer) {
        Ok(got) => got,
        Err(_) => 0,
    }
}

// Fed one more piece, read into the buffer.
fn read_more<S: Session, R: Read>(reader: &mut R, buffer: &mut [u8], reading: &mut Reading<S>)
    requires { reading.old.pieces < max_pieces }
    ensures more { More S.state S.over S.step reading.old reading.new }
    ensures given { MoreOf S.state S.over S.step (R.remaining reader.old) (R.remaining reader.new) reading.old reading.new }
{
    let got = read_piece(reader, buffer);
    reading.input.feed(&buffer[..got]);
    reading.pieces += 1;
    reading.last = got;
}

// Fed all pieces, up to the end of the input or to line 1,001.
pub fn read_all<S: Session, R: Read>(reader: &mut R, buffer: &mut [u8]) -> Reading<S>
    ensures read { WasRead S.state S.over S.step S.first result }
    ensures given { WasReadOf S.state S.over S.step S.first (R.remaining reader.old) (R.remaining reader.new) result }
{
    let mut reading = Reading {
        input: Input::fresh(),
        pieces: 0,
        last: 0,
    };
    for _ in 0..MAX_PIECES {
        read_more(reader, buffer, &mut reading);
        let none_left = reading.last == 0;
        if none_left || reading.input.is_over() {
            return reading;
        }
    }
    reading
}

// Writes the first bytes of a buffer, and answers whether the writer took them all. Where it did
// not, that is said to the writer of errors.
fn print<W: Write, E: Write>(
    output: &mut W,
    errors: &mut E,
    out: &[u8],
    count: usize,
    failed: &[u8],
) -> bool
    requires { IsPrefixLen count out.now }
    ensures { WasWritten (W.contents output.old) (W.contents output.new) out.now count result }
{
    if output.write_all(&out[..count]).is_ok() {
        return true;
    }
    let _ = errors.write_all(failed);
    false
}

// Prints what a program says of an input that was read to its end.
pub fn answer<P: Program<N>, W: Write, E: Write, const N: usize>(
    reading: Reading<P::Session>,
    output: &mut W,
    errors: &mut E,
    out: &mut [u8; N],
    failed: &[u8],
) -> Exchange<P::Session>
    ensures reading { result.reading ≡ reading }
    ensures prints { PrintsRead P.Session.state P.Session.over P.Session.step P.Session.first P.prints result out.new }
    ensures written { WasWritten (W.contents output.old) (W.contents output.new) out.new result.printed result.is_written }
{
    let printed = P::output_of(&reading.input, out).min(N);
    let is_written = print(output, errors, out, printed, failed);
    Exchange {
        reading,
        printed,
        is_written,
    }
}
