// Runs `finish` on what a reader gives, and prints to a writer.
#![tactic(auto)]

ghost use Rattle.text_io.specs.Writing.{WasWritten};
ghost use Rattle.finish_io.specs.Exchange.{Answered, AnsweredOf};

pub use finish_run::OUTPUT_BYTES;
use std::io::{Read, Write};
use text_io::Program;
use world_input::{Asked, Input};

// The input is read in pieces of at most this size.
const PIECE_BYTES: usize = 4096;

// Said where the output could not be written.
const FAILED: &[u8] = b"finish: the output could not be written\n";

// What was read, how many bytes of the buffer were printed, and whether the writer took them all.
pub type Exchange = text_io::Exchange<Asked>;

struct Finish;

impl Program<OUTPUT_BYTES> for Finish {
    ghost use Rattle.finish_run.specs.Printed.{PrintsList};

    type Session = Asked;

    ghost prints = { PrintsList };

    fn output_of(input: &Input, out: &mut [u8; OUTPUT_BYTES]) -> usize {
        finish_run::output_of(*input, out)
    }

    ghost within = { λ bytes buffer used p. (p.prints.count, p.prints.counted) };
}

// The input is read as `world` reads it, in pieces of its own. The output stands in the buffer,
// which is lent. README speaks of the function that runs each program, so each has one; what they
// share is in text_io.
pub fn run<R: Read, W: Write, E: Write>(
    reader: &mut R,
    output: &mut W,
    errors: &mut E,
    out: &mut [u8; OUTPUT_BYTES],
) -> Exchange
    ensures answered { Answered result out.new }
    ensures given { AnsweredOf (R.remaining reader.old) (R.remaining reader.new) result out.new }
    ensures written { WasWritten (W.contents output.old) (W.contents output.new) out.new result.printed result.is_written }
{
    let mut piece = [0; PIECE_BYTES];
    let reading = text_io::read_all(reader, &mut piece);
    text_io::answer::<Finish, _, _, _>(reading, output, errors, out, FAILED)
}
