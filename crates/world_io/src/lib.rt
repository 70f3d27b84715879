// Runs `world` on what a reader gives, and prints to a writer.
#![tactic(auto)]

ghost use Rattle.text_io.specs.Writing.{WasWritten};
ghost use Rattle.world_io.specs.Exchange.{Answered, AnsweredOf};

use std::io::{Read, Write};
use text_io::Program;
use world_input::{Asked, Input};
pub use world_run::OUTPUT_BYTES;

// Said where the output could not be written.
const FAILED: &[u8] = b"world: the output could not be written\n";

// What was read, how many bytes of the buffer were printed, and whether the writer took them all.
pub type Exchange = text_io::Exchange<Asked>;

struct World;

impl Program<OUTPUT_BYTES> for World {
    ghost use Rattle.world_run.specs.Ran.{PrintsAgreed};

    type Session = Asked;

    ghost prints = { PrintsAgreed };

    fn output_of(input: &Input, out: &mut [u8; OUTPUT_BYTES]) -> usize {
        world_run::output_of(*input, out)
    }

    ghost within = { λ bytes buffer used p. (p.prints.count, p.prints.counted) };
}

// The pieces are read into the buffer one after the other, and then the output stands there. It is
// lent: nothing of its size is copied. README speaks of the function that runs each program, so
// each has one; what they share is in text_io.
pub fn run<R: Read, W: Write, E: Write>(
    reader: &mut R,
    output: &mut W,
    errors: &mut E,
    out: &mut [u8; OUTPUT_BYTES],
) -> Exchange
    ensures answered { Answered result out.new }
    ensures given { AnsweredOf (R.remaining reader.old) (R.remaining reader.new) result out.new }
    ensures written { WasWritten (W.contents output.old) (W.contents output.new) out.new result.printed result.is_written }
{
    let reading = text_io::read_all(reader, out);
    text_io::answer::<World, _, _, _>(reading, output, errors, out, FAILED)
}
