// The program `finish` from the bytes that it reads to the bytes that it prints.
#![tactic(auto)]

ghost use Rattle.finish_run.specs.Printed.{PrintsFed};

use finish_list::LIST_BYTES;
use text_ascii::Page;
use world_input::Input;

// No output is longer: one list.
pub const OUTPUT_BYTES: usize = LIST_BYTES;

// What is printed for the bytes that were fed: the first bytes of the buffer, as many as the answer
// says.
pub fn output_of(input: Input, out: &mut [u8; OUTPUT_BYTES]) -> usize
    ensures { PrintsFed input out.new result }
{
    let session = world_run::run_fed(input);
    let mut page = Page { bytes: out, at: 0 };
    finish_list::put_finishing(&mut page, &session.world);
    page.at
}
