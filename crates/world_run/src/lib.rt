// The program `world` from the bytes that it reads to the bytes that it prints.
#![tactic(auto)]

ghost use Rattle.model_steps.specs.Commands.{commands_in};
ghost use Rattle.world_run.specs.Ran.{AgreedOnFed, PrintsFed, Ran};

use model_protocol::World;
use model_steps::Commands;
use model_steps::limits::COMMAND_PLACES;
use text_ascii::Page;
use text_lines::{ANSWERED_LINES, Answers};
use text_report::ANSWER_BYTES;
use world_engine::advance::advance;
use world_fresh::fresh_world;
use world_input::Input;
use world_report::WORLD_BYTES;

// The world, and the answers to the lines.
#[derive(Clone, Copy)]
pub struct Session {
    pub world: World,
    pub answers: Answers,
}

// The fresh world after these commands, and the answers to them.
pub fn run(commands: Commands) -> Session
    ensures { Ran (commands_in commands) result }
{
    let count = commands.count.min(ANSWERED_LINES);
    let mut numbers = [0; COMMAND_PLACES];
    let world = advance(fresh_world(), commands, &mut numbers);
    let answers = Answers {
        count: count,
        answers: numbers,
    };
    Session {
        world: world,
        answers: answers,
    }
}

// The session of the bytes that were fed, in whatever pieces they came.
pub fn run_fed(input: Input) -> Session
    ensures { AgreedOnFed input result }
{
    let asked = input.finish();
    run(asked.commands)
}

// No output is longer: 1,001 answers, and the lines of a world. `From` is not for constants, so
// they widen by `as`.
pub const OUTPUT_BYTES: usize = ANSWERED_LINES as usize * ANSWER_BYTES + WORLD_BYTES;

// What is printed for the bytes that were fed: the first bytes of the buffer, as many as the answer
// says.
pub fn output_of(input: Input, out: &mut [u8; OUTPUT_BYTES]) -> usize
    ensures { PrintsFed input out.new result }
{
    let session = run_fed(input);
    let mut page = Page { bytes: out, at: 0 };
    text_report::put_answers(&mut page, &session.answers);
    world_report::put_world(&mut page, &session.world);
    page.at
}
