// The lines that the program `world` reads, as what they ask of the world.
#![tactic(auto)]

ghost use Rattle.std.specs.Prelude.{List, [], ◌≡◌};
ghost use Rattle.world_input.specs.State.{command_at, held_command, over, with_line};
ghost use Rattle.model_steps.specs.Commands.{Command, commands_in};

use log_entry::refusal::Refusal;
use model_steps::limits::COMMAND_PLACES;
use model_steps::{Command, Commands};
use text_lines::{Line, MAX_LINES, Session};

// What the lines so far ask for.
#[derive(Clone, Copy)]
pub struct Asked {
    pub commands: Commands,
}

// What the lines so far ask for, and the line that is gathered.
pub type Input = text_lines::Input<Asked>;

// What the line asks for.
fn command_of(line: &Line) -> Command
    ensures { result ≡ held_command line.now }
{
    let Some(bytes) = line.as_slice() else {
        return Err(Refusal::Unreadable);
    };
    let reading = text_step::read_step(bytes);
    if text_entry::is_outside(&reading) {
        return Err(Refusal::OutsideLimits);
    }
    // docs/DECISIONS.md names this form for the place, so it is no function that `plain` shares.
    let Ok(step) = reading else {
        return Err(Refusal::Unreadable);
    };
    Ok(step)
}

// What the line asks for, after `count` others.
fn command_at(count: usize, line: &Line) -> Command
    ensures { result ≡ command_at count line.now }
{
    if usize::from(MAX_LINES) <= count {
        return Err(Refusal::NoPlace);
    }
    command_of(line)
}

impl Session for Asked {
    ghost State = { List Command };

    ghost state = { λ a. commands_in a.commands };

    ghost first = { [] };

    ghost over = { over };

    ghost step = { with_line };

    fn fresh() -> Asked {
        let none = Err(Refusal::Unreadable);
        Asked {
            commands: Commands {
                count: 0,
                commands: [none; COMMAND_PLACES],
            },
        }
    }

    // Whether line 1,001 has been read, which ends the reading.
    fn is_over(&self) -> bool {
        usize::from(MAX_LINES) < self.commands.as_slice().len()
    }

    fn take(&mut self, line: &Line) {
        let command = command_at(self.commands.as_slice().len(), line);
        self.commands.push(command);
    }
}
