// A step of the world as a value, whatever its numbers.
#![tactic(auto)]

ghost use Rattle.std.specs.Prelude.{[], length, ◌++◌, ◌<◌, ◌≡◌, ◌∷◌};
ghost use Rattle.model_steps.specs.Commands.{commands_in, most_commands, pushed};

use limits::{COMMAND_PLACES, COMMANDS};
use log_entry::Entry;
use log_entry::refusal::Refusal;

pub mod limits;

#[derive(Clone, Copy)]
pub enum Role {
    Acceptor,
    Coord,
    Proc,
}

// The steps of document 01, and `follow` and `back` of document 02. `take` and `vote` are a
// request: the entry, and the coordinator in `to`.
#[derive(Clone, Copy)]
pub enum Step {
    Setup { acceptors: u8 },
    Request { entry: Entry, to: u8 },
    Open { coord: u8, inst: u8, ballot: u8 },
    Propose { coord: u8, inst: u8, ballot: u8 },
    Deliver { msg: u8 },
    Tell { coord: u8, process: u8, tx: u8 },
    Restore { coord: u8, process: u8 },
    Follow { coord: u8, process: u8, tx: u8 },
    Crash { role: Role, id: u8 },
    Back { process: u8, turn: u8 },
}

// What a line asks for: a step to be taken, or only the answer to a line that is no step.
pub type Command = Result<Step, Refusal>;

// What the lines of an input ask for: the first `count`. Nothing is on the heap.
#[derive(Clone, Copy)]
pub struct Commands {
    pub count: u16,
    pub commands: [Command; COMMAND_PLACES],
}

impl Commands {
    // Adds a command. Behind the last place there is room for none.
    #[tactic(auto, unfolding(crate::specs::Commands::pushed))]
    pub fn push(&mut self, command: Command)
        ensures pushed { self.new ≡ pushed self.old command }
        ensures listed { length (commands_in self.old) < most_commands → commands_in self.new ≡ commands_in self.old ++ command ∷ [] }
    {
        if self.count < COMMANDS {
            self.commands[usize::from(self.count)] = command;
            self.count += 1;
        }
    }

    // All of the places where the count is above them.
    pub fn as_slice(&self) -> &[Command]
        ensures { result.now ≡ commands_in self.now }
    {
        &self.commands[..usize::from(self.count).min(COMMAND_PLACES)]
    }
}
