// The world's steps, taken in place.
ghost use Rattle.std.specs.Prelude.{◌≡◌};
ghost use Rattle.model_protocol.specs.Step.{step_of};
ghost use Rattle.world_engine.specs.Commands.{answers_in, carried_out, world_after};
ghost use Rattle.model_steps.specs.Commands.{commands_in};

use crate::{plan, send, store};
use log_entry::refusal::{self, Answer};
use model_protocol::{Beside, Change, Parts, Stepped, World};
use model_steps::limits::COMMAND_PLACES;
use model_steps::{Command, Commands, Step};
use world_fresh::no_message;
use world_parts::place;

// The room in which steps are planned, one after the other. The compiler clears the room of a
// function whenever it is called, so it is made once and lent. What stands in it at first is not
// looked at.
fn room(w: &World) -> Change
    ensures { result.parts.sent ≡ w.now.sent }
{
    Change {
        answer: Ok(()),
        parts: Parts {
            acceptors: w.acceptors,
            sent: w.sent,
            down: w.down,
            coordinator: w.coordinators[0],
            slot: w.slots[0],
            process: w.processes[0],
            message: no_message(),
        },
        count: 0,
        message: no_message(),
        beside: Beside::Nothing,
    }
}

// The command is carried out in the world, and answered.
fn carry_out(w: &mut World, o: Command, change: &mut Change) -> Answer
    ensures world { w.new ≡ (carried_out w.old o).world }
    ensures answer { result ≡ (carried_out w.old o).answer }
{
    let s = o?;
    let from = usize::from(place::message_at(s));
    let delivered = w.messages[from];
    let at = place::places(s, delivered);
    let message = store::message_of(w, s, delivered, at);
    store::take_parts(w, at, message, &mut change.parts);
    plan::change(s, change);
    store::put_back(w, at, from, change);
    send::send(w, change.count, &change.message);
    change.answer
}

// The world after the commands, one after the other. The answers to them are stored in the buffer.
pub fn advance(mut w: World, commands: Commands, answers: &mut [u8; COMMAND_PLACES]) -> World
    ensures value { result ≡ world_after w (commands_in commands) }
    ensures answers_after { answers.new ≡ answers_in answers.old w commands }
{
    let mut change = room(&w);
    for (k, o) in commands.as_slice().iter().enumerate() {
        answers[k] = refusal::number(carry_out(&mut w, *o, &mut change));
    }
    w
}

// One step. The program takes all at once; this is for a host that takes them one by one.
pub fn step(mut w: World, s: Step) -> Stepped
    ensures { result ≡ step_of w s }
{
    let mut change = room(&w);
    let answer = carry_out(&mut w, Ok(s), &mut change);
    Stepped { world: w, answer }
}
