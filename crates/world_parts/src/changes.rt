// Changes of the parts, made in the room in which the parts stand: what is said here of a change is
// put beside them, and they are not copied.
ghost use Rattle.std.specs.Prelude.{◌≡◌};
ghost use Rattle.log_entry.specs.Refusal.{accepted};
ghost use Rattle.model_protocol.specs.Message.{no_message};
ghost use Rattle.model_protocol.specs.Change.{gives_replay, keeps_follow, learns, sending, starts_anew, takes_replay, without_messages};

use log_entry::refusal::Answer;
use model_protocol::{Batch, Beside, Change, Message};
use world_fresh::no_message;

// The parts are these, and nothing is sent.
pub fn without_messages(change: &mut Change, answer: Answer)
    ensures { change.new ≡ without_messages change.old.parts answer }
{
    change.answer = answer;
    change.count = 0;
    change.message = no_message();
    change.beside = Beside::Nothing;
}

// The parts are these now, and `count` messages are sent.
pub fn sending(change: &mut Change, count: u8, m: Message)
    ensures { change.new ≡ sending change.old.parts count m }
{
    change.answer = Ok(());
    change.count = count;
    change.message = m;
    change.beside = Beside::Nothing;
}

// The parts are these now, and this is done beside them.
fn with_beside(change: &mut Change, beside: Beside)
    ensures { change.new ≡ record { answer = accepted; parts = change.old.parts; count = 0; message = no_message; beside = beside } }
{
    change.answer = Ok(());
    change.count = 0;
    change.message = no_message();
    change.beside = beside;
}

// The parts are these now, and the coordinator's log is to be fed the batch.
pub fn learns(change: &mut Change, batch: Batch)
    ensures { change.new ≡ learns change.old.parts batch }
{
    with_beside(change, Beside::Learns(batch));
}

// The parts are these now, and a restore is sent, with its store's replay.
pub fn gives_replay(change: &mut Change, m: Message)
    ensures { change.new ≡ gives_replay change.old.parts m }
{
    sending(change, 1, m);
    change.beside = Beside::GivesReplay;
}

// The parts are these now, and the process takes the replay of the message delivered.
pub fn takes_replay(change: &mut Change)
    ensures { change.new ≡ takes_replay change.old.parts }
{
    with_beside(change, Beside::TakesReplay);
}

// The parts are these now, and the process takes the follow delivered.
pub fn keeps_follow(change: &mut Change)
    ensures { change.new ≡ keeps_follow change.old.parts }
{
    with_beside(change, Beside::KeepsFollow);
}

// The parts are these now, and the process starts anew.
pub fn starts_anew(change: &mut Change)
    ensures { change.new ≡ starts_anew change.old.parts }
{
    with_beside(change, Beside::StartsAnew);
}
