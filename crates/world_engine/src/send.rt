// The messages that a step sends.
ghost use Rattle.std.specs.Prelude.{◌≡◌, ◌≤◌, ◌-◌};
ghost use Rattle.model_steps.specs.Limits.{messages};
ghost use Rattle.model_protocol.specs.Send.{addressed, copy_of, send_to_all};

use model_protocol::{Message, World};

// The same message, to or from another acceptor; as it is if it names none.
fn addressed(m: Message, to: u8) -> Message
    ensures { result ≡ addressed m to }
{
    match m {
        Message::Prepare { inst, ballot, .. } => Message::Prepare {
            inst,
            ballot,
            acceptor: to,
        },
        Message::Accept {
            inst,
            ballot,
            batch,
            ..
        } => Message::Accept {
            inst,
            ballot,
            acceptor: to,
            batch,
        },
        Message::Promise {
            inst,
            ballot,
            accepted,
            batch,
            ..
        } => Message::Promise {
            inst,
            ballot,
            acceptor: to,
            accepted,
            batch,
        },
        Message::Accepted { inst, ballot, .. } => Message::Accepted {
            inst,
            ballot,
            acceptor: to,
        },
        _ => m,
    }
}

// The i-th of the messages that go to all: the message itself, and then the same to acceptors 1, 2
// and so on.
fn copy_of(m: &Message, i: u8) -> Message
    ensures { result ≡ copy_of m.now i }
{
    if i == 0 { *m } else { addressed(*m, i) }
}

// So many messages go out.
#[tactic(auto, using(crate::proofs::SendLaws::one_sent))]
pub(crate) fn send(w: &mut World, count: u8, m: &Message)
    requires { count ≤ messages - w.old.sent }
    ensures { w.new ≡ send_to_all w.old count (copy_of m.now) }
{
    for i in 0..count {
        let n = w.sent;
        w.messages[usize::from(n)] = copy_of(m, i);
        w.sent = n + 1;
    }
}
