// What a process hears, takes and believes.
#![tactic(auto)]

ghost use Rattle.std.specs.Prelude.{◌≡◌};
ghost use Rattle.model_protocol.specs.Message.{said_outcome, said_tx, said_update};
ghost use Rattle.model_protocol.specs.Process.{believes, hearing_outcome, taking, takes_follow, takes_restore, with_follow};

use log_entry::limits::TRANSACTIONS;
use log_entry::sets;
use log_votes::Outcome;
use model_protocol::{Followed, Follows, Heard, Message, Process};

// Whether the process believes that it holds the store.
pub fn believes(p: Process, store: u8) -> bool
    ensures { result ≡ believes p store }
{
    0 < p.position && p.store == store
}

// It heard the outcome of the transaction.
pub fn hearing(mut p: Process, tx: u8, outcome: Outcome) -> Process
    ensures { result ≡ hearing_outcome p tx outcome }
{
    if tx < TRANSACTIONS {
        p.heard[usize::from(tx)] = Heard { outcome };
    }
    p
}

// Whether it takes a restore for this turn with this position.
pub fn takes_restore(p: Process, turn: u8, position: u8) -> bool
    ensures { result ≡ takes_restore p turn position }
{
    p.turn == turn && p.position < position
}

// It takes the restore.
pub fn taking(mut p: Process, store: u8, position: u8, running: u32) -> Process
    ensures { result ≡ taking p store position running }
{
    p.store = store;
    p.position = position;
    p.running = running;
    p.followed = 0;
    p
}

// Whether it takes a follow of the transaction for the store.
pub fn takes_follow(p: Process, store: u8, tx: u8) -> bool
    ensures { result ≡ takes_follow p store tx }
{
    believes(p, store) && sets::has(p.running, tx) && !sets::has(p.followed, tx)
}

// The transaction that a message names, and what it says of it: 0 and open where it says nothing.
fn said_of(m: Message) -> (u8, Followed)
    ensures tx { result.0 ≡ said_tx m }
    ensures said { result.1 ≡ record { outcome = said_outcome m; update = said_update m } }
{
    match m {
        Message::Follow {
            tx,
            outcome,
            update,
            ..
        } => (tx, Followed { outcome, update }),
        Message::Tell { tx, outcome, .. } => (tx, Followed { outcome, update: 0 }),
        _ => (
            0,
            Followed {
                outcome: Outcome::Open,
                update: 0,
            },
        ),
    }
}

// The follows with that of the message.
pub fn with_follow(mut follows: Follows, m: Message) -> Follows
    ensures { result ≡ with_follow follows m }
{
    let (tx, said) = said_of(m);
    if tx < TRANSACTIONS {
        follows.of[usize::from(tx)] = said;
    }
    follows
}
