// The commit log, document 01's plain log: it keeps the stores' votes, and decides.
#![tactic(auto)]

ghost use Rattle.std.specs.Prelude.{◌≡◌};
ghost use Rattle.log_entry.specs.Limits.{stores_with};
ghost use Rattle.log_core.specs.Log.{opened};
ghost use Rattle.log_core.specs.Replay.{no_replay};

use log_entry::Limit;
use log_entry::limits::{PROCESS_PLACES, STORE_PLACES, TRANSACTION_PLACES, Update};
use log_entry::refusal::Answer;
use log_votes::{Row, Tally};

pub mod decide;
pub mod enter;
pub mod follow;
pub mod group;
pub mod query;
pub mod refusal;
pub mod replays;

#[derive(Clone, Copy)]
pub struct Log {
    // By transaction.
    pub rows: [Row; TRANSACTION_PLACES],
    // By store, 0 if none. An array each for holders, turns and takers, since a take is tested
    // against the holders alone, and an entry is decided on its own store's takers.
    pub holders: [u8; STORE_PLACES],
    // By store: its holder's turn, 0 if none.
    pub turns: [u8; STORE_PLACES],
    // By store: the processes that took it, bit p for process p.
    pub takers: [u16; STORE_PLACES],
    // By process: the turn of its last accepted take, of any store; 0 if none.
    pub latest: [u8; PROCESS_PLACES],
    // How many groups were begun.
    pub groups: u8,
    // By group, the first is group 1: the transactions that ran just before its first commit, bit t
    // for transaction t.
    pub remembered: [u32; TRANSACTION_PLACES],
    // The limit that it was opened with: how many stores it has.
    pub stores: u8,
}

// The parts of a log that an entry is decided on.
#[derive(Clone, Copy)]
pub struct Parts {
    // Its transaction's.
    pub row: Row,
    // By store, 0 if none.
    pub holders: [u8; STORE_PLACES],
    pub turns: [u8; STORE_PLACES],
    // The processes that took its store.
    pub takers: u16,
    // The turn of its process's last accepted take, 0 if none.
    pub latest: u8,
    // How many groups were begun.
    pub groups: u8,
    // What the last group remembers.
    pub remembered: u32,
    // The log's limit.
    pub stores: u8,
}

// What of the parts a vote is decided on.
#[derive(Clone, Copy)]
pub struct VoteParts {
    // Of its transaction's row.
    pub tally: Tally,
    // Whether it clashes with the list of a kept commit vote: no value stands beside it.
    pub clash: bool,
    // Its transaction's.
    pub group: u8,
    // Who holds the store in `by`, and the holder's turn.
    pub holder: u8,
    pub turn: u8,
    pub groups: u8,
    pub remembered: u32,
}

// What an entry is answered, and what it changes. No value stands beside a flag here.
#[derive(Clone, Copy)]
pub struct Effect {
    pub answer: Answer,
    // The transaction's group after it.
    pub group: u8,
    // The vote begins a group.
    pub begins: bool,
    // The transaction runs after the vote.
    pub runs: bool,
}

// The log after an entry, and the answer.
#[derive(Clone, Copy)]
pub struct Entered {
    pub log: Log,
    pub answer: Answer,
}

// A row of a replay.
#[derive(Clone, Copy)]
pub struct Replayed {
    pub group: u8,
    pub tx: u8,
    pub update: Update,
}

// A store's replay: its first `count` rows, by row the group, the transaction and the update. An
// array for each, since rows of all three would take half as much again: an update stands at a
// multiple of eight bytes.
#[derive(Clone, Copy)]
pub struct Replay {
    pub count: u8,
    pub groups: [u8; TRANSACTION_PLACES],
    pub txs: [u8; TRANSACTION_PLACES],
    pub updates: [Update; TRANSACTION_PLACES],
}

impl Replay {
    // The replay without rows. It is no `Default`, whose clause would not name it.
    #[tactic(auto, unfolding(crate::specs::Replay::no_replay))]
    pub fn none() -> Replay
        ensures { result ≡ no_replay }
    {
        Replay {
            count: 0,
            groups: [0; TRANSACTION_PLACES],
            txs: [0; TRANSACTION_PLACES],
            updates: [0; TRANSACTION_PLACES],
        }
    }
}

impl Log {
    // The log before any entry, opened with one of the two limits.
    pub fn empty(limit: Limit) -> Log
        ensures { result ≡ opened (stores_with limit) }
    {
        let row = Row::none();
        Log {
            rows: [row; TRANSACTION_PLACES],
            holders: [0; STORE_PLACES],
            turns: [0; STORE_PLACES],
            takers: [0; STORE_PLACES],
            latest: [0; PROCESS_PLACES],
            groups: 0,
            remembered: [0; TRANSACTION_PLACES],
            stores: limit.stores(),
        }
    }
}
