// An entry as numbers, as a host's call has them, and as a record's bytes. Document 01, "Hosts in
// C".
#![tactic(auto)]

ghost use Rattle.std.specs.Prelude.{true, ◌≡◌, ◌≤◌, eqb, MatchResult};
ghost use Rattle.std.proofs.lemmas.List.Edits.{sets};
ghost use Rattle.log_entry.specs.Entry.{say_of};
ghost use Rattle.log_entry.specs.Limits.{update_bytes};
ghost use Rattle.log_entry.specs.declared.refusal.Refusal.TheVariants.{OutsideLimits};
ghost use Rattle.host_records.specs.Numbers.{beyond_byte, byte_values, commit_say, entry_of, read_numbers, request_of, turn_meant, unreadable};
ghost use Rattle.host_records.specs.Record.{low_first, read_record, record_of};

use log_entry::limits::{FIRST_TURN, UPDATE_BYTES, Update};
use log_entry::refusal::Refusal;
use log_entry::{Entry, Request, Say};

// Where the update begins in a record. `specs/Record.antt` has the same number for the contracts.
const UPDATE_AT: usize = 8;
// The bytes of a record.
pub const RECORD_SIZE: usize = UPDATE_AT + UPDATE_BYTES;

// A kind: a number, since the interface for C has numbers and bytes only.
const TAKE: u8 = 0;

const VOTE: u8 = 1;
// A say: a number, for the same reason.
const ABORT: u8 = 0;

const COMMIT: u8 = 1;

// The numbers that a call or a record says, within any limits or not.
#[derive(Clone, Copy)]
pub struct Numbers {
    // 0 take, 1 vote.
    pub kind: u32,
    pub process: u32,
    pub by: u32,
    pub store: u32,
    pub tx: u32,
    pub list: u32,
    // 0 abort, 1 commit.
    pub say: u32,
    // 0 means the first.
    pub turn: u32,
    pub update: Update,
}

// A number of an entry, whose limits are all within a byte.
fn byte(n: u32) -> Result<u8, Refusal>
    ensures { MatchResult result (λ b. b ≡ n) (λ r. (r ≡ OutsideLimits) × (byte_values ≤ n)) }
{
    u8::try_from(n).map_err(|_| Refusal::OutsideLimits)
}

// The turn that the number stands for.
fn turn_meant(n: u8) -> u8
    ensures { result ≡ turn_meant n }
{
    if n == 0 {
        return FIRST_TURN;
    }
    n
}

// What a vote with the number says.
fn say_meant(n: u32) -> Say
    ensures { result ≡ say_of (eqb n commit_say) }
{
    if n == u32::from(COMMIT) {
        return Say::Commit;
    }
    Say::Abort
}

impl Numbers {
    // Refusal 1.
    #[tactic(auto, unfolding(crate::specs::Numbers::unreadable))]
    fn unreadable(self) -> bool
        ensures { result ≡ unreadable self }
    {
        if self.kind == u32::from(VOTE) {
            return u32::from(COMMIT) < self.say;
        }
        let used = self.by != 0
            || self.tx != 0
            || self.list != 0
            || self.say != 0
            || self.update != 0;
        self.kind != u32::from(TAKE) || used
    }

    // What they ask for. What a take does not use is not looked at.
    #[tactic(auto, unfolding(crate::specs::Numbers::beyond_byte))]
    fn request(self) -> Result<Request, Refusal>
        ensures { MatchResult result (λ q. q ≡ request_of self) (λ r. (r ≡ OutsideLimits) × (beyond_byte self ≡ true)) }
    {
        if self.kind == u32::from(TAKE) {
            return Ok(Request::Take);
        }
        Ok(Request::Vote {
            by: byte(self.by)?,
            tx: byte(self.tx)?,
            list: byte(self.list)?,
            say: say_meant(self.say),
            update: self.update,
        })
    }

    // The entry that they stand for, by any limits.
    #[tactic(auto, unfolding(crate::specs::Numbers::beyond_byte))]
    fn entry(self) -> Result<Entry, Refusal>
        ensures { MatchResult result (λ e. e ≡ entry_of self) (λ r. (r ≡ OutsideLimits) × (beyond_byte self ≡ true)) }
    {
        Ok(Entry {
            process: byte(self.process)?,
            turn: turn_meant(byte(self.turn)?),
            store: byte(self.store)?,
            request: self.request()?,
        })
    }

    // What they read as, for a log of so many stores.
    #[tactic(auto, using(crate::proofs::ReadLaws::beyond_is_outside), unfolding(crate::specs::Numbers::read_numbers))]
    pub fn read(self, stores: u8) -> Result<Entry, Refusal>
        ensures { result ≡ read_numbers stores self }
    {
        if self.unreadable() {
            return Err(Refusal::Unreadable);
        }
        let e = self.entry()?;
        if e.outside(stores) {
            return Err(Refusal::OutsideLimits);
        }
        Ok(e)
    }
}

// What the bytes of a record read as, for a log of so many stores.
pub fn read(stores: u8, bytes: &[u8]) -> Result<Entry, Refusal>
    ensures { result ≡ read_record stores bytes.now }
{
    let [kind, process, by, store, tx, list, say, turn, update @ ..] = bytes else {
        return Err(Refusal::Unreadable);
    };
    let Ok(update) = <[u8; UPDATE_BYTES]>::try_from(update) else {
        return Err(Refusal::Unreadable);
    };
    let n = Numbers {
        kind: u32::from(*kind),
        process: u32::from(*process),
        by: u32::from(*by),
        store: u32::from(*store),
        tx: u32::from(*tx),
        list: u32::from(*list),
        say: u32::from(*say),
        turn: u32::from(*turn),
        update: Update::from_le_bytes(update),
    };
    n.read(stores)
}

// An update's bytes, low byte first, stored from a place on; what has no room is left out. The
// place is fixed in a record and nothing is put behind, so a page would be no plainer.
pub fn put_low_first(out: &mut [u8], at: usize, u: Update)
    ensures { out.new ≡ sets out.old at (low_first update_bytes u) }
{
    if at < out.len() {
        let count = UPDATE_BYTES.min(out.len() - at);
        out[at..at + count].copy_from_slice(&u.to_le_bytes()[..count]);
    }
}

// The bytes of an entry's record. What a take does not use is 0.
#[tactic(auto, unfolding(crate::specs::Record::record_of))]
pub fn record_of(e: Entry) -> [u8; RECORD_SIZE]
    ensures { result ≡ record_of e }
{
    let mut bytes = [0u8; RECORD_SIZE];
    bytes[1] = e.process;
    bytes[3] = e.store;
    bytes[7] = e.turn;
    match e.request {
        Request::Take => bytes[0] = TAKE,
        Request::Vote {
            by,
            tx,
            list,
            say,
            update,
        } => {
            bytes[0] = VOTE;
            bytes[2] = by;
            bytes[4] = tx;
            bytes[5] = list;
            bytes[6] = match say {
                Say::Abort => ABORT,
                Say::Commit => COMMIT,
            };
            put_low_first(&mut bytes, UPDATE_AT, update);
        }
    }
    bytes
}
