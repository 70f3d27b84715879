// A coordinator's queue.
ghost use Rattle.std.specs.Prelude.{◌≡◌};
ghost use Rattle.model_protocol.specs.Queue.{first_batch, is_full, is_in, left_by, queued};
ghost use Rattle.model_protocol.specs.Queue.{joining};

use log_entry::Entry;
use model_protocol::limits::{BATCH_PLACES, QUEUE_PLACES};
use model_protocol::{Batch, Queue};
use world_fresh::no_entry;
use world_queue::is_among;

// Whether an equal entry is in the queue.
pub fn is_queued(queue: Queue, e: Entry) -> bool
    ensures { result ≡ is_in e (queued queue) }
{
    is_among(queue.as_slice(), e)
}

pub fn is_full(queue: Queue) -> bool
    ensures { result ≡ is_full queue }
{
    QUEUE_PLACES <= queue.count
}

// A delivered request joins the queue unless an equal entry is there; a full queue stays as it is.
#[tactic(auto, unfolding(model_protocol::specs::Queue::joining))]
pub fn join(mut queue: Queue, e: Entry) -> Queue
    ensures { result ≡ joining queue e }
{
    if is_queued(queue, e) || is_full(queue) {
        return queue;
    }
    queue.entries[queue.count] = e;
    queue.count += 1;
    queue
}

// The first up to four queue entries.
pub fn first_batch(queue: Queue) -> Batch
    ensures { result ≡ first_batch queue }
{
    let blank = no_entry();
    let mut entries = [blank; BATCH_PLACES];
    let waiting = queue.as_slice();
    let count = waiting.len().min(BATCH_PLACES);
    entries[..count].copy_from_slice(&waiting[..count]);
    Batch { entries, count }
}

// Queue entries equal to an entry of the learned batch leave, the rest keep their order.
#[tactic(auto, using(crate::proofs::QueueLaws::turns))]
pub fn left_by(queue: Queue, batch: Batch) -> Queue
    ensures { result ≡ left_by queue batch }
{
    let blank = no_entry();
    let mut entries = [blank; QUEUE_PLACES];
    let mut count = 0;
    'queue: for e in queue.as_slice() {
        for f in batch.as_slice() {
            if e.same(*f) {
                continue 'queue;
            }
        }
        entries[count] = *e;
        count += 1;
    }
    Queue { entries, count }
}
