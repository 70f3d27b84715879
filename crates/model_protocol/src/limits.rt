// The limits of what the parties hold. `specs/Limits.antt` has the same numbers for the contracts.
use model_steps::limits::{COORDINATORS, INSTANCES, MESSAGES, MOST_ACCEPTORS};

// A batch has 1 to 4 entries.
pub const BATCH_PLACES: usize = 4;

// A queue has at most 8.
pub const QUEUE_PLACES: usize = 8;

// Places in an array of each of these. `From` is not for constants: they widen by `as`.
pub const ACCEPTOR_PLACES: usize = MOST_ACCEPTORS as usize;

pub const COORDINATOR_PLACES: usize = COORDINATORS as usize;

pub const INSTANCE_PLACES: usize = INSTANCES as usize;

pub const MESSAGE_PLACES: usize = MESSAGES as usize;

// A slot for every acceptor and instance.
pub const SLOT_PLACES: usize = ACCEPTOR_PLACES * INSTANCE_PLACES;
