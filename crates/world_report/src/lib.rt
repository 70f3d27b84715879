// What is printed of a world, line by line on a page.
#![tactic(auto)]

ghost use Rattle.text_report.specs.Within.{Within};
ghost use Rattle.world_report.specs.Longest.{longest_world};
ghost use Rattle.world_report.specs.Report.{world_text};

use log_entry::limits::{PROCESSES, TRANSACTION_PLACES};
use model_protocol::World;
use model_steps::limits::COORDINATORS;
use text_ascii::Page;
use text_report::{LINE_BYTES, LOG_LINES};

pub mod coordinators;
pub mod processes;

// No line of what a process heard is longer, and none of what runs.
const HEARD_BYTES: usize = 29;

const RUNNING_BYTES: usize = 12;

// No restore prints as more: its line and its replay; and for each transaction a line if the
// restore listed it, and a line of its follow.
const RESTORE_BYTES: usize = (1 + TRANSACTION_PLACES * 2) * LINE_BYTES
    + TRANSACTION_PLACES * RUNNING_BYTES;

// No world prints as more: a coordinator's line and its log; for each process a line for each
// transaction that it heard of, and a restore. `From` is not for constants, so they widen by `as`.
pub const WORLD_BYTES: usize = COORDINATORS as usize * (1 + LOG_LINES) * LINE_BYTES
    + PROCESSES as usize * TRANSACTION_PLACES * HEARD_BYTES
    + PROCESSES as usize * RESTORE_BYTES;

// A world as it is printed.
pub fn put_world(page: &mut Page, w: &World)
    ensures { Within longest_world page.old page.new (world_text w.now) }
{
    coordinators::put_coordinators(page, &w.coordinators, &w.logs);
    processes::put_all_heard(page, &w.processes);
    processes::put_restores(page, &w.processes, &w.restored, &w.follows);
}
