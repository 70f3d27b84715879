// The list of steps with which a coordinator closes its current instance, as lines of a step file.
#![tactic(auto)]

ghost use Rattle.std.specs.Prelude.{◌+◌, ◌*◌, ◌<◌, ◌≤◌, ℕ, ◌++◌, get_or, length};
ghost use Rattle.model_steps.specs.Limits.{messages, most_acceptors};
ghost use Rattle.model_finish.specs.Closing.{closing, deliveries};
ghost use Rattle.model_finish.specs.Such.{Such, quorum};
ghost use Rattle.text_report.specs.Within.{Within};
ghost use Rattle.finish_list.specs.Longest.{longest_list, longest_run};
ghost use Rattle.finish_list.specs.Text.{finish_text, steps_text};

use model_protocol::World;
use model_protocol::limits::ACCEPTOR_PLACES;
use text_ascii::Page;

pub mod acceptors;
pub mod ballots;
pub mod choosing;
pub mod lines;

// No line of an open is longer, none of a propose, and none of a deliver.
const OPEN_BYTES: usize = 38;

const PROPOSE_BYTES: usize = 41;

const DELIVER_BYTES: usize = 19;

// No more acceptors are asked.
const MOST_ASKED: usize = ACCEPTOR_PLACES / 2 + 1;

// No list prints as more: an open and a propose, and two runs of messages behind each.
pub const LIST_BYTES: usize = OPEN_BYTES + PROPOSE_BYTES + 4 * MOST_ASKED * DELIVER_BYTES;

// The deliveries to these acceptors, where messages were sent to all from number `first` on.
fn put_asked(page: &mut Page, first: u8, asked: &[u8])
    requires few { length asked.now ≤ quorum most_acceptors }
    requires by_index { (k : ℕ) → k < length asked.now → first + get_or asked.now k 0 < messages }
    ensures { Within longest_run page.old page.new (steps_text (deliveries (λ k. first + get_or asked.now k 0) (length asked.now))) }
{
    for a in asked {
        lines::deliver_line(page, first + *a);
    }
}

// The deliveries of m messages, from number `first` on.
fn put_in_row(page: &mut Page, first: u8, m: u8)
    requires few { m ≤ quorum most_acceptors }
    requires room { first + m ≤ messages }
    ensures { Within longest_run page.old page.new (steps_text (deliveries (λ k. first + k) m)) }
{
    for k in 0..m {
        lines::deliver_line(page, first + k);
    }
}

// The deliveries to these acceptors and then of their answers, where messages were sent to all n
// from number `first` on.
fn put_exchange(page: &mut Page, first: u8, n: u8, asked: &[u8])
    requires few { length asked.now ≤ quorum most_acceptors }
    requires by_index { (k : ℕ) → k < length asked.now → get_or asked.now k 0 < n }
    requires room { first + n + length asked.now ≤ messages }
    ensures { Within (2 * longest_run) page.old page.new (steps_text (deliveries (λ k. first + get_or asked.now k 0) (length asked.now) ++ deliveries (λ k. first + n + k) (length asked.now))) }
{
    put_asked(page, first, asked);
    // No more than three acceptors are asked.
    put_in_row(page, first + n, asked.len() as u8);
}

// The list with which the coordinator closes its current instance under the ballot.
fn put_closing(page: &mut Page, w: &World, coord: u8, ballot: u8)
    requires { Such w.now coord }
    ensures { Within longest_list page.old page.new (steps_text (closing w.now coord ballot)) }
{
    let inst = w.coordinators[usize::from(coord)].applied;
    let n = w.acceptors;
    let m = acceptors::quorum(n);
    let up = acceptors::up_below(w.down, n);
    let asked = &up.as_slice()[..usize::from(m)];
    lines::round_line(page, b"do=open coord=", coord, inst, ballot);
    put_exchange(page, w.sent, n, asked);
    lines::round_line(page, b"do=propose coord=", coord, inst, ballot);
    put_exchange(page, w.sent + n + m, n, asked);
}

// The list for the lowest coordinator that can close its current instance; nothing if none can.
pub fn put_finishing(page: &mut Page, w: &World)
    ensures { Within longest_list page.old page.new (finish_text w.now) }
{
    if let Some(choice) = choosing::choose(w) {
        put_closing(page, w, choice.coord, choice.ballot);
    }
}
