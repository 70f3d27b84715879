// The program `plain` from the bytes that it reads to the bytes that it prints.
#![tactic(auto)]

ghost use Rattle.std.specs.Prelude.{◌≡◌};
ghost use Rattle.plain_run.specs.Printed.{PrintsFed};
ghost use Rattle.log_core.specs.declared.Log.{Log};
ghost use Rattle.log_core.specs.Enter.{enter};
ghost use Rattle.plain_run.specs.Session.{answer_line, carried_out, fresh_session, is_over, line_entered};

use log_core::Log;
use log_entry::refusal::{self, Refusal};
use log_entry::{Entry, Limit};
use text_ascii::Page;
use text_lines::{ANSWERED_LINES, Answers, Line, MAX_LINES};
use text_report::{ANSWER_BYTES, LINE_BYTES, LOG_LINES};

// The log, and the answers to the lines so far.
#[derive(Clone, Copy)]
pub struct Session {
    pub log: Log,
    pub answers: Answers,
}

// A session, and the line that is gathered for it.
pub type Input = text_lines::Input<Session>;

// What the line asks for, after `count` others: an entry, or a refusal that is not the log's.
fn command_at(count: u16, line: &Line) -> Result<Entry, Refusal>
    ensures { (l : Log) → carried_out l result ≡ line_entered l count line.now }
{
    if MAX_LINES <= count {
        return Err(Refusal::NoPlace);
    }
    let Some(bytes) = line.as_slice() else {
        return Err(Refusal::Unreadable);
    };
    let reading = text_entry::read_entry(bytes);
    if text_entry::is_outside(&reading) {
        return Err(Refusal::OutsideLimits);
    }
    // docs/DECISIONS.md names this form for the place, so it is no function that `world` shares.
    let Ok(entry) = reading else {
        return Err(Refusal::Unreadable);
    };
    Ok(entry)
}

// The entry is entered. It has a function of its own, since the compiler clears the room of one
// whenever it is called: a line that is refused needs no second log.
fn enter(log: &mut Log, entry: Entry)
    ensures { log.new ≡ (enter log.old entry).log }
{
    *log = log.enter(entry).log;
}

impl text_lines::Session for Session {
    ghost use Rattle.plain_run.specs.declared.Session.{Session};

    ghost State = { Session };

    ghost state = { λ s. s };

    ghost first = { fresh_session };

    ghost over = { is_over };

    ghost step = { answer_line };

    fn fresh() -> Session {
        Session {
            log: Log::empty(Limit::Full),
            answers: Answers::none(),
        }
    }

    // Whether line 1,001 has been answered, which ends the reading.
    fn is_over(&self) -> bool {
        MAX_LINES < self.answers.count
    }

    // An answer is stored in place, and a log comes back only where an entry was accepted.
    fn take(&mut self, line: &Line) {
        match command_at(self.answers.count, line) {
            Err(refusal) => self.answers.push(refusal.number()),
            Ok(entry) => {
                let answer = self.log.answer_to(entry);
                self.answers.push(refusal::number(answer));
                if answer.is_ok() {
                    enter(&mut self.log, entry);
                }
            }
        }
    }
}

// No output is longer: 1,001 answers, then a line for each transaction and each store, and for each
// store a line for each transaction. `From` is not for constants, so they widen by `as`.
pub const OUTPUT_BYTES: usize = ANSWERED_LINES as usize * ANSWER_BYTES + LOG_LINES * LINE_BYTES;

// What is printed for the bytes that were fed: the first bytes of the buffer, as many as the answer
// says.
pub fn output_of(input: Input, out: &mut [u8; OUTPUT_BYTES]) -> usize
    ensures { PrintsFed input out.new result }
{
    let session = input.finish();
    let mut page = Page { bytes: out, at: 0 };
    text_report::put_answers(&mut page, &session.answers);
    text_report::put_log(&mut page, &session.log);
    page.at
}
