// The lines of a step file, gathered from pieces of any length.
#![tactic(auto)]

ghost use Rattle.std.specs.Prelude.{ℕ, Bool, ◌≡◌, eqb, false, IfSome, MatchOption, true};
ghost use Rattle.text_lines.specs.Answers.{answers_of, no_answers, noted};
ghost use Rattle.text_lines.specs.Feed.{fed, finished, fresh, state_of};
ghost use Rattle.text_lines.specs.Line.{bytes_of, no_line, too_long, with};
ghost use Rattle.text_lines.specs.declared.Line.{Line};

// A line holds at most this many bytes without its LF.
pub const MAX_LINE_BYTES: u8 = 100;

// The length of a line that is too long, whatever it has.
const TOO_LONG: u8 = MAX_LINE_BYTES + 1;

// A program reads at most this many lines.
pub const MAX_LINES: u16 = 1000;

// Line 1,001 is answered too. `From` is not for the length of an array, so lengths widen by `as`.
pub const ANSWERED_LINES: u16 = MAX_LINES + 1;

const LF: u8 = 10;

// The bytes of a line, as far as it is gathered: their number, up to one more than a line may hold,
// and the first of them. No memory is allocated for a line, so they stand in an array.
#[derive(Clone, Copy)]
pub struct Line {
    pub length: u8,
    pub bytes: [u8; MAX_LINE_BYTES as usize],
}

impl Line {
    pub fn none() -> Line
        ensures { result ≡ no_line }
    {
        Line {
            length: 0,
            bytes: [0; MAX_LINE_BYTES as usize],
        }
    }

    // Adds a byte. A line that is too long is only counted as such, and once: of a line that goes on
    // and on no byte waits for the one before it.
    #[tactic(auto, unfolding(crate::specs::Line::with))]
    pub fn push(&mut self, byte: u8)
        ensures { self.new ≡ with self.old byte }
    {
        if self.length < MAX_LINE_BYTES {
            self.bytes[usize::from(self.length)] = byte;
            self.length += 1;
        } else if self.length != TOO_LONG {
            self.length = TOO_LONG;
        }
    }

    // Whether it has not begun.
    pub fn is_empty(&self) -> bool
        ensures { result ≡ eqb self.now.length 0 }
    {
        self.length == 0
    }

    // The bytes of a line that is not too long.
    pub fn as_slice(&self) -> Option<&[u8]>
        ensures long { MatchOption result (too_long self.now ≡ true) (λ _. too_long self.now ≡ false) }
        ensures bytes { IfSome result (λ s. s.now ≡ bytes_of self.now) }
    {
        if self.length <= MAX_LINE_BYTES {
            Some(&self.bytes[..usize::from(self.length)])
        } else {
            None
        }
    }
}

// The answers to the lines so far. No memory is allocated for them, so they stand in an array.
#[derive(Clone, Copy)]
pub struct Answers {
    pub count: u16,
    pub answers: [u8; ANSWERED_LINES as usize],
}

impl Answers {
    pub fn none() -> Answers
        ensures { result ≡ no_answers }
    {
        Answers {
            count: 0,
            answers: [0; ANSWERED_LINES as usize],
        }
    }

    // Adds an answer. Behind that to line 1,001 there is room for none.
    #[tactic(auto, unfolding(crate::specs::Answers::noted))]
    pub fn push(&mut self, answer: u8)
        ensures { self.new ≡ noted self.old answer }
    {
        if self.count <= MAX_LINES {
            self.answers[usize::from(self.count)] = answer;
            self.count += 1;
        }
    }

    pub fn as_slice(&self) -> &[u8]
        ensures { result.now ≡ answers_of self.now }
    {
        let count = self.count.min(ANSWERED_LINES);
        &self.answers[..usize::from(count)]
    }
}

// What a program does with the lines of its input, one after the other, until the reading is over.
// A proof sees a session as a state.
pub trait Session {
    ghost State: { Type 0 };

    ghost state: { Self → State };

    ghost first: { State };

    ghost over: { State → Bool };

    ghost step: { State → Line → State };

    fn fresh() -> Self
        ensures { state result ≡ first };

    // Whether line 1,001 has been taken, which ends the reading.
    fn is_over(&self) -> bool
        ensures { result ≡ over (state self.now) };

    // What is left of a session that is over is not said.
    fn take(&mut self, line: &Line)
        ensures { over (state self.old) ≡ false → state self.new ≡ step (state self.old) line.now };
}

// A session, and the line that is gathered for it.
#[derive(Clone, Copy)]
pub struct Input<S> {
    pub session: S,
    pub line: Line,
}

impl<S: Session> Input<S> {
    pub fn fresh() -> Input<S>
        ensures { state_of S.state result ≡ fresh S.first }
    {
        Input {
            session: S::fresh(),
            line: Line::none(),
        }
    }

    pub fn is_over(&self) -> bool
        ensures { result ≡ S.over (S.state self.now.session) }
    {
        self.session.is_over()
    }

    // The input after a piece of any length. It is changed in place: neither the session nor the
    // line is copied.
    #[tactic(auto, unfolding(crate::specs::Feed::fed))]
    pub fn feed(&mut self, piece: &[u8])
        ensures { state_of S.state self.new ≡ fed S.over S.step (state_of S.state self.old) piece.now }
    {
        for byte in piece {
            if self.session.is_over() {
                return;
            }
            if *byte == LF {
                self.session.take(&self.line);
                self.line = Line::none();
            } else {
                self.line.push(*byte);
            }
        }
    }

    // At the input's end, a line that has begun is a line.
    #[tactic(auto, unfolding(crate::specs::Feed::finished))]
    pub fn finish(mut self) -> S
        ensures { S.state result ≡ finished S.over S.step (state_of S.state self) }
    {
        if !self.session.is_over() && !self.line.is_empty() {
            self.session.take(&self.line);
        }
        self.session
    }
}
