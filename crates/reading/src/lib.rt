// What each row of a trace comes to: the header, the rows, their labels and the controller, with no output. The rule is
// specs/Rows.antt (document 01, "The trace and its program"). A trace is taken in by parts of any size, one row a call: specs/Parts.antt
// says what a call gives. What is made of a row is another crate's: `lesson` writes it as a row of `replay`, and `dumping` as a moment of
// `waves`. For all of them specs/Runs.antt says what a whole run by parts is, and proofs/ByParts.antt that however the input is cut, the run
// comes to what the rows of the whole come to. specs/Fills.antt says what they give where a whole part goes into one output buffer. The calls
// of such a run are those of `telling`, whatever the teller.
#![tactic(auto)]

ghost use Rattle.std.specs.Prelude.{◌≡◌, ◌≤◌, length, Ok};
ghost use Rattle.refusals.specs.Numbers.{number_of};
ghost use Rattle.controller.specs.Answers.{answer_says};
ghost use Rattle.reading.specs.Answers.{next_says};
ghost use Rattle.reading.specs.Parts.{
  run_from,
  new_run,
  up_to,
  piece_of,
  last_piece,
  Fits,
  found_by,
  next_by,
  take_of,
  finish_of,
};
ghost use Rattle.reading.specs.Rows.{
  next_due,
  line_at,
  untold,
  ends_at,
  shown_row,
  header_row,
  answer_to,
  trace_row,
  row_of,
  over_of,
  end_of,
  has_ended,
  has_started,
  read_from,
  nothing_read,
};

pub mod telling;

use controller::State;
use lines::{Final, Taken};
use refusals::Refusal;

// A row has at most so many bytes, and so has the line buffer.
pub const LINE: usize = trace::LONGEST_ROW;

// How far a trace has been read. (A refusal is its number here and in `Came`: that is what a row of `replay` bears, and what the theorems on whole
// files speak of, `codes_are` and `numbers_tell_the_place` in files/proofs/EachRow.antt.)
#[derive(Clone, Copy)]
pub enum Phase {
    // Nothing yet: the header is due.
    Header,
    // The header and the rows before the one whose label is due. After 4,294,967,295 no label is.
    Rows(Option<u32>),
    // Up to the refusal that ended the reading: its line and its number.
    Ended { line: u64, refusal: u8 },
}

// What was read so far: how far, and the controller as the last row left it.
#[derive(Clone, Copy)]
pub struct Reading {
    pub phase: Phase,
    pub state: State,
}

// What a row came to, beside what was read with it. (Three outcomes: `Nothing` is that of the header, and no want of one.)
#[derive(Clone, Copy)]
pub enum Came {
    // The header, or a row after the end: there is nothing to tell.
    Nothing,
    // A row that was read: its label, and 0 or the step's refusal. The state after it is the reading's.
    Answered { label: u32, code: u8 },
    // The refusal that ends the reading: its line and its number.
    Refused { line: u64, refusal: u8 },
}

// What was read with a row, and what the row came to.
#[derive(Clone, Copy)]
pub struct Heard {
    pub reading: Reading,
    pub came: Came,
}

// A run under way: what was read, how many bytes of the line buffer are the row under way, and whether a CR is held.
#[derive(Clone, Copy)]
pub struct Run {
    pub reading: Reading,
    pub len: usize,
    pub cr: bool,
}

// What a call gives: the run after it, what its row came to, and how much of the part is used.
#[derive(Clone, Copy)]
pub struct Next {
    pub run: Run,
    pub came: Came,
    pub used: usize,
}

// What a call finds in the line buffer. (Four outcomes, and none an error yet.)
#[derive(Clone, Copy)]
enum Found {
    // A row that is whole: so many bytes of the line. (A length and no slice, since the line is lent on beside it.)
    Whole(usize),
    // A row that is longer than the line.
    TooLong,
    // A row that is still under way.
    Unfinished,
    // The end of the input, and no row.
    End,
}

// The same, with what is under way behind it, and how much of the part is used.
#[derive(Clone, Copy)]
struct Piece {
    found: Found,
    len: usize,
    cr: bool,
    used: usize,
}

impl Phase {
    // The line that is due, or that the reading ended on: the header is line 1, so the row of label 0 is line 2.
    pub fn line(self) -> u64
        ensures { result ≡ line_at self }
    {
        match self {
            Phase::Header => 1,
            Phase::Rows(Some(label)) => u64::from(label) + 2,
            Phase::Rows(None) => 4294967298,
            Phase::Ended { line, .. } => line,
        }
    }

    // Whether a refusal has ended the reading.
    pub fn has_ended(self) -> bool
        ensures { result ≡ has_ended self }
    {
        matches!(self, Phase::Ended { .. })
    }

    // Whether row 0 has been read: the line that is due, or that the reading ended on, is past its line.
    pub fn has_started(self) -> bool
        ensures { result ≡ has_started self }
    {
        2 < self.line()
    }
}

impl Reading {
    // Before the first row, with the controller to go on with. (No impl of From: it would be called by the same words. So in `Run`.)
    pub fn from(state: State) -> Self
        ensures { result ≡ read_from state }
    {
        Reading {
            phase: Phase::Header,
            state,
        }
    }

    // Before the first row of a run that starts from a fresh controller.
    #[tactic(auto, unfolding(crate::specs::Rows::nothing_read))]
    pub fn new() -> Self
        ensures { result ≡ nothing_read }
    {
        Reading::from(State::fresh(0))
    }

    // One row, without its line break.
    #[tactic(auto, unfolding(crate::specs::Rows::row_of))]
    pub fn row(self, row: &[u8]) -> Heard
        ensures { result ≡ row_of self row.now }
    {
        match self.phase {
            Phase::Header => self.header_row(row),
            Phase::Rows(due) => self.trace_row(due, row),
            Phase::Ended { .. } => self.untold(),
        }
    }

    // A row of more than 512 bytes, whichever they are.
    #[tactic(auto, unfolding(crate::specs::Rows::over_of))]
    pub fn over(self) -> Heard
        ensures { result ≡ over_of self }
    {
        if self.phase.has_ended() {
            return self.untold();
        }
        self.ends_at(self.phase.line(), Refusal::RowLength)
    }

    // The end of the input.
    #[tactic(auto, unfolding(crate::specs::Rows::end_of))]
    pub fn end(self) -> Heard
        ensures { result ≡ end_of self }
    {
        match self.phase {
            Phase::Header => self.ends_at(1, Refusal::Form),
            _ => self.untold(),
        }
    }

    // There is nothing to tell.
    fn untold(self) -> Heard
        ensures { result ≡ untold self }
    {
        Heard {
            reading: self,
            came: Came::Nothing,
        }
    }

    // A refusal ends the reading.
    #[tactic(auto, unfolding(crate::specs::Rows::ends_at))]
    fn ends_at(self, line: u64, refusal: Refusal) -> Heard
        ensures { result ≡ ends_at line (number_of refusal) self.state }
    {
        let refusal = refusal.number();
        Heard {
            reading: Reading {
                phase: Phase::Ended { line, refusal },
                state: self.state,
            },
            came: Came::Refused { line, refusal },
        }
    }

    // The first row must be the header.
    #[tactic(auto, unfolding(crate::specs::Rows::header_row))]
    fn header_row(self, row: &[u8]) -> Heard
        ensures { result ≡ header_row self.state row.now }
    {
        if LINE < row.len() {
            return self.ends_at(1, Refusal::RowLength);
        }
        if !trace::is_header(row) {
            return self.ends_at(1, Refusal::Form);
        }
        Heard {
            reading: Reading {
                phase: Phase::Rows(Some(0)),
                state: self.state,
            },
            came: Came::Nothing,
        }
    }

    // A row after the header, which must bear the label that is due.
    #[tactic(auto, unfolding(crate::specs::Rows::trace_row, crate::specs::Rows::shown_row, crate::specs::Rows::no_sample))]
    fn trace_row(self, due: Option<u32>, row: &[u8]) -> Heard
        ensures { result ≡ trace_row due self.state row.now }
    {
        let mut sample = [0u8; 54];
        match trace::read_row(row, due, &mut sample) {
            Ok(taken) => self.shown_row(
                due,
                taken.label,
                answer_to(self.state, taken.label, taken.stamp, &sample),
            ),
            Err(refusal) => self.ends_at(Phase::Rows(due).line(), refusal),
        }
    }

    // A row that was read. Its label is used up by a refusal too.
    #[tactic(auto, unfolding(crate::specs::Rows::shown_row))]
    fn shown_row(self, due: Option<u32>, label: u32, answer: Result<State, Refusal>) -> Heard
        ensures { result ≡ shown_row due label (answer_says self.state answer) }
    {
        let (code, state) = match answer {
            Ok(after) => (0, after),
            Err(refusal) => (refusal.number(), self.state),
        };
        Heard {
            reading: Reading {
                phase: Phase::Rows(next_due(due)),
                state,
            },
            came: Came::Answered { label, code },
        }
    }
}

impl Run {
    // A run at its start, with the controller to go on with.
    #[tactic(auto, unfolding(crate::specs::Parts::run_from))]
    pub fn from(state: State) -> Self
        ensures { result ≡ run_from state }
    {
        Run {
            reading: Reading::from(state),
            len: 0,
            cr: false,
        }
    }

    // A run at its start, from a fresh controller.
    #[tactic(auto, unfolding(crate::specs::Parts::new_run))]
    pub fn new() -> Self
        ensures { result ≡ new_run }
    {
        Run::from(State::fresh(0))
    }

    // How far the trace has been read, and what ended the reading.
    pub fn phase(self) -> Phase
        ensures { result ≡ self.reading.phase }
    {
        self.reading.phase
    }

    // The controller as the last row left it.
    pub fn state(self) -> State
        ensures { result ≡ self.reading.state }
    {
        self.reading.state
    }

    // Takes in a part of the input up to the end of its first row, or all of it, through a line buffer of 512 bytes. The rest of
    // the part is for the next call.
    #[tactic(auto, using(crate::proofs::Lending::piece_fits), unfolding(crate::specs::Parts::take_of, crate::specs::Parts::refused))]
    pub fn take(self, part: &[u8], line: &mut [u8]) -> Result<Next, Refusal>
        ensures { (next_says self result, line.new) ≡ take_of self part.now line.old }
    {
        if line.len() != LINE {
            return Err(Refusal::Room);
        }
        let piece = piece_of(lines::cut(part, 0, line, self.len, self.cr), part.len());
        Ok(self.goes_on(piece, line))
    }

    // The end of the input: what is still in the line buffer is the last row.
    #[tactic(auto, using(crate::proofs::Lending::last_fits), unfolding(crate::specs::Parts::finish_of, crate::specs::Parts::refused))]
    pub fn finish(self, line: &mut [u8]) -> Result<Next, Refusal>
        ensures { (next_says self result, line.new) ≡ finish_of self line.old }
    {
        if line.len() != LINE {
            return Err(Refusal::Room);
        }
        let piece = last_piece(lines::last(line, self.len, self.cr));
        Ok(self.goes_on(piece, line))
    }

    // The run behind a piece, and what the piece came to.
    fn goes_on(self, piece: Piece, line: &[u8]) -> Next
        requires { Fits piece.found (length line.now) }
        ensures { next_says self (Ok result) ≡ next_by self piece line.now }
    {
        let heard = hears(self.reading, piece.found, line);
        Next {
            run: Run {
                reading: heard.reading,
                len: piece.len,
                cr: piece.cr,
            },
            came: heard.came,
            used: piece.used,
        }
    }
}

// The label that is due after a row.
fn next_due(due: Option<u32>) -> Option<u32>
    ensures { result ≡ next_due due }
{
    due?.checked_add(1)
}

// Row 0 starts the controller; each other row is a step of it.
#[tactic(auto, unfolding(crate::specs::Rows::answer_to))]
fn answer_to(state: State, label: u32, stamp: u32, sample: &[u8]) -> Result<State, Refusal>
    ensures { answer_says state result ≡ answer_to state label stamp sample.now }
{
    if label == 0 {
        return Ok(state.started_at(stamp));
    }
    state.step(stamp, sample)
}

// A piece behind which no row is under way.
fn up_to(found: Found, used: usize) -> Piece
    ensures { result ≡ up_to found used }
{
    Piece {
        found,
        len: 0,
        cr: false,
        used,
    }
}

// What cutting a row off a part of so many bytes finds.
fn piece_of(taken: Taken, size: usize) -> Piece
    ensures { result ≡ piece_of taken size }
{
    match taken {
        Taken::Row { used, len } => up_to(Found::Whole(len), used),
        Taken::More { len, cr } => Piece {
            found: Found::Unfinished,
            len,
            cr,
            used: size,
        },
        Taken::Over => up_to(Found::TooLong, size),
    }
}

// What the end of the input finds.
fn last_piece(last: Final) -> Piece
    ensures { result ≡ last_piece last }
{
    match last {
        Final::Nothing => up_to(Found::End, 0),
        Final::Last { len } => up_to(Found::Whole(len), 0),
        Final::Wider => up_to(Found::TooLong, 0),
    }
}

// What is found comes to. (Both `take` and `finish` go through here: so a row costs least.)
fn hears(reading: Reading, found: Found, line: &[u8]) -> Heard
    requires { Fits found (length line.now) }
    ensures { result ≡ found_by reading found line.now }
{
    match found {
        Found::Whole(len) => reading.row(&line[..len]),
        Found::TooLong => reading.over(),
        Found::Unfinished => reading.untold(),
        Found::End => reading.end(),
    }
}
