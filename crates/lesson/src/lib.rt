// A whole run of the program `replay`: what is written of each row of a trace. The rule is specs/Replay.antt, from all bytes of the input to
// all bytes of the output (document 01, "The trace and its program"). The trace is taken in by parts, one row a call, by the crate
// `reading`: here is only what is written of a row. proofs/Law.antt says that however the input is cut, what is written in all is the output
// of the whole. `fill` takes in a whole part, as a program has it from one read, into one output buffer, for one write. Request K3: a run may
// also go on from a controller that was handed over, and the controller that it leaves may be saved.
#![tactic(auto)]

ghost use Rattle.std.specs.Prelude.{◌≡◌, ◌≤◌, length, refl};
ghost use Rattle.lesson.specs.Answers.{took_says};
ghost use Rattle.lesson.specs.Replay.{text_told};
ghost use Rattle.lesson.specs.Parts.{take_of, finish_of, fill_of};

use controller::State;
use reading::telling::{self, Tell};
use reading::{Came, Run};
use refusals::Refusal;

// What is written of a row has at most so many bytes.
pub const ROOM: usize = 64;

// What a call gives: the run after it, how much of the part is used, and how many bytes were written.
#[derive(Clone, Copy)]
pub struct Took {
    pub run: Run,
    pub used: usize,
    pub written: usize,
}

// Takes in a part of the input up to the end of its first row, or all of it, through a line buffer of 512 bytes, and writes what the row
// gives. The output buffer must have 64 bytes; the rest of the part is for the next call. After a refusal of a row the rest gives nothing.
#[tactic(auto, unfolding(crate::specs::Parts::take_of))]
pub fn take(run: Run, part: &[u8], line: &mut [u8], out: &mut [u8]) -> Result<Took, Refusal>
    ensures out_after { (took_says run result, line.new, out.new) ≡ take_of run part.now line.old out.old }
    ensures used_in_bounds { ((took_says run result).used ≤ length part.now) × ((took_says run result).written ≤ length out.old) }
{
    Ok(of_run(telling::take::<Rows>((), run, part, line, out)?))
}

// The end of the input: what is still in the line buffer is the last row. The output buffer must have 64 bytes.
#[tactic(auto, unfolding(crate::specs::Parts::finish_of))]
pub fn finish(run: Run, line: &mut [u8], out: &mut [u8]) -> Result<Took, Refusal>
    ensures out_after { (took_says run result, line.new, out.new) ≡ finish_of run line.old out.old }
    ensures written_in_bounds { (took_says run result).written ≤ length out.old }
{
    Ok(of_run(telling::finish::<Rows>((), run, line, out)?))
}

// Takes in a part of the input row by row, and writes what the rows give, each text behind the one before it, until the part is used up, a
// refusal of a row has ended the reading, or less than 64 bytes are left in the output buffer. What is left of the part is for the next call.
#[tactic(auto, unfolding(crate::specs::Parts::fill_of))]
pub fn fill(run: Run, part: &[u8], line: &mut [u8], out: &mut [u8]) -> Result<Took, Refusal>
    ensures out_after { (took_says run result, line.new, out.new) ≡ fill_of run part.now line.old out.old }
    ensures used_in_bounds { ((took_says run result).used ≤ length part.now) × ((took_says run result).written ≤ length out.old) }
{
    Ok(of_run(telling::fill::<Rows>((), run, part, line, out)?))
}

// What a call gives, where nothing is carried on. (`take`, `finish` and `fill` are one call of `telling` each, under contracts of their own.)
fn of_run(took: telling::Took<()>) -> Took
    ensures { result ≡ record { run = took.run; used = took.used; written = took.written } }
{
    Took {
        run: took.run,
        used: took.used,
        written: took.written,
    }
}

// Of each row its text is written, and nothing is carried on.
struct Rows;

impl Tell for Rows {
    type Carried = ();

    const ROOM: usize = ROOM;

    ghost ROOM = { 64 };

    ghost told = { text_told };

    #[tactic(auto, using(crate::proofs::Writing::row_fits, crate::proofs::Writing::refusal_fits), unfolding(output::specs::Rows::written))]
    fn tell(_carried: (), _before: State, came: Came, after: State, out: &mut [u8]) -> ((), usize) {
        let wrote = match came {
            Came::Nothing => Ok(0),
            Came::Answered { label, code } => output::write_row(label, code, after.shown(), out),
            Came::Refused { line, refusal } => output::write_refusal(line, refusal, out),
        };
        ((), wrote.unwrap_or(0))
    }

    ghost quiet = { λ a before after. refl };
}
