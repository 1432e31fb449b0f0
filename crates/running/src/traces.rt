// A trace or a dump on the input, and what `replay`, `waves` and `sheet` make of it on the output.
ghost use Rattle.controller.specs.Start.{fresh_of};
ghost use Rattle.running.specs.Works.{rows, waves, sheet};
ghost use Rattle.running.specs.Loops.{RanFrom};

use crate::Ran;
use crate::tasks::{Rows, Sheet, Waves};
use controller::State;
use std::io::{Read, Write};
use words::Streams;

// The names that these go by on standard error. (A function for each word is one call of `run` at its task.)
const REPLAY: [u8; 6] = *b"replay";

pub const WAVES: [u8; 5] = *b"waves";

const SHEET: [u8; 5] = *b"sheet";

// `replay`: the rows of a trace.
pub fn replay<R: Read, W: Write, E: Write>(streams: &mut Streams<R, W, E>) -> Option<Ran<Rows>>
    ensures { RanFrom rows (fresh_of 0) result }
{
    crate::run(streams, &REPLAY, State::fresh(0))
}

// `waves`: the dump of a trace.
pub fn waves<R: Read, W: Write, E: Write>(streams: &mut Streams<R, W, E>) -> Option<Ran<Waves>>
    ensures { RanFrom waves (fresh_of 0) result }
{
    crate::run(streams, &WAVES, State::fresh(0))
}

// `sheet`: the values of a dump as CSV.
pub fn sheet<R: Read, W: Write, E: Write>(streams: &mut Streams<R, W, E>) -> Option<Ran<Sheet>>
    ensures { RanFrom sheet (fresh_of 0) result }
{
    crate::run(streams, &SHEET, State::fresh(0))
}
