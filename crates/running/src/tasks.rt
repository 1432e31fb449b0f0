// What a program makes of its input (specs/Works.antt): the rows of a trace, the controller that a trace leaves, the dump of a trace, or the rows
// of a dump. Each is the run of a crate below, and has what the loop asks of a task.
ghost use Rattle.std.specs.Prelude.{◌≡◌, ◌≤◌, length};
ghost use Rattle.lesson.specs.Writes.{told};
ghost use Rattle.reading.specs.Rows.{has_ended};
ghost use Rattle.running.specs.Answers.{filled_says};
ghost use Rattle.running.specs.Rules.{room, Rule, IsRight};

use controller::State;
use reading::{Phase, Run};
use refusals::Refusal;
use std::io::Write;
use texts::Line;

// What a call gives: the work after it, how much of the part is used, and how many bytes were written.
#[derive(Clone, Copy)]
pub struct Filled<T> {
    pub work: T,
    pub used: usize,
    pub written: usize,
}

// A task, as a work under way. What it makes of its input is its rule, and that is right.
pub trait Task: Copy {
    ghost rule: { Rule Self };

    // A work at its start, with the controller to go on with.
    fn start(state: State) -> Self
        ensures { result ≡ rule.start state };

    // Puts what stands in front of all that is put out at the front of the output buffer, and answers how many bytes that is.
    fn put_header(out: &mut [u8]) -> usize
        requires { room ≤ length out.old }
        ensures { (result, out.new) ≡ told rule.header out.old };

    // Whether a refusal has ended the reading.
    fn has_ended(self) -> bool
        ensures { result ≡ rule.is_ended self };

    // Takes in a part of the input, as much of it as the output buffer has room for, through a line buffer of 512 bytes, and writes what it
    // gives. The rest of the part is for the next call. Where a refusal ends the reading, nothing behind it is taken in.
    fn fill(self, part: &[u8], line: &mut [u8], out: &mut [u8]) -> Result<Filled<Self>, Refusal>
        ensures out_after { (filled_says self result, line.new, out.new) ≡ rule.fill_of self part.now line.old out.old }
        ensures used_in_bounds { ((filled_says self result).used ≤ length part.now) × ((filled_says self result).written ≤ length out.old) };

    // The end of the input: what is still in the line buffer is the last row.
    fn last(self, line: &mut [u8], out: &mut [u8]) -> Result<Filled<Self>, Refusal>
        ensures out_after { (filled_says self result, line.new, out.new) ≡ rule.last_of self line.old out.old }
        ensures written_in_bounds { (filled_says self result).written ≤ length out.old };

    // Says on standard error what ended the reading before the end of the input, and answers whether anything did.
    fn tell<E: Write>(self, errors: &mut E, name: &[u8], line: &[u8]) -> bool
        ensures { result ≡ rule.is_ended self };

    ghost right: { IsRight rule };
}

// The rows of a trace.
#[derive(Clone, Copy)]
pub struct Rows {
    pub run: Run,
}

// The controller that a trace leaves: no row is put out. (A type of its own beside `Rows`, since the loop knows a task by its type.)
#[derive(Clone, Copy)]
pub struct Image {
    pub run: Run,
}

// The dump of a trace.
#[derive(Clone, Copy)]
pub struct Waves {
    pub waves: dumping::Waves,
}

// The rows of a dump.
#[derive(Clone, Copy)]
pub struct Sheet {
    pub sheet: sheets::Sheet,
}

impl Task for Rows {
    ghost use Rattle.running.specs.Works.{rows};
    ghost use Rattle.running.specs.Laws.{rows_right};

    ghost rule = { rows };

    ghost right = { rows_right };

    #[tactic(auto, unfolding(dumping::specs::Parts::begun_from))]
    fn start(state: State) -> Self {
        Rows {
            run: Run::from(state),
        }
    }

    #[tactic(auto, using(crate::proofs::Headers::header_fits), unfolding(output::specs::Rows::written))]
    fn put_header(out: &mut [u8]) -> usize {
        output::write_header(out).unwrap_or(0)
    }

    fn has_ended(self) -> bool {
        self.run.phase().has_ended()
    }

    fn fill(self, part: &[u8], line: &mut [u8], out: &mut [u8]) -> Result<Filled<Self>, Refusal> {
        let took = lesson::fill(self.run, part, line, out)?;
        Ok(Filled {
            work: Rows { run: took.run },
            used: took.used,
            written: took.written,
        })
    }

    fn last(self, line: &mut [u8], out: &mut [u8]) -> Result<Filled<Self>, Refusal> {
        let took = lesson::finish(self.run, line, out)?;
        Ok(Filled {
            work: Rows { run: took.run },
            used: took.used,
            written: took.written,
        })
    }

    fn tell<E: Write>(self, errors: &mut E, name: &[u8], line: &[u8]) -> bool {
        tell_refused(self.run, errors, name, line)
    }
}

impl Task for Image {
    ghost use Rattle.running.specs.Works.{image};
    ghost use Rattle.running.specs.Laws.{image_right};

    ghost rule = { image };

    ghost right = { image_right };

    #[tactic(auto, unfolding(dumping::specs::Parts::begun_from))]
    fn start(state: State) -> Self {
        Image {
            run: Run::from(state),
        }
    }

    fn put_header(_out: &mut [u8]) -> usize {
        0
    }

    fn has_ended(self) -> bool {
        self.run.phase().has_ended()
    }

    fn fill(self, part: &[u8], line: &mut [u8], out: &mut [u8]) -> Result<Filled<Self>, Refusal> {
        let took = lesson::fill(self.run, part, line, out)?;
        Ok(Filled {
            work: Image { run: took.run },
            used: took.used,
            written: 0,
        })
    }

    fn last(self, line: &mut [u8], out: &mut [u8]) -> Result<Filled<Self>, Refusal> {
        let took = lesson::finish(self.run, line, out)?;
        Ok(Filled {
            work: Image { run: took.run },
            used: took.used,
            written: 0,
        })
    }

    fn tell<E: Write>(self, errors: &mut E, name: &[u8], line: &[u8]) -> bool {
        tell_refused(self.run, errors, name, line)
    }
}

impl Task for Waves {
    ghost use Rattle.running.specs.Works.{waves};
    ghost use Rattle.running.specs.Laws.{waves_right};

    ghost rule = { waves };

    ghost right = { waves_right };

    fn start(state: State) -> Self {
        Waves {
            waves: dumping::Waves::from(state),
        }
    }

    fn put_header(_out: &mut [u8]) -> usize {
        0
    }

    fn has_ended(self) -> bool {
        self.waves.phase().has_ended()
    }

    fn fill(self, part: &[u8], line: &mut [u8], out: &mut [u8]) -> Result<Filled<Self>, Refusal> {
        let took = self.waves.fill(part, line, out)?;
        Ok(Filled {
            work: Waves { waves: took.waves },
            used: took.used,
            written: took.written,
        })
    }

    fn last(self, line: &mut [u8], out: &mut [u8]) -> Result<Filled<Self>, Refusal> {
        let took = self.waves.finish(line, out)?;
        Ok(Filled {
            work: Waves { waves: took.waves },
            used: took.used,
            written: took.written,
        })
    }

    fn tell<E: Write>(self, errors: &mut E, name: &[u8], line: &[u8]) -> bool {
        tell_refused(self.waves.run, errors, name, line)
    }
}

impl Task for Sheet {
    ghost use Rattle.running.specs.Works.{sheet};
    ghost use Rattle.running.specs.Laws.{sheet_right};

    ghost rule = { sheet };

    ghost right = { sheet_right };

    fn start(_state: State) -> Self {
        Sheet {
            sheet: sheets::Sheet::new(),
        }
    }

    fn put_header(out: &mut [u8]) -> usize {
        let mut line = Line::new(out);
        sheets::rows::put_header(&mut line);
        line.at
    }

    fn has_ended(self) -> bool {
        self.sheet.nine
    }

    // (The line buffer is not a sheet's.)
    fn fill(self, part: &[u8], _line: &mut [u8], out: &mut [u8]) -> Result<Filled<Self>, Refusal> {
        let took = self.sheet.fill(part, out)?;
        Ok(Filled {
            work: Sheet { sheet: took.sheet },
            used: took.used,
            written: took.written,
        })
    }

    fn last(self, _line: &mut [u8], out: &mut [u8]) -> Result<Filled<Self>, Refusal> {
        let took = self.sheet.finish(out)?;
        Ok(Filled {
            work: Sheet { sheet: took.sheet },
            used: took.used,
            written: took.written,
        })
    }

    fn tell<E: Write>(self, errors: &mut E, name: &[u8], _line: &[u8]) -> bool {
        if !self.sheet.nine {
            return false;
        }
        words::nine(errors, name, self.sheet.line, self.sheet.rows);
        true
    }
}

// Says the refusal that ended the reading of a trace, and answers whether one did.
fn tell_refused<E: Write>(run: Run, errors: &mut E, name: &[u8], line: &[u8]) -> bool
    ensures { result ≡ has_ended run.reading.phase }
{
    let Phase::Ended { line: at, refusal } = run.phase() else {
        return false;
    };
    words::refused(errors, name, at, refusal, line);
    true
}
