// The one loop of all programs: from a reader of a trace or a dump to a writer that what is made of it is put out to. A part is read,
// as much of it taken in as the output buffer has room for, and what that gives is put out at once, so that a live pipe sees its rows.
// What is made of the input is the task's (`tasks`, specs/Works.antt), by the crates below; where the loop stands in numbers is `loops`.
// specs/Loops.antt says what each step promises over the bytes that `read` left, and what the whole loop does; what `read` and `write` do is the
// operating system's, and nothing can be promised of it: `read` below and `words::put` hand over to them.
#![tactic(auto)]

ghost use Rattle.std.specs.Prelude.{◌≡◌, ◌≤◌, length, IfSome, Ok};
ghost use Rattle.reading.specs.Parts.{line_bytes};
ghost use Rattle.loops.specs.Progresses.{goes_on};
ghost use Rattle.running.specs.Rules.{room};
ghost use Rattle.running.specs.Loops.{AfterRead, AfterFill, Step, AfterLast, Through, RanFrom};

use controller::State;
use loops::Progress;
use refusals::Refusal;
use std::io::{ErrorKind, Read, Write};
use tasks::{Filled, Task};
use words::Streams;
use words::rooms::{LARGE, zeros};

pub mod tasks;
pub mod traces;

// A part of the input has at most so many bytes.
const PART: usize = 8192;

// A loop at its end, where nothing failed: whether the end of the input was reached, the work as it was left, and how many bytes were put out
// (modulo 2^64).
#[derive(Clone, Copy)]
pub struct Ran<T> {
    pub end: bool,
    pub work: T,
    pub put: u64,
}

// Where the loop stands: the work, and how far the loop is with the part that was read last.
#[derive(Clone, Copy)]
struct At<T> {
    work: T,
    progress: Progress,
}

// Runs a task from a controller to its end, from the input to the output, and says on standard error what ended it, if anything did. The header
// comes first in every case. There is no answer where something failed, which has been said, or after more turns than any input takes.
// (The name stands beside the streams, since `desk` has these before it knows whose they are. Not inlined: else the buffers of a task that has one
// caller lie on the stack of all that this caller does, under every word of `desk`.)
#[inline(never)]
pub fn run<T: Task, R: Read, W: Write, E: Write>(
    streams: &mut Streams<R, W, E>,
    name: &[u8],
    state: State,
) -> Option<Ran<T>>
    ensures { RanFrom T.rule state result }
{
    let mut line = [0u8; 512];
    let mut input = zeros::<PART>();
    let mut out = zeros::<LARGE>();
    let n = T::put_header(&mut out);
    if !words::put(streams, name, &out, n) {
        return None;
    }
    let ran = all(
        streams,
        name,
        T::start(state),
        n as u64,
        &mut input,
        &mut line,
        &mut out,
    )?;
    ran.work.tell(&mut streams.errors, name, &line);
    Some(ran)
}

// Whether to try again after a read that failed: a signal came before a byte did. Else says why it failed.
fn is_interrupted<E: Write>(errors: &mut E, name: &[u8], kind: ErrorKind) -> bool {
    if kind == ErrorKind::Interrupted {
        return true;
    }
    if kind == ErrorKind::WouldBlock {
        words::say(
            errors,
            name,
            b"standard input does not wait: no bytes were there yet (EAGAIN), and reading stopped",
        );
        return false;
    }
    words::say(errors, name, b"reading failed");
    false
}

// A part is read into the input buffer: as many bytes as `read` answers, or none where it failed and is to be tried again.
fn read<R: Read, W, E: Write>(
    streams: &mut Streams<R, W, E>,
    name: &[u8],
    progress: Progress,
    input: &mut [u8],
) -> Option<Progress>
    ensures { AfterRead progress result input.new }
{
    match streams.input.read(input) {
        Ok(n) => Some(progress.read(n)),
        Err(error) => {
            if is_interrupted(&mut streams.errors, name, error.kind()) {
                return Some(progress.not_read());
            }
            None
        }
    }
}

// Hands to `write` what a call wrote. A call that was refused stops the loop: nothing of the input is dropped in silence.
fn put_out<T: Task, R, W: Write, E: Write>(
    streams: &mut Streams<R, W, E>,
    name: &[u8],
    filled: Result<Filled<T>, Refusal>,
    out: &[u8],
) -> Option<Filled<T>>
    ensures { IfSome result (λ given. filled ≡ Ok given) }
{
    let Ok(given) = filled else {
        words::say(
            &mut streams.errors,
            name,
            b"refusal 8: a buffer of this program is too short; reading stopped",
        );
        return None;
    };
    if words::put(streams, name, out, given.written) {
        Some(given)
    } else {
        None
    }
}

// As much of what is left of the part as the output buffer has room for is taken in, and what that gives is put out. (The buffers go one by one:
// of a slice a proof knows that a call leaves it as long as it was, of the arrays of a struct that is lent it does not.)
fn take_in<T: Task, R, W: Write, E: Write>(
    streams: &mut Streams<R, W, E>,
    name: &[u8],
    at: At<T>,
    input: &[u8],
    line: &mut [u8],
    out: &mut [u8],
) -> Option<At<T>>
    requires { (at.progress.left ≤ at.progress.to) × (at.progress.to ≤ length input.now) }
    ensures { AfterFill T.rule at result input.now line.old line.new out.old out.new }
{
    let progress = at.progress;
    let end = progress.to;
    let filled = at.work.fill(&input[end - progress.left..end], line, out);
    let given = put_out(streams, name, filled, out)?;
    Some(At {
        work: given.work,
        progress: progress.taken_in(given.used, given.written),
    })
}

// One step: a read where nothing is left of the part, and else a call for what is left of it.
fn step<T: Task, R: Read, W: Write, E: Write>(
    streams: &mut Streams<R, W, E>,
    name: &[u8],
    at: At<T>,
    input: &mut [u8],
    line: &mut [u8],
    out: &mut [u8],
) -> Option<At<T>>
    requires { (at.progress.left ≤ at.progress.to) × (at.progress.to ≤ length input.old) }
    ensures { Step T.rule at result input.old input.new line.old line.new out.old out.new }
{
    if 0 < at.progress.left {
        return take_in(streams, name, at, input, line, out);
    }
    let progress = read(streams, name, at.progress, input)?;
    Some(At {
        work: at.work,
        progress,
    })
}

// Whether to go on.
fn goes_on<T: Task>(at: At<T>) -> bool
    ensures { result ≡ goes_on at.progress (T.rule.is_ended at.work) }
{
    at.progress.goes_on(at.work.has_ended())
}

// The end of the loop: what is still in the line buffer is the last row. (Behind a refusal that ended the reading nothing comes of it.)
fn ended<T: Task, R, W: Write, E: Write>(
    streams: &mut Streams<R, W, E>,
    name: &[u8],
    at: At<T>,
    line: &mut [u8],
    out: &mut [u8],
) -> Option<Ran<T>>
    ensures { IfSome result (λ ran. AfterLast T.rule at ran line.old line.new out.old out.new) }
{
    let progress = at.progress;
    let filled = at.work.last(line, out);
    let last = put_out(streams, name, filled, out)?;
    Some(Ran {
        end: progress.end,
        work: last.work,
        put: progress.put.wrapping_add(last.written as u64),
    })
}

// All steps. A proved loop has to end, and nothing says that the input does: it has more steps than any input uses up.
fn all<T: Task, R: Read, W: Write, E: Write>(
    streams: &mut Streams<R, W, E>,
    name: &[u8],
    start: T,
    put: u64,
    input: &mut [u8],
    line: &mut [u8],
    out: &mut [u8],
) -> Option<Ran<T>>
    requires { (length line.old ≡ line_bytes) × (room ≤ length out.old) }
    ensures { IfSome result (Through T.rule put (T.rule.all_of start line.old)) }
{
    let mut at = At {
        work: start,
        progress: Progress::first(put),
    };
    for _ in 0..u64::MAX {
        at = step(streams, name, at, input, line, out)?;
        if !goes_on(at) {
            return ended(streams, name, at, line, out);
        }
    }
    None
}
