// A whole run of the program `waves` (request K2): a trace in, the value change dump of it out, from a fresh controller or from one that
// was handed over (request K3). The rule is specs/Moments.antt, from all bytes of the trace to all bytes of the dump. The trace is taken in
// by parts, one row a call, by the crate `reading`: here is only what is written of a row (specs/Parts.antt). proofs/Law.antt says that
// however the input is cut, what is written in all is the dump of the whole. `fill` takes in a whole part, as a program has it from one read,
// into one output buffer, for one write.
#![tactic(auto)]

ghost use Rattle.std.specs.Prelude.{◌≡◌, ◌≤◌, length};
ghost use Rattle.controller.specs.Stages.{elapsed_of};
ghost use Rattle.reading.specs.Fills.{in_front};
ghost use Rattle.dump.specs.Dumps.{head_text};
ghost use Rattle.dump.specs.Answers.{wrote_says};
ghost use Rattle.dump.specs.Writes.{starts_with};
ghost use Rattle.dumping.specs.Answers.{took_says};
ghost use Rattle.dumping.specs.Moments.{wires_of};
ghost use Rattle.dumping.specs.Parts.{later, given, begun_from, new_waves, nothing_told, room, take_of, finish_of, fill_of};

use controller::State;
use dump::{Dump, Wrote};
use reading::telling::{self, Tell};
use reading::{Came, Phase, Run};
use refusals::Refusal;

// What is written of a row has at most so many bytes: the head of a dump.
pub const ROOM: usize = dump::HEAD_LENGTH;

// A run under way, and the dump so far.
#[derive(Clone, Copy)]
pub struct Waves {
    pub run: Run,
    pub dump: Dump,
}

// What a call gives: the run after it, how much of the part is used, and how many bytes were written.
#[derive(Clone, Copy)]
pub struct Took {
    pub waves: Waves,
    pub used: usize,
    pub written: usize,
}

// The wires of a state: the five orders, the three lamps, and the 18 voted values.
#[tactic(auto, unfolding(crate::specs::Moments::wires_of, controller::specs::Lamps::values_of))]
pub fn wires(state: State) -> [bool; 26]
    ensures { result ≡ wires_of state }
{
    let s = state.shown();
    let l = s.lights;
    let mut wires = [false; 26];
    wires[..8].copy_from_slice(&[
        s.general, s.closes, s.opens, s.retracts, s.extends, l.green, l.orange, l.red,
    ]);
    wires[8..].copy_from_slice(&state.values());
    wires
}

impl Waves {
    // A run at its start, with the controller to go on with.
    #[tactic(auto, unfolding(crate::specs::Parts::begun_from))]
    pub fn from(state: State) -> Self
        ensures { result ≡ begun_from state }
    {
        let dump = Dump {
            time: 0,
            values: [false; 26],
        };
        Waves {
            run: Run::from(state),
            dump,
        }
    }

    // A run at its start, from a fresh controller.
    #[tactic(auto, unfolding(crate::specs::Parts::new_waves))]
    pub fn new() -> Self
        ensures { result ≡ new_waves }
    {
        Waves::from(State::fresh(0))
    }

    // How far the trace has been read, and what ended the reading.
    pub fn phase(self) -> Phase
        ensures { result ≡ self.run.reading.phase }
    {
        self.run.phase()
    }

    // Takes in a part of the input up to the end of its first row, or all of it, through a line buffer of 512 bytes, and writes what
    // the row gives. The output buffer must have room for the head of a dump; the rest of the part is for the next call. After a
    // refusal of a row the rest gives nothing.
    #[tactic(auto, unfolding(crate::specs::Parts::take_of))]
    pub fn take(self, part: &[u8], line: &mut [u8], out: &mut [u8]) -> Result<Took, Refusal>
        ensures out_after { (took_says self result, line.new, out.new) ≡ take_of self part.now line.old out.old }
        ensures used_in_bounds { ((took_says self result).used ≤ length part.now) × ((took_says self result).written ≤ length out.old) }
    {
        Ok(of_run(telling::take::<Moments>(self.dump, self.run, part, line, out)?))
    }

    // The end of the input: what is still in the line buffer is the last row. The output buffer must have room for the head of a
    // dump.
    #[tactic(auto, unfolding(crate::specs::Parts::finish_of))]
    pub fn finish(self, line: &mut [u8], out: &mut [u8]) -> Result<Took, Refusal>
        ensures out_after { (took_says self result, line.new, out.new) ≡ finish_of self line.old out.old }
        ensures written_in_bounds { (took_says self result).written ≤ length out.old }
    {
        Ok(of_run(telling::finish::<Moments>(self.dump, self.run, line, out)?))
    }

    // Takes in a part of the input row by row, and writes what the rows give, each text behind the one before it, until the part is
    // used up, a refusal of a row has ended the reading, or less than the room for the head of a dump is left in the output buffer.
    // What is left of the part is for the next call.
    #[tactic(auto, unfolding(crate::specs::Parts::fill_of))]
    pub fn fill(self, part: &[u8], line: &mut [u8], out: &mut [u8]) -> Result<Took, Refusal>
        ensures out_after { (took_says self result, line.new, out.new) ≡ fill_of self part.now line.old out.old }
        ensures used_in_bounds { ((took_says self result).used ≤ length part.now) × ((took_says self result).written ≤ length out.old) }
    {
        Ok(of_run(telling::fill::<Moments>(self.dump, self.run, part, line, out)?))
    }
}

// What a call gives, where the dump is carried on.
fn of_run(took: telling::Took<Dump>) -> Took
    ensures { result ≡ record { waves = record { run = took.run; dump = took.carried }; used = took.used; written = took.written } }
{
    let dump = took.carried;
    Took {
        waves: Waves {
            run: took.run,
            dump,
        },
        used: took.used,
        written: took.written,
    }
}

// Row 0 starts the dump, an accepted row is a moment of it, and of any other row nothing is written.
struct Moments;

impl Tell for Moments {
    type Carried = Dump;

    const ROOM: usize = ROOM;

    ghost ROOM = { room };

    ghost told = { given };

    #[tactic(auto, unfolding(crate::specs::Parts::given))]
    fn tell(dump: Dump, before: State, came: Came, after: State, out: &mut [u8]) -> (Dump, usize) {
        match came {
            Came::Answered { label: 0, .. } => start(after, out),
            Came::Answered { code: 0, .. } => moment(
                dump,
                elapsed(before.stamp, after.stamp),
                after,
                out,
            ),
            _ => (dump, 0),
        }
    }

    ghost quiet = { nothing_told };
}

// Row 0 starts the dump.
#[tactic(auto, using(dump::proofs::Lengths::head_length), unfolding(dump::specs::Writes::start_of, dump::specs::Writes::placed))]
fn start(after: State, out: &mut [u8]) -> (Dump, usize)
    requires { 1078 ≤ length out.old }
    ensures { (result, out.new) ≡ in_front (starts_with (wires_of after), head_text (wires_of after)) out.old }
{
    let values = wires(after);
    behind(Dump::start(values, out), Dump { time: 0, values })
}

// An accepted row is a moment, so many ms later.
fn moment(dump: Dump, ms: u32, after: State, out: &mut [u8]) -> (Dump, usize)
    requires { 1078 ≤ length out.old }
    ensures { (result, out.new) ≡ in_front (later dump ms (wires_of after)) out.old }
{
    behind(dump.next(u64::from(ms), wires(after), out), dump)
}

// The dump behind what was written, and how many bytes that is. (There is room, and no trace reaches 2 ^ 64: where the writer refuses, the
// dump is the one before.)
fn behind(wrote: Result<Wrote, Refusal>, before: Dump) -> (Dump, usize)
    ensures { result ≡ ((wrote_says before wrote).dump, (wrote_says before wrote).written) }
{
    match wrote {
        Ok(wrote) => (wrote.dump, wrote.written),
        Err(_) => (before, 0),
    }
}

// How many ms passed from a stamp to another.
#[tactic(auto, unfolding(controller::specs::Stages::elapsed_of))]
fn elapsed(before: u32, after: u32) -> u32
    ensures { result ≡ elapsed_of before after }
{
    after.wrapping_sub(before)
}
