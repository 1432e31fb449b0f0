// Where a loop from a reader to a writer stands, in numbers alone: what each read and each call for a part make of it, and whether it goes
// on. The rule is specs/Progresses.antt. What is read and written is the caller's, and where that fails the loop is over.
#![tactic(auto)]

ghost use Rattle.std.specs.Prelude.{◌≡◌};
ghost use Rattle.loops.specs.Progresses.{at_first, read_part, not_read, taken_in, goes_on};

// How far a loop is.
#[derive(Clone, Copy)]
pub struct Progress {
    // So many bytes of the part are not taken in yet, and they end in front of byte `to` of the input buffer.
    pub left: usize,
    pub to: usize,
    // Whether the end of the input was met.
    pub end: bool,
    // How many bytes were put out (modulo 2^64).
    pub put: u64,
}

impl Progress {
    // Before the first read, with so many bytes put out.
    pub fn first(put: u64) -> Self
        ensures { result ≡ at_first put }
    {
        Progress {
            left: 0,
            to: 0,
            end: false,
            put,
        }
    }

    // A part of n bytes was read to the front of the input buffer; none is the end of the input.
    pub fn read(self, n: usize) -> Self
        ensures { result ≡ read_part self n }
    {
        Progress {
            left: n,
            to: n,
            end: n == 0,
            put: self.put,
        }
    }

    // A read failed, and is to be tried again.
    pub fn not_read(self) -> Self
        ensures { result ≡ not_read self }
    {
        Progress::first(self.put)
    }

    // Some of the part was taken in, and so many bytes put out.
    pub fn taken_in(self, used: usize, written: usize) -> Self
        ensures { result ≡ taken_in self used written }
    {
        Progress {
            left: self.left.saturating_sub(used),
            put: self.put.wrapping_add(written as u64),
            ..self
        }
    }

    // Whether to go on: the input has not ended, and no refusal has ended the reading.
    pub fn goes_on(self, refused: bool) -> bool
        ensures { result ≡ goes_on self refused }
    {
        !self.end && !refused
    }
}
