// Takes a value change dump back (request K2): the values of the wires at every time that is written.
// The rule is specs/Bytes.antt, a table of what each byte comes to at each place of a dump, and specs/Reads.antt, what the bytes
// of a whole dump come to and what each call gives. proofs/Written.antt says that what the writer writes is read back, and
// proofs/Exact.antt that nothing else is; proofs/Calls.antt says the same of calls, however the dump is cut.
#![tactic(auto)]

ghost use Rattle.std.specs.Prelude.{◌≡◌, ◌<◌, ◌+◌, true, false, length, MatchOption};
ghost use Rattle.dump.specs.Wires.{wires};
ghost use Rattle.dump.specs.Dumps.{opening_text};
ghost use Rattle.readback.specs.Bytes.{
  new_reader,
  moved,
  bad,
  is_value,
  value_of,
  told,
  has_byte,
  at_opening,
  at_first_value,
  at_first_code,
  at_first_end,
  at_closing,
  at_line,
  at_time,
  at_code,
  at_end,
  byte_of,
};
ghost use Rattle.readback.specs.Reads.{
  is_line,
  is_opening,
  AtHand,
  is_bad,
  complete,
  begins,
  bits,
  taken_from,
  take_of,
  finish_of,
};
ghost use Rattle.readback.specs.Answers.{took_says};

use dump::{CLOSING_LENGTH, FIRST, OPENING_LENGTH, WIRES};
use refusals::Refusal;

// Where in a dump the reader is.
#[derive(Clone, Copy)]
pub enum Place {
    // So many bytes of what every dump begins with are read.
    Opening(usize),
    // The value of the next wire at time 0 is due, then its code, then LF.
    FirstValue,
    FirstCode,
    FirstEnd,
    // So many bytes of what follows the first values are read.
    Closing(usize),
    // At the start of a line behind the head.
    Line,
    // In a time: the number so far.
    Time(u64),
    // Behind the value of a wire that changes: its code is due.
    Code(bool),
    // Behind its code: LF is due.
    End,
    // Behind a byte that no dump has there.
    Bad,
}

// A dump that is being read: the place, the time and the values of the moment under way, and the first wire that may follow.
#[derive(Clone, Copy)]
pub struct Reader {
    pub place: Place,
    pub time: u64,
    pub next: usize,
    pub values: [bool; WIRES],
}

impl Place {
    // At the start of a line.
    fn is_line(self) -> bool
        ensures { result ≡ is_line self }
    {
        matches!(self, Place::Line)
    }

    // Within what every dump begins with.
    fn is_opening(self) -> bool
        ensures { result ≡ is_opening self }
    {
        matches!(self, Place::Opening(_))
    }

    // Refused for good.
    fn is_bad(self) -> bool
        ensures { result ≡ is_bad self }
    {
        matches!(self, Place::Bad)
    }
}

// What taking in a part gives: the time of the moment that is complete, where one is, how much of the part is used, and the reader behind
// it. The moment's values stand in the lent buffer.
#[derive(Clone, Copy)]
pub struct Took {
    pub moment: Option<u64>,
    pub used: usize,
    pub reader: Reader,
}

// A refusal, and how many bytes of the part stand in front of what is refused. The reader is as it was.
#[derive(Clone, Copy)]
pub struct Refused {
    pub refusal: Refusal,
    pub used: usize,
}

impl Reader {
    // A reader before the first byte.
    #[tactic(auto, unfolding(crate::specs::Bytes::new_reader))]
    pub fn new() -> Self
        ensures { result ≡ new_reader }
    {
        Reader {
            place: Place::Opening(0),
            time: 0,
            next: 0,
            values: [false; WIRES],
        }
    }

    // Takes in a part of a dump, up to the byte that begins the next moment or to its end. Where a moment is complete, its values
    // go into the lent buffer of 26 bytes, each 0 or 1; the rest of the part is for the next call.
    #[tactic(auto, unfolding(crate::specs::Reads::take_of))]
    pub fn take(self, part: &[u8], values: &mut [u8]) -> Result<Took, Refused>
        ensures { (took_says self result, values.new) ≡ take_of self part.now values.old }
    {
        if values.len() != WIRES {
            return refuse(Refusal::Room, 0);
        }
        if self.place.is_opening() {
            return self.take_all(&dump::opening(), part, values);
        }
        self.take_all(part, part, values)
    }

    // The end of the dump: its last moment.
    #[tactic(auto, unfolding(crate::specs::Reads::finish_of))]
    pub fn finish(self, values: &mut [u8]) -> Result<Took, Refused>
        ensures { (took_says self result, values.new) ≡ finish_of self values.old }
    {
        if values.len() != WIRES {
            return refuse(Refusal::Room, 0);
        }
        if !self.complete() {
            return refuse(Refusal::Dump, 0);
        }
        show(self.values, values);
        Ok(Took {
            moment: Some(self.time),
            used: 0,
            reader: self,
        })
    }

    // Takes in the part up to the byte that begins the next moment, or to its end. The text is what every dump begins with, made once for
    // all bytes of it; behind it any text will do.
    #[tactic(auto, using(crate::proofs::Turns::turns))]
    fn take_all(self, text: &[u8], part: &[u8], values: &mut [u8]) -> Result<Took, Refused>
        requires { AtHand self text.now × (length values.old ≡ wires) }
        ensures { (took_says self result, values.new) ≡ taken_from self self 0 part.now values.old }
    {
        let mut reader = self;
        for (i, &b) in part.iter().enumerate() {
            let after = reader.byte(text, b);
            if after.place.is_bad() {
                return refuse(Refusal::Dump, i);
            }
            if reader.begins(b) {
                show(reader.values, values);
                return Ok(Took {
                    moment: Some(reader.time),
                    used: i + 1,
                    reader: after,
                });
            }
            reader = after;
        }
        Ok(Took {
            moment: None,
            used: part.len(),
            reader,
        })
    }

    // A byte.
    #[tactic(auto, unfolding(crate::specs::Bytes::byte_of))]
    fn byte(self, text: &[u8], b: u8) -> Self
        requires { AtHand self text.now }
        ensures { result ≡ byte_of self b }
    {
        match self.place {
            Place::Opening(at) => self.at_opening(text, at, b),
            Place::FirstValue => self.at_first_value(b),
            Place::FirstCode => self.at_first_code(b),
            Place::FirstEnd => self.at_first_end(b),
            Place::Closing(at) => self.at_closing(at, b),
            Place::Line => self.at_line(b),
            Place::Time(n) => self.at_time(n, b),
            Place::Code(value) => self.at_code(value, b),
            Place::End => self.at_end(b),
            Place::Bad => self,
        }
    }

    // What every dump begins with.
    fn at_opening(self, text: &[u8], at: usize, b: u8) -> Self
        requires { text.now ≡ opening_text }
        ensures { result ≡ at_opening self at b }
    {
        match next_in(text, at, b) {
            None => self.bad(),
            Some(OPENING_LENGTH) => self.moved(Place::FirstValue),
            Some(next) => self.moved(Place::Opening(next)),
        }
    }

    // The value of the next wire at time 0.
    #[tactic(auto, unfolding(crate::specs::Bytes::at_first_value))]
    fn at_first_value(self, b: u8) -> Self
        ensures { result ≡ at_first_value self b }
    {
        match value_of(b) {
            Some(value) if self.next < WIRES => self.told(Place::FirstCode, self.next, value),
            _ => self.bad(),
        }
    }

    // The code of that wire.
    #[tactic(auto, unfolding(crate::specs::Bytes::at_first_code))]
    fn at_first_code(self, b: u8) -> Self
        ensures { result ≡ at_first_code self b }
    {
        match b.checked_sub(FIRST) {
            Some(wire) if wire as usize + 1 == self.next => self.moved(Place::FirstEnd),
            _ => self.bad(),
        }
    }

    // The end of that line.
    #[tactic(auto, unfolding(crate::specs::Bytes::at_first_end))]
    fn at_first_end(self, b: u8) -> Self
        ensures { result ≡ at_first_end self b }
    {
        if b != b'\n' {
            return self.bad();
        }
        if self.next < WIRES {
            return self.moved(Place::FirstValue);
        }
        self.moved(Place::Closing(0))
    }

    // What follows the first values.
    fn at_closing(self, at: usize, b: u8) -> Self
        ensures { result ≡ at_closing self at b }
    {
        match next_in(&dump::closing(), at, b) {
            None => self.bad(),
            Some(CLOSING_LENGTH) => self.moved(Place::Line),
            Some(next) => self.moved(Place::Closing(next)),
        }
    }

    // The start of a line behind the head.
    #[tactic(auto, unfolding(crate::specs::Bytes::at_line))]
    fn at_line(self, b: u8) -> Self
        ensures { result ≡ at_line self b }
    {
        if b == b'#' && 0 < self.next {
            return self.moved(Place::Time(0));
        }
        match value_of(b) {
            Some(value) => self.moved(Place::Code(value)),
            None => self.bad(),
        }
    }

    // In a time.
    #[tactic(auto, unfolding(crate::specs::Bytes::at_time))]
    fn at_time(self, n: u64, b: u8) -> Self
        ensures { result ≡ at_time self n b }
    {
        if b == b'\n' && self.time < n {
            return Reader {
                place: Place::Line,
                time: n,
                next: 0,
                ..self
            };
        }
        if !b.is_ascii_digit() {
            return self.bad();
        }
        let digit = (b - b'0') as u64;
        // checked_mul divides by the number so far, which made the reading of a dump an eighth slower; this divides by ten.
        if (u64::MAX - digit) / 10 < n {
            return self.bad();
        }
        let with = n * 10 + digit;
        if with == 0 {
            return self.bad();
        }
        self.moved(Place::Time(with))
    }

    // The code of a wire that changes.
    #[tactic(auto, unfolding(crate::specs::Bytes::at_code))]
    fn at_code(self, value: bool, b: u8) -> Self
        ensures { result ≡ at_code self value b }
    {
        let Some(code) = b.checked_sub(FIRST) else {
            return self.bad();
        };
        let wire = code as usize;
        if wire < self.next {
            return self.bad();
        }
        match self.values.get(wire) {
            Some(&told) if told != value => self.told(Place::End, wire, value),
            _ => self.bad(),
        }
    }

    // The end of that line.
    #[tactic(auto, unfolding(crate::specs::Bytes::at_end))]
    fn at_end(self, b: u8) -> Self
        ensures { result ≡ at_end self b }
    {
        if b == b'\n' {
            return self.moved(Place::Line);
        }
        self.bad()
    }

    // The wire's value becomes this, and the next wire is the one after it.
    fn told(self, place: Place, wire: usize, value: bool) -> Self
        requires { wire < wires }
        ensures { result ≡ told self place wire value }
    {
        let mut values = self.values;
        values[wire] = value;
        Reader {
            place,
            next: wire + 1,
            values,
            ..self
        }
    }

    // A byte that no dump has there.
    fn bad(self) -> Self
        ensures { result ≡ bad self }
    {
        self.moved(Place::Bad)
    }

    // The reader at another place.
    fn moved(self, place: Place) -> Self
        ensures { result ≡ moved self place }
    {
        Reader { place, ..self }
    }

    // The dump may end here: a moment is complete.
    #[tactic(auto, unfolding(crate::specs::Reads::complete))]
    fn complete(self) -> bool
        ensures { result ≡ complete self }
    {
        self.place.is_line() && 0 < self.next
    }

    // The moment before is complete, and this byte begins the next one.
    #[tactic(auto, unfolding(crate::specs::Reads::begins))]
    fn begins(self, b: u8) -> bool
        ensures { result ≡ begins self b }
    {
        self.complete() && b == b'#'
    }
}

// A refusal, with so many bytes of the part in front of it.
fn refuse(refusal: Refusal, used: usize) -> Result<Took, Refused>
    ensures { result ≡ Err (record { refusal = refusal; used = used }) }
{
    Err(Refused { refusal, used })
}

// The place behind this byte of a text, where the text has it there.
fn next_in(text: &[u8], at: usize, b: u8) -> Option<usize>
    ensures { MatchOption result (has_byte text.now at b ≡ false) (λ next. (next ≡ at + 1) × (has_byte text.now at b ≡ true)) }
{
    if text.get(at) == Some(&b) {
        Some(at + 1)
    } else {
        None
    }
}

// A value, 0 or 1.
fn value_of(b: u8) -> Option<bool>
    ensures { MatchOption result (is_value b ≡ false) (λ value. (value ≡ value_of b) × (is_value b ≡ true)) }
{
    match b {
        b'0' => Some(false),
        b'1' => Some(true),
        _ => None,
    }
}

// The values of a moment into the lent buffer, each 0 or 1.
#[tactic(auto, using(crate::proofs::Turns::shown_turn))]
fn show(values: [bool; WIRES], out: &mut [u8])
    requires { length out.old ≡ wires }
    ensures { out.new ≡ bits values }
{
    for (i, &value) in values.iter().enumerate() {
        out[i] = u8::from(value);
    }
}
