// A whole run of the program `sheet` (request K2): a dump in, its values as CSV by RFC 4180 out, a header and a row for each time that is
// written. The rule is specs/Sheets.antt, from all bytes of the input to all bytes of the output, and specs/Runs.antt, the same by parts.
// The reader is the crate `readback`'s: here each moment that it gives is written, and the line is counted, so that a program can name
// the one that is refused. proofs/Law.antt says that however the input is cut, what is written in all is the sheet of the whole.
#![tactic(auto)]

ghost use Rattle.std.specs.Prelude.{◌≡◌, ◌+◌, ◌≤◌, false, [], length, drop, replicate, IfOk};
ghost use Rattle.texts.specs.Puts.{Put};
ghost use Rattle.dump.specs.Wires.{wires};
ghost use Rattle.readback.specs.Reads.{take_of};
ghost use Rattle.sheets.specs.Answers.{took_says};
ghost use Rattle.sheets.specs.Sheets.{row_room, sheet_row};
ghost use Rattle.sheets.specs.Runs.{new_sheet, line_after, line_behind, with_row, over, fill_from, filled, fill_of, finish_of, turn_by};

use dump::WIRES;
use readback::Reader;
use refusals::Refusal;
use texts::Line;

pub mod rows;

// A row has at most so many bytes: 20 of its time, two of each wire and two of its end.
pub const ROOM: usize = 22 + 2 * WIRES;

// A sheet under way: the reader of the dump, the line that is being read, how many rows are written, and whether a 9 has ended it. Lines
// and rows are counted modulo 2^64. (`nine` is no Option over the rest: line and rows are told behind a 9 too.)
#[derive(Clone, Copy)]
pub struct Sheet {
    pub reader: Reader,
    pub line: u64,
    pub rows: u64,
    pub nine: bool,
}

// What a call gives: the sheet after it, how much of the part is used, and how many bytes were written.
#[derive(Clone, Copy)]
pub struct Took {
    pub sheet: Sheet,
    pub used: usize,
    pub written: usize,
}

// What a call of the reader comes to: the sheet behind it, the time of the moment that is complete, where one is, and how much is used.
#[derive(Clone, Copy)]
struct Turn {
    sheet: Sheet,
    moment: Option<u64>,
    used: usize,
}

impl Sheet {
    // A sheet before the first byte.
    #[tactic(auto, unfolding(crate::specs::Runs::new_sheet))]
    pub fn new() -> Self
        ensures { result ≡ new_sheet }
    {
        Sheet {
            reader: Reader::new(),
            line: 1,
            rows: 0,
            nine: false,
        }
    }

    // Takes in a part of a dump and writes the rows of the moments that are complete in it, each behind the one before it, until the part
    // is used up, a 9 has ended the reading, or less than the room for a row is left. The output buffer must have room for a row; the
    // rest of the part is for the next call. After a 9 the rest gives nothing.
    #[tactic(auto, unfolding(crate::specs::Runs::fill_of))]
    pub fn fill(self, part: &[u8], out: &mut [u8]) -> Result<Took, Refusal>
        ensures out_after { (took_says self result, out.new) ≡ fill_of self part.now out.old }
        ensures used_in_bounds { IfOk result (λ took. (took.used ≤ length part.now) × (took.written ≤ length out.old)) }
    {
        if out.len() < ROOM {
            return Err(Refusal::Room);
        }
        if self.nine {
            return Ok(self.took(part.len(), 0));
        }
        Ok(self.fill_all(part, out))
    }

    // The end of the dump: the row of the last moment. The output buffer must have room for a row. After a 9 there is none.
    #[tactic(auto, unfolding(crate::specs::Runs::finish_of))]
    pub fn finish(self, out: &mut [u8]) -> Result<Took, Refusal>
        ensures out_after { (took_says self result, out.new) ≡ finish_of self out.old }
        ensures written_in_bounds { IfOk result (λ took. took.written ≤ length out.old) }
    {
        if out.len() < ROOM {
            return Err(Refusal::Room);
        }
        if self.nine {
            return Ok(self.took(0, 0));
        }
        if self.reader.finish(&mut [0u8; WIRES]).is_err() {
            return Ok(self.over().took(0, 0));
        }
        let written = row_at(out, 0, self.reader.time, self.reader.values);
        Ok(self.with_row().took(0, written))
    }

    // Takes in the part moment by moment: `used` goes on by what the reader used of it.
    fn fill_all(self, part: &[u8], out: &mut [u8]) -> Took
        requires { (self.nine ≡ false) × (row_room ≤ length out.old) }
        ensures out_after { (took_says self (Ok result), out.new) ≡ filled (fill_from (length out.old) self 0 [] part.now) out.old }
        ensures used_in_bounds { (result.used ≤ length part.now) × (result.written ≤ length out.old) }
    {
        let mut sheet = self;
        let mut used = 0;
        let mut written = 0;
        while used < part.len() {
            let turn = sheet.next(&part[used..]);
            if turn.sheet.nine {
                return turn.sheet.took(part.len(), written);
            }
            used += turn.used;
            let Some(time) = turn.moment else {
                return turn.sheet.took(used, written);
            };
            written = row_at(out, written, time, turn.sheet.reader.values);
            sheet = turn.sheet.with_row();
            if out.len() - written < ROOM {
                return sheet.took(used, written);
            }
        }
        sheet.took(used, written)
    }

    // What the reader makes of what is left of the part.
    fn next(self, rest: &[u8]) -> Turn
        ensures { result ≡ turn_by self rest.now (take_of self.reader rest.now (replicate wires 0)).0 }
    {
        match self.reader.take(rest, &mut [0u8; WIRES]) {
            Ok(took) => Turn {
                sheet: Sheet {
                    reader: took.reader,
                    line: line_behind(self.line, &rest[..took.used]),
                    rows: self.rows,
                    nine: false,
                },
                moment: took.moment,
                used: took.used,
            },
            Err(refused) => Turn {
                sheet: Sheet {
                    reader: Reader::new(),
                    line: line_behind(self.line, &rest[..refused.used]),
                    rows: self.rows,
                    nine: true,
                },
                moment: None,
                used: refused.used,
            },
        }
    }

    // One row more is written.
    fn with_row(self) -> Self
        ensures { result ≡ with_row self }
    {
        Sheet {
            rows: self.rows.wrapping_add(1),
            nine: false,
            ..self
        }
    }

    // A 9 has ended the reading.
    fn over(self) -> Self
        ensures { result ≡ over self }
    {
        Sheet {
            reader: Reader::new(),
            nine: true,
            ..self
        }
    }

    // This sheet, with how much is used and written.
    fn took(self, used: usize, written: usize) -> Took
        ensures { result ≡ record { sheet = self; used = used; written = written } }
    {
        Took {
            sheet: self,
            used,
            written,
        }
    }
}

// Puts the row of a time at a place of the output buffer that has room for it. (Buffer and place, and no `Line`: `filled` of specs/Runs.antt and
// the proof of `fill_all` speak of these.)
fn row_at(out: &mut [u8], at: usize, time: u64, values: [bool; WIRES]) -> usize
    requires { at + row_room ≤ length out.old }
    ensures { (result ≤ at + row_room) × Put out.old at (sheet_row time values) out.new result }
{
    let mut line = Line { bytes: out, at };
    rows::put_row(&mut line, time, values);
    line.at
}

// The line behind bytes.
#[tactic(auto, using(crate::proofs::Counting::turns))]
fn line_behind(line: u64, bytes: &[u8]) -> u64
    ensures { result ≡ line_behind line bytes.now }
{
    let mut at = line;
    for &b in bytes {
        at = line_after(at, b);
    }
    at
}

// The line behind a byte.
fn line_after(line: u64, b: u8) -> u64
    ensures { result ≡ line_after line b }
{
    if b == b'\n' {
        line.wrapping_add(1)
    } else {
        line
    }
}
