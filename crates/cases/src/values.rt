// A dump moment by moment: NAME.vcd, taken back by `readback` in parts of 4,096 bytes and of seven, gives the rows of NAME.csv, and the lent
// buffer holds their values. What is no dump must be refused behind those rows.
ghost use Rattle.std.specs.Prelude.{◌<◌};

use crate::files;
use crate::files::ROOM;
use dump::WIRES;
use readback::{Reader, Took};
use refusals::Refusal;
use texts::Line;
use words::rooms::zeros;

// What the buffer for the values holds before the first call: no moment has it.
const LENT: u8 = 2;

// Whether a case is as stored, and ends in this refusal, if in any.
pub(crate) fn case(rt: HostRuntime, name: &[u8], refusal: Option<Refusal>) -> bool {
    run(rt, name, refusal, 4096) & run(rt, name, refusal, 7)
}

// Whether its moments are in parts of so many bytes.
fn run(rt: HostRuntime, name: &[u8], refusal: Option<Refusal>, size: usize) -> bool
    requires { 0 < size }
{
    let mut room = zeros::<ROOM>();
    let mut other = zeros::<ROOM>();
    let dump = files::read(rt, name, b".vcd", &mut room);
    let stored = files::read(rt, name, b".csv", &mut other);
    match behind_header(stored) {
        Some(rows) => runs(dump, size, refusal, rows),
        None => false,
    }
}

// What is stored behind the header.
fn behind_header(stored: &[u8]) -> Option<&[u8]> {
    let mut room = [0u8; 512];
    let mut header = Line::new(&mut room);
    sheets::rows::put_header(&mut header);
    stored.strip_prefix(header.text())
}

// A whole dump, moment by moment: whether what is written, and what the lent buffer holds after each call, are as stored.
fn runs(dump: &[u8], size: usize, refusal: Option<Refusal>, stored: &[u8]) -> bool
    requires { 0 < size }
{
    let mut rows = stored;
    let mut due = [LENT; WIRES];
    let mut values = [LENT; WIRES];
    let mut reader = Reader::new();
    for part in dump.chunks(size) {
        let mut rest = part;
        // (How much a call uses is the reader's to say.)
        while !rest.is_empty() {
            let took = match reader.take(rest, &mut values) {
                Ok(took) => took,
                Err(refused) => {
                    return refusal == Some(refused.refusal) && rows.is_empty() && values == due;
                }
            };
            let Some(others) = behind_row(took, rows, &mut due) else {
                return false;
            };
            if values != due || took.used == 0 {
                return false;
            }
            let Some(left) = rest.get(took.used..) else {
                return false;
            };
            rows = others;
            rest = left;
            reader = took.reader;
        }
    }
    let ended = match reader.finish(&mut values) {
        Ok(took) => {
            let Some(others) = behind_row(took, rows, &mut due) else {
                return false;
            };
            rows = others;
            None
        }
        Err(refused) => Some(refused.refusal),
    };
    ended == refusal && rows.is_empty() && values == due
}

// The rows behind the one that a call gives, if it is the next, and what the buffer is due to hold then. Where the call gives none, all stays.
fn behind_row<'a>(took: Took, rows: &'a [u8], due: &mut [u8; WIRES]) -> Option<&'a [u8]> {
    let Some(time) = took.moment else {
        return Some(rows);
    };
    let mut room = [0u8; sheets::ROOM];
    let mut row = Line::new(&mut room);
    sheets::rows::put_row(&mut row, time, took.reader.values);
    *due = values_in(row.text());
    rows.strip_prefix(row.text())
}

// The values in a row, which ends in CRLF; behind each other wire's value comes a comma.
fn values_in(row: &[u8]) -> [u8; WIRES] {
    let mut values = [LENT; WIRES];
    if let Some(first) = row.len().checked_sub(2 * WIRES + 1) {
        for (wire, value) in values.iter_mut().enumerate() {
            *value = row[first + 2 * wire].wrapping_sub(b'0');
        }
    }
    values
}
