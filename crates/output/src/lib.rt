// Writes the output of the program: its header, a row for each row read, and the row of a refusal that ends the run.
// The rule is specs/Rows.antt (document 01, "The trace and its program"; refusal 8 of "Refusal numbers").
// A text is put together in an array of its own, piece by piece, and then handed to the lent buffer if there is room for it.
#![tactic(auto)]

ghost use Rattle.std.specs.Prelude.{◌≡◌};
ghost use Rattle.refusals.specs.Answers.{says};
ghost use Rattle.texts.specs.Lines.{PutsIfRoom};
ghost use Rattle.output.specs.Pieces.{head_piece, tail_piece, orders_piece, lights_piece};
ghost use Rattle.output.specs.Rows.{
  shown_fields,
  header_text,
  row_text,
  refusal_text,
  written,
};

use controller::{Lights, Shown};
use names::Kind;
use refusals::Refusal;
use texts::Line;

// The output header. Each writer gives the number of bytes that it wrote, or 8: the buffer is too short for them.
pub fn write_header(out: &mut [u8]) -> Result<usize, Refusal>
    ensures { (says result, out.new) ≡ written header_text out.old }
{
    let mut room = [0u8; 128];
    let mut line = Line::new(&mut room);
    put_header(&mut line);
    hand_over(line.text(), out)
}

// The row of a row read: its label, 0 or its refusal's number, as the row bears it, and what is shown of the state.
pub fn write_row(label: u32, code: u8, shown: Shown, out: &mut [u8]) -> Result<usize, Refusal>
    ensures { (says result, out.new) ≡ written (row_text label code shown) out.old }
{
    let mut room = [0u8; 64];
    let mut line = Line::new(&mut room);
    put_head(&mut line, label as u64, code);
    put_shown(&mut line, shown);
    hand_over(line.text(), out)
}

// The row of a refusal that ends the run: the line number, the refusal's and ten empty fields.
pub fn write_refusal(line: u64, refusal: u8, out: &mut [u8]) -> Result<usize, Refusal>
    ensures { (says result, out.new) ≡ written (refusal_text line refusal) out.old }
{
    let mut room = [0u8; 64];
    let mut row = Line::new(&mut room);
    put_head(&mut row, line, refusal);
    row.put(b",,,,,,,,,,\r\n");
    hand_over(row.text(), out)
}

// Hands a text to the lent buffer where there is room for it.
#[tactic(auto, unfolding(crate::specs::Rows::written))]
fn hand_over(text: &[u8], out: &mut [u8]) -> Result<usize, Refusal>
    ensures { (says result, out.new) ≡ written text.now out.old }
{
    if out.len() < text.len() {
        return Err(Refusal::Room);
    }
    Ok(spans::copy(text, out))
}

// Puts the header.
fn put_header(line: &mut Line)
    ensures { PutsIfRoom header_text line.old line.new }
{
    line.put(b"step,code,");
    Kind::Order.put_all(line);
    line.put(b",doors,gears,");
    Kind::Lamp.put_all(line);
    line.put(b"\r\n");
}

// Puts the first two fields of a row.
fn put_head(line: &mut Line, number: u64, code: u8)
    ensures { PutsIfRoom (head_piece number code) line.old line.new }
{
    line.put_number(number);
    line.put(b",");
    line.put_number(code as u64);
}

// Puts what is shown of a state: the last ten fields of a row and its end.
fn put_shown(line: &mut Line, shown: Shown)
    ensures { PutsIfRoom (tail_piece (shown_fields shown)) line.old line.new }
{
    line.put(&orders_piece(shown));
    line.put(names::doors_word(shown.doors));
    line.put(b",");
    line.put(names::gears_word(shown.gears));
    line.put(&lights_piece(shown.lights));
}

// The five orders, a comma before each and after the last.
fn orders_piece(s: Shown) -> [u8; 11]
    ensures { result ≡ orders_piece s }
{
    [
        b',',
        texts::on_off(s.general),
        b',',
        texts::on_off(s.closes),
        b',',
        texts::on_off(s.opens),
        b',',
        texts::on_off(s.retracts),
        b',',
        texts::on_off(s.extends),
        b',',
    ]
}

// The three lights, a comma before each, and the row's end.
fn lights_piece(l: Lights) -> [u8; 8]
    ensures { result ≡ lights_piece l }
{
    [
        b',',
        texts::on_off(l.green),
        b',',
        texts::on_off(l.orange),
        b',',
        texts::on_off(l.red),
        b'\r',
        b'\n',
    ]
}
