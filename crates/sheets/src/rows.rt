// The texts of a sheet: its header, and the row of a time. The rule is specs/Sheets.antt. A row is put together in a line of its own and
// then handed to the lent one if there is room for it.
ghost use Rattle.std.specs.Prelude.{◌∷◌};
ghost use Rattle.common.specs.Ascii.{comma};
ghost use Rattle.texts.specs.Lines.{Puts, PutsIfRoom};
ghost use Rattle.sheets.specs.Sheets.{other_names, sheet_header, sheet_row, value_field, later_fields};

use crate::ROOM;
use dump::WIRES;
use names::Kind;
use texts::Line;

// The bytes of the header.
const HEADER_LENGTH: usize = 415;

// Puts the header into the line, if there is room for it.
pub fn put_header(line: &mut Line)
    ensures { Puts sheet_header line.old line.new }
{
    let mut room = [0u8; HEADER_LENGTH];
    let mut text = Line::new(&mut room);
    header_text(&mut text);
    line.put(text.text());
}

// The same for the row of a time.
pub fn put_row(line: &mut Line, time: u64, values: [bool; WIRES])
    ensures { Puts (sheet_row time values) line.old line.new }
{
    let mut room = [0u8; ROOM];
    let mut text = Line::new(&mut room);
    row_text(&mut text, time, values);
    line.put(text.text());
}

// Puts the header at the front of the line: `time` and the wires' names.
fn header_text(line: &mut Line)
    ensures { PutsIfRoom sheet_header line.old line.new }
{
    line.put(b"time,");
    Kind::Order.put_all(line);
    put_others(line);
    line.put(b"\r\n");
}

// Puts the names behind the orders', with the commas before them.
fn put_others(line: &mut Line)
    ensures { PutsIfRoom other_names line.old line.new }
{
    line.put(b",");
    Kind::Lamp.put_all(line);
    line.put(b",");
    Kind::Sensor.put_all(line);
}

// Puts a row at the front of the line.
fn row_text(line: &mut Line, time: u64, values: [bool; WIRES])
    ensures { PutsIfRoom (sheet_row time values) line.old line.new }
{
    line.put_number(time);
    put_fields(line, values);
    line.put(b"\r\n");
}

// Puts the fields of all wires.
fn put_fields(line: &mut Line, values: [bool; WIRES])
    ensures { PutsIfRoom (later_fields values) line.old line.new }
{
    for value in values {
        put_field(line, value);
    }
}

// Puts the field of a value and the comma before it.
fn put_field(line: &mut Line, value: bool)
    ensures { PutsIfRoom (comma ∷ value_field value) line.old line.new }
{
    line.put(&[b',', texts::on_off(value)]);
}
