// Writes a value change dump of IEEE 1364 (request K2): 26 one-bit wires over a time in ms.
// The rule is specs/Dumps.antt, from a list of times and values to all bytes of the dump. It is written by parts into lent
// buffers, so that a long lesson needs no more memory than a short one: specs/Writes.antt says what each call gives, and
// proofs/Law.antt that what is written in all is the dump of the whole list.
#![tactic(auto)]

ghost use Rattle.std.specs.Prelude.{◌≡◌, ◌+◌, ◌*◌, ◌≤◌, ◌<◌, length, take};
ghost use Rattle.texts.specs.Lines.{Puts, PutsIfRoom};
ghost use Rattle.names.specs.Words.{entry};
ghost use Rattle.dump.specs.Wires.{wire_names, wires, first_code};
ghost use Rattle.dump.specs.Dumps.{
  declaration,
  declarations,
  opening_text,
  closing_text,
  opening_length,
  head_length,
  value_line,
  value_lines,
  head_text,
  change_line,
  changes_from,
  time_line,
  time_room,
  moment_room,
  moment_text,
};
ghost use Rattle.dump.specs.Answers.{wrote_says};
ghost use Rattle.dump.specs.Writes.{starts_with, start_of, next_of};

use names::{Kind, LAMPS, ORDERS};
use refusals::Refusal;
use texts::Line;

// There are so many wires.
pub const WIRES: usize = 26;

// The code of the first wire; each next wire has the next.
pub const FIRST: u8 = b'!';

// How many bytes every dump begins with, how many follow the first values, and how many that makes with these.
pub const OPENING_LENGTH: usize = 995;

pub const CLOSING_LENGTH: usize = 5;

pub const HEAD_LENGTH: usize = OPENING_LENGTH + 3 * WIRES + CLOSING_LENGTH;

// A moment has at most so many: 22 of its time, and three of each wire.
const MOMENT_ROOM: usize = 22 + 3 * WIRES;

// A dump under way: the time and the values of the last moment.
#[derive(Clone, Copy)]
pub struct Dump {
    pub time: u64,
    pub values: [bool; WIRES],
}

// What the writer answers: the dump after it, and how many bytes were written.
#[derive(Clone, Copy)]
pub struct Wrote {
    pub dump: Dump,
    pub written: usize,
}

// What every dump begins with, up to the first value.
pub fn opening() -> [u8; OPENING_LENGTH]
    ensures { result ≡ opening_text }
{
    let mut text = [0u8; OPENING_LENGTH];
    let mut line = Line::new(&mut text);
    put_opening(&mut line);
    text
}

// What follows the first values.
#[tactic(auto, unfolding(crate::specs::Dumps::closing_text))]
pub fn closing() -> [u8; CLOSING_LENGTH]
    ensures { result ≡ closing_text }
{
    *b"$end\n"
}

impl Dump {
    // A dump at its start: writes its head, with the values at time 0.
    pub fn start(values: [bool; WIRES], out: &mut [u8]) -> Result<Wrote, Refusal>
        ensures { (wrote_says (starts_with values) result, out.new) ≡ start_of values out.old }
    {
        let mut room = [0u8; HEAD_LENGTH];
        let mut line = Line::new(&mut room);
        put_head(&mut line, values);
        let head = line.text();
        if out.len() < head.len() {
            return Err(Refusal::Room);
        }
        Ok(Wrote {
            dump: Dump { time: 0, values },
            written: spans::copy(head, out),
        })
    }

    // So many ms later, with these values: writes what changes. 8 for room, then 9 where no time passed or the time would reach 2^64;
    // what would be written at that time has as many bytes as at the last one below it.
    pub fn next(self, elapsed: u64, values: [bool; WIRES], out: &mut [u8]) -> Result<Wrote, Refusal>
        ensures { (wrote_says self result, out.new) ≡ next_of self elapsed values out.old }
    {
        let time = self.time.saturating_add(elapsed);
        let mut room = [0u8; MOMENT_ROOM];
        let mut line = Line::new(&mut room);
        put_moment(&mut line, time, self.values, values);
        let moment = line.text();
        if out.len() < moment.len() {
            return Err(Refusal::Room);
        }
        if elapsed == 0 || u64::MAX - self.time < elapsed {
            return Err(Refusal::Dump);
        }
        Ok(Wrote {
            dump: Dump { time, values },
            written: spans::copy(moment, out),
        })
    }
}

// Puts the head of a dump.
fn put_head(line: &mut Line, values: [bool; WIRES])
    ensures { PutsIfRoom (head_text values) line.old line.new }
{
    put_opening(line);
    put_values(line, values);
    line.put(&closing());
}

// Puts what every dump begins with.
fn put_opening(line: &mut Line)
    ensures { PutsIfRoom opening_text line.old line.new }
{
    line.put(
        b"$timescale 1 ms $end\n\
$scope module rig $end\n",
    );
    put_declarations(line);
    line.put(
        b"$upscope $end\n\
$enddefinitions $end\n\
#0\n\
$dumpvars\n",
    );
}

// Puts the declarations of all wires.
fn put_declarations(line: &mut Line)
    ensures { PutsIfRoom (declarations first_code wire_names) line.old line.new }
{
    for wire in 0..WIRES {
        put_declaration(line, wire);
    }
}

// Puts the declaration of a wire.
fn put_declaration(line: &mut Line, wire: usize)
    requires { wire < wires }
    ensures { PutsIfRoom (declaration (first_code + wire) (entry wire_names wire)) line.old line.new }
{
    line.put(b"$var wire 1 ");
    line.put(&[FIRST + (wire as u8), b' ']);
    put_name(line, wire);
    line.put(b" $end\n");
}

// Puts the name of a wire.
#[tactic(auto, using(crate::proofs::Lines::wire_name))]
fn put_name(line: &mut Line, wire: usize)
    ensures { Puts (entry wire_names wire) line.old line.new }
{
    if wire < ORDERS {
        return line.put(Kind::Order.word(wire));
    }
    if wire < ORDERS + LAMPS {
        return line.put(Kind::Lamp.word(wire - ORDERS));
    }
    line.put(Kind::Sensor.word(wire - (ORDERS + LAMPS)));
}

// Puts the values of all wires.
fn put_values(line: &mut Line, values: [bool; WIRES])
    ensures { PutsIfRoom (value_lines first_code values) line.old line.new }
{
    for (i, &value) in values.iter().enumerate() {
        put_value(line, FIRST + (i as u8), value);
    }
}

// Puts the line of a wire's value.
fn put_value(line: &mut Line, code: u8, value: bool)
    ensures { PutsIfRoom (value_line code value) line.old line.new }
{
    line.put(&[texts::on_off(value), code, b'\n']);
}

// Puts a moment: its time and what changes at it, or nothing where nothing changes.
fn put_moment(line: &mut Line, time: u64, olds: [bool; WIRES], news: [bool; WIRES])
    ensures { PutsIfRoom (moment_text olds (record { time = time; values = news })) line.old line.new }
{
    if olds == news {
        return;
    }
    put_time(line, time);
    put_changes(line, olds, news);
}

// Puts the line of a time.
fn put_time(line: &mut Line, time: u64)
    ensures { PutsIfRoom (time_line time) line.old line.new }
{
    line.put(b"#");
    line.put_number(time);
    line.put(b"\n");
}

// Puts the wires that change. (Two arrays by one place, which a wire's code goes by too: a zip with its places would be no plainer.)
fn put_changes(line: &mut Line, olds: [bool; WIRES], news: [bool; WIRES])
    ensures { PutsIfRoom (changes_from first_code olds news) line.old line.new }
{
    for i in 0..WIRES {
        put_change(line, FIRST + (i as u8), olds[i], news[i]);
    }
}

// Puts the line of a wire that changes; one that does not change has none.
#[tactic(auto, using(crate::proofs::Lines::wire_change))]
fn put_change(line: &mut Line, code: u8, old: bool, new: bool)
    ensures { PutsIfRoom (change_line code old new) line.old line.new }
{
    if old != new {
        put_value(line, code, new);
    }
}
