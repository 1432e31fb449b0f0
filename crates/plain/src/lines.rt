// The lines of a controller in plain words (specs/Plain.antt), each put after the one before, piece by piece: every function puts its
// piece if there is room for it, and the array that `crate::put` lends has room for all of them.
ghost use Rattle.std.specs.Prelude.{◌++◌};
ghost use Rattle.common.specs.Ascii.{ascii};
ghost use Rattle.names.specs.Words.{entry, sensor_names, order_names};
ghost use Rattle.texts.specs.Lines.{Puts, PutsIfRoom};
ghost use Rattle.plain.specs.Plain.{
  line,
  in_samples,
  of_odd,
  of_count,
  held_line,
  of_sensor,
  on_or_off,
  of_order,
  of_cause,
  sensor_lines,
  order_lines,
  place_lines,
  rest_lines,
  plain_of,
};

use controller::{Core, State};
use names::Kind;
use orders::{Order, Orders};
use sequence::Place;
use texts::Line;
use voter::Voter;

// Puts all lines.
pub(crate) fn put_all(text: &mut Line, state: State)
    ensures { PutsIfRoom (plain_of state) text.old text.new }
{
    text.put(b"last stamp: ");
    text.put_number(state.stamp as u64);
    text.put(b"\n");
    put_sensors(text, state.voters);
    put_orders(text, state.core.orders);
    put_rest(text, state.core);
}

// Puts the lines of the sensors.
fn put_sensors(text: &mut Line, voters: [Voter; 18])
    ensures { PutsIfRoom (sensor_lines 0 voters) text.old text.new }
{
    for (k, v) in voters.iter().enumerate() {
        sensor_line(text, k, *v);
    }
}

// Puts the line of sensor k: its voter and held value, and what stands against a channel.
fn sensor_line(text: &mut Line, k: usize, v: Voter)
    ensures { PutsIfRoom (line (entry sensor_names k) (of_sensor v)) text.old text.new }
{
    text.put(Kind::Sensor.word(k));
    text.put(b": ");
    text.put(Kind::Voter.word(v.number() as usize));
    put_held(text, v);
}

// Puts the rest of a sensor's line, behind its voter.
fn put_held(text: &mut Line, v: Voter)
    ensures { PutsIfRoom (held_line v) text.old text.new }
{
    text.put(b", held ");
    text.put(&[texts::on_off(v.value())]);
    put_count(text, v.odd, v.count);
    text.put(b"\n");
}

// Puts what stands against a channel, or against the two that are left.
fn put_count(text: &mut Line, odd: u8, count: u8)
    ensures { PutsIfRoom (of_count odd count) text.old text.new }
{
    if odd != 0 {
        return put_odd(text, odd, count);
    }
    if count == 0 {
        return;
    }
    text.put(b", the two differed in ");
    put_samples(text, count);
}

// Puts that a channel was odd, and in how many samples.
fn put_odd(text: &mut Line, odd: u8, count: u8)
    ensures { PutsIfRoom (of_odd odd count) text.old text.new }
{
    text.put(b", channel ");
    text.put_number(odd as u64);
    text.put(b" odd in ");
    put_samples(text, count);
}

// Puts so many samples.
fn put_samples(text: &mut Line, n: u8)
    ensures { PutsIfRoom (in_samples n) text.old text.new }
{
    text.put_number(n as u64);
    if n == 1 {
        return text.put(b" sample");
    }
    text.put(b" samples");
}

// Puts the lines of the orders, as in the output row.
fn put_orders(text: &mut Line, orders: Orders)
    ensures { PutsIfRoom (order_lines orders) text.old text.new }
{
    order_line(text, names::GENERAL, orders.general);
    order_line(text, names::CLOSES, orders.closes);
    order_line(text, names::OPENS, orders.opens);
    order_line(text, names::RETRACTS, orders.retracts);
    order_line(text, names::EXTENDS, orders.extends);
}

// Puts the line of order k: on or off, and its age.
fn order_line(text: &mut Line, k: usize, o: Order)
    ensures { PutsIfRoom (line (entry order_names k) (of_order o)) text.old text.new }
{
    text.put(Kind::Order.word(k));
    put_on(text, o.on);
    text.put_number(o.age as u64);
    text.put(b" ms\n");
}

// Puts `on` or `off`, between the name and the age.
fn put_on(text: &mut Line, on: bool)
    ensures { Puts (ascii ": " ++ on_or_off on ++ ascii ", age ") text.old text.new }
{
    if on {
        return text.put(b": on, age ");
    }
    text.put(b": off, age ");
}

// Puts the lines of handle age, doors, gears and cause.
fn put_rest(text: &mut Line, core: Core)
    ensures { PutsIfRoom (rest_lines core) text.old text.new }
{
    text.put(b"handle age: ");
    text.put_number(core.since as u64);
    text.put(b" ms\n");
    put_place(text, core.place);
    text.put(b"cause: ");
    put_cause(text, core.cause);
    text.put(b"\n");
}

// Puts the lines of doors and gears.
fn put_place(text: &mut Line, place: Place)
    ensures { PutsIfRoom (place_lines place) text.old text.new }
{
    text.put(b"doors: ");
    text.put(names::doors_word(place.doors));
    text.put(b"\ngears: ");
    text.put(names::gears_word(place.gears));
    text.put(b"\n");
}

// Puts what is said of a cause.
fn put_cause(text: &mut Line, cause: u8)
    ensures { Puts (of_cause cause) text.old text.new }
{
    let k = cause as usize;
    if k < names::CAUSES {
        return text.put(Kind::Cause.word(k));
    }
    text.put_number(cause as u64);
}
