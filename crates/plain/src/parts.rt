// The items and the rules of an image by name (specs/Parts.antt), each put into a line if there is room for it.
ghost use Rattle.std.specs.Prelude.{◌≡◌, ◌<◌, length};
ghost use Rattle.names.specs.Words.{entry, order_names};
ghost use Rattle.texts.specs.Lines.{PutsIfRoom};
ghost use Rattle.plain.specs.Parts.{sensor_parts, sensor_items, order_items, rest_names, item_names, on_rule, rule_words};

use names::Kind;
use texts::Line;

// The place of the first order's items: before them stand the last stamp and the items of the sensors.
const FIRST_ORDER: usize = 1 + sensors::ITEMS * names::SENSORS;

// The place of the items behind those of the orders, of which each has two.
const REST: usize = FIRST_ORDER + 2 * names::ORDERS;

// Puts the name of item k. (By number, here and below: a fault bears the place in the image.)
pub(crate) fn put_name(text: &mut Line, k: usize)
    ensures { PutsIfRoom (entry item_names k) text.old text.new }
{
    match k {
        0 => text.put(b"last stamp"),
        1..FIRST_ORDER => put_of_sensor(text, k - 1),
        FIRST_ORDER..REST => put_of_order(text, k - FIRST_ORDER),
        _ => text.put(rest_name(k - REST)),
    }
}

// Puts rule k in words.
pub(crate) fn put_words(text: &mut Line, k: usize)
    ensures { PutsIfRoom (entry rule_words k) text.old text.new }
{
    match k {
        0 => text.put(b"moving gears have doors OPEN"),
        1..names::ORDERS => put_on_rule(text, k),
        5 => text.put(b"doors not CLOSED without a cause has general_EV on"),
        6 => text.put(b"an invalid sensor has a cause"),
        7 => text.put(b"with all channels valid the odd channel is 0 exactly if the count is 0"),
        8 => text.put(b"with one channel struck the odd channel is 0"),
        9 => text.put(b"with the sensor invalid odd channel and count are 0"),
        _ => text.put(b""),
    }
}

// Puts the name of item j of those of the sensors.
fn put_of_sensor(text: &mut Line, j: usize)
    requires { j < length sensor_items }
    ensures { PutsIfRoom (entry sensor_items j) text.old text.new }
{
    text.put(Kind::Sensor.word(j / sensors::ITEMS));
    text.put(sensor_part(j % sensors::ITEMS));
}

// Which item of a sensor it is.
fn sensor_part(k: usize) -> &'static [u8]
    requires { k < 4 }
    ensures { result.now ≡ entry sensor_parts k }
{
    match k {
        0 => b": voter",
        1 => b": held value",
        2 => b": odd channel",
        _ => b": count",
    }
}

// Puts the name of item j of those of the orders.
fn put_of_order(text: &mut Line, j: usize)
    requires { j < length order_items }
    ensures { PutsIfRoom (entry order_items j) text.old text.new }
{
    text.put(Kind::Order.word(j / 2));
    if j % 2 == 0 {
        return text.put(b": on");
    }
    text.put(b": age");
}

// The name of item j of those behind; past the last it is empty.
fn rest_name(j: usize) -> &'static [u8]
    ensures { result.now ≡ entry rest_names j }
{
    match j {
        0 => b"handle age",
        1 => b"doors",
        2 => b"gears",
        3 => b"cause",
        _ => b"",
    }
}

// Puts the rule that one of the four orders has; k is its place among the names of the orders.
fn put_on_rule(text: &mut Line, k: usize)
    ensures { PutsIfRoom (on_rule (entry order_names k)) text.old text.new }
{
    text.put(Kind::Order.word(k));
    text.put(b" is on only where it is wanted and has general_EV on");
}
