// The items of a controller, and the controller that items are of (specs/Items.antt).
ghost use Rattle.std.specs.Prelude.{◌≡◌, ◌+◌, ◌*◌, ◌≤◌, ◌<◌, T, length, take, drop};
ghost use Rattle.texts.specs.Lines.{PutsIfRoom};
ghost use Rattle.texts.specs.Puts.{Put};
ghost use Rattle.sensors.specs.Items.{items_per_sensor, sensor_in};
ghost use Rattle.common.specs.Bits.{is_one};
ghost use Rattle.orders.specs.Timing.{order};
ghost use Rattle.image.specs.Xdr.{bytes_of, items_in};
ghost use Rattle.image.specs.Items.{
  sensor_count,
  sensors_items,
  core_items,
  tops,
  within,
  item_at,
  sensors_in,
  core_in,
  state_in,
};
ghost use Rattle.image.specs.Images.{size, image_of};

use crate::{CORE, FIRST_ORDER, SENSORS, xdr};
use controller::{Core, State};
use orders::{Order, Orders};
use sequence::{Doors, Gears, Place};
use texts::Line;
use voter::Voter;

// Puts all items of a controller at the front of a buffer: its stamp, those of its sensors, and those of the core.
pub(crate) fn put_state(out: &mut [u8], state: State) -> usize
    requires { size ≤ length out.old }
    ensures { (result ≡ size) × Put out.old 0 (image_of state) out.new result }
{
    let mut line = Line::new(out);
    put_items(&mut line, state);
    line.at
}

// The same into a line.
fn put_items(line: &mut Line, state: State)
    ensures { PutsIfRoom (image_of state) line.old line.new }
{
    xdr::put_items(line, &[state.stamp]);
    put_sensors(line, state.voters);
    xdr::put_items(line, &core_items(state.core));
}

// Puts the items of the sensors.
fn put_sensors(line: &mut Line, voters: [Voter; SENSORS])
    ensures { PutsIfRoom (bytes_of (sensors_items voters)) line.old line.new }
{
    for v in voters {
        xdr::put_items(line, &sensors::items(v));
    }
}

// The controller that an image of the new form is of, at a new start stamp.
pub(crate) fn state_in(image: &[u8], stamp: u32) -> State
    requires { (length image.now ≡ size) × T (within tops (items_in image.now)) }
    ensures { result ≡ state_in stamp (items_in image.now) }
{
    State {
        stamp,
        voters: sensors_in(image),
        core: core_in(xdr::items(image, FIRST_ORDER)),
    }
}

// The items of the orders, as in the output row, then handle age, doors, gears and cause.
fn core_items(core: Core) -> [u32; CORE]
    ensures { result ≡ core_items core }
{
    let orders = core.orders;
    [
        orders.general.on as u32,
        orders.general.age,
        orders.closes.on as u32,
        orders.closes.age,
        orders.opens.on as u32,
        orders.opens.age,
        orders.retracts.on as u32,
        orders.retracts.age,
        orders.extends.on as u32,
        orders.extends.age,
        core.since,
        core.place.doors.number(),
        core.place.gears.number(),
        core.cause as u32,
    ]
}

// The sensors of an image.
fn sensors_in(image: &[u8]) -> [Voter; SENSORS]
    requires { length image.now ≡ size }
    ensures { result ≡ sensors_in sensor_count (drop 1 (items_in image.now)) }
{
    let mut voters = [Voter::fresh(false); SENSORS];
    for (i, voter) in voters.iter_mut().enumerate() {
        *voter = sensor_at(image, i);
    }
    voters
}

// Sensor i of an image.
fn sensor_at(image: &[u8], i: usize) -> Voter
    requires { (i < sensor_count) × (length image.now ≡ size) }
    ensures { result ≡ sensor_in (take items_per_sensor (drop (1 + items_per_sensor * i) (items_in image.now))) }
{
    sensors::from_items(xdr::items(image, 1 + sensors::ITEMS * i))
}

// All but stamp and sensors, of their items, where the cause is no more than a byte.
fn core_in(items: [u32; CORE]) -> Core
    requires { item_at items 13 < 256 }
    ensures { result ≡ core_in items }
{
    Core {
        orders: orders_in(items),
        since: items[10],
        place: Place {
            doors: Doors::numbered(items[11]),
            gears: Gears::numbered(items[12]),
        },
        cause: items[13] as u8,
    }
}

// The orders, of the same items.
fn orders_in(items: [u32; CORE]) -> Orders
    ensures { result ≡ (core_in items).orders }
{
    Orders {
        general: order_in(items, 0),
        closes: order_in(items, 1),
        opens: order_in(items, 2),
        retracts: order_in(items, 3),
        extends: order_in(items, 4),
    }
}

// Order k, of the same items: it has two.
fn order_in(items: [u32; CORE], k: usize) -> Order
    requires { k < 5 }
    ensures { result ≡ order (is_one (item_at items (2 * k))) (item_at items (2 * k + 1)) }
{
    Order {
        on: items[2 * k] == 1,
        age: items[2 * k + 1],
    }
}
