// The sensors, read from the positions of the cylinders (specs/Sensors.antt).
ghost use Rattle.std.specs.Prelude.{◌≡◌, ◌<◌, slice_index_or};
ghost use Rattle.common.specs.Bits.{bit};
ghost use Rattle.controller.specs.Samples.{agreeing};
ghost use Rattle.joined.specs.Sensors.{stands_at, no_cylinder, sensors_of, sample_of};

use cylinder::Cylinder;

// A cylinder stands out at so many parts.
const STROKE: u32 = 16384;

// The switch is closed while less than so many ms have passed since the handle's last move (`closed_for` of specs/Sensors.antt).
const CLOSED_FOR: u32 = 20000;

// The 54 bytes: handle, time since its last move, pressure, and the six cylinders. Channels agree.
#[tactic(auto, unfolding(crate::specs::Sensors::sample_of))]
pub(crate) fn sample(down: bool, since: u32, pressure: bool, cylinders: [Cylinder; 6]) -> [u8; 54]
    ensures { result ≡ sample_of down since pressure cylinders }
{
    three_each(all(down, since, pressure, cylinders))
}

// The eighteen sensors, in the sample's order.
#[tactic(auto, unfolding(crate::specs::Sensors::sensors_of, crate::specs::Sensors::seen_out, crate::specs::Sensors::seen_in))]
fn all(down: bool, since: u32, pressure: bool, cylinders: [Cylinder; 6]) -> [u8; 18]
    ensures { result ≡ sensors_of down since pressure cylinders }
{
    [
        // handle, analogical_switch
        u8::from(down),
        u8::from(since < CLOSED_FOR),
        // gear_extended
        seen_at(STROKE, cylinders, 3),
        seen_at(STROKE, cylinders, 4),
        seen_at(STROKE, cylinders, 5),
        // gear_retracted
        seen_at(0, cylinders, 3),
        seen_at(0, cylinders, 4),
        seen_at(0, cylinders, 5),
        // gear_shock_absorber: flight
        0,
        0,
        0,
        // door_closed
        seen_at(0, cylinders, 0),
        seen_at(0, cylinders, 1),
        seen_at(0, cylinders, 2),
        // door_open
        seen_at(STROKE, cylinders, 0),
        seen_at(STROKE, cylinders, 1),
        seen_at(STROKE, cylinders, 2),
        // circuit_pressurized
        u8::from(pressure),
    ]
}

// Each sensor's value in its three channels.
fn three_each(sensors: [u8; 18]) -> [u8; 54]
    ensures { result ≡ agreeing sensors }
{
    let mut sample = [0u8; 54];
    for (i, &value) in sensors.iter().enumerate() {
        sample[3 * i] = value;
        sample[3 * i + 1] = value;
        sample[3 * i + 2] = value;
    }
    sample
}

// 1 where cylinder i stands at exactly so many parts.
#[tactic(auto, unfolding(crate::specs::Sensors::stands_at))]
fn seen_at(parts: u32, cylinders: [Cylinder; 6], i: usize) -> u8
    requires { i < 6 }
    ensures { result ≡ bit (stands_at parts (slice_index_or cylinders i no_cylinder)) }
{
    u8::from(cylinder::parts_of(cylinders[i].position) == Some(parts))
}
