// The two forms of an image as bytes (request K6): the old one has voter and held value of each sensor, and the new one its odd channel and
// count behind them. The rule is specs/Forms.antt; there is no controller in it, and nothing is refused here. That there and back gives the
// same bytes is proofs/ThereAndBack.antt.
#![tactic(auto)]

ghost use Rattle.std.specs.Prelude.{◌≡◌, ◌+◌, ◌*◌, ◌≤◌, length};
ghost use Rattle.texts.specs.Lines.{Puts, PutsIfRoom};
ghost use Rattle.texts.specs.Puts.{put_of};
ghost use Rattle.forms.specs.Forms.{stamp_bytes, sensors, voter_bytes, sensors_turned, turned, in_new_form, in_old_form};

use texts::Line;

// An image of the old form has so many bytes: 204.
pub const OLD: usize = STAMP + VOTER * SENSORS + REST;

// An image of the new form has so many bytes: 348.
pub const NEW: usize = STAMP + (VOTER + COUNT) * SENSORS + REST;

// So many sensors.
pub const SENSORS: usize = 18;

// The bytes of the last stamp.
const STAMP: usize = 4;

// The bytes of a sensor's voter and held value, and of its odd channel and count.
const VOTER: usize = 8;

const COUNT: usize = 8;

// The bytes behind the sensors.
const REST: usize = 56;

// Puts an image in the new form at the front of a lent buffer: the place after it, or 0 where there is no room for it. (0 is what
// `put_of` promises.)
pub fn put_new(out: &mut [u8], image: &[u8]) -> usize
    ensures { (result, out.new) ≡ put_of out.old 0 (in_new_form image.now) }
{
    let mut line = Line::new(out);
    put_in_new(&mut line, image);
    line.at
}

// The same in the old form. (Two public functions, each with its own contract.)
pub fn put_old(out: &mut [u8], image: &[u8]) -> usize
    ensures { (result, out.new) ≡ put_of out.old 0 (in_old_form image.now) }
{
    let mut line = Line::new(out);
    put_in_old(&mut line, image);
    line.at
}

// Puts an image in the new form into a line.
fn put_in_new(line: &mut Line, image: &[u8])
    ensures { Puts (in_new_form image.now) line.old line.new }
{
    if image.len() != OLD {
        return line.put(image);
    }
    if line.has_room(NEW) {
        put_turned(line, image, VOTER, &[0; COUNT]);
    }
}

// The same in the old form. (The two tests stand in both: one function with the lengths as parameters would have six of them, and be no plainer.)
fn put_in_old(line: &mut Line, image: &[u8])
    ensures { Puts (in_old_form image.now) line.old line.new }
{
    if image.len() != NEW {
        return line.put(image);
    }
    if line.has_room(OLD) {
        put_turned(line, image, VOTER + COUNT, &[]);
    }
}

// Puts an image whose sensors have so many bytes each: of each sensor the first eight, and these behind them.
fn put_turned(line: &mut Line, image: &[u8], width: usize, behind: &[u8])
    requires { (voter_bytes ≤ width) × (stamp_bytes + width * sensors ≤ length image.now) }
    ensures { PutsIfRoom (turned behind.now width image.now) line.old line.new }
{
    let rest = STAMP + width * SENSORS;
    line.put(&image[..STAMP]);
    put_sensors(line, &image[STAMP..rest], width, behind);
    line.put(&image[rest..]);
}

// Puts of each sensor the first eight bytes, and these behind them.
fn put_sensors(line: &mut Line, bytes: &[u8], width: usize, behind: &[u8])
    requires { (voter_bytes ≤ width) × (length bytes.now ≡ width * sensors) }
    ensures { PutsIfRoom (sensors_turned behind.now width sensors bytes.now) line.old line.new }
{
    for sensor in bytes.chunks_exact(width) {
        line.put(&sensor[..VOTER]);
        line.put(behind);
    }
}
