// One cylinder of the simulated hydraulics (request K8): position and rate as 32-bit floats, each equal to a whole number over 16384. A float is
// taken apart to that whole number, the move is made there, and put back, so that nothing is ever rounded.
// The rule is specs/: Fractions.antt (which floats are whole 16384ths), Moves.antt (one move, refusal 13).
#![tactic(auto)]

ghost use Rattle.std.specs.Prelude.{◌≡◌, ◌+◌, ◌-◌, ◌*◌, min, not, T, ◌==◌, is_nan, to_bits};
ghost use Rattle.std.specs.Float.{binary32};
ghost use Rattle.refusals.specs.Answers.{says};
ghost use Rattle.cylinder.specs.Fractions.{stroke, fraction, within, parts_from};
ghost use Rattle.cylinder.specs.Moves.{position_parts, rate_parts, shown_parts, is_position, is_rate, is_sound, cylinder_at, moved_by, moved};

use refusals::Refusal;

// A stroke has so many parts (`stroke` of specs/Fractions.antt).
const STROKE: u16 = 16384;

// The same as a float: a float times this is its number of parts.
const SCALE: f32 = 16384.0;

// The fastest rate has so many parts a ms (`fastest` of specs/Moves.antt).
const FASTEST: u32 = 16;

// A cylinder: where it stands, 0 in to 1 out, and the rate it was last told to move with, in strokes a ms; 0 while it holds or is stuck.
#[derive(Clone, Copy)]
pub struct Cylinder {
    pub position: f32,
    pub rate: f32,
}

// What a cylinder is told.
#[derive(Clone, Copy)]
pub enum Drive {
    // To move out, or in, at a rate.
    Out(f32),
    In(f32),
    // To hold.
    Hold,
    // It is stuck at a position.
    Stuck(f32),
}

// The float for so many parts.
pub fn fraction(parts: u16) -> f32
    ensures { result ≡ fraction parts }
{
    (parts as f32) / SCALE
}

// Whether two floats that are no NaN have the same bits: minus zero equals zero, and has others.
fn same_bits(x: f32, y: f32) -> bool
    requires t { T (not (is_nan x)) }
    requires t_2 { T (not (is_nan y)) }
    ensures { result ≡ (to_bits binary32 x == to_bits binary32 y) }
{
    x.to_bits() == y.to_bits()
}

// How many whole parts a float is, from 0 to 1.
pub fn parts_of(x: f32) -> Option<u32>
    ensures { result ≡ parts_from 0 stroke x }
{
    // No NaN passes both tests.
    let scaled = x * SCALE;
    if scaled < 0.0 {
        return None;
    }
    if scaled <= SCALE {
        let parts = std::num::truncating_f32_to_u64(scaled) as u16;
        if same_bits(x, fraction(parts)) {
            return Some(parts as u32);
        }
    }
    None
}

// The same from `least` parts to `most`.
fn parts_within(x: f32, least: u32, most: u32) -> Option<u32>
    ensures { result ≡ within least most (parts_from 0 stroke x) }
{
    parts_of(x).filter(|n| least <= *n && *n <= most)
}

// How many parts a ms a rate is.
fn rate_parts(x: f32) -> Option<u32>
    ensures { result ≡ rate_parts x }
{
    parts_within(x, 1, FASTEST)
}

// How many parts a ms the rate is that a cylinder shows.
fn shown_parts(x: f32) -> Option<u32>
    ensures { result ≡ shown_parts x }
{
    parts_within(x, 0, FASTEST)
}

// Whether a float is a position.
#[tactic(auto, unfolding(crate::specs::Moves::is_position))]
pub fn is_position(x: f32) -> bool
    ensures { result ≡ is_position x }
{
    parts_of(x).is_some()
}

// Whether a float is a rate.
#[tactic(auto, unfolding(crate::specs::Moves::is_rate))]
pub fn is_rate(x: f32) -> bool
    ensures { result ≡ is_rate x }
{
    rate_parts(x).is_some()
}

// A cylinder at k parts moves at n parts a ms: where it is after so many ms on its way out, ..
fn out_from(k: u16, n: u32, elapsed: u32) -> u16
    ensures { result ≡ min stroke (k + n * elapsed) }
{
    let reached = (k as u64) + (n as u64) * (elapsed as u64);
    reached.min(STROKE as u64) as u16
}

// .. and on its way in. (A function for each way: the one stops at the stroke, the other at 0.)
fn in_from(k: u16, n: u32, elapsed: u32) -> u16
    ensures { result ≡ k - n * elapsed }
{
    let way = (n as u64) * (elapsed as u64);
    (k as u64).saturating_sub(way) as u16
}

// A cylinder at so many parts, by what it is told.
fn moved_by(drive: Drive, k: u16, elapsed: u32) -> Result<Cylinder, Refusal>
    ensures { says result ≡ moved_by drive k elapsed }
{
    match drive {
        Drive::Out(rate) => {
            let n = rate_parts(rate).ok_or(Refusal::Fraction)?;
            Ok(Cylinder::at(out_from(k, n, elapsed), n as u16))
        }
        Drive::In(rate) => {
            let n = rate_parts(rate).ok_or(Refusal::Fraction)?;
            Ok(Cylinder::at(in_from(k, n, elapsed), n as u16))
        }
        Drive::Hold => Ok(Cylinder::at(k, 0)),
        Drive::Stuck(position) => {
            let p = parts_of(position).ok_or(Refusal::Fraction)?;
            Ok(Cylinder::at(p as u16, 0))
        }
    }
}

impl Cylinder {
    // A cylinder that stands at so many parts and shows so many as its rate.
    #[tactic(auto, unfolding(crate::specs::Moves::cylinder_at))]
    pub fn at(position: u16, rate: u16) -> Self
        ensures { result ≡ cylinder_at position rate }
    {
        Cylinder {
            position: fraction(position),
            rate: fraction(rate),
        }
    }

    // Whether it stands at a position, and shows a rate or 0.
    #[tactic(auto, unfolding(crate::specs::Moves::is_sound))]
    pub fn is_sound(self) -> bool
        ensures { result ≡ is_sound self }
    {
        parts_of(self.position).is_some() && shown_parts(self.rate).is_some()
    }

    // The cylinder some ms later, by what it is told; or refusal 13.
    #[tactic(auto, unfolding(crate::specs::Moves::moved))]
    pub fn moved(self, drive: Drive, elapsed: u32) -> Result<Self, Refusal>
        ensures { says result ≡ moved self drive elapsed }
    {
        let k = parts_of(self.position).ok_or(Refusal::Fraction)?;
        shown_parts(self.rate).ok_or(Refusal::Fraction)?;
        moved_by(drive, k as u16, elapsed)
    }
}
