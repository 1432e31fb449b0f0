// The controller: its state by value, one step over a sample of any length and any bytes, and ways to read the answer.
// The rules are specs/: Start.antt (a fresh start), Votes.antt (the sample and what it says), Stages.antt (one accepted step, in
// its order), Steps.antt (refusals 1 to 4 and the step), Lamps.antt (the lights and the fields of an output row).
#![tactic(auto)]

ghost use Rattle.std.specs.Prelude.{◌≡◌};
ghost use Rattle.controller.specs.Answers.{answer_says};
ghost use Rattle.controller.specs.Start.{fresh_orders, fresh_voters, fresh_of, started_at};
ghost use Rattle.controller.specs.Steps.{some_over_one, step_of};

mod lamps;
mod stages;
mod votes;

use orders::{OLDEST, Order, Orders};
use refusals::Refusal;
use sequence::{Doors, Gears, Place};
use voter::Voter;

// Elapsed is 1 to this many ms (`limit` of specs/Steps.antt).
const LIMIT: u32 = 100;

// What a step keeps beside the stamp and the sensors: the orders, the handle's age, doors and gears, the cause (0 for none).
// The cause is a number and no enum: any byte may stand there, an image bears it, and `has_cause` (laws/specs/Laws.antt) speaks of the number.
#[derive(Clone, Copy, PartialEq, Eq)]
pub struct Core {
    pub orders: Orders,
    pub since: u32,
    pub place: Place,
    pub cause: u8,
}

// The controller's state: the last accepted stamp, the eighteen sensors in the sample's order, and the core.
#[derive(Clone, Copy, PartialEq, Eq)]
pub struct State {
    pub stamp: u32,
    pub voters: [Voter; 18],
    pub core: Core,
}

// The three lights.
#[derive(Clone, Copy, PartialEq, Eq)]
pub struct Lights {
    pub green: bool,
    pub orange: bool,
    pub red: bool,
}

// What an output row shows of a state, in its order.
#[derive(Clone, Copy, PartialEq, Eq)]
pub struct Shown {
    pub general: bool,
    pub closes: bool,
    pub opens: bool,
    pub retracts: bool,
    pub extends: bool,
    pub doors: Doors,
    pub gears: Gears,
    pub lights: Lights,
}

impl State {
    // A fresh start at a stamp.
    #[tactic(auto, unfolding(crate::specs::Start::fresh_of, crate::specs::Start::fresh_core))]
    pub fn fresh(stamp: u32) -> Self
        ensures { result ≡ fresh_of stamp }
    {
        State {
            stamp,
            voters: fresh_voters(),
            core: Core {
                orders: fresh_orders(),
                since: OLDEST,
                place: Place {
                    doors: Doors::Closed,
                    gears: Gears::Extended,
                },
                cause: 0,
            },
        }
    }

    // The same controller at a new start stamp.
    #[tactic(auto, unfolding(crate::specs::Start::started_at))]
    pub fn started_at(self, stamp: u32) -> Self
        ensures { result ≡ started_at stamp self }
    {
        State { stamp, ..self }
    }

    // One step: the state after it, or the first refusal that applies.
    #[tactic(auto, unfolding(crate::specs::Steps::step_at, crate::specs::Steps::refusal_at))]
    pub fn step(self, stamp: u32, sample: &[u8]) -> Result<State, Refusal>
        ensures { answer_says self result ≡ step_of self stamp sample.now }
    {
        let Some(sample) = sample.as_array() else {
            return Err(Refusal::SampleLength);
        };
        if some_over_one(sample) {
            return Err(Refusal::ByteOverOne);
        }
        let elapsed = stages::elapsed(self.stamp, stamp);
        if elapsed == 0 {
            return Err(Refusal::NoneElapsed);
        }
        if LIMIT < elapsed {
            return Err(Refusal::LimitElapsed);
        }
        Ok(self.accepted(stamp, sample))
    }
}

// Five orders off, with every age 60,000.
#[tactic(auto, unfolding(crate::specs::Start::fresh_orders, crate::specs::Start::off_long))]
fn fresh_orders() -> Orders
    ensures { result ≡ fresh_orders }
{
    let off = Order {
        on: false,
        age: OLDEST,
    };
    Orders {
        general: off,
        closes: off,
        opens: off,
        retracts: off,
        extends: off,
    }
}

// All channels valid; handle held down, gear_extended and door_closed held 1, the others held 0.
#[tactic(auto, unfolding(crate::specs::Start::fresh_voters))]
fn fresh_voters() -> [Voter; 18]
    ensures { result ≡ fresh_voters }
{
    let one = Voter::fresh(true);
    let zero = Voter::fresh(false);
    [
        // handle, analogical_switch
        one, zero,
        // gear_extended
        one, one, one,
        // gear_retracted
        zero, zero, zero,
        // gear_shock_absorber
        zero, zero, zero,
        // door_closed
        one, one, one,
        // door_open
        zero, zero, zero,
        // circuit_pressurized
        zero,
    ]
}

// Whether a byte is over 1.
fn some_over_one(sample: &[u8; 54]) -> bool
    ensures { result ≡ some_over_one sample.now }
{
    sample.iter().any(|byte| 1 < *byte)
}
