// The joined rig (request K8): six cylinders, the handle and a controller. In a step the orders as they stood before it move the cylinders, the
// sensors are read from the new positions, and the controller's own step takes them.
// The rule is specs/: Drives.antt (what each cylinder is told, refusal 13), Sensors.antt (the 54 bytes), Rigs.antt (start and step), Drawn.antt
// (the floats for the drawing engine).
#![tactic(auto)]

ghost use Rattle.std.specs.Prelude.{◌≡◌};
ghost use Rattle.refusals.specs.Answers.{code_of};
ghost use Rattle.joined.specs.Answers.{step_says};
ghost use Rattle.joined.specs.Rigs.{start_of, elapsed_at, since_move, read_at, step_of};
ghost use Rattle.joined.specs.Drawn.{drawn_of};

mod drawings;
mod drives;
mod sensors;

use controller::State;
use cylinder::Cylinder;
use orders::OLDEST;
use refusals::Refusal;

// What a cylinder is given in a step: the rate at which the orders move it, or the position at which it is stuck.
#[derive(Clone, Copy)]
pub enum Given {
    Rate(f32),
    StuckAt(f32),
}

// The rig: its cylinders (doors front, left, right, gears front, left, right), the handle, for how many ms it has not moved, the sensors as the
// controller saw them last, and the controller.
#[derive(Clone, Copy)]
pub struct Rig {
    pub cylinders: [Cylinder; 6],
    pub down: bool,
    pub since: u32,
    pub sample: [u8; 54],
    pub controller: State,
}

impl Rig {
    // Doors at 0, gears at 1, handle down, switch open, a fresh controller at a stamp.
    #[tactic(auto, unfolding(crate::specs::Rigs::start_of, crate::specs::Rigs::start_cylinders))]
    pub fn start(stamp: u32) -> Self
        ensures { result ≡ start_of stamp }
    {
        let closed = Cylinder::at(0, 0);
        let extended = Cylinder::at(16384, 0);
        let cylinders = [closed, closed, closed, extended, extended, extended];
        Rig {
            cylinders,
            down: true,
            since: OLDEST,
            sample: sensors::sample(true, OLDEST, false, cylinders),
            controller: State::fresh(stamp),
        }
    }

    // One step: the rig after it, or the first refusal that applies.
    #[tactic(auto, unfolding(crate::specs::Rigs::step_at, crate::specs::Rigs::answered_by))]
    pub fn step(self, stamp: u32, down: bool, given: [Given; 6]) -> Result<Self, Refusal>
        ensures { step_says self result ≡ step_of self stamp down given }
    {
        if drives::some_bad(given, self.cylinders) {
            return Err(Refusal::Fraction);
        }
        let read = self.read(stamp, down, given);
        let controller = self.controller.step(stamp, &read.sample)?;
        Ok(Rig { controller, ..read })
    }

    // Position and rate of the six, in front of a lent buffer; refused where it has not twelve places.
    pub fn draw(self, out: &mut [f32]) -> Result<(), Refusal>
        ensures { (code_of result, out.new) ≡ drawn_of self.cylinders out.old }
    {
        drawings::draw(self.cylinders, out)
    }

    // The rig as a step leaves it but for its controller: moved, and its sensors read.
    #[tactic(auto, unfolding(crate::specs::Rigs::read_at, crate::specs::Rigs::moved_at))]
    fn read(self, stamp: u32, down: bool, given: [Given; 6]) -> Self
        ensures { result ≡ read_at self stamp down given }
    {
        let orders = self.controller.core.orders;
        let pressure = orders.general.on;
        let cylinders = drives::six_moved(orders, given, self.elapsed(stamp), self.cylinders);
        let since = self.since_move(stamp, down);
        Rig {
            cylinders,
            down,
            since,
            sample: sensors::sample(down, since, pressure, cylinders),
            controller: self.controller,
        }
    }

    // For how many ms the handle has not moved, at this step.
    #[tactic(auto, unfolding(crate::specs::Rigs::since_move))]
    fn since_move(self, stamp: u32, down: bool) -> u32
        ensures { result ≡ since_move self stamp down }
    {
        if down == self.down {
            return orders::grown_age(self.since, self.elapsed(stamp));
        }
        0
    }

    // What has elapsed since the last accepted step.
    #[tactic(auto, unfolding(controller::specs::Stages::elapsed_of))]
    fn elapsed(self, stamp: u32) -> u32
        ensures { result ≡ elapsed_at self stamp }
    {
        stamp.wrapping_sub(self.controller.stamp)
    }
}
