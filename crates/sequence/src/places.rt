// Where doors and gears stand (specs/Places.antt).
ghost use Rattle.std.specs.Prelude.{◌≡◌};
ghost use Rattle.sequence.specs.Places.{are_closed, are_open, are_moving, moving_have_open};

use crate::{Doors, Gears, Place};

impl Doors {
    // Doors CLOSED.
    pub fn are_closed(self) -> bool
        ensures { result ≡ are_closed self }
    {
        self == Doors::Closed
    }

    // Doors OPEN.
    pub fn are_open(self) -> bool
        ensures { result ≡ are_open self }
    {
        self == Doors::Open
    }
}

impl Gears {
    // Gears EXTENDING or RETRACTING.
    pub fn are_moving(self) -> bool
        ensures { result ≡ are_moving self }
    {
        matches!(self, Gears::Extending | Gears::Retracting)
    }
}

impl Place {
    // Moving gears have doors OPEN.
    #[tactic(auto, unfolding(crate::specs::Places::moving_have_open))]
    pub fn moving_have_open(self) -> bool
        ensures { result ≡ moving_have_open self }
    {
        !self.gears.are_moving() || self.doors.are_open()
    }
}
