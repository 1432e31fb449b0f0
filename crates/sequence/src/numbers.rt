// Handle, doors and gears as numbers (specs/Numbers.antt; requests K3 and K4). (No From and TryFrom: theorems and docs/CONTRACTS.md name these, and those from a
// number are total.)
ghost use Rattle.std.specs.Prelude.{◌≡◌};
ghost use Rattle.sequence.specs.Numbers.{handle_number, doors_number, gears_number, doors_at, gears_at};

use crate::{Aim, Doors, Gears};

impl Aim {
    // Handle up is 0, down is 1.
    pub fn number(self) -> u32
        ensures { result ≡ handle_number self }
    {
        self as u32
    }
}

impl Doors {
    // 0 to 3: CLOSED, OPENING, OPEN, CLOSING.
    pub fn number(self) -> u32
        ensures { result ≡ doors_number self }
    {
        self as u32
    }

    // The doors that have a number; one past the last is read as the last.
    #[tactic(auto, unfolding(crate::specs::Numbers::doors_at))]
    pub fn numbered(number: u32) -> Self
        ensures { result ≡ doors_at number }
    {
        match number {
            0 => Doors::Closed,
            1 => Doors::Opening,
            2 => Doors::Open,
            _ => Doors::Closing,
        }
    }
}

impl Gears {
    // 0 to 3: RETRACTED, EXTENDING, EXTENDED, RETRACTING.
    pub fn number(self) -> u32
        ensures { result ≡ gears_number self }
    {
        self as u32
    }

    // The gears that have a number; one past the last is read as the last. (Doors and gears have a type and a table each, so a match each.)
    #[tactic(auto, unfolding(crate::specs::Numbers::gears_at))]
    pub fn numbered(number: u32) -> Self
        ensures { result ≡ gears_at number }
    {
        match number {
            0 => Gears::Retracted,
            1 => Gears::Extending,
            2 => Gears::Extended,
            _ => Gears::Retracting,
        }
    }
}
