// The words and names by which the programs write what the documents name (specs/Words.antt): each stands here once, those of lists in
// src/tables.rt. `texts` puts them.
#![tactic(auto)]

ghost use Rattle.std.specs.Prelude.{◌≡◌};
ghost use Rattle.names.specs.Words.{doors_word, gears_word, handle_word};

mod tables;

use sequence::{Aim, Doors, Gears};
pub use tables::Kind;

// There are so many of each.
pub const SENSORS: usize = 18;

pub const ORDERS: usize = 5;

pub const LAMPS: usize = 3;

pub const CAUSES: usize = 14;

// The places of the orders among their names. (They are places in a list, as `Kind::word` takes them: an enum would be cast at each call.)
pub const GENERAL: usize = 0;

pub const CLOSES: usize = 1;

pub const OPENS: usize = 2;

pub const RETRACTS: usize = 3;

pub const EXTENDS: usize = 4;

// The word of the doors.
pub fn doors_word(doors: Doors) -> &'static [u8]
    ensures { result.now ≡ doors_word doors }
{
    match doors {
        Doors::Closed => b"CLOSED",
        Doors::Opening => b"OPENING",
        Doors::Open => b"OPEN",
        Doors::Closing => b"CLOSING",
    }
}

// The word of the gears. (By a match, as for the doors: the words are the table.)
pub fn gears_word(gears: Gears) -> &'static [u8]
    ensures { result.now ≡ gears_word gears }
{
    match gears {
        Gears::Retracted => b"RETRACTED",
        Gears::Extending => b"EXTENDING",
        Gears::Extended => b"EXTENDED",
        Gears::Retracting => b"RETRACTING",
    }
}

// The word of the handle that has this aim.
pub fn handle_word(aim: Aim) -> &'static [u8]
    ensures { result.now ≡ handle_word aim }
{
    match aim {
        Aim::ToRetracted => b"up",
        Aim::ToExtended => b"down",
    }
}
