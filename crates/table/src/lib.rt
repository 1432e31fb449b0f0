// The sequence as a table (requests K4 and K7): what comes next at each place of ground, handle, doors, gears and the four facts.
// The rule is specs/Table.antt, which says what each entry is by the rule of `sequence`; the constant is proved to be that table.
#![tactic(auto)]

ghost use Rattle.std.specs.Prelude.{◌≡◌, ◌<◌};
ghost use Rattle.sequence.specs.Moves.{move_on};
ghost use Rattle.table.specs.Sums.{weighed_at, table_number};
ghost use Rattle.table.specs.Table.{
  entries,
  facts_number,
  ground_and_handle,
  number_of,
  facts_at,
  asked_at,
  next_of,
  place_number,
  place_at,
  ruled_at,
  table,
  entry_of,
  changed_by_ground,
};

use sequence::{Aim, Doors, Gears, Place, Seen};

// There are so many entries.
pub const ENTRIES: usize = 1024;

// So many of them are in the air.
const IN_THE_AIR: usize = 512;

// What the table is asked: whether any absorber is on ground, handle, doors, gears, and what is seen.
#[derive(Clone, Copy, PartialEq, Eq)]
pub struct Asked {
    pub grounded: bool,
    pub aim: Aim,
    pub place: Place,
    pub seen: Seen,
}

// At most one move of doors and gears: what the table tells. (It takes what the rule `move_on` takes, for the controller; `Asked` is the same four
// as one entry.)
#[tactic(auto, unfolding(crate::specs::Table::next_of))]
pub fn moved(place: Place, grounded: bool, aim: Aim, seen: Seen) -> Place
    ensures { result ≡ move_on grounded aim place seen }
{
    Asked {
        grounded,
        aim,
        place,
        seen,
    }
    .next()
}

// The constant that the table is.
pub fn all_entries() -> [[u8; 16]; 64]
    ensures { result ≡ table }
{
    NEXT
}

// The table as one number, computed from what it tells at each entry, so that what was printed of it can be held to what runs.
#[tactic(auto, using(crate::proofs::Weights::added_up))]
pub fn table_number() -> u64
    ensures { result ≡ table_number }
{
    let mut sum = 0;
    for n in 0..ENTRIES {
        sum += weighed(n);
    }
    sum
}

// Whether the entry of a number, on ground, is another than in the air.
#[tactic(auto, unfolding(crate::specs::Table::changed_by_ground))]
pub fn changed_by_ground(n: usize) -> bool
    ensures { result ≡ changed_by_ground n }
{
    told(n) != told(n % IN_THE_AIR)
}

impl Asked {
    // The number of the entry, 0 to 1,023. (No From and TryFrom, here and below: theorems name these, and the second is total.)
    #[tactic(auto, using(crate::proofs::Entries::parts_below), unfolding(crate::specs::Table::number_of))]
    pub fn number(self) -> usize
        ensures { result ≡ number_of self }
    {
        ground_and_handle(self.grounded, self.aim)
            + 64 * (self.place.doors.number() as usize)
            + 16 * (self.place.gears.number() as usize)
            + facts_number(self.seen)
    }

    // What is asked at a number.
    #[tactic(auto, unfolding(crate::specs::Table::asked_at))]
    pub fn numbered(n: usize) -> Self
        ensures { result ≡ asked_at n }
    {
        Asked {
            grounded: n / 512 % 2 == 1,
            aim: Aim::of_handle(n / 256 % 2 == 1),
            place: Place {
                doors: Doors::numbered((n / 64 % 4) as u32),
                gears: Gears::numbered((n / 16 % 4) as u32),
            },
            seen: facts_at(n),
        }
    }

    // The next doors and gears: what the table tells.
    #[tactic(auto, using(crate::proofs::Entries::looked_up), unfolding(crate::specs::Table::entry_at))]
    pub fn next(self) -> Place
        ensures { result ≡ next_of self }
    {
        place_at(entry(self.number()))
    }
}

// The next doors and gears: 4 times the doors' number and the gears'. A row for each place of ground, handle, doors and gears; in it
// an entry for each set of the facts: all open (8), all closed (4), all extended (2), all retracted (1). `[6; 16]`: whatever is seen.
// (Bytes and no Places: `table` is the document's numbers, and so is what is printed of it.)
const NEXT: [[u8; 16]; 64] = [
    [0; 16], // handle up, doors CLOSED, gears RETRACTED
    [5; 16], // handle up, doors CLOSED, gears EXTENDING
    [6; 16], // handle up, doors CLOSED, gears EXTENDED
    [7; 16], // handle up, doors CLOSED, gears RETRACTING
    [12; 16], // handle up, doors OPENING, gears RETRACTED
    [5, 5, 5, 5, 5, 5, 5, 5, 9, 9, 9, 9, 9, 9, 9, 9], // handle up, doors OPENING, gears EXTENDING
    [6, 6, 6, 6, 6, 6, 6, 6, 10, 10, 10, 10, 10, 10, 10, 10], // handle up, doors OPENING, gears EXTENDED
    [7, 7, 7, 7, 7, 7, 7, 7, 11, 11, 11, 11, 11, 11, 11, 11], // handle up, doors OPENING, gears RETRACTING
    [12; 16], // handle up, doors OPEN, gears RETRACTED
    [11; 16], // handle up, doors OPEN, gears EXTENDING
    [11; 16], // handle up, doors OPEN, gears EXTENDED
    [11, 8, 11, 8, 11, 8, 11, 8, 11, 8, 11, 8, 11, 8, 11, 8], // handle up, doors OPEN, gears RETRACTING
    [12, 12, 12, 12, 0, 0, 0, 0, 12, 12, 12, 12, 0, 0, 0, 0], // handle up, doors CLOSING, gears RETRACTED
    [5; 16], // handle up, doors CLOSING, gears EXTENDING
    [6; 16], // handle up, doors CLOSING, gears EXTENDED
    [7; 16], // handle up, doors CLOSING, gears RETRACTING
    [4; 16], // handle down, doors CLOSED, gears RETRACTED
    [5; 16], // handle down, doors CLOSED, gears EXTENDING
    [2; 16], // handle down, doors CLOSED, gears EXTENDED
    [7; 16], // handle down, doors CLOSED, gears RETRACTING
    [4, 4, 4, 4, 4, 4, 4, 4, 8, 8, 8, 8, 8, 8, 8, 8], // handle down, doors OPENING, gears RETRACTED
    [5, 5, 5, 5, 5, 5, 5, 5, 9, 9, 9, 9, 9, 9, 9, 9], // handle down, doors OPENING, gears EXTENDING
    [14; 16], // handle down, doors OPENING, gears EXTENDED
    [7, 7, 7, 7, 7, 7, 7, 7, 11, 11, 11, 11, 11, 11, 11, 11], // handle down, doors OPENING, gears RETRACTING
    [9; 16], // handle down, doors OPEN, gears RETRACTED
    [9, 9, 10, 10, 9, 9, 10, 10, 9, 9, 10, 10, 9, 9, 10, 10], // handle down, doors OPEN, gears EXTENDING
    [14; 16], // handle down, doors OPEN, gears EXTENDED
    [9; 16], // handle down, doors OPEN, gears RETRACTING
    [4; 16], // handle down, doors CLOSING, gears RETRACTED
    [5; 16], // handle down, doors CLOSING, gears EXTENDING
    [14, 14, 14, 14, 2, 2, 2, 2, 14, 14, 14, 14, 2, 2, 2, 2], // handle down, doors CLOSING, gears EXTENDED
    [7; 16], // handle down, doors CLOSING, gears RETRACTING
    [0; 16], // on ground, handle up, doors CLOSED, gears RETRACTED
    [5; 16], // on ground, handle up, doors CLOSED, gears EXTENDING
    [2; 16], // on ground, handle up, doors CLOSED, gears EXTENDED
    [7; 16], // on ground, handle up, doors CLOSED, gears RETRACTING
    [12; 16], // on ground, handle up, doors OPENING, gears RETRACTED
    [5, 5, 5, 5, 5, 5, 5, 5, 9, 9, 9, 9, 9, 9, 9, 9], // on ground, handle up, doors OPENING, gears EXTENDING
    [14; 16], // on ground, handle up, doors OPENING, gears EXTENDED
    [7, 7, 7, 7, 7, 7, 7, 7, 11, 11, 11, 11, 11, 11, 11, 11], // on ground, handle up, doors OPENING, gears RETRACTING
    [12; 16], // on ground, handle up, doors OPEN, gears RETRACTED
    [11; 16], // on ground, handle up, doors OPEN, gears EXTENDING
    [14; 16], // on ground, handle up, doors OPEN, gears EXTENDED
    [11, 8, 11, 8, 11, 8, 11, 8, 11, 8, 11, 8, 11, 8, 11, 8], // on ground, handle up, doors OPEN, gears RETRACTING
    [12, 12, 12, 12, 0, 0, 0, 0, 12, 12, 12, 12, 0, 0, 0, 0], // on ground, handle up, doors CLOSING, gears RETRACTED
    [5; 16], // on ground, handle up, doors CLOSING, gears EXTENDING
    [14, 14, 14, 14, 2, 2, 2, 2, 14, 14, 14, 14, 2, 2, 2, 2], // on ground, handle up, doors CLOSING, gears EXTENDED
    [7; 16], // on ground, handle up, doors CLOSING, gears RETRACTING
    [4; 16], // on ground, handle down, doors CLOSED, gears RETRACTED
    [5; 16], // on ground, handle down, doors CLOSED, gears EXTENDING
    [2; 16], // on ground, handle down, doors CLOSED, gears EXTENDED
    [7; 16], // on ground, handle down, doors CLOSED, gears RETRACTING
    [4, 4, 4, 4, 4, 4, 4, 4, 8, 8, 8, 8, 8, 8, 8, 8], // on ground, handle down, doors OPENING, gears RETRACTED
    [5, 5, 5, 5, 5, 5, 5, 5, 9, 9, 9, 9, 9, 9, 9, 9], // on ground, handle down, doors OPENING, gears EXTENDING
    [14; 16], // on ground, handle down, doors OPENING, gears EXTENDED
    [7, 7, 7, 7, 7, 7, 7, 7, 11, 11, 11, 11, 11, 11, 11, 11], // on ground, handle down, doors OPENING, gears RETRACTING
    [9; 16], // on ground, handle down, doors OPEN, gears RETRACTED
    [9, 9, 10, 10, 9, 9, 10, 10, 9, 9, 10, 10, 9, 9, 10, 10], // on ground, handle down, doors OPEN, gears EXTENDING
    [14; 16], // on ground, handle down, doors OPEN, gears EXTENDED
    [9; 16], // on ground, handle down, doors OPEN, gears RETRACTING
    [4; 16], // on ground, handle down, doors CLOSING, gears RETRACTED
    [5; 16], // on ground, handle down, doors CLOSING, gears EXTENDING
    [14, 14, 14, 14, 2, 2, 2, 2, 14, 14, 14, 14, 2, 2, 2, 2], // on ground, handle down, doors CLOSING, gears EXTENDED
    [7; 16], // on ground, handle down, doors CLOSING, gears RETRACTING
];

// Ground and handle as a number, the ground most significant.
#[tactic(auto, using(crate::proofs::Entries::as_bits), unfolding(crate::specs::Table::ground_and_handle))]
fn ground_and_handle(grounded: bool, aim: Aim) -> usize
    ensures { result ≡ ground_and_handle grounded aim }
{
    512 * (grounded as usize) + 256 * (aim.number() as usize)
}

// The facts as a number: all open, all closed, all extended, all retracted, the first most significant.
#[tactic(auto, using(crate::proofs::Entries::as_bits), unfolding(crate::specs::Table::facts_number))]
fn facts_number(seen: Seen) -> usize
    ensures { result ≡ facts_number seen }
{
    8 * (seen.opened as usize)
        + 4 * (seen.closed as usize)
        + 2 * (seen.extended as usize)
        + (seen.retracted as usize)
}

// What is seen at a number.
#[tactic(auto, unfolding(crate::specs::Table::facts_at))]
fn facts_at(n: usize) -> Seen
    ensures { result ≡ facts_at n }
{
    Seen {
        opened: n / 8 % 2 == 1,
        closed: n / 4 % 2 == 1,
        extended: n / 2 % 2 == 1,
        retracted: n % 2 == 1,
    }
}

// The doors and gears that an entry holds.
#[tactic(auto, unfolding(crate::specs::Table::place_at))]
fn place_at(entry: u8) -> Place
    ensures { result ≡ place_at entry }
{
    Place {
        doors: Doors::numbered((entry / 4) as u32),
        gears: Gears::numbered((entry % 4) as u32),
    }
}

// Doors and gears as an entry holds them.
#[tactic(auto, unfolding(crate::specs::Table::place_number))]
fn place_number(place: Place) -> u64
    ensures { result ≡ place_number place }
{
    4 * (place.doors.number() as u64) + (place.gears.number() as u64)
}

// What the table tells at a number, as an entry holds it.
#[tactic(auto, unfolding(crate::specs::Table::ruled_at))]
fn told(n: usize) -> u64
    ensures { result ≡ ruled_at n }
{
    place_number(Asked::numbered(n).next())
}

// What the entry of a number adds to the table's number.
#[tactic(auto, using(crate::proofs::Weights::weighed_to))]
fn weighed(n: usize) -> u64
    requires { n < entries }
    ensures { result ≡ weighed_at n }
{
    (n as u64 + 1) * told(n)
}

// The entry of a number.
fn entry(n: usize) -> u8
    requires { n < entries }
    ensures { result ≡ entry_of table n }
{
    all_entries()[n / 16][n % 16]
}
