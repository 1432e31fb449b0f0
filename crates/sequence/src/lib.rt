// Doors and gears, what the handle aims at and what is seen: what the rule of the sequence speaks of.
// The rule is specs/Moves.antt (document 01, "Sequence"); it runs as a table, which is the crate `table`.
#![tactic(auto)]

ghost use Rattle.std.specs.Prelude.{◌≡◌};
ghost use Rattle.sequence.specs.Moves.{aim_of, at_aim};

mod numbers;
mod places;

// Where the doors stand.
#[derive(Clone, Copy, PartialEq, Eq)]
pub enum Doors {
    Closed,
    Opening,
    Open,
    Closing,
}

// Where the gears stand.
#[derive(Clone, Copy, PartialEq, Eq)]
pub enum Gears {
    Retracted,
    Extending,
    Extended,
    Retracting,
}

// What the handle aims at: up at RETRACTED, down at EXTENDED.
#[derive(Clone, Copy, PartialEq, Eq)]
pub enum Aim {
    ToRetracted,
    ToExtended,
}

impl Aim {
    // By the handle, up or down.
    pub fn of_handle(down: bool) -> Self
        ensures { result ≡ aim_of down }
    {
        if down {
            Aim::ToExtended
        } else {
            Aim::ToRetracted
        }
    }
}

// Doors and gears together.
#[derive(Clone, Copy, PartialEq, Eq)]
pub struct Place {
    pub doors: Doors,
    pub gears: Gears,
}

// What all three sensors of a kind are seen to say: all doors open, all closed, all gears extended, all retracted.
#[derive(Clone, Copy, PartialEq, Eq)]
pub struct Seen {
    pub opened: bool,
    pub closed: bool,
    pub extended: bool,
    pub retracted: bool,
}

// Whether the gears stand where the handle aims.
#[tactic(auto, unfolding(crate::specs::Moves::at_aim))]
pub fn at_aim(aim: Aim, gears: Gears) -> bool
    ensures { result ≡ at_aim aim gears }
{
    matches!(
        (aim, gears),
        (Aim::ToRetracted, Gears::Retracted) | (Aim::ToExtended, Gears::Extended)
    )
}
