// What a state shows: the lights, the fields of an output row, the voted values, whether a sensor is invalid, and the cause
// (specs/Lamps.antt; document 01, "Lights", as request K1 has it).
ghost use Rattle.std.specs.Prelude.{◌≡◌, ◌<◌};
ghost use Rattle.controller.specs.Votes.{some_invalid};
ghost use Rattle.controller.specs.Lamps.{green_of, neither_at, orange_of, lights_of, shown_of, values_of};

use crate::{Lights, Shown, State, votes};
use voter::Voter;

impl State {
    // The three lights.
    #[tactic(auto, unfolding(crate::specs::Lamps::lights_of))]
    pub fn lights(self) -> Lights
        ensures { result ≡ lights_of self }
    {
        Lights {
            green: green(self.voters),
            orange: orange(self.voters),
            red: self.core.anomaly(),
        }
    }

    // What an output row shows.
    #[tactic(auto, unfolding(crate::specs::Lamps::shown_of))]
    pub fn shown(self) -> Shown
        ensures { result ≡ shown_of self }
    {
        let orders = self.core.orders;
        Shown {
            general: orders.general.on,
            closes: orders.closes.on,
            opens: orders.opens.on,
            retracts: orders.retracts.on,
            extends: orders.extends.on,
            doors: self.core.place.doors,
            gears: self.core.place.gears,
            lights: self.lights(),
        }
    }

    // The eighteen voted values, in the sample's order. (By `map` of the array it takes 388 instructions and no longer 36.)
    pub fn values(self) -> [bool; 18]
        ensures { result ≡ values_of self }
    {
        let mut values = [false; 18];
        for (i, voter) in self.voters.iter().enumerate() {
            values[i] = voter.value();
        }
        values
    }

    // Whether some sensor is invalid.
    #[tactic(auto, unfolding(crate::specs::Votes::some_invalid))]
    pub fn invalid(self) -> bool
        ensures { result ≡ some_invalid self.voters }
    {
        votes::some_invalid(self.voters)
    }

    // The cause of the anomaly, 0 for none. (A number, as `Core` bears it.)
    pub fn cause(self) -> u8
        ensures { result ≡ self.core.cause }
    {
        self.core.cause
    }
}

// Green: all three gears voted extended.
#[tactic(auto, unfolding(crate::specs::Lamps::green_of))]
fn green(voters: [Voter; 18]) -> bool
    ensures { result ≡ green_of voters }
{
    votes::three_from(voters, votes::GEAR_EXTENDED).all
}

// Whether a gear (0 front, 1 left, 2 right) is voted neither extended nor retracted.
#[tactic(auto, unfolding(crate::specs::Lamps::neither_at))]
fn neither(voters: [Voter; 18], gear: usize) -> bool
    requires { gear < 3 }
    ensures { result ≡ neither_at gear voters }
{
    let extended = votes::value_at(voters, votes::GEAR_EXTENDED + gear);
    let retracted = votes::value_at(voters, votes::GEAR_RETRACTED + gear);
    !extended && !retracted
}

// Orange: some door is not voted closed, or some gear is voted neither extended nor retracted.
#[tactic(auto, unfolding(crate::specs::Lamps::orange_of))]
fn orange(voters: [Voter; 18]) -> bool
    ensures { result ≡ orange_of voters }
{
    let closed = votes::three_from(voters, votes::DOOR_CLOSED).all;
    !closed || neither(voters, 0) || neither(voters, 1) || neither(voters, 2)
}
