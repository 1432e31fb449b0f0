// What a sample and its votes say (specs/Votes.antt; document 01, "The sample").
ghost use Rattle.std.specs.Prelude.{◌≡◌, ◌+◌, ◌<◌};
ghost use Rattle.controller.specs.Votes.{all_voted, sensor, three_from, some_invalid, sight_of, seen_of, aimed, on_ground};

use monitors::{Sight, Three};
use sequence::{Aim, Seen};
use voter::Voter;

// The sensors' numbers, counted from 0 in the sample's order; of three, the front one's. (Places in the eighteen, to which 1 and 2 are added: an
// enum would be cast at each.)
pub(crate) const HANDLE: usize = 0;

const ANALOGICAL_SWITCH: usize = 1;

pub(crate) const GEAR_EXTENDED: usize = 2;

pub(crate) const GEAR_RETRACTED: usize = 5;

const GEAR_SHOCK_ABSORBER: usize = 8;

pub(crate) const DOOR_CLOSED: usize = 11;

const DOOR_OPEN: usize = 14;

const CIRCUIT_PRESSURIZED: usize = 17;

// Every sensor votes over its three channels, which stand side by side in the sample. (By its number: the invariant speaks of the whole array in each
// turn, and `iter_mut` would lend it out for the loop.)
pub(crate) fn all_voted(voters: [Voter; 18], sample: &[u8; 54]) -> [Voter; 18]
    ensures { result ≡ all_voted sample.now voters }
{
    let mut after = voters;
    for i in 0..18 {
        let at = 3 * i;
        after[i] = after[i].vote(sample[at] == 1, sample[at + 1] == 1, sample[at + 2] == 1);
    }
    after
}

// The voted value of a sensor.
#[tactic(auto, unfolding(crate::specs::Votes::sensor))]
pub(crate) fn value_at(voters: [Voter; 18], i: usize) -> bool
    requires { i < 18 }
    ensures { result ≡ sensor i voters }
{
    voters[i].value()
}

// What three sensors side by side say.
#[tactic(auto, unfolding(crate::specs::Votes::three_from))]
pub(crate) fn three_from(voters: [Voter; 18], i: usize) -> Three
    requires { i + 2 < 18 }
    ensures { result ≡ three_from i voters }
{
    let front = value_at(voters, i);
    let left = value_at(voters, i + 1);
    let right = value_at(voters, i + 2);
    Three {
        any: front || left || right,
        all: front && left && right,
    }
}

// Whether some sensor is invalid.
pub(crate) fn some_invalid(voters: [Voter; 18]) -> bool
    ensures { result ≡ some_invalid voters }
{
    voters.iter().any(|voter| voter.invalid())
}

// All that the monitors look at.
#[tactic(auto, unfolding(crate::specs::Votes::sight_of))]
pub(crate) fn sight(voters: [Voter; 18]) -> Sight
    ensures { result ≡ sight_of voters }
{
    Sight {
        closed: three_from(voters, DOOR_CLOSED),
        opened: three_from(voters, DOOR_OPEN),
        extended: three_from(voters, GEAR_EXTENDED),
        retracted: three_from(voters, GEAR_RETRACTED),
        pressurized: value_at(voters, CIRCUIT_PRESSURIZED),
        switch: value_at(voters, ANALOGICAL_SWITCH),
        invalid: some_invalid(voters),
    }
}

// What the sequence looks at.
#[tactic(auto, unfolding(crate::specs::Votes::seen_of, crate::specs::Votes::sight_of))]
pub(crate) fn seen(voters: [Voter; 18]) -> Seen
    ensures { result ≡ seen_of (sight_of voters) }
{
    Seen {
        opened: three_from(voters, DOOR_OPEN).all,
        closed: three_from(voters, DOOR_CLOSED).all,
        extended: three_from(voters, GEAR_EXTENDED).all,
        retracted: three_from(voters, GEAR_RETRACTED).all,
    }
}

// What the voted handle aims at.
#[tactic(auto, unfolding(crate::specs::Votes::aimed))]
pub(crate) fn aim(voters: [Voter; 18]) -> Aim
    ensures { result ≡ aimed voters }
{
    Aim::of_handle(value_at(voters, HANDLE))
}

// Whether any absorber is voted on ground.
#[tactic(auto, unfolding(crate::specs::Votes::on_ground))]
pub(crate) fn on_ground(voters: [Voter; 18]) -> bool
    ensures { result ≡ on_ground voters }
{
    three_from(voters, GEAR_SHOCK_ABSORBER).any
}
