// Two valid channels (specs/Voting.antt; document 01, "Voting"; request K5): their value where they agree, else the last one is kept, and
// at the third sample in a row the sensor is invalid.
ghost use Rattle.std.specs.Prelude.{◌≡◌};
ghost use Rattle.voter.specs.Voting.{of_two};

use crate::{Channels, THIRD, Voter};

// A vote of a sensor with a channel struck, over the other two.
#[tactic(auto, unfolding(crate::specs::Voting::of_two))]
pub(crate) fn vote(v: Voter, one: bool, two: bool) -> Voter
    ensures { result ≡ of_two v one two }
{
    if one == two {
        return Voter::uncounted(v.channels, one);
    }
    if v.count < THIRD - 1 {
        return Voter {
            odd: 0,
            count: v.count + 1,
            ..v
        };
    }
    Voter::uncounted(Channels::Nothing, v.held)
}
