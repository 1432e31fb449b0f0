// One sensor of the rig with its three channels: which of them still count, the value held, and how often in a row a channel was odd.
// The rule is specs/Voting.antt (document 01, "Voting"; request K5); what odd channel and count keep to is specs/Counts.antt (request K6). What a
// sensor is in an image is the crate `sensors`.
// The layers above lean on what stands here as a promise, and on nothing else of a voter.
#![tactic(auto)]

ghost use Rattle.std.specs.Prelude.{◌≡◌};
ghost use Rattle.voter.specs.Voting.{majority_of, uncounted, voted, fresh_with, value_of, is_invalid};

mod numbers;
mod of_three;
mod of_two;

// This many samples in a row are too many (`third` of specs/Voting.antt).
const THIRD: u8 = 3;

// Which channels still count; `Nothing` for an invalid sensor.
#[derive(Clone, Copy, PartialEq, Eq)]
pub enum Channels {
    All,
    Without1,
    Without2,
    Without3,
    Nothing,
}

// A sensor: its channels that still count, the value held, the odd channel (1 to 3, or 0) and the count, 0 to 2: so many samples in
// a row had that channel as the odd one or, with two valid, had the two differ. Any byte may stand in the last two: an image bears them,
// and `CountKept` of specs/Counts.antt speaks of the numbers.
#[derive(Clone, Copy, PartialEq, Eq)]
pub struct Voter {
    pub channels: Channels,
    pub held: bool,
    pub odd: u8,
    pub count: u8,
}

impl Voter {
    // A sensor with all channels valid that holds a value.
    #[tactic(auto, unfolding(crate::specs::Voting::fresh_with))]
    pub fn fresh(held: bool) -> Self
        ensures { result ≡ fresh_with held }
    {
        Voter::uncounted(Channels::All, held)
    }

    // One vote over the three channels.
    #[tactic(auto, unfolding(crate::specs::Voting::voted, crate::specs::Voting::voted_by))]
    pub fn vote(self, one: bool, two: bool, three: bool) -> Self
        ensures { result ≡ voted self one two three }
    {
        match self.channels {
            Channels::All => of_three::vote(self, one, two, three),
            Channels::Without1 => of_two::vote(self, two, three),
            Channels::Without2 => of_two::vote(self, one, three),
            Channels::Without3 => of_two::vote(self, one, two),
            Channels::Nothing => self,
        }
    }

    // The value held.
    #[tactic(auto, unfolding(crate::specs::Voting::value_of))]
    pub fn value(self) -> bool
        ensures { result ≡ value_of self }
    {
        self.held
    }

    // Whether the sensor is invalid.
    #[tactic(auto, unfolding(crate::specs::Voting::is_invalid))]
    pub fn invalid(self) -> bool
        ensures { result ≡ is_invalid self }
    {
        self.channels == Channels::Nothing
    }

    // A sensor with these channels that still count, which holds this value, and no count runs.
    pub(crate) fn uncounted(channels: Channels, held: bool) -> Self
        ensures { result ≡ uncounted channels held }
    {
        Voter {
            channels,
            held,
            odd: 0,
            count: 0,
        }
    }
}

// The value of the majority of three channels.
#[tactic(auto, unfolding(crate::specs::Voting::majority_of))]
pub fn majority_of(one: bool, two: bool, three: bool) -> bool
    ensures { result ≡ majority_of one two three }
{
    if one == two { one } else { three }
}
