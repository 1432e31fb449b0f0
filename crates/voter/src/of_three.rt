// Three valid channels (specs/Voting.antt; document 01, "Voting"; request K5): the value is the majority's, and the odd one is struck at
// the third sample in a row.
ghost use Rattle.std.specs.Prelude.{◌≡◌};
ghost use Rattle.voter.specs.Voting.{sensor, odd_of, by_odd, of_three};
ghost use Rattle.voter.specs.declared.Channels.TheVariants.{All};

use crate::{Channels, THIRD, Voter, majority_of};

// A vote of a sensor whose channels are all valid.
#[tactic(auto, unfolding(crate::specs::Voting::of_three))]
pub(crate) fn vote(v: Voter, one: bool, two: bool, three: bool) -> Voter
    ensures { result ≡ of_three v one two three }
{
    by_odd(v, odd_of(one, two, three), majority_of(one, two, three))
}

// By the odd one and the majority's value.
#[tactic(auto, unfolding(crate::specs::Voting::by_odd))]
fn by_odd(v: Voter, odd: u8, value: bool) -> Voter
    ensures { result ≡ by_odd v odd value }
{
    if odd == 0 {
        return all_valid(value, 0, 0);
    }
    if v.odd != odd {
        return all_valid(value, odd, 1);
    }
    if v.count < THIRD - 1 {
        return all_valid(value, odd, v.count + 1);
    }
    Voter::uncounted(Channels::numbered(odd as u32), value)
}

// All channels stay valid, with this odd one and this count.
fn all_valid(value: bool, odd: u8, count: u8) -> Voter
    ensures { result ≡ sensor All value odd count }
{
    Voter {
        channels: Channels::All,
        held: value,
        odd,
        count,
    }
}

// The odd one of three; 0 where they agree. (A number, as the field `odd` that it is held to.)
#[tactic(auto, unfolding(crate::specs::Voting::odd_of))]
fn odd_of(one: bool, two: bool, three: bool) -> u8
    ensures { result ≡ odd_of one two three }
{
    match (one == two, two == three) {
        (true, true) => 0,
        (true, false) => 3,
        (false, true) => 1,
        (false, false) => 2,
    }
}
