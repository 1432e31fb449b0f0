// A sensor's channels as a number, and the channels that have a number (specs/Numbers.antt; request K3). (No From and TryFrom: theorems and docs/CONTRACTS.md name
// these two, and the second is total.)
ghost use Rattle.std.specs.Prelude.{◌≡◌};
ghost use Rattle.voter.specs.Numbers.{channels_at, number_of};

use crate::{Channels, Voter};

impl Voter {
    // 0 all channels valid, 1 to 3 that channel struck, 4 invalid.
    #[tactic(auto, unfolding(crate::specs::Numbers::number_of))]
    pub fn number(self) -> u32
        ensures { result ≡ number_of self }
    {
        self.channels as u32
    }
}

impl Channels {
    // The channels that have a number; one past the last is read as the last.
    #[tactic(auto, unfolding(crate::specs::Numbers::channels_at))]
    pub fn numbered(number: u32) -> Self
        ensures { result ≡ channels_at number }
    {
        match number {
            0 => Channels::All,
            1 => Channels::Without1,
            2 => Channels::Without2,
            3 => Channels::Without3,
            _ => Channels::Nothing,
        }
    }
}
