// A sensor in an image (requests K3 and K6): its items, their ranges, the sensor that items are of, and the rules of its odd channel and count.
// What a sensor is, and how it votes, is the voter's; the rules here are specs/Items.antt and, beside the voter, its specs/Counts.antt.
#![tactic(auto)]

ghost use Rattle.std.specs.Prelude.{◌≡◌};
ghost use Rattle.voter.specs.Voting.{valid_channels};
ghost use Rattle.voter.specs.Counts.{count_rules, count_runs};
ghost use Rattle.sensors.specs.Items.{sensor_items, sensor_tops, sensor_in};

use voter::{Channels, Voter};

// A sensor is so many items of an image (`items_per_sensor` of specs/Items.antt).
pub const ITEMS: usize = 4;

// There are so many rules of odd channel and count (`count_rules` of the voter's specs/Counts.antt).
pub const RULES: usize = 3;

// The items of a sensor: voter, held value, odd channel and count.
#[tactic(auto, using(common::proofs::Bits::byte_is_bit), unfolding(crate::specs::Items::sensor_items, voter::specs::Voting::value_of))]
pub fn items(v: Voter) -> [u32; ITEMS]
    ensures { result ≡ sensor_items v }
{
    [v.number(), v.held as u32, v.odd as u32, v.count as u32]
}

// The most that each item of a sensor may be.
pub fn tops() -> [u32; ITEMS]
    ensures { result ≡ sensor_tops }
{
    [4, 1, 3, 2]
}

// The sensor that items are of. Of odd channel and count the last byte is taken.
#[tactic(auto, unfolding(crate::specs::Items::sensor_in))]
pub fn from_items(items: [u32; ITEMS]) -> Voter
    ensures { result ≡ sensor_in items }
{
    Voter {
        channels: Channels::numbered(items[0]),
        held: items[1] == 1,
        odd: (items[2] % 256) as u8,
        count: (items[3] % 256) as u8,
    }
}

// The rules of odd channel and count, each as a test: with all channels valid, with one struck, and with the sensor invalid.
#[tactic(auto, unfolding(voter::specs::Counts::odd_with_count, voter::specs::Counts::no_odd_of_two, voter::specs::Counts::none_of_invalid, voter::specs::Counts::count_rules))]
pub fn count_rules(v: Voter) -> [bool; RULES]
    ensures { result ≡ count_rules v }
{
    let valid = valid_channels(v.channels);
    let no_odd = v.odd == 0;
    let no_count = v.count == 0;
    [
        valid != 3 || no_odd == no_count,
        valid != 2 || no_odd,
        !v.invalid() || no_odd && no_count,
    ]
}

// Whether the count of a sensor is not 0.
pub fn count_runs(v: Voter) -> bool
    ensures { result ≡ count_runs v }
{
    v.count != 0
}

// How many channels are valid.
#[tactic(auto, unfolding(voter::specs::Voting::valid_channels))]
fn valid_channels(channels: Channels) -> u8
    ensures { result ≡ valid_channels channels }
{
    match channels {
        Channels::All => 3,
        Channels::Without1 | Channels::Without2 | Channels::Without3 => 2,
        Channels::Nothing => 0,
    }
}
