// The lists of specs/Words.antt, a word at each place.
ghost use Rattle.std.specs.Prelude.{◌≡◌, ◌+◌, ◌<◌, ◌^◌, length, map, sum_by};
ghost use Rattle.common.specs.Ascii.{joined_by_commas};
ghost use Rattle.texts.specs.Lines.{Puts, PutsIfRoom};
ghost use Rattle.names.specs.Words.{entry, words_of};

use crate::{CAUSES, LAMPS, ORDERS, SENSORS};
use texts::Line;

// What has its words in a list: sensors, orders and lamps their names, in the order of sample and output row; voters and causes what is
// said of them, by their number.
#[derive(Clone, Copy)]
pub enum Kind {
    Sensor,
    Order,
    Lamp,
    Voter,
    Cause,
}

impl Kind {
    // Its words.
    fn words(self) -> &'static [&'static [u8]]
        ensures { map (λ word. word.now) result.now ≡ words_of self }
    {
        match self {
            Kind::Sensor => &SENSOR_NAMES,
            Kind::Order => &ORDER_NAMES,
            Kind::Lamp => &LAMP_NAMES,
            Kind::Voter => &VOTER_WORDS,
            Kind::Cause => &CAUSE_WORDS,
        }
    }

    // Word k, from 0 on; past the last it is empty.
    pub fn word(self, k: usize) -> &'static [u8]
        ensures { result.now ≡ entry (words_of self) k }
    {
        self.words().get(k).copied().unwrap_or(b"")
    }

    // Puts all of them into the line, with a comma between each two, if there is room for all.
    pub fn put_all(self, line: &mut Line)
        ensures { Puts (joined_by_commas (words_of self)) line.old line.new }
    {
        let words = self.words();
        if line.has_room(size_with_commas(words) - 1) {
            put_joined(line, words);
        }
    }
}

// How many bytes the words have, with a comma behind each.
fn size_with_commas(words: &[&[u8]]) -> usize
    requires { sum_by (λ word. length word.now + 1) words.now < 2 ^ 64 }
    ensures { result ≡ sum_by (λ word. length word.now + 1) words.now }
{
    words.iter().map(|word| word.len() + 1).sum()
}

// Puts the words with a comma between each two.
fn put_joined(line: &mut Line, words: &[&[u8]])
    ensures { PutsIfRoom (joined_by_commas (map (λ word. word.now) words.now)) line.old line.new }
{
    let Some((first, rest)) = words.split_first() else {
        return;
    };
    line.put(first);
    for word in rest {
        line.put(b",");
        line.put(word);
    }
}

const SENSOR_NAMES: [&[u8]; SENSORS] = [
    b"handle",
    b"analogical_switch",
    b"gear_extended_front",
    b"gear_extended_left",
    b"gear_extended_right",
    b"gear_retracted_front",
    b"gear_retracted_left",
    b"gear_retracted_right",
    b"gear_shock_absorber_front",
    b"gear_shock_absorber_left",
    b"gear_shock_absorber_right",
    b"door_closed_front",
    b"door_closed_left",
    b"door_closed_right",
    b"door_open_front",
    b"door_open_left",
    b"door_open_right",
    b"circuit_pressurized",
];

const ORDER_NAMES: [&[u8]; ORDERS] = [
    b"general_EV",
    b"close_EV",
    b"open_EV",
    b"retract_EV",
    b"extend_EV",
];

const LAMP_NAMES: [&[u8]; LAMPS] = [b"green", b"orange", b"red"];

const VOTER_WORDS: [&[u8]; 5] = [
    b"all channels valid",
    b"channel 1 struck",
    b"channel 2 struck",
    b"channel 3 struck",
    b"invalid",
];

const CAUSE_WORDS: [&[u8]; CAUSES] = [
    b"none",
    b"1, open_EV on for 7,000 ms or more, some door seen closed",
    b"2, open_EV on for 7,000 ms or more, not all doors seen open",
    b"3, close_EV on for 7,000 ms or more, some door seen open",
    b"4, close_EV on for 7,000 ms or more, not all doors seen closed",
    b"5, retract_EV on for 7,000 ms or more, some gear seen extended",
    b"6, retract_EV on for 10,000 ms or more, not all gears seen retracted",
    b"7, extend_EV on for 7,000 ms or more, some gear seen retracted",
    b"8, extend_EV on for 10,000 ms or more, not all gears seen extended",
    b"9, general_EV on for 2,000 ms or more, circuit not pressurized",
    b"10, general_EV off for 10,000 ms or more, circuit pressurized",
    b"11, handle age 1,000 to 19,999 ms, switch open",
    b"12, handle age 21,500 ms or more, switch closed",
    b"13, some sensor invalid",
];
