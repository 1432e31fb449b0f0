// The program `desk`: what an instructor has beside the rig, by the words that it is given (`commands/src/uses.rt` lists them). `bin/waves`,
// `bin/sheet`, `bin/handover` and `bin/wall` give it the first one.
#![tactic(auto)]

use words::rooms::{LARGE, SMALL, zeros};
use words::{Streams, arguments};

// More words than any use has.
const MOST_WORDS: usize = 16;

fn main(rt: HostRuntime) {
    // A buffer and a length for each word: there is no heap.
    let mut first = zeros::<SMALL>();
    let mut second = zeros::<LARGE>();
    let mut third = zeros::<LARGE>();
    let mut fourth = zeros::<LARGE>();
    let a = arguments::word(&rt, 1, &mut first);
    let b = arguments::word(&rt, 2, &mut second);
    let c = arguments::word(&rt, 3, &mut third);
    let d = arguments::word(&rt, 4, &mut fourth);
    let mut streams = Streams {
        input: rt.stdin(),
        output: rt.stdout(),
        errors: rt.stderr(),
    };
    let words: [&[u8]; 5] = [&first[..a], &second[..b], &third[..c], &fourth[..d], b""];
    let given = arguments::count(&rt, MOST_WORDS).saturating_sub(1);
    commands::uses::by_words(&rt, &mut streams, &words[..given.min(words.len())]);
}
