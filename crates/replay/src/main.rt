// The program `replay`: a trace on standard input, its rows on standard output (document 01, "The trace and its program").
#![tactic(auto)]

use words::{Streams, arguments};

// Its own name, and a word more, which is one too many.
const MOST_WORDS: usize = 2;

fn main(rt: HostRuntime) {
    let mut streams = Streams {
        input: rt.stdin(),
        output: rt.stdout(),
        errors: rt.stderr(),
    };
    if arguments::count(&rt, MOST_WORDS) == 1 {
        running::traces::replay(&mut streams);
        return;
    }
    words::say(&mut streams.errors, b"replay", b"use: replay < TRACE");
}
