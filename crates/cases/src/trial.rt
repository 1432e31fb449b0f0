// Every word of the programs, by the functions that the programs call, on stored input that is read in several parts: a CRLF lies across the
// end of one, and the last row lacks its own. What `save` wrote is shown, gone on from, converted there and back, and still there where nothing was saved. What is
// written is held to what the peer wrote.
use crate::{files, put};
use commands::uses::by_words;
use std::fs::File;
use std::io;
use std::io::{Stderr, Stdout};
use words::Streams;

// The lesson up to where it is handed over, its further trace, and where its image is saved.
const FIRST: [u8; 14] = *b"trial/first.in";

const ONWARD: [u8; 15] = *b"trial/onward.in";

const IMAGE: [u8; 16] = *b"trial/lesson.img";

// The same in the old form, and in the new form again.
const OLD: [u8; 13] = *b"trial/old.img";

const NEW: [u8; 13] = *b"trial/new.img";

// All words, and some that are no use of them.
pub(crate) fn all(rt: HostRuntime) {
    replay(rt, b"trial/lesson.in");
    alone(rt, b"waves", b"trial/lesson.in");
    alone(rt, b"sheet", b"trial/long.vcd");
    save(rt, &IMAGE, &FIRST);
    handover(rt, b"resume", &IMAGE, &ONWARD);
    waves_onward(rt);
    convert(rt, b"old", &OLD, &IMAGE);
    convert(rt, b"new", &NEW, &OLD);
    convert(rt, b"old", &NEW, b"trial/bouncing.img");
    kept(rt);
    no_use(rt);
    wall(rt, b"csv");
    wall(rt, b"page");
}

// Of these nothing is written.
fn no_use(rt: HostRuntime) {
    alone(rt, b"rig", b"/dev/null");
    alone(rt, b"wall", b"/dev/null");
    wall(rt, b"sheet");
    handover(rt, b"load", &IMAGE, &ONWARD);
}

// Where nothing is read, what a lesson is to go on from is no image, or what would be replaced is none, nothing is saved, and what stands there
// is as it was; a torn last row does not lose the lesson.
fn kept(rt: HostRuntime) {
    save_onward(rt, &IMAGE);
    save_onward(rt, &FIRST);
    save(rt, &IMAGE, b"/dev/null");
    save(rt, &FIRST, &FIRST);
    save(rt, b"trial/torn.img", b"trial/torn.in");
}

// A trace by `replay`.
fn replay(rt: HostRuntime, path: &[u8]) {
    say(rt, &[b"replay"], path);
    if let Ok(mut streams) = on_file(rt, path) {
        running::traces::replay(&mut streams);
    }
}

// A word by itself.
fn alone(rt: HostRuntime, word: &[u8], path: &[u8]) {
    run(rt, &[word], path);
}

// The dump of a lesson that goes on from the image.
fn waves_onward(rt: HostRuntime) {
    run(rt, &[b"waves", &IMAGE], &ONWARD);
}

fn wall(rt: HostRuntime, word: &[u8]) {
    run(rt, &[b"wall", word], b"/dev/null");
}

fn handover(rt: HostRuntime, word: &[u8], image: &[u8], path: &[u8]) {
    run(rt, &[b"handover", word, image], path);
}

// An image is converted; what then stands at the path.
fn convert(rt: HostRuntime, word: &[u8], path: &[u8], image: &[u8]) {
    run(rt, &[b"handover", word, path, image], b"/dev/null");
    handover(rt, b"show", path, b"/dev/null");
}

// A lesson is handed over from a fresh start; what then stands at the path.
fn save(rt: HostRuntime, image: &[u8], path: &[u8]) {
    handover(rt, b"save", image, path);
    handover(rt, b"show", image, b"/dev/null");
}

// The lesson is handed over again, from what stands at a path.
fn save_onward(rt: HostRuntime, old: &[u8]) {
    run(rt, &[b"handover", b"save", &IMAGE, old], &ONWARD);
    handover(rt, b"show", &IMAGE, b"/dev/null");
}

// What the words ask for, with a file as its input; which they are is said first.
fn run(rt: HostRuntime, words: &[&[u8]], path: &[u8]) {
    say(rt, words, path);
    if let Ok(mut streams) = on_file(rt, path) {
        by_words(&rt, &mut streams, words);
    }
}

// A file as the input, and the program's own output.
fn on_file(rt: HostRuntime, path: &[u8]) -> io::Result<Streams<File, Stdout, Stderr>> {
    Ok(Streams {
        input: files::open_path(rt, path)?,
        output: rt.stdout(),
        errors: rt.stderr(),
    })
}

// Puts out which words come next, and what they read.
fn say(rt: HostRuntime, words: &[&[u8]], path: &[u8]) {
    put(rt, b"==");
    for word in words {
        put(rt, b" ");
        put(rt, word);
    }
    put(rt, b" < ");
    put(rt, path);
    put(rt, b"\n");
}
