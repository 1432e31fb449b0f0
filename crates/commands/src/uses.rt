// What the words that the program `desk` is given ask for:
//   waves [IMAGE]            a trace on the input, its value change dump on the output (request K2); with an image (request K3), that of a
//                            lesson that goes on from it
//   sheet                    a dump, its values as CSV (request K2)
//   handover save TO [FROM]  a trace, from a fresh start or from the image FROM; the image of its last state becomes the file TO (request K3)
//   handover resume IMAGE    a trace goes on from an image; its rows
//   handover show IMAGE      an image in plain words
//   handover new TO FROM     the image FROM in the new form becomes the file TO (request K6)
//   handover old TO FROM     the same in the old form
//   wall csv                 the sequence's 1,024 entries as CSV (requests K4, K7)
//   wall page                a page to print (SVG, A3)
// Bad use gets one line on standard error, and nothing is written.
ghost use Rattle.std.specs.Prelude.{false, T, ◌≡◌, map};
ghost use Rattle.names.specs.Words.{entry};
ghost use Rattle.trace.specs.Header.{same_text};
ghost use Rattle.commands.specs.Words.{is_first_word};

use crate::conversions::Form;
use crate::{conversions, images, walls};
use running::traces;
use std::fs::Files;
use std::io::{Read, Write};
use words::Streams;

// Does what the words ask for, and answers whether they are such a use: they are those that stand behind the program's own name. No use has more
// than four, so a caller may leave out those behind the fifth.
pub fn by_words<F: Files, R: Read, W: Write, E: Write>(
    files: &F,
    streams: &mut Streams<R, W, E>,
    words: &[&[u8]],
) -> bool
    ensures { T result → T (is_first_word (entry (map (λ word. word.now) words.now) 0)) }
{
    match words {
        [first, rest @ ..] if is(first, b"waves") => waves(files, streams, rest),
        [first, rest @ ..] if is(first, b"sheet") => sheet(streams, rest),
        [first, rest @ ..] if is(first, b"handover") => handover(files, streams, rest),
        [first, rest @ ..] if is(first, b"wall") => wall(streams, rest),
        _ => misused(
            streams,
            b"desk",
            b"use: desk waves, desk sheet, desk handover or desk wall, each with its words",
        ),
    }
}

// Whether a word is this one.
fn is(word: &[u8], text: &[u8]) -> bool
    ensures { result ≡ same_text word.now text.now }
{
    word == text
}

fn waves<F: Files, R: Read, W: Write, E: Write>(
    files: &F,
    streams: &mut Streams<R, W, E>,
    words: &[&[u8]],
) -> bool {
    match words {
        [] => {
            traces::waves(streams);
        }
        [image] => {
            images::waves(files, streams, image);
        }
        _ => return misused(streams, b"waves", b"use: waves [IMAGE] < TRACE"),
    }
    true
}

fn sheet<R: Read, W: Write, E: Write>(streams: &mut Streams<R, W, E>, words: &[&[u8]]) -> bool {
    if !words.is_empty() {
        return misused(streams, b"sheet", b"use: sheet < DUMP");
    }
    traces::sheet(streams);
    true
}

fn handover<F: Files, R: Read, W: Write, E: Write>(
    files: &F,
    streams: &mut Streams<R, W, E>,
    words: &[&[u8]],
) -> bool {
    match words {
        [b"save", to] => {
            images::save(files, streams, to);
        }
        [b"save", to, from] => {
            images::save_onward(files, streams, to, from);
        }
        [b"new", to, from] => {
            conversions::convert(files, streams, to, from, Form::New);
        }
        [b"old", to, from] => {
            conversions::convert(files, streams, to, from, Form::Old);
        }
        [b"resume", image] => {
            images::resume(files, streams, image);
        }
        [b"show", image] => {
            images::show(files, streams, image);
        }
        _ => {
            return misused(
                streams,
                b"handover",
                b"use: save TO [FROM] < TRACE, resume IMAGE < TRACE, show IMAGE, new TO FROM, or old TO FROM",
            );
        }
    }
    true
}

fn wall<R, W: Write, E: Write>(streams: &mut Streams<R, W, E>, words: &[&[u8]]) -> bool {
    match words {
        [b"csv"] => {
            walls::csv(streams);
        }
        [b"page"] => {
            walls::page(streams);
        }
        _ => {
            return misused(
                streams,
                b"wall",
                b"use: wall csv > FILE.csv, or wall page > FILE.svg",
            );
        }
    }
    true
}

// Says what the uses of a word are.
fn misused<R, W, E: Write>(streams: &mut Streams<R, W, E>, word: &[u8], uses: &[u8]) -> bool
    ensures { result ≡ false }
{
    words::say(&mut streams.errors, word, uses);
    false
}
