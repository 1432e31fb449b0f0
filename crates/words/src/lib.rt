// What the programs say to a person, in one line on standard error, and how they put out what is written.
// The lines are those of specs/Messages.antt. Of what an operating system does with them nothing can be promised.
#![tactic(auto)]

ghost use Rattle.std.specs.Prelude.{false, ◌++◌, ◌≡◌, ◌≤◌, T, length};
ghost use Rattle.common.specs.Ascii.{ascii};
ghost use Rattle.common.specs.Decimal.{decimal};
ghost use Rattle.texts.specs.Lines.{PutsIfRoom};
ghost use Rattle.words.specs.Messages.{
  said_text,
  at_once,
  is_at_once,
  has_lf,
  meaning_text,
  hint_text,
  refused_text,
  nine_text,
};

use std::io::Write;
use texts::Line;

pub mod arguments;
pub mod rooms;

// A line of at most so many bytes is written at once.
const AT_ONCE: usize = 8192;

// What a line has besides the name and what there is to say: a colon, a space and its end.
const AROUND: usize = 3;

// What a program reads from, what it writes to, and what it says to a person on.
#[derive(Drop)]
pub struct Streams<R, W, E> {
    pub input: R,
    pub output: W,
    pub errors: E,
}

// A line on standard error: the program's name and what it has to say. Answers whether it was handed to `write` at once, and not piece by piece.
// (Not inlined: else its room lies on the stack of all that its caller does.)
#[inline(never)]
pub fn say<E: Write>(errors: &mut E, name: &[u8], what: &[u8]) -> bool
    ensures { result ≡ is_at_once name.now what.now }
{
    if AT_ONCE - AROUND < name.len() + what.len() {
        say_in_pieces(errors, name, what);
        return false;
    }
    let mut room = [0u8; AT_ONCE];
    let mut text = Line::new(&mut room);
    put_said(&mut text, name, what);
    let _ = errors.write_all(text.text());
    true
}

// Hands the first n bytes to `write`, and answers whether all of them were there and it took them. Where it did not, says so. (n stands beside
// the bytes, since the promises of `running` rest on the test that all of them are there.)
pub fn put<R, W: Write, E: Write>(
    streams: &mut Streams<R, W, E>,
    name: &[u8],
    out: &[u8],
    n: usize,
) -> bool
    ensures { T result → n ≤ length out.now }
{
    if out.len() < n {
        return false;
    }
    if streams.output.write_all(&out[..n]).is_ok() {
        return true;
    }
    say(&mut streams.errors, name, b"writing failed");
    false
}

// The refusal that ended the reading of a trace, by the number that `reading::Phase::Ended` bears; the line buffer is as the row that was
// refused left it. Answers as `say` does.
pub fn refused<E: Write>(errors: &mut E, name: &[u8], line: u64, refusal: u8, buffer: &[u8]) -> bool
    ensures { result ≡ is_at_once name.now (refused_text line refusal (has_lf buffer.now)) }
{
    let mut room = [0u8; 256];
    let mut text = Line::new(&mut room);
    put_refused(&mut text, line, refusal, has_lf(buffer));
    say(errors, name, text.text())
}

// Refusal 9 of a dump. Answers as `say` does.
pub fn nine<E: Write>(errors: &mut E, name: &[u8], line: u64, rows: u64) -> bool
    ensures { result ≡ is_at_once name.now (nine_text line rows) }
{
    let mut room = [0u8; 128];
    let mut text = Line::new(&mut room);
    put_nine(&mut text, line, rows);
    say(errors, name, text.text())
}

// A line that is too long to be put together.
fn say_in_pieces<E: Write>(errors: &mut E, name: &[u8], what: &[u8]) {
    let _ = errors.write_all(name);
    let _ = errors.write_all(b": ");
    let _ = errors.write_all(what);
    let _ = errors.write_all(b"\n");
}

// Whether a lone LF stands in the line buffer.
#[tactic(auto, using(common::proofs::Searches::some_is_any), unfolding(crate::specs::Messages::has_lf))]
fn has_lf(line: &[u8]) -> bool
    ensures { result ≡ has_lf line.now }
{
    line.contains(&b'\n')
}

// Puts a line at the front of the text.
fn put_said(text: &mut Line, name: &[u8], what: &[u8])
    ensures { PutsIfRoom (said_text name.now what.now) text.old text.new }
{
    text.put(name);
    text.put(b": ");
    text.put(what);
    text.put(b"\n");
}

// Puts the line and the number of a refusal, what it means and what there is to say of line 1.
fn put_refused(text: &mut Line, line: u64, refusal: u8, bare: bool)
    ensures { PutsIfRoom (refused_text line refusal bare) text.old text.new }
{
    put_numbers(text, line, refusal);
    put_meaning(text, refusal);
    if line == 1 {
        put_hint(text, bare);
    }
}

// Puts the line and the number of a refusal.
fn put_numbers(text: &mut Line, line: u64, refusal: u8)
    ensures { PutsIfRoom (ascii "line " ++ decimal line ++ ascii ", refusal " ++ decimal refusal) text.old text.new }
{
    text.put(b"line ");
    text.put_number(line);
    text.put(b", refusal ");
    text.put_number(refusal as u64);
}

// Puts what a refusal of a row means. (By the number that `Phase::Ended` bears.)
fn put_meaning(text: &mut Line, refusal: u8)
    ensures { PutsIfRoom (meaning_text refusal) text.old text.new }
{
    match refusal {
        6 => text.put(b": the row is over 512 bytes"),
        7 => text.put(b": the label is not the one due"),
        _ => text.put(b": the row breaks the form of a trace"),
    }
}

// Puts what there is to say of line 1.
fn put_hint(text: &mut Line, bare: bool)
    ensures { PutsIfRoom (hint_text bare) text.old text.new }
{
    text.put(b"; a trace begins with its header");
    if bare {
        text.put(b", and its rows end in CRLF: here a bare LF was seen");
    }
}

// Puts refusal 9 of a dump.
fn put_nine(text: &mut Line, line: u64, rows: u64)
    ensures { PutsIfRoom (nine_text line rows) text.old text.new }
{
    text.put(b"line ");
    text.put_number(line);
    text.put(b", refusal 9: this is no dump that waves writes; ");
    text.put_number(rows);
    text.put(b" rows written stand");
}
