// What is said of a file (specs/Messages.antt), each as one line on standard error that is put together first.
ghost use Rattle.std.specs.Prelude.{◌++◌, ◌≡◌, ◌≤◌, length};
ghost use Rattle.texts.specs.Lines.{PutsIfRoom};
ghost use Rattle.words.specs.Messages.{is_at_once};
ghost use Rattle.commands.specs.Messages.{of_file, said_of, reason_words, length_words, fault_words};

use crate::saving::Reason;
use image::Fault;
use std::io::Write;
use texts::Line;

// A file by its name, where there are files, and the program that has to do with it.
#[derive(Drop)]
pub(crate) struct Named<'a, F> {
    pub(crate) files: &'a F,
    pub(crate) program: &'a [u8],
    pub(crate) path: &'a [u8],
}

impl<'a, F> Named<'a, F> {
    // Says this of the file on standard error; an empty path is left out.
    pub(crate) fn say<E: Write>(&self, errors: &mut E, what: &[u8]) -> bool
        ensures { length (said_of self.now.path.now what.now) ≤ 4352 → result ≡ is_at_once self.now.program.now (said_of self.now.path.now what.now) }
    {
        if self.path.is_empty() {
            return words::say(errors, self.program, what);
        }
        let mut room = [0u8; 4352];
        let mut line = Line::new(&mut room);
        put_of_file(&mut line, self.path, what);
        words::say(errors, self.program, line.text())
    }

    // Says of the file what was to be done, and why the system does not do it.
    pub(crate) fn say_reason<E: Write>(&self, errors: &mut E, what: &[u8], reason: Reason) {
        let mut room = [0u8; 128];
        let mut text = Line::new(&mut room);
        put_with_reason(&mut text, what, reason);
        self.say(errors, text.text());
    }

    // Says what is wrong with the bytes that were read of the file: there were so many.
    pub(crate) fn say_fault<E: Write>(&self, errors: &mut E, fault: Fault, read: usize) {
        let mut room = [0u8; 128];
        let mut text = Line::new(&mut room);
        put_fault(&mut text, fault, read);
        self.say(errors, text.text());
    }
}

// Puts what is said of a file.
fn put_of_file(line: &mut Line, path: &[u8], what: &[u8])
    ensures { PutsIfRoom (of_file path.now what.now) line.old line.new }
{
    line.put(path);
    line.put(b": ");
    line.put(what);
}

// Puts what was to be done, and why the system does not do it.
fn put_with_reason(text: &mut Line, what: &[u8], reason: Reason)
    ensures { PutsIfRoom (what.now ++ reason_words reason) text.old text.new }
{
    text.put(what);
    put_reason(text, reason);
}

// Puts why the system does not do what it is asked.
fn put_reason(text: &mut Line, reason: Reason)
    ensures { PutsIfRoom (reason_words reason) text.old text.new }
{
    match reason {
        Reason::Missing => text.put(b"there is no such file or directory"),
        Reason::Forbidden => text.put(b"no permission"),
        Reason::Directory => text.put(b"it is a directory"),
        Reason::NoDirectory => text.put(b"a part of its path is no directory"),
        Reason::TooLong => text.put(b"its name is too long"),
        Reason::ReadOnly => text.put(b"the disk is read only"),
        Reason::Full => text.put(b"the disk is full"),
        Reason::NoText => text.put(b"its name is not UTF-8"),
        Reason::Other(error) => put_error(text, error),
    }
}

// Puts an error that has no words here.
fn put_error(text: &mut Line, error: u64)
    ensures { PutsIfRoom (reason_words (Reason.Other error)) text.old text.new }
{
    text.put(b"error ");
    text.put_number(error);
}

// Puts what is wrong with the bytes that were read.
fn put_fault(text: &mut Line, fault: Fault, read: usize)
    ensures { PutsIfRoom (fault_words fault read) text.old text.new }
{
    match fault {
        Fault::Length => put_length(text, read),
        Fault::Item(k) => put_item(text, k),
        Fault::Rule(k) => put_rule(text, k),
    }
}

// Puts that it has another length than an image.
fn put_length(text: &mut Line, read: usize)
    ensures { PutsIfRoom (length_words read) text.old text.new }
{
    if image::SIZE < read {
        return text.put(b"refusal 10: it is longer than an image, which has 204 or 348 bytes");
    }
    text.put(b"refusal 10: it has ");
    text.put_number(read as u64);
    text.put(b" bytes, and an image has 204 or 348");
}

// Puts that an item is out of its range.
fn put_item(text: &mut Line, k: usize)
    ensures { PutsIfRoom (fault_words (Fault.Item k) 0) text.old text.new }
{
    text.put(b"refusal 10: out of its range: ");
    plain::put_item(text, k);
}

// Puts that a rule is broken. (`put_item` with another text and another call: nothing to share but `put`.)
fn put_rule(text: &mut Line, k: usize)
    ensures { PutsIfRoom (fault_words (Fault.Rule k) 0) text.old text.new }
{
    text.put(b"refusal 11: a rule is broken: ");
    plain::put_rule(text, k);
}
