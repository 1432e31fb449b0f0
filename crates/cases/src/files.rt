// The files of a case: its name, and an ending for each.
ghost use Rattle.std.specs.Prelude.{◌≤◌, length};

use std::fs::File;
use std::io::{Empty, Error, ErrorKind, Read, Stderr};
use std::{fs, io};
use texts::Line;
use words::Streams;
use words::rooms::{SMALL, zeros};

// No file has more bytes.
pub(crate) const ROOM: usize = 327680;

// What a word of the programs reads from and writes to: from a file to a file, or to one from nothing.
pub(crate) type Between = Streams<File, File, Stderr>;

pub(crate) type Onto = Streams<Empty, File, Stderr>;

// Whether what was written to a file is what is stored, and that is there.
pub(crate) fn same(rt: HostRuntime, written: &[u8], name: &[u8], ending: &[u8]) -> bool {
    let mut one = zeros::<ROOM>();
    let mut other = zeros::<ROOM>();
    let written = read(rt, written, b"", &mut one);
    let stored = read(rt, name, ending, &mut other);
    written == stored && has(rt, name, ending)
}

// Whether both files are there: what a case is run on, and what must be written.
pub(crate) fn both(rt: HostRuntime, name: &[u8], given: &[u8], written: &[u8]) -> bool {
    has(rt, name, given) && has(rt, name, written)
}

// Reads the file with this ending into a buffer, and gives its bytes.
pub(crate) fn read<'a>(
    rt: HostRuntime,
    name: &[u8],
    ending: &[u8],
    into: &'a mut [u8],
) -> &'a [u8] {
    let n = match open(rt, name, ending) {
        Ok(file) => read_open(file, into),
        Err(_) => 0,
    };
    &into[..n]
}

// Reads an open file until the buffer is full, the file ends or a read fails, and answers how many bytes there are. (A read gives as many as it
// likes.)
fn read_open(mut file: File, into: &mut [u8]) -> usize
    ensures { result ≤ length into.new }
{
    let mut n = 0;
    while n < into.len() {
        match file.read(&mut into[n..]) {
            Ok(0) => return n,
            Ok(more) => n += more,
            Err(_) => return n,
        }
    }
    n
}

// Opens it.
pub(crate) fn open(rt: HostRuntime, name: &[u8], ending: &[u8]) -> io::Result<File> {
    let mut room = zeros::<SMALL>();
    open_path(rt, path(&mut room, name, ending))
}

// Opens the file that has this path, to be read.
pub(crate) fn open_path(rt: HostRuntime, path: &[u8]) -> io::Result<File> {
    fs::open(&rt, text_of(path)?)
}

// Opens one that is written anew.
pub(crate) fn overwrite(rt: HostRuntime, path: &[u8]) -> io::Result<File> {
    fs::create(&rt, text_of(path)?)
}

// Opens a case's file with this ending to be read, and a file that is written anew.
pub(crate) fn between(
    rt: HostRuntime,
    name: &[u8],
    ending: &[u8],
    to: &[u8],
) -> io::Result<Between> {
    Ok(Streams {
        input: open(rt, name, ending)?,
        output: overwrite(rt, to)?,
        errors: rt.stderr(),
    })
}

// The same with nothing to be read.
pub(crate) fn onto(rt: HostRuntime, to: &[u8]) -> io::Result<Onto> {
    Ok(Streams {
        input: io::empty(),
        output: overwrite(rt, to)?,
        errors: rt.stderr(),
    })
}

// Removes a file, if it is there.
pub(crate) fn remove(rt: HostRuntime, path: &[u8]) {
    if let Ok(text) = text_of(path) {
        let _ = fs::remove_file(&rt, text);
    }
}

// Its path, put together in a buffer.
pub(crate) fn path<'a>(room: &'a mut [u8], name: &[u8], ending: &[u8]) -> &'a [u8] {
    let mut text = Line::new(room);
    text.put(name);
    text.put(ending);
    let end = text.at;
    room.get(..end).unwrap_or(b"")
}

// Whether it is there.
fn has(rt: HostRuntime, name: &[u8], ending: &[u8]) -> bool {
    open(rt, name, ending).is_ok()
}

// A path as a text, which the system's functions take alone.
fn text_of(path: &[u8]) -> io::Result<&str> {
    std::str::from_utf8(path).map_err(|_| Error::from(ErrorKind::InvalidData))
}
