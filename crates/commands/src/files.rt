// Files by their names, and why the system does not do what it is asked.
ghost use Rattle.std.specs.Prelude.{◌≡◌, ◌+◌, ◌≤◌, ◌++◌, IfOk, length};
ghost use Rattle.common.specs.Ascii.{ascii};
ghost use Rattle.commands.specs.Messages.{PutWithin};

use crate::saving::Reason;
use std::fs::{Files, OpenFile, OpenOptions, Permissions};
use std::io::{Error, ErrorKind, Read, Write};
use std::os::unix::fs::{OpenOptionsExt, PermissionsExt};
use std::{fs, io};
use texts::Line;

// So many names are tried for a new file.
const NAMES: u32 = 238328;

// Opens a file, or a directory, to be read.
pub(crate) fn open<F: Files>(files: &F, path: &[u8]) -> io::Result<F::File> {
    fs::open(files, text_of(path)?)
}

// Opens a file and reads it, until the buffer is full or the file ends, and answers how many bytes that is.
pub(crate) fn load<F: Files>(files: &F, path: &[u8], buffer: &mut [u8]) -> io::Result<usize>
    ensures { IfOk result (λ n. n ≤ length buffer.new) }
{
    let mut file = open(files, path)?;
    read(&mut file, buffer)
}

// Reads until the buffer is full or the input ends, and answers how many bytes that is. A call that a signal interrupts is made again. (A
// proved loop has to end: it has more turns than any file uses up.)
pub(crate) fn read<R: Read>(from: &mut R, buffer: &mut [u8]) -> io::Result<usize>
    ensures { IfOk result (λ n. n ≤ length buffer.new) }
{
    let mut n = 0;
    for _ in 0..u64::MAX {
        match from.read(&mut buffer[n..]) {
            Ok(0) => return Ok(n),
            Ok(more) => n += more,
            Err(error) => {
                if error.kind() != ErrorKind::Interrupted {
                    return Err(error);
                }
            }
        }
    }
    Err(Error::from(ErrorKind::TimedOut))
}

// Puts the name of a new file beside a path: the path and `.XXXXXX`.
pub(crate) fn put_beside(out: &mut [u8], path: &[u8]) -> usize
    ensures { PutWithin out.old 0 (path.now ++ ascii ".XXXXXX") out.new result }
{
    let mut line = Line::new(out);
    put_name(&mut line, path);
    line.at
}

// The same into a line.
fn put_name(line: &mut Line, path: &[u8])
    ensures same { line.new.bytes.ghost_name ≡ line.old.bytes.ghost_name }
    ensures put { PutWithin line.old.bytes.now line.old.at (path.now ++ ascii ".XXXXXX") line.new.bytes.now line.new.at }
{
    line.put(path);
    line.put(b".XXXXXX");
}

// Creates a new file by a name that ends in six letters: the first ones that no file there has.
pub(crate) fn create_beside<F: Files>(files: &F, name: &mut [u8]) -> io::Result<F::File> {
    for k in 0..NAMES {
        put_letters(name, k);
        match create_new(files, name) {
            Ok(file) => return Ok(file),
            Err(error) => {
                if error.kind() != ErrorKind::AlreadyExists {
                    return Err(error);
                }
            }
        }
    }
    create_new(files, name)
}

// Creates a file that is not there yet, to be written. Until it is complete its owner alone may read it.
fn create_new<F: Files>(files: &F, name: &[u8]) -> io::Result<F::File> {
    OpenOptions::new()
        .read(true)
        .write(true)
        .create_new(true)
        .mode(0o600)
        .open(files, text_of(name)?)
}

// Puts a number, in six letters, at the end of a name. (Each place has its power
// beside it.)
fn put_letters(name: &mut [u8], k: u32) {
    let n = name.len();
    if n < 6 {
        return;
    }
    name[n - 6] = letter(k / 11881376);
    name[n - 5] = letter(k / 456976);
    name[n - 4] = letter(k / 17576);
    name[n - 3] = letter(k / 676);
    name[n - 2] = letter(k / 26);
    name[n - 1] = letter(k);
}

// The letter of a number's last place.
fn letter(k: u32) -> u8 {
    b'a' + (k % 26) as u8
}

// Writes all bytes to a new file, syncs and closes it. (That its mode cannot be set, as on a stick that has no modes, loses nothing.)
pub(crate) fn keep<F: OpenFile + Write + Drop>(mut file: F, bytes: &[u8]) -> io::Result<()> {
    let _ = file.set_permissions(Permissions::from_mode(0o644));
    file.write_all(bytes)?;
    file.sync_all()
}

// Removes a file.
pub(crate) fn remove<F: Files>(files: &F, path: &[u8]) -> io::Result<()> {
    fs::remove_file(files, text_of(path)?)
}

// Gives a file another name.
pub(crate) fn rename<F: Files>(files: &F, from: &[u8], to: &[u8]) -> io::Result<()> {
    fs::rename(files, text_of(from)?, text_of(to)?)
}

// Syncs the directory that a path lies in, and answers whether that went well.
pub(crate) fn sync_directory<F: Files>(files: &F, path: &[u8]) -> bool {
    open_directory(files, path).is_ok_and(|directory| directory.sync_all().is_ok())
}

// Whether there is a directory that a path lies in. (One that cannot be read may still take a new file.)
pub(crate) fn has_directory<F: Files>(files: &F, path: &[u8]) -> bool {
    match open_directory(files, path) {
        Ok(_) => true,
        Err(error) => error.kind() != ErrorKind::NotFound,
    }
}

// Opens the directory that a path lies in.
fn open_directory<F: Files>(files: &F, path: &[u8]) -> io::Result<F::File> {
    let n = behind_slash(path);
    if n == 0 {
        return open(files, b".");
    }
    open(files, &path[..n])
}

// The place behind the last `/` of a path, or 0.
fn behind_slash(path: &[u8]) -> usize
    ensures { result ≤ length path.now }
{
    match path.iter().rposition(|byte| *byte == b'/') {
        Some(i) => i + 1,
        None => 0,
    }
}

// A path as a text, which the system's functions take alone.
fn text_of(path: &[u8]) -> io::Result<&str> {
    std::str::from_utf8(path).map_err(|_| Error::from(ErrorKind::InvalidData))
}

// Why the system does not do what it is asked, by its error.
pub(crate) fn reason(error: &Error) -> Reason {
    match error.kind() {
        ErrorKind::NotFound => Reason::Missing,
        ErrorKind::PermissionDenied => Reason::Forbidden,
        ErrorKind::IsADirectory => Reason::Directory,
        ErrorKind::NotADirectory => Reason::NoDirectory,
        ErrorKind::InvalidFilename => Reason::TooLong,
        ErrorKind::ReadOnlyFilesystem => Reason::ReadOnly,
        ErrorKind::StorageFull => Reason::Full,
        ErrorKind::InvalidData => Reason::NoText,
        ErrorKind::InvalidInput => Reason::Other(22),
        _ => Reason::Other(number_of(error)),
    }
}

// The system's number of an error, or 0 for one that has none.
fn number_of(error: &Error) -> u64 {
    match error.raw_os_error() {
        Some(code) => u64::try_from(code).unwrap_or(0),
        None => 0,
    }
}
