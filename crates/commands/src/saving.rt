// Images by name (requests K3 and K6): an image is loaded from a file, with a true line for what is wrong with it, and takes the place of a file
// without ever losing what stood there. What is said is specs/Messages.antt, and what an image that was read gives specs/Loading.antt. Of
// what an operating system does nothing can be promised: the contracts promise what is made of the bytes.
ghost use Rattle.std.specs.Prelude.{false, ◌≡◌, T, length};
ghost use Rattle.image.specs.Images.{refusal_of};
ghost use Rattle.commands.specs.Loading.{loaded_says, loaded_of, LoadedFront, may_stand};

use crate::files;
use crate::messages::Named;
use controller::State;
use std::fs::{Files, OpenFile};
use std::io::{Error, ErrorKind, Read, Write};

// The name that the words of images go by on standard error.
pub(crate) const HANDOVER: [u8; 8] = *b"handover";

// A buffer for an image that is loaded has one byte more than an image of the longer form, so that a longer file is seen to be no image.
pub(crate) const ROOM: usize = image::SIZE + 1;

// An image that was asked for by its name, and taken: the controller that it is of, whether every item of it is 0, and how many bytes of the
// buffer were read of it.
#[derive(Clone, Copy)]
pub struct Loaded {
    pub state: State,
    pub blank: bool,
    pub read: usize,
}

// A file by its name, as the words of images have it.
pub(crate) fn handed<'a, F>(files: &'a F, path: &'a [u8]) -> Named<'a, F>
    ensures { (result.files ≡ files.entry) × (result.program.now ≡ HANDOVER) × (result.path ≡ path.entry) }
{
    Named {
        files,
        program: &HANDOVER,
        path,
    }
}

// Why the system does not do what it is asked (specs/Messages.antt).
#[derive(Clone, Copy)]
pub enum Reason {
    Missing,
    Forbidden,
    Directory,
    NoDirectory,
    TooLong,
    ReadOnly,
    Full,
    NoText,
    Other(u64),
}

impl<'a, F: Files> Named<'a, F> {
    // Loads the image that has this path through a lent buffer, or says in one line why not.
    pub(crate) fn load<E: Write>(&self, errors: &mut E, buffer: &mut [u8; ROOM]) -> Option<Loaded>
        ensures { LoadedFront result buffer.new }
    {
        match files::load(self.files, self.path, buffer) {
            Ok(n) => self.take_in(errors, &buffer[..n]),
            Err(error) => {
                self.say_reason(errors, b"it cannot be read: ", files::reason(&error));
                None
            }
        }
    }

    // The same, and of an image in which every item is 0 a line says so.
    pub(crate) fn load_told<E: Write>(
        &self,
        errors: &mut E,
        buffer: &mut [u8; ROOM],
    ) -> Option<Loaded>
        ensures { LoadedFront result buffer.new }
    {
        let loaded = self.load(errors, buffer);
        if let Some(Loaded { blank: true, .. }) = loaded {
            self.say(
                errors,
                b"every item of this image is 0, as a lost write leaves it",
            );
        }
        loaded
    }

    // Loads the bytes that were read, or says what is wrong with them.
    fn take_in<E: Write>(&self, errors: &mut E, bytes: &[u8]) -> Option<Loaded>
        ensures { loaded_says (length bytes.now) result ≡ loaded_of bytes.now }
    {
        let Ok(state) = image::load(bytes, image::last_stamp(bytes)) else {
            if let Some(fault) = image::find_fault(bytes) {
                self.say_fault(errors, fault, bytes.len());
            }
            return None;
        };
        Some(Loaded {
            state,
            blank: image::is_blank(bytes),
            read: bytes.len(),
        })
    }

    // Puts an image at the path: beside what stands there, synced, and then in its place. Where that cannot be it says why in one line, and what
    // stands at the path is as it was. Only an image that is taken is put there, and only where nothing stands, or a file that is empty or has
    // the length of an image of either form.
    pub(crate) fn replace<E: Write>(&self, errors: &mut E, bytes: &[u8]) -> bool
        ensures { T result → refusal_of bytes.now ≡ 0 }
    {
        let Ok(_) = image::load(bytes, 0) else {
            self.say(errors, b"nothing was saved: this would be no image");
            return false;
        };
        self.may_replace(errors) && self.put_there(errors, bytes)
    }

    // Whether an image may take the place of what stands at the path; where not, one line says why.
    pub(crate) fn may_replace<E: Write>(&self, errors: &mut E) -> bool {
        match files::open(self.files, self.path) {
            Ok(file) => self.is_replaceable(errors, file),
            Err(error) => self.is_free(errors, &error),
        }
    }

    // The same of a file that stands there.
    fn is_replaceable<E: Write, T: OpenFile + Read + Drop>(
        &self,
        errors: &mut E,
        mut file: T,
    ) -> bool {
        if file.sync_all().is_err() {
            self.say(errors, b"nothing was saved: this is no file on a disk");
            return false;
        }
        let mut bytes = [0u8; ROOM];
        match files::read(&mut file, &mut bytes) {
            Ok(n) if may_stand(n) => true,
            Ok(_) => {
                self.say(errors, b"nothing was saved: what stands there is no image");
                false
            }
            Err(error) => self.not_saved(errors, &error),
        }
    }

    // A path that cannot be read is free where nothing stands there, in a directory that there is.
    fn is_free<E: Write>(&self, errors: &mut E, error: &Error) -> bool {
        let missing = error.kind() == ErrorKind::NotFound;
        if !self.path.is_empty() & missing & files::has_directory(self.files, self.path) {
            return true;
        }
        self.not_saved(errors, error)
    }

    // Says why nothing was saved.
    fn not_saved<E: Write>(&self, errors: &mut E, error: &Error) -> bool
        ensures { result ≡ false }
    {
        self.say_reason(errors, b"nothing was saved: ", files::reason(error));
        false
    }

    // Writes the bytes into a new file beside the path, and gives that file the path's name.
    fn put_there<E: Write>(&self, errors: &mut E, bytes: &[u8]) -> bool {
        let mut beside = [0u8; 4352];
        let end = files::put_beside(&mut beside, self.path);
        if let Err(error) = put_in(self.files, self.path, &mut beside[..end], bytes) {
            return self.not_saved(errors, &error);
        }
        if !files::sync_directory(self.files, self.path) {
            self.say(
                errors,
                b"it is saved, but its directory could not be synced",
            );
        }
        true
    }
}

// Whether a file of which so many bytes were read may be replaced: it is empty, or has the length of a form.
fn may_stand(n: usize) -> bool
    ensures { result ≡ may_stand n }
{
    matches!(n, 0 | forms::OLD | forms::NEW)
}

// Writes the bytes into a new file, whose name ends in XXXXXX, and gives it the path's name; where that cannot be, the new file is gone.
fn put_in<F: Files>(files: &F, path: &[u8], beside: &mut [u8], bytes: &[u8]) -> Result<(), Error> {
    let file = files::create_beside(files, beside)?;
    let moved = files::keep(file, bytes).and_then(|()| files::rename(files, beside, path));
    if moved.is_err() {
        let _ = files::remove(files, beside);
    }
    moved
}
