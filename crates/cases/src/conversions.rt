// An image in both forms: NAME.img must be converted as NAME.new and NAME.old, or get the refusal that stands there, into a buffer and, by the
// function that the program calls, into a file. A buffer that is a byte short gets 8, whatever the image is; where a file is refused none is
// written.
use crate::{files, images};
use commands::conversions;
use commands::conversions::Form;
use refusals::Refusal;
use words::rooms::{SMALL, zeros};

// Where what is said goes, and the file that is written.
const OUT: [u8; 3] = *b"out";

const SAVED: [u8; 9] = *b"saved.img";

// Whether a case is as stored.
pub(crate) fn case(rt: HostRuntime, name: &[u8]) -> bool {
    let mut room = [0u8; image::SIZE + 1];
    let image = files::read(rt, name, b".img", &mut room);
    no_room(image) & to_new(rt, name, image) & to_old(rt, name, image) & there(rt, name)
}

// Whether buffers that are a byte short get 8, whatever the image is.
fn no_room(image: &[u8]) -> bool {
    let mut new = [7u8; forms::NEW - 1];
    let mut old = [7u8; forms::OLD - 1];
    converting::to_new(image, &mut new) == Err(Refusal::Room)
        && converting::to_old(image, &mut old) == Err(Refusal::Room)
}

// Whether an image is converted to the new form as stored.
fn to_new(rt: HostRuntime, name: &[u8], image: &[u8]) -> bool {
    let mut out = [7u8; forms::NEW + 1];
    let answer = converting::to_new(image, &mut out);
    is_stored(rt, name, b".new", answer, out.get(..forms::NEW))
        & on_disk(rt, name, b".new", answer, Form::New)
}

// Whether it is converted to the old form as stored.
fn to_old(rt: HostRuntime, name: &[u8], image: &[u8]) -> bool {
    let mut out = [7u8; forms::OLD + 1];
    let answer = converting::to_old(image, &mut out);
    is_stored(rt, name, b".old", answer, out.get(..forms::OLD))
        & on_disk(rt, name, b".old", answer, Form::Old)
}

// Whether what is stored is the refusal, or the image in the other form.
fn is_stored(
    rt: HostRuntime,
    name: &[u8],
    ending: &[u8],
    answer: Result<(), Refusal>,
    image: Option<&[u8]>,
) -> bool {
    let mut room = [0u8; forms::NEW + 1];
    let stored = files::read(rt, name, ending, &mut room);
    match answer {
        Ok(()) => image == Some(stored),
        Err(refusal) => images::is_refused(refusal, stored),
    }
}

// Whether the file that is written is what is stored, and none is where it is refused.
fn on_disk(
    rt: HostRuntime,
    name: &[u8],
    ending: &[u8],
    answer: Result<(), Refusal>,
    form: Form,
) -> bool {
    let saved = converted(rt, name, form);
    match answer {
        Ok(()) => saved && files::same(rt, &SAVED, name, ending),
        Err(_) => !saved,
    }
}

// Converts file to file, and answers whether one stands there.
fn converted(rt: HostRuntime, name: &[u8], form: Form) -> bool {
    let mut room = zeros::<SMALL>();
    let image = files::path(&mut room, name, b".img");
    files::remove(rt, &SAVED);
    let Ok(mut streams) = files::onto(rt, &OUT) else {
        return false;
    };
    let answer = conversions::convert(&rt, &mut streams, &SAVED, image, form);
    answer.saved || files::both(rt, &SAVED, b"", b"")
}

// Whether the files of a case are there.
fn there(rt: HostRuntime, name: &[u8]) -> bool {
    files::both(rt, name, b".img", b".new") && files::both(rt, name, b".img", b".old")
}
