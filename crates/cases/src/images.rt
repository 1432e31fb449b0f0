// An image and its words: NAME.img must be shown as NAME.txt, and be saved again as it was, in the new form; one that is refused is shown as
// its refusal.
use crate::files;
use controller::State;
use refusals::Refusal;
use texts::Line;
use words::rooms::{SMALL, zeros};

// Whether a case is as stored.
pub(crate) fn case(rt: HostRuntime, name: &[u8]) -> bool {
    let mut room = [0u8; image::SIZE + 1];
    let mut other = zeros::<SMALL>();
    let image = files::read(rt, name, b".img", &mut room);
    let stored = files::read(rt, name, b".txt", &mut other);
    shown(image, stored) && files::both(rt, name, b".img", b".txt")
}

// Whether the refusal of an image is the one that is stored.
pub(crate) fn is_refused(refusal: Refusal, stored: &[u8]) -> bool {
    let told: &[u8] = match refusal {
        Refusal::Range => b"refusal 10\n",
        Refusal::Rule => b"refusal 11\n",
        Refusal::OldForm => b"refusal 12\n",
        _ => return false,
    };
    stored == told
}

// Whether an image is shown as stored.
fn shown(image: &[u8], stored: &[u8]) -> bool {
    match image::load(image, image::last_stamp(image)) {
        Ok(state) => in_words(state, stored) && saved_again(state, image),
        Err(refusal) => is_refused(refusal, stored),
    }
}

// Whether the words of a controller are as stored.
fn in_words(state: State, stored: &[u8]) -> bool {
    let mut room = zeros::<SMALL>();
    let mut text = Line::new(&mut room);
    plain::put(&mut text, state);
    text.text() == stored
}

// Whether a controller is saved as the image that it was loaded from, in the new form.
fn saved_again(state: State, image: &[u8]) -> bool {
    let mut new = [0u8; image::SIZE];
    let mut out = [0u8; image::SIZE];
    let converted = converting::to_new(image, &mut new);
    let saved = image::save(state, &mut out);
    converted.is_ok() && saved.is_ok() && out == new
}
