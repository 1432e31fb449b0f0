// An image in the other form (request K6): `handover new` and `handover old`.
ghost use Rattle.std.specs.Prelude.{T, ◌≡◌};
ghost use Rattle.refusals.specs.Answers.{code_of};
ghost use Rattle.texts.specs.Lines.{PutsIfRoom};
ghost use Rattle.commands.specs.Words.{form_size, form_name, converted_by, no_image, ConvertedFrom, converted_text};

use crate::messages::Named;
use crate::saving;
use crate::saving::{HANDOVER, Loaded, ROOM};
use image::SIZE;
use refusals::Refusal;
use std::fs::Files;
use std::io::Write;
use texts::Line;
use words::Streams;

// The form that is asked for. (Three functions ask which: a trait over two forms would be no plainer.)
#[derive(Clone, Copy)]
pub enum Form {
    New,
    Old,
}

// A conversion: whether the image stands at its path, and what was loaded, if that was taken, which is told of in both cases.
#[derive(Clone, Copy)]
pub struct Converted {
    pub saved: bool,
    pub loaded: Option<Loaded>,
}

// `handover new TO FROM` and `handover old TO FROM`: the image that stands at FROM, in the form that is asked for, becomes the file TO, which may
// be the same one.
pub fn convert<F: Files, R, W: Write, E: Write>(
    files: &F,
    streams: &mut Streams<R, W, E>,
    path: &[u8],
    from: &[u8],
    form: Form,
) -> Converted
    ensures { ConvertedFrom form result }
{
    let to = saving::handed(files, path);
    let from = saving::handed(files, from);
    let mut bytes = [0u8; ROOM];
    let loaded = from.load_told(&mut streams.errors, &mut bytes);
    let Some(taken) = loaded else {
        to.say(&mut streams.errors, b"nothing was saved");
        return Converted {
            saved: false,
            loaded,
        };
    };
    Converted {
        saved: keep(streams, &to, &from, &bytes[..taken.read], form),
        loaded,
    }
}

// Puts an image that was taken, converted, at a path, and says on the output what it is; or says why not. (With room for either form, what
// was taken is refused by 12 alone.)
fn keep<F: Files, R, W: Write, E: Write>(
    streams: &mut Streams<R, W, E>,
    to: &Named<F>,
    from: &Named<F>,
    image: &[u8],
    form: Form,
) -> bool
    ensures { T result → (converted_by form image.now no_image).0 ≡ 0 }
{
    let mut out = [0u8; SIZE];
    if in_form(form, image, &mut out).is_err() {
        from.say(
            &mut streams.errors,
            b"refusal 12: a channel is under suspicion, which the old form cannot bear; an image saved a sample or two later can be converted",
        );
        to.say(&mut streams.errors, b"nothing was saved");
        return false;
    }
    if !to.replace(&mut streams.errors, &out[..size_of(form)]) {
        return false;
    }
    tell(streams, to, from.path, form);
    true
}

// Converts into a lent buffer.
fn in_form(form: Form, image: &[u8], out: &mut [u8]) -> Result<(), Refusal>
    ensures { (code_of result, out.new) ≡ converted_by form image.now out.old }
{
    match form {
        Form::New => converting::to_new(image, out),
        Form::Old => converting::to_old(image, out),
    }
}

// A form has so many bytes.
fn size_of(form: Form) -> usize
    ensures { result ≡ form_size form }
{
    match form {
        Form::New => forms::NEW,
        Form::Old => forms::OLD,
    }
}

// Says what stands at a path now.
fn tell<F, R, W: Write, E: Write>(
    streams: &mut Streams<R, W, E>,
    to: &Named<F>,
    from: &[u8],
    form: Form,
) {
    let mut out = [0u8; 8512];
    let mut text = Line::new(&mut out);
    put_told(&mut text, to.path, from, form);
    let end = text.at;
    if !words::put(streams, &HANDOVER, &out, end) {
        to.say(&mut streams.errors, b"it is saved all the same");
    }
}

// Puts what stands at a path now.
fn put_told(out: &mut Line, path: &[u8], from: &[u8], form: Form)
    ensures { PutsIfRoom (converted_text path.now from.now form) out.old out.new }
{
    out.put(path);
    put_form(out, form);
    out.put(from);
    out.put(b"\n");
}

// Puts the name of a form, between the two paths.
fn put_form(out: &mut Line, form: Form)
    ensures { PutsIfRoom (form_name form) out.old out.new }
{
    match form {
        Form::New => out.put(b": the new form of "),
        Form::Old => out.put(b": the old form of "),
    }
}
