// A lesson that is handed over (request K3): `handover save`, `resume` and `show`, and `waves` of a lesson that goes on from an image.
ghost use Rattle.std.specs.Prelude.{false, ◌≡◌, None, Some, IsSomeAnd, T, IfSome};
ghost use Rattle.texts.specs.Lines.{PutsIfRoom};
ghost use Rattle.running.specs.Works.{rows, waves};
ghost use Rattle.controller.specs.Start.{fresh_of};
ghost use Rattle.reading.specs.Rows.{has_started};
ghost use Rattle.commands.specs.Loading.{loaded_says};
ghost use Rattle.commands.specs.Words.{LoadedFrom, Onward, SavedFrom, SavedOnward, saved_text, shown_text, ShownRight};

use crate::messages::Named;
use crate::saving;
use crate::saving::{HANDOVER, Loaded, ROOM};
use controller::State;
use image::SIZE;
use reading::Run;
use running::Ran;
use running::tasks::{Image, Rows, Task, Waves};
use running::traces::WAVES;
use std::fs::Files;
use std::io::{Read, Write};
use texts::Line;
use words::Streams;
use words::rooms::{SMALL, zeros};

// A run of saving: whether the image stands at its path, and the run of the trace, if nothing failed in it, which is told of in both cases.
#[derive(Clone, Copy)]
pub struct Saved {
    pub saved: bool,
    pub ran: Option<Ran<Image>>,
}

// Whether all went well, and how many bytes were put out. (That stands beside it, and is no Option: of the wall it is promised either way.)
#[derive(Clone, Copy)]
pub struct Shown {
    pub well: bool,
    pub put: usize,
}

// `handover save TO`: the trace from a fresh start, and the image of its last state at a path.
pub fn save<F: Files, R: Read, W: Write, E: Write>(
    files: &F,
    streams: &mut Streams<R, W, E>,
    new: &[u8],
) -> Saved
    ensures { SavedFrom (fresh_of 0) result }
{
    save_from(&saving::handed(files, new), streams, State::fresh(0))
}

// `handover save TO FROM`: the same from the image that stands at a path, which may be the same one.
pub fn save_onward<F: Files, R: Read, W: Write, E: Write>(
    files: &F,
    streams: &mut Streams<R, W, E>,
    new: &[u8],
    old: &[u8],
) -> Saved
    ensures { SavedOnward result }
{
    let new = saving::handed(files, new);
    let Some(loaded) = load(&saving::handed(files, old), &mut streams.errors) else {
        new.say(&mut streams.errors, b"nothing was saved");
        return unsaved();
    };
    save_from(&new, streams, loaded.state)
}

// `handover resume IMAGE`: the rows of a trace that goes on from an image.
pub fn resume<F: Files, R: Read, W: Write, E: Write>(
    files: &F,
    streams: &mut Streams<R, W, E>,
    image: &[u8],
) -> Option<Ran<Rows>>
    ensures { IfSome result (Onward rows) }
{
    onward(&saving::handed(files, image), streams)
}

// `waves IMAGE`: the dump of a trace that goes on from an image.
pub fn waves<F: Files, R: Read, W: Write, E: Write>(
    files: &F,
    streams: &mut Streams<R, W, E>,
    image: &[u8],
) -> Option<Ran<Waves>>
    ensures { IfSome result (Onward waves) }
{
    let image = Named {
        files,
        program: &WAVES,
        path: image,
    };
    onward(&image, streams)
}

// `handover show IMAGE`: an image in plain words.
pub fn show<F: Files, R, W: Write, E: Write>(
    files: &F,
    streams: &mut Streams<R, W, E>,
    image: &[u8],
) -> Shown
    ensures { T result.well → ShownRight result }
{
    let Some(loaded) = read(&saving::handed(files, image), &mut streams.errors) else {
        return Shown {
            well: false,
            put: 0,
        };
    };
    let mut out = zeros::<SMALL>();
    let mut line = Line::new(&mut out);
    put_shown(&mut line, loaded);
    let put = line.at;
    Shown {
        well: words::put(streams, &HANDOVER, &out, put),
        put,
    }
}

// A task from the controller of an image; nothing is run where there is none.
fn onward<T: Task, F: Files, R: Read, W: Write, E: Write>(
    image: &Named<F>,
    streams: &mut Streams<R, W, E>,
) -> Option<Ran<T>>
    ensures { IfSome result (Onward T.rule) }
{
    let loaded = load(image, &mut streams.errors)?;
    running::run(streams, image.program, loaded.state)
}

// Loads an image. Of one in which every item is 0 a line on standard error says so.
fn load<F: Files, E: Write>(image: &Named<F>, errors: &mut E) -> Option<Loaded>
    ensures { LoadedFrom result }
{
    let mut bytes = [0u8; ROOM];
    image.load_told(errors, &mut bytes)
}

// Loads an image. (`load` but for that line: a flag for it would be no plainer.)
fn read<F: Files, E: Write>(image: &Named<F>, errors: &mut E) -> Option<Loaded>
    ensures { LoadedFrom result }
{
    let mut bytes = [0u8; ROOM];
    image.load(errors, &mut bytes)
}

// Runs the trace from a controller, and puts the image of its last state at a path. That no image may stand there, or that there
// is no such directory, is said before the trace is read.
fn save_from<F: Files, R: Read, W: Write, E: Write>(
    new: &Named<F>,
    streams: &mut Streams<R, W, E>,
    state: State,
) -> Saved
    ensures { SavedFrom state result }
{
    if !new.may_replace(&mut streams.errors) {
        return unsaved();
    }
    let ran = running::run(streams, new.program, state);
    Saved {
        saved: save_left(new, streams, ran),
        ran,
    }
}

// Puts the image of what a run of a trace left at a path, if nothing failed and row 0 was read; else says that nothing was saved.
fn save_left<F: Files, R, W: Write, E: Write>(
    new: &Named<F>,
    streams: &mut Streams<R, W, E>,
    ran: Option<Ran<Image>>,
) -> bool
    ensures { T result → IsSomeAnd ran (λ ran. T (has_started ran.work.run.reading.phase)) }
{
    let Some(ran) = ran else {
        new.say(&mut streams.errors, b"nothing was saved");
        return false;
    };
    let run = ran.work.run;
    if !run.phase().has_started() {
        new.say(
            &mut streams.errors,
            b"nothing was saved: the trace has no row 0",
        );
        return false;
    }
    keep(new, streams, run)
}

// Puts the image of a run's last state at a path, and says on the output of which line it is.
fn keep<F: Files, R, W: Write, E: Write>(
    new: &Named<F>,
    streams: &mut Streams<R, W, E>,
    run: Run,
) -> bool {
    let mut bytes = [0u8; SIZE];
    let Ok(SIZE) = handing::save_last(run, &mut bytes) else {
        new.say(&mut streams.errors, b"nothing was saved: refusal 8");
        return false;
    };
    if !new.replace(&mut streams.errors, &bytes) {
        return false;
    }
    tell(new, streams, handing::last_line(run));
    true
}

// Says of which line the image at a path is.
fn tell<F, R, W: Write, E: Write>(new: &Named<F>, streams: &mut Streams<R, W, E>, line: u64) {
    let mut out = [0u8; 4352];
    let mut text = Line::new(&mut out);
    put_told(&mut text, new.path, line);
    let end = text.at;
    if !words::put(streams, new.program, &out, end) {
        new.say(&mut streams.errors, b"it is saved all the same");
    }
}

// Puts of which line the image at a path is.
fn put_told(out: &mut Line, new: &[u8], line: u64)
    ensures { PutsIfRoom (saved_text new.now line) out.old out.new }
{
    out.put(new);
    out.put(b": the lesson after line ");
    out.put_number(line);
    out.put(b"\n");
}

// Nothing was run, and nothing saved: there is no image to go on from, or no place for a new one.
fn unsaved() -> Saved
    ensures { result ≡ record { saved = false; ran = None } }
{
    Saved {
        saved: false,
        ran: None,
    }
}

// Puts an image in plain words, with a line more where every item of it is 0.
fn put_shown(out: &mut Line, loaded: Loaded)
    ensures { PutsIfRoom (shown_text (loaded_says loaded.read (Some loaded))) out.old out.new }
{
    plain::put(out, loaded.state);
    if loaded.blank {
        out.put(b"every item of this image is 0, as a lost write leaves it\n");
    }
}
