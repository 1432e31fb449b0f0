// What the words of the programs write of stored input, by the functions that the programs call, file by file: it must be what is stored.
use crate::files;
use commands::{images, walls};
use refusals::Refusal;
use running::traces;
use words::rooms::{SMALL, zeros};

// Where what is written goes, and an image that is saved.
const OUT: [u8; 3] = *b"out";

const SAVED: [u8; 9] = *b"saved.img";

// A trace and its rows: NAME.in gives NAME.out.
pub(crate) fn rows(rt: HostRuntime, name: &[u8]) -> bool {
    let Ok(mut streams) = files::between(rt, name, b".in", &OUT) else {
        return false;
    };
    traces::replay(&mut streams).is_some() && files::same(rt, &OUT, name, b".out")
}

// A trace and its dump: NAME.in gives NAME.vcd.
pub(crate) fn dump(rt: HostRuntime, name: &[u8]) -> bool {
    let Ok(mut streams) = files::between(rt, name, b".in", &OUT) else {
        return false;
    };
    traces::waves(&mut streams).is_some() && files::same(rt, &OUT, name, b".vcd")
}

// A dump and its values: NAME.vcd gives NAME.csv, and ends in this refusal, if in any: 9 for what is no dump.
pub(crate) fn sheet(rt: HostRuntime, name: &[u8], refusal: Option<Refusal>) -> bool {
    let Ok(mut streams) = files::between(rt, name, b".vcd", &OUT) else {
        return false;
    };
    let Some(ran) = traces::sheet(&mut streams) else {
        return false;
    };
    ran.work.sheet.nine == refusal.is_some() && files::same(rt, &OUT, name, b".csv")
}

// A trace and the image of its last state: NAME.in leaves NAME.img, or none where that is empty.
pub(crate) fn image(rt: HostRuntime, name: &[u8]) -> bool {
    files::remove(rt, &SAVED);
    let Ok(mut streams) = files::between(rt, name, b".in", &OUT) else {
        return false;
    };
    let saved = images::save(&rt, &mut streams, &SAVED);
    saved.ran.is_some() && files::same(rt, &SAVED, name, b".img")
}

// A trace that goes on from an image: NAME.in and NAME.img give NAME.out.
pub(crate) fn onward(rt: HostRuntime, name: &[u8]) -> bool {
    let mut room = zeros::<SMALL>();
    let image = files::path(&mut room, name, b".img");
    let Ok(mut streams) = files::between(rt, name, b".in", &OUT) else {
        return false;
    };
    images::resume(&rt, &mut streams, image).is_some() && files::same(rt, &OUT, name, b".out")
}

// The sequence's table: NAME.csv.
pub(crate) fn table(rt: HostRuntime, name: &[u8]) -> bool {
    let Ok(mut streams) = files::onto(rt, &OUT) else {
        return false;
    };
    let shown = walls::csv(&mut streams);
    shown.well && files::same(rt, &OUT, name, b".csv")
}
