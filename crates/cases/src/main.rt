// Runs stored cases and compares what is written with what is stored, byte for byte. The arguments are groups of cases, each behind
// the word that says what is compared: rows:, dumps: (of traces), values: (of dumps), broken: (the values before the 9 of what is no
// dump), images: (that traces leave), onward: (rows from an image), words: (of images), forms: (of images) and table: (on the wall). A case is the name of
// its files without their endings. A line is written for each case that differs, or whose rows or values have a refusal that
// is not stored or lack one that is, and for each group. Behind all groups every word of the programs is run.
#![tactic(auto)]

mod conversions;
mod files;
mod images;
mod runs;
mod trial;
mod values;

use refusals::Refusal;
use std::io::Write;
use words::arguments;
use words::rooms::{SMALL, zeros};

// What the cases of a group are, by its word.
#[derive(Clone, Copy)]
enum Kind {
    Rows,
    Dumps,
    Values,
    Broken,
    Images,
    Onward,
    Words,
    Forms,
    Table,
    // A word that says none of these.
    Unknown,
}

impl Kind {
    // What a word says that ends in a colon, by its first letter. Any other begins no group.
    fn of(word: &[u8]) -> Option<Kind> {
        match word {
            [b'r', .., b':'] => Some(Kind::Rows),
            [b'd', .., b':'] => Some(Kind::Dumps),
            [b'v', .., b':'] => Some(Kind::Values),
            [b'b', .., b':'] => Some(Kind::Broken),
            [b'i', .., b':'] => Some(Kind::Images),
            [b'o', .., b':'] => Some(Kind::Onward),
            [b'w', .., b':'] => Some(Kind::Words),
            [b'f', .., b':'] => Some(Kind::Forms),
            [b't', .., b':'] => Some(Kind::Table),
            [.., b':'] => Some(Kind::Unknown),
            _ => None,
        }
    }
}

// A group under way: what its cases are, the argument that has its word, and how many of them were as stored.
#[derive(Clone, Copy)]
struct Group {
    kind: Kind,
    head: usize,
    same: u64,
}

fn main(rt: HostRuntime) {
    let mut group = None;
    for i in 1..arguments::count(&rt, usize::MAX) {
        group = take(rt, group, i);
    }
    total(rt, group);
    trial::all(rt);
}

// Takes an argument: the name of a case, or the word of the next group. (A buffer and a count: there is no heap.)
fn take(rt: HostRuntime, group: Option<Group>, i: usize) -> Option<Group> {
    let mut room = zeros::<SMALL>();
    let n = arguments::word(&rt, i, &mut room);
    let word = &room[..n];
    if let Some(kind) = Kind::of(word) {
        total(rt, group);
        return Some(Group {
            kind,
            head: i,
            same: 0,
        });
    }
    take_case(rt, group, word)
}

// Runs a case, and counts it if it is as stored; of any other it says that it differs.
fn take_case(rt: HostRuntime, group: Option<Group>, name: &[u8]) -> Option<Group> {
    match group {
        Some(group) if case(rt, group.kind, name) => Some(Group {
            same: group.same.wrapping_add(1),
            ..group
        }),
        _ => {
            put(rt, name);
            put(rt, b" DIFFERS\n");
            group
        }
    }
}

// Runs a case, and answers whether it was as stored.
fn case(rt: HostRuntime, kind: Kind, name: &[u8]) -> bool {
    match kind {
        Kind::Rows => runs::rows(rt, name),
        Kind::Dumps => runs::dump(rt, name),
        Kind::Values => read_back(rt, name, None),
        Kind::Broken => read_back(rt, name, Some(Refusal::Dump)),
        Kind::Images => runs::image(rt, name),
        Kind::Onward => runs::onward(rt, name),
        Kind::Words => images::case(rt, name),
        Kind::Forms => conversions::case(rt, name),
        Kind::Table => runs::table(rt, name),
        Kind::Unknown => false,
    }
}

// A dump and its values, which ends in this refusal, if in any: the whole run, and moment by moment.
fn read_back(rt: HostRuntime, name: &[u8], refusal: Option<Refusal>) -> bool {
    runs::sheet(rt, name, refusal) & values::case(rt, name, refusal)
}

// Says how many cases of a group were as stored.
fn total(rt: HostRuntime, group: Option<Group>) {
    let Some(group) = group else {
        return;
    };
    let mut room = zeros::<SMALL>();
    let n = arguments::word(&rt, group.head, &mut room);
    put(rt, &room[..n]);
    put(rt, b" ");
    let _ = rt.print(group.same);
    put(rt, b" as stored\n");
}

// Puts a text out.
fn put(rt: HostRuntime, text: &[u8]) {
    let _ = rt.stdout().write_all(text);
}
