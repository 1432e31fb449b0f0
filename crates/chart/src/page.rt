// The table as a page to print (SVG, A3 upright). The rule is specs/Page.antt.
// The text is put piece by piece: every function puts its piece if there is room for it, and at the top there is.
ghost use Rattle.std.specs.Prelude.{cond, [], ◌≡◌, ◌<◌};
ghost use Rattle.texts.specs.Lines.{Puts, PutsIfRoom};
ghost use Rattle.chart.specs.Differences.{places_in_the_air, is_named};
ghost use Rattle.chart.specs.Page.{
  frame_text,
  numbers_text,
  when_word,
  when_text,
  part_begin,
  next_text,
  else_text,
  place_text,
  ground_text,
  air_part,
  ground_part,
  page_text,
};

use crate::differences::{Fact, decisive, next_with, stand_at};
use crate::headings::{GROUND_TOP, ground_left, left, put_headings, top};
use crate::{differences, headings, parts};
use sequence::Place;
use table::Asked;
use texts::Line;

// There are so many places of handle, doors and gears in the air, and as many on ground.
const PLACES_IN_THE_AIR: u8 = 32;

// The first place of the ground that differs: handle up, doors CLOSED, gears EXTENDED.
const FIRST_SHOWN: u8 = 34;

// The size, the styles and the title.
const HEAD: &[u8] =
    b"<svg xmlns='http://www.w3.org/2000/svg' width='297mm' height='420mm' viewBox='0 0 2970 4200'>\n\
<title>The landing gear sequence</title>\n\
<style>\n\
@page { size: 297mm 420mm; margin: 0 }\n\
text { font-family: Helvetica, Arial, sans-serif; font-size: 50px; fill: #333 }\n\
rect { fill: #fff; stroke: #333; stroke-width: 4; rx: 12px }\n\
.title { font-size: 110px; font-weight: bold; fill: #000 }\n\
.handle { font-size: 76px; font-weight: bold; fill: #000 }\n\
.head { font-size: 50px; font-weight: bold; fill: #000 }\n\
.kind { font-size: 42px }\n\
.when { font-size: 42px; font-style: italic }\n\
.moves { font-weight: bold; fill: #00429d }\n\
.numbers { font-size: 36px; text-anchor: end; fill: #666 }\n\
.never rect { fill: #ddd; stroke: #bbb }\n\
.never text { fill: #6b6b6b }\n\
.note { font-size: 42px }\n\
.table { font-size: 36px; text-anchor: end; fill: #666 }\n\
</style>\n\
<rect width='2970' height='4200' style='stroke: none'/>\n\
<text class='title' x='120' y='160'>The landing gear sequence</text>\n\
<text x='120' y='235'>Find the handle, the row of the doors and the column of the gears: there stands what comes next.</text>\n\
<text x='120' y='295'>On ground, with handle UP and gears EXTENDED, look at the bottom instead. Bold and blue: what changes.</text>\n";

// What a reader has to know.
const TAIL: &[u8] =
    b"<text class='note' x='120' y='3967'>Grey: gears move only while the doors are OPEN, so no run comes to these places.</text>\n\
<text class='note' x='120' y='4013'>All open, all closed: all three doors are seen so. All extended, all retracted: all three gears are seen so.</text>\n\
<text class='note' x='120' y='4059'>Each sample makes at most one move, with an anomaly none. What is not named at a place makes no difference there.</text>\n\
<text class='note' x='120' y='4105'>On ground: any of the three absorbers is seen on ground. What is not shown again there is the same as above.</text>\n\
<text class='note' x='120' y='4151'>Small numbers: entries of the table that runs, 16 a place, 1,024 in all. This page is written from it.</text>\n\
</svg>\n";

// The page has so many bytes.
const LENGTH: usize = 16017;

// Puts the page into a line, if there is room for all of it.
pub fn put_page(text: &mut Line)
    ensures { Puts page_text text.old text.new }
{
    if text.has_room(LENGTH) {
        put_all(text);
    }
}

// Puts the head, the places in the air and on ground, the table's number and the notes.
fn put_all(text: &mut Line)
    ensures { PutsIfRoom page_text text.old text.new }
{
    text.put(HEAD);
    put_air(text);
    put_ground(text);
    text.put(parts::TABLE);
    text.put_number(table::table_number());
    text.put(parts::END);
    text.put(TAIL);
}

// Puts the headings of both handles, and all places in the air.
fn put_air(text: &mut Line)
    ensures { PutsIfRoom air_part text.old text.new }
{
    put_headings(text, 0);
    put_headings(text, 16);
    for k in 0..PLACES_IN_THE_AIR {
        put_place(text, k, left(k), top(k));
    }
}

// Puts the headings of the ground, and the places that differ there.
fn put_ground(text: &mut Line)
    ensures { PutsIfRoom ground_part text.old text.new }
{
    headings::put_ground(text, FIRST_SHOWN);
    for k in 0..PLACES_IN_THE_AIR {
        put_if_other(text, k);
    }
}

// Puts the place of the ground that is place k in the air, if it differs from that.
fn put_if_other(text: &mut Line, k: u8)
    requires { k < places_in_the_air }
    ensures { PutsIfRoom (ground_text k) text.old text.new }
{
    let here = PLACES_IN_THE_AIR + k;
    if differences::differs(here) {
        put_place(text, here, ground_left(k), GROUND_TOP);
    }
}

// Puts place k, so far across the page and so far down.
fn put_place(text: &mut Line, k: u8, across: u64, down: u64)
    ensures { PutsIfRoom (place_text k across down) text.old text.new }
{
    let asked = stand_at(k);
    let fact = decisive(asked);
    put_frame(text, across, down, asked.place.moving_have_open());
    put_numbers(text, k);
    put_when(text, fact);
    put_next(text, asked.place, next_with(asked, fact));
    put_else(text, asked, fact);
    text.put(parts::END_GROUP);
}

// Puts the frame of a place, grey where no reached state is there.
fn put_frame(text: &mut Line, across: u64, down: u64, possible: bool)
    ensures { PutsIfRoom (frame_text across down possible) text.old text.new }
{
    text.put(parts::GROUP);
    text.put(if possible { parts::PLACE } else { parts::NEVER });
    text.put(parts::MOVED);
    text.put_number(across);
    text.put(parts::SPACE);
    text.put_number(down);
    text.put(parts::RECT);
}

// Puts the numbers of its entries.
fn put_numbers(text: &mut Line, k: u8)
    ensures { PutsIfRoom (numbers_text k) text.old text.new }
{
    let n = 16 * (k as u64);
    text.put(parts::NUMBERS);
    text.put_number(n);
    text.put(parts::TO);
    text.put_number(n + 15);
    text.put(parts::END);
}

// The piece that says when something comes next.
fn when_word(fact: Option<Fact>) -> &'static [u8]
    ensures { result.now ≡ when_word fact }
{
    match fact {
        None => parts::ALWAYS,
        Some(Fact::AllOpen) => parts::IF_OPEN,
        Some(Fact::AllClosed) => parts::IF_CLOSED,
        Some(Fact::AllExtended) => parts::IF_EXTENDED,
        Some(Fact::AllRetracted) => parts::IF_RETRACTED,
    }
}

// Puts when something comes next.
fn put_when(text: &mut Line, fact: Option<Fact>)
    ensures { PutsIfRoom (when_text fact) text.old text.new }
{
    text.put(parts::WHEN);
    text.put(when_word(fact));
    text.put(parts::END);
}

// Puts the beginning of a line of doors or gears, by whether they stay.
fn put_begin(text: &mut Line, stays: bool, name: &[u8])
    ensures { PutsIfRoom (part_begin stays name.now) text.old text.new }
{
    text.put(parts::LINE);
    text.put(if stays { parts::KEEPS } else { parts::MOVES });
    text.put(name);
}

// Puts what comes next, or that the place stays.
fn put_next(text: &mut Line, from: Place, to: Place)
    ensures { PutsIfRoom (next_text from to) text.old text.new }
{
    if from == to {
        return text.put(parts::STAYS);
    }
    put_begin(text, from.doors == to.doors, parts::DOORS);
    text.put(names::doors_word(to.doors));
    text.put(parts::END);
    put_begin(text, from.gears == to.gears, parts::GEARS);
    text.put(names::gears_word(to.gears));
    text.put(parts::END);
}

// Puts what comes next where the fact that makes a difference is not seen; where none does, nothing.
fn put_else(text: &mut Line, asked: Asked, fact: Option<Fact>)
    ensures { PutsIfRoom (cond (is_named fact) (else_text asked) []) text.old text.new }
{
    if fact.is_some() {
        text.put(parts::ELSE);
        put_next(text, asked.place, next_with(asked, None));
        text.put(parts::END_GROUP);
    }
}
