// Where the places stand on the page, and the headings above and before them. The rule is specs/Headings.antt.
// The text is put piece by piece: every function puts its piece if there is room for it.
ghost use Rattle.std.specs.Prelude.{◌++◌, ◌≡◌, ◌≤◌};
ghost use Rattle.std.specs.List.{flat_map};
ghost use Rattle.names.specs.Words.{handle_word};
ghost use Rattle.texts.specs.Lines.{PutsIfRoom};
ghost use Rattle.chart.specs.Headings.{
  left,
  top,
  capitals,
  aimed,
  heading_begin,
  handle_text,
  aim_text,
  column_text,
  row_text,
  headings_text,
  ground_left,
  ground_handle_text,
  acts_text,
  ground_column_text,
  ground_row_text,
  ground_headings_text,
};
ghost use Rattle.chart.specs.Parts.{end_of_text_piece};

use crate::differences::stand_at;
use crate::parts;
use sequence::{Aim, Gears};
use texts::Line;

// How far down the page the places of the ground stand.
pub(crate) const GROUND_TOP: u64 = 3601;

// How far across the page place k stands.
pub(crate) fn left(k: u8) -> u64
    ensures { result ≡ left k }
{
    420 + 610 * ((k % 4) as u64)
}

// How far down.
pub(crate) fn top(k: u8) -> u64
    ensures { result ≡ top k }
{
    525 + 335 * ((k / 4 % 4) as u64) + 1538 * ((k / 16) as u64)
}

// How far across the page the places of the ground stand.
pub(crate) fn ground_left(k: u8) -> u64
    ensures { result ≡ ground_left k }
{
    left(k / 4)
}

// Puts the headings of the sixteen places from k on: their handle, their four columns, their four rows.
pub(crate) fn put_headings(text: &mut Line, k: u8)
    requires { k ≤ 16 }
    ensures { PutsIfRoom (headings_text k) text.old text.new }
{
    put_handle(text, k);
    put_aim(text, k);
    for i in 0..4 {
        put_column(text, k + i);
    }
    for i in 0..4 {
        put_row(text, k + 4 * i);
    }
}

// Puts the headings of the four places of the ground from k on that differ in the doors: their handle, their four columns, their row. The
// last of them, k + 12, is one of the 64.
pub(crate) fn put_ground(text: &mut Line, k: u8)
    requires { k ≤ 51 }
    ensures { PutsIfRoom (ground_headings_text k) text.old text.new }
{
    put_ground_handle(text, k);
    put_acts(text, k);
    for i in 0..4 {
        put_ground_column(text, k + 4 * i);
    }
    put_ground_row(text, k);
}

// Puts the handle of place k.
fn put_handle(text: &mut Line, k: u8)
    ensures { PutsIfRoom (handle_text k) text.old text.new }
{
    let words = [parts::HANDLE, capitals(stand_at(k).aim)];
    put_heading(text, parts::HANDLE_CLASS, 120, top(k) - 125, &words);
}

// Puts what it aims at.
fn put_aim(text: &mut Line, k: u8)
    ensures { PutsIfRoom (aim_text k) text.old text.new }
{
    let words = [parts::AIMS_AT, names::gears_word(aimed(stand_at(k).aim))];
    put_heading(text, parts::AIM_CLASS, 760, top(k) - 125, &words);
}

// Puts the gears of place k.
fn put_column(text: &mut Line, k: u8)
    ensures { PutsIfRoom (column_text k) text.old text.new }
{
    let words = [parts::COLUMN, names::gears_word(stand_at(k).place.gears)];
    put_heading(text, parts::HEAD_CLASS, left(k) + 28, top(k) - 30, &words);
}

// Puts the doors of place k.
fn put_row(text: &mut Line, k: u8)
    ensures { PutsIfRoom (row_text k) text.old text.new }
{
    let word = names::doors_word(stand_at(k).place.doors);
    put_heading(text, parts::KIND_CLASS, 120, top(k) + 135, &[parts::ROW]);
    put_heading(text, parts::HEAD_CLASS, 120, top(k) + 200, &[word]);
}

// Puts the handle of place k on ground.
fn put_ground_handle(text: &mut Line, k: u8)
    ensures { PutsIfRoom (ground_handle_text k) text.old text.new }
{
    let words = [parts::HANDLE, capitals(stand_at(k).aim), parts::ON_GROUND];
    put_heading(text, parts::HANDLE_CLASS, 120, GROUND_TOP - 125, &words);
}

// Puts what the sequence does there with the gears of place k.
fn put_acts(text: &mut Line, k: u8)
    ensures { PutsIfRoom (acts_text k) text.old text.new }
{
    let words = [
        parts::ACTS,
        names::gears_word(stand_at(k).place.gears),
        parts::AT_AIM,
    ];
    put_heading(text, parts::AIM_CLASS, 1150, GROUND_TOP - 125, &words);
}

// Puts the doors of place k, above it.
fn put_ground_column(text: &mut Line, k: u8)
    ensures { PutsIfRoom (ground_column_text k) text.old text.new }
{
    let words = [
        parts::GROUND_COLUMN,
        names::doors_word(stand_at(k).place.doors),
    ];
    put_heading(
        text,
        parts::HEAD_CLASS,
        ground_left(k) + 28,
        GROUND_TOP - 30,
        &words,
    );
}

// Puts the gears of place k, before its row.
fn put_ground_row(text: &mut Line, k: u8)
    ensures { PutsIfRoom (ground_row_text k) text.old text.new }
{
    let word = names::gears_word(stand_at(k).place.gears);
    put_heading(
        text,
        parts::KIND_CLASS,
        92,
        GROUND_TOP + 135,
        &[parts::GROUND_ROW],
    );
    put_heading(text, parts::HEAD_CLASS, 92, GROUND_TOP + 200, &[word]);
}

// Puts a heading: its class, where it stands, and its words.
fn put_heading(text: &mut Line, class: &[u8], across: u64, down: u64, words: &[&[u8]])
    ensures { PutsIfRoom (heading_begin class.now across down ++ flat_map (λ word. word.now) words.now ++ end_of_text_piece) text.old text.new }
{
    put_begin(text, class, across, down);
    for word in words {
        text.put(word);
    }
    text.put(parts::END);
}

// Puts the beginning of a heading: its class, and where it stands.
fn put_begin(text: &mut Line, class: &[u8], across: u64, down: u64)
    ensures { PutsIfRoom (heading_begin class.now across down) text.old text.new }
{
    text.put(parts::LINE);
    text.put(class);
    text.put(parts::ACROSS);
    text.put_number(across);
    text.put(parts::DOWN);
    text.put_number(down);
    text.put(parts::WORDS);
}

// The handle's word in capitals.
fn capitals(aim: Aim) -> &'static [u8]
    ensures { result.now ≡ capitals (handle_word aim) }
{
    match aim {
        Aim::ToRetracted => b"UP",
        Aim::ToExtended => b"DOWN",
    }
}

// The gears that are at an aim.
fn aimed(aim: Aim) -> Gears
    ensures { result ≡ aimed aim }
{
    match aim {
        Aim::ToRetracted => Gears::Retracted,
        Aim::ToExtended => Gears::Extended,
    }
}
