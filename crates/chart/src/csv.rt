// The table as CSV by RFC 4180: a header, and a row for each entry. The rule is specs/Csv.antt.
// The text is put piece by piece: every function puts its piece if there is room for it, and at the top there is.
ghost use Rattle.std.specs.Prelude.{◌∷◌};
ghost use Rattle.common.specs.Ascii.{comma};
ghost use Rattle.texts.specs.Lines.{Puts, PutsIfRoom};
ghost use Rattle.chart.specs.Csv.{numbered, place_fields, fact_field, asked_fields, behind, csv_row, csv_text};

use sequence::Place;
use table::{Asked, ENTRIES};
use texts::Line;

// The names of the fields.
const HEADER: &[u8] = b"entry,on_ground,\
handle,handle_number,\
doors,doors_number,gears,gears_number,\
all_open,all_closed,all_extended,all_retracted,\
next_doors,next_doors_number,next_gears,next_gears_number,\
possible\r\n";

// The text has so many bytes.
const LENGTH: usize = 66776;

// Puts the table as CSV into a line, if there is room for all of it. (page.rt has the same of another text: one function with `put_all` as a closure
// would be no plainer.)
pub fn put_table(text: &mut Line)
    ensures { Puts csv_text text.old text.new }
{
    if text.has_room(LENGTH) {
        put_all(text);
    }
}

// Puts the header and all rows.
fn put_all(text: &mut Line)
    ensures { PutsIfRoom csv_text text.old text.new }
{
    text.put(HEADER);
    for n in 0..ENTRIES {
        put_row(text, n);
    }
}

// Puts the row of an entry.
fn put_row(text: &mut Line, n: usize)
    ensures { PutsIfRoom (csv_row n) text.old text.new }
{
    let asked = Asked::numbered(n);
    text.put_number(n as u64);
    put_asked(text, asked);
    put_place(text, asked.next());
    put_fact(text, asked.place.moving_have_open());
    text.put(b"\r\n");
}

// Puts the fields of what is asked, each with the comma before it.
fn put_asked(text: &mut Line, asked: Asked)
    ensures { PutsIfRoom (behind (asked_fields asked)) text.old text.new }
{
    put_fact(text, asked.grounded);
    put_numbered(text, names::handle_word(asked.aim), asked.aim.number());
    put_place(text, asked.place);
    put_fact(text, asked.seen.opened);
    put_fact(text, asked.seen.closed);
    put_fact(text, asked.seen.extended);
    put_fact(text, asked.seen.retracted);
}

// Puts the fields of doors and gears, each with the comma before it.
fn put_place(text: &mut Line, place: Place)
    ensures { PutsIfRoom (behind (place_fields place)) text.old text.new }
{
    put_numbered(text, names::doors_word(place.doors), place.doors.number());
    put_numbered(text, names::gears_word(place.gears), place.gears.number());
}

// Puts the fields of a word and its number, each with the comma before it.
fn put_numbered(text: &mut Line, word: &[u8], number: u32)
    ensures { PutsIfRoom (behind (numbered word.now number)) text.old text.new }
{
    text.put(b",");
    text.put(word);
    text.put(b",");
    text.put_number(number as u64);
}

// Puts the field of a fact, with the comma before it. (`sheets`, which knows nothing of this crate, has a line like it.)
fn put_fact(text: &mut Line, fact: bool)
    ensures { PutsIfRoom (comma ∷ fact_field fact) text.old text.new }
{
    text.put(&[b',', texts::on_off(fact)]);
}
