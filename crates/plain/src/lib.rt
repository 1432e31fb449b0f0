// A controller in plain words (requests K3 and K6): what an image holds, item by item, for a person to read; and the items and the rules of an
// image by name (src/parts.rt). The rules are specs/Plain.antt and specs/Parts.antt. A text is put together in an array of its own, piece
// by piece, and then handed to the lent line if there is room for it.
#![tactic(auto)]

ghost use Rattle.names.specs.Words.{entry};
ghost use Rattle.texts.specs.Lines.{Puts};
ghost use Rattle.plain.specs.Plain.{plain_of};
ghost use Rattle.plain.specs.Parts.{item_names, rule_words};

mod lines;
mod parts;

use controller::State;
use texts::Line;

// Puts the controller in plain words into the line, if there is room for all of them.
pub fn put(line: &mut Line, state: State)
    ensures { Puts (plain_of state) line.old line.new }
{
    let mut room = [0u8; 2563];
    let mut text = Line::new(&mut room);
    lines::put_all(&mut text, state);
    line.put(text.text());
}

// Puts the name of item k of an image of the new form, counted from 0; past the last there is none.
pub fn put_item(line: &mut Line, k: usize)
    ensures { Puts (entry item_names k) line.old line.new }
{
    let mut room = [0u8; 38];
    let mut text = Line::new(&mut room);
    parts::put_name(&mut text, k);
    line.put(text.text());
}

// Puts rule k of an image in words, counted from 0; past the last there is none. (`put_item` with another room and another text.)
pub fn put_rule(line: &mut Line, k: usize)
    ensures { Puts (entry rule_words k) line.old line.new }
{
    let mut room = [0u8; 70];
    let mut text = Line::new(&mut room);
    parts::put_words(&mut text, k);
    line.put(text.text());
}
