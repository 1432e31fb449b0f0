// The image of a controller (requests K3 and K6): items of RFC 4506, four bytes each, by which a lesson goes on at another laptop. Saving
// writes the new form; of the old form, which has no odd channels and counts, an image is widened before it is looked at (`forms`).
// The rule is specs/: Xdr.antt (an item), Items.antt (the items of a controller, their ranges, and the controller that items are of),
// Rules.antt (what an image must keep to), Images.antt (saving, loading and the refusals), Faults.antt (what is wrong with an image that
// is refused). specs/Conditions.antt says condition by condition which images are taken, and proofs/Exact.antt that it is so exactly.
#![tactic(auto)]

ghost use Rattle.std.specs.Prelude.{◌≡◌};
ghost use Rattle.refusals.specs.Answers.{code_of};
ghost use Rattle.forms.specs.Forms.{in_new_form};
ghost use Rattle.controller.specs.declared.State.{State};
ghost use Rattle.controller.specs.Answers.{answer_says};
ghost use Rattle.image.specs.Xdr.{items_in};
ghost use Rattle.image.specs.Items.{item_at};
ghost use Rattle.image.specs.Images.{save_of, load_of};
ghost use Rattle.image.specs.Faults.{fault_of, is_blank};

mod items;
mod ranges;
mod rules;
mod xdr;

use controller::State;
use refusals::Refusal;

// An image of the new form has so many bytes: 348.
pub const SIZE: usize = xdr::ITEM * ITEMS;

// So many items (`item_count` of specs/Items.antt).
const ITEMS: usize = FIRST_ORDER + CORE;

// The place of the first order's items (`first_order`): before them stand the last stamp and the sensors' items.
const FIRST_ORDER: usize = 1 + sensors::ITEMS * SENSORS;

// So many sensors (`sensor_count`).
const SENSORS: usize = forms::SENSORS;

// Items of the orders, on and age of five, and handle age, doors, gears, cause (`core_width`).
const CORE: usize = 14;

// What is wrong with an image that is refused.
#[derive(Clone, Copy)]
pub enum Fault {
    // It has the length of neither form.
    Length,
    // The first item that is out of its range, by its place in the new form, counted from 0.
    Item(usize),
    // The first rule that is broken, counted from 0 in the order of specs/Rules.antt.
    Rule(usize),
}

// Saves a controller into a lent buffer; refusal 8 where the buffer is shorter than an image, which is as it was then.
pub fn save(state: State, out: &mut [u8]) -> Result<(), Refusal>
    ensures { (code_of result, out.new) ≡ save_of state out.old }
{
    if out.len() < SIZE {
        return Err(Refusal::Room);
    }
    items::put_state(out, state);
    Ok(())
}

// Loads an image of either form at a new start stamp: the controller that it is of, or refusal 10 or 11. Whatever controller stood before stays.
pub fn load(image: &[u8], stamp: u32) -> Result<State, Refusal>
    ensures { (before : State) → answer_says before result ≡ load_of before image.now stamp }
{
    let mut room = [0; SIZE];
    let new = in_new_form(image, &mut room);
    if !ranges::fits(new) {
        return Err(Refusal::Range);
    }
    let state = items::state_in(new, stamp);
    if !rules::hold(state) {
        return Err(Refusal::Rule);
    }
    Ok(state)
}

// What is wrong with an image: where `load` takes it nothing is, where it answers refusal 10 the length or an item, and at 11 a rule.
pub fn find_fault(image: &[u8]) -> Option<Fault>
    ensures { result ≡ fault_of image.now }
{
    let mut room = [0; SIZE];
    let new = in_new_form(image, &mut room);
    if new.len() != SIZE {
        return Some(Fault::Length);
    }
    if let Some(k) = ranges::first_out(new) {
        return Some(Fault::Item(k));
    }
    rules::first_broken(items::state_in(new, 0)).map(Fault::Rule)
}

// Whether every item is 0: what a write leaves that was lost.
pub fn is_blank(image: &[u8]) -> bool
    ensures { result ≡ is_blank image.now }
{
    for bytes in image.chunks_exact(xdr::ITEM) {
        if xdr::item(bytes, 0) != 0 {
            return false;
        }
    }
    true
}

// The last stamp that an image bears; 0 where it has not even that item.
pub fn last_stamp(image: &[u8]) -> u32
    ensures { result ≡ item_at (items_in image.now) 0 }
{
    if image.len() < xdr::ITEM {
        return 0;
    }
    xdr::item(image, 0)
}

// An image in the new form: an old one is widened into the room that is lent.
fn in_new_form<'a>(image: &'a [u8], room: &'a mut [u8; SIZE]) -> &'a [u8]
    ensures { result.now ≡ in_new_form image.now }
{
    if image.len() != forms::OLD {
        return image;
    }
    forms::put_new(room, image);
    room
}
