// Whether an image of the new form has its length, and every item is in its range (specs/Items.antt, `tops` and `within`).
ghost use Rattle.std.specs.Prelude.{◌≡◌, ◌<◌, length};
ghost use Rattle.forms.specs.Forms.{old_size};
ghost use Rattle.image.specs.Xdr.{items_in};
ghost use Rattle.image.specs.Items.{item_count, tops, item_at};
ghost use Rattle.image.specs.Images.{size, fits};
ghost use Rattle.image.specs.Faults.{first_out, IsPlace};

use crate::{CORE, FIRST_ORDER, ITEMS, SIZE, xdr};
use orders::OLDEST;

// The most that each item of the core may be: per order on and age, then handle age, doors, gears, cause.
const CORE_TOPS: [u32; CORE] = [
    1, OLDEST, 1, OLDEST, 1, OLDEST, 1, OLDEST, 1, OLDEST, OLDEST, 3, 3, 13,
];

// Whether the length is right, and every item is in its range.
pub(crate) fn fits(new: &[u8]) -> bool
    requires { length new.now ≡ old_size → ⊥ }
    ensures { result ≡ fits new.now }
{
    new.len() == SIZE && first_out(new).is_none()
}

// The place of the first item that is out of its range. (Its place is what is sought, and the item stands at it: so no iterator over items.)
pub(crate) fn first_out(new: &[u8]) -> Option<usize>
    requires { length new.now ≡ size }
    ensures { IsPlace item_count (first_out tops (items_in new.now)) result }
{
    for k in 0..ITEMS {
        if top(k) < xdr::item(new, k) {
            return Some(k);
        }
    }
    None
}

// The most that item k may be: any stamp, a sensor's tops over and over, then those of the core.
fn top(k: usize) -> u32
    requires { k < item_count }
    ensures { result ≡ item_at tops k }
{
    if k == 0 {
        return u32::MAX;
    }
    if k < FIRST_ORDER {
        return sensors::tops()[(k - 1) % sensors::ITEMS];
    }
    CORE_TOPS[k - FIRST_ORDER]
}
