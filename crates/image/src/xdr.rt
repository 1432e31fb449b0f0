// An item of RFC 4506 in a slice of bytes (specs/Xdr.antt).
ghost use Rattle.std.specs.Prelude.{◌≡◌, ◌+◌, ◌*◌, ◌≤◌, length, take, drop};
ghost use Rattle.texts.specs.Lines.{PutsIfRoom};
ghost use Rattle.image.specs.Xdr.{four_bytes, bytes_of, items_in};
ghost use Rattle.image.specs.Items.{item_at};

use texts::Line;

// An item has so many bytes.
pub(crate) const ITEM: usize = 4;

// Item k of an image, counted from 0.
pub(crate) fn item(image: &[u8], k: usize) -> u32
    requires { 4 * k + 4 ≤ length image.now }
    ensures { result ≡ item_at (items_in image.now) k }
{
    let at = ITEM * k;
    u32::from_be_bytes([image[at], image[at + 1], image[at + 2], image[at + 3]])
}

// So many items of an image, from `at` on.
pub(crate) fn items<const N: usize>(image: &[u8], at: usize) -> [u32; N]
    requires { 4 * (at + N) ≤ length image.now }
    ensures { result ≡ take N (drop at (items_in image.now)) }
{
    let mut items = [0; N];
    for (k, place) in items.iter_mut().enumerate() {
        *place = item(image, at + k);
    }
    items
}

// Puts items into a line, one after the other.
pub(crate) fn put_items(line: &mut Line, items: &[u32])
    ensures { PutsIfRoom (bytes_of items.now) line.old line.new }
{
    for item in items {
        put_item(line, *item);
    }
}

// Puts an item.
fn put_item(line: &mut Line, item: u32)
    ensures { PutsIfRoom (four_bytes item) line.old line.new }
{
    line.put(&item.to_be_bytes());
}
