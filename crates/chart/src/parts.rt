// The pieces of the page that are the same at every place and heading (specs/Parts.antt).

// A place's frame.
pub(crate) const GROUP: &[u8] = b"<g class='";

pub(crate) const PLACE: &[u8] = b"place";

pub(crate) const NEVER: &[u8] = b"never";

pub(crate) const MOVED: &[u8] = b"' transform='translate(";

pub(crate) const SPACE: &[u8] = b" ";

pub(crate) const RECT: &[u8] = b")'>\n<rect width='590' height='318'/>\n";

pub(crate) const END_GROUP: &[u8] = b"</g>\n";

// The numbers of its entries.
pub(crate) const NUMBERS: &[u8] = b"<text class='numbers' x='570' y='50'>";

pub(crate) const TO: &[u8] = b" to ";

// The end of every line of text.
pub(crate) const END: &[u8] = b"</text>\n";

// When something comes next.
pub(crate) const WHEN: &[u8] = b"<text class='when' x='28' y='56'>";

pub(crate) const ALWAYS: &[u8] = b"always";

pub(crate) const IF_OPEN: &[u8] = b"if all open";

pub(crate) const IF_CLOSED: &[u8] = b"if all closed";

pub(crate) const IF_EXTENDED: &[u8] = b"if all extended";

pub(crate) const IF_RETRACTED: &[u8] = b"if all retracted";

// What comes next.
pub(crate) const LINE: &[u8] = b"<text class='";

pub(crate) const KEEPS: &[u8] = b"keeps";

pub(crate) const MOVES: &[u8] = b"moves";

pub(crate) const DOORS: &[u8] = b"' x='28' y='116'>doors ";

pub(crate) const GEARS: &[u8] = b"' x='28' y='174'>gears ";

pub(crate) const STAYS: &[u8] = b"<text x='28' y='116'>stays</text>\n";

pub(crate) const ELSE: &[u8] =
    b"<g transform='translate(0 176)'>\n<text class='when' x='28' y='56'>else</text>\n";

// Headings.
pub(crate) const HANDLE_CLASS: &[u8] = b"handle";

pub(crate) const AIM_CLASS: &[u8] = b"aim";

pub(crate) const HEAD_CLASS: &[u8] = b"head";

pub(crate) const KIND_CLASS: &[u8] = b"kind";

pub(crate) const ACROSS: &[u8] = b"' x='";

pub(crate) const DOWN: &[u8] = b"' y='";

pub(crate) const WORDS: &[u8] = b"'>";

pub(crate) const HANDLE: &[u8] = b"Handle ";

pub(crate) const AIMS_AT: &[u8] = b"aims at ";

pub(crate) const COLUMN: &[u8] = b"gears ";

pub(crate) const ROW: &[u8] = b"doors";

pub(crate) const ON_GROUND: &[u8] = b", on ground";

pub(crate) const ACTS: &[u8] = b"acts as if gears ";

pub(crate) const AT_AIM: &[u8] = b" were at the aim";

pub(crate) const GROUND_COLUMN: &[u8] = b"doors ";

pub(crate) const GROUND_ROW: &[u8] = b"gears";

// The table's number.
pub(crate) const TABLE: &[u8] = b"<text class='table' x='2840' y='4151'>table number ";
