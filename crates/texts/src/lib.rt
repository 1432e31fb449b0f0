// Puts pieces of text and numbers into a lent line, one after the other: what every writer of a row or a dump stands on.
// The rule is specs/Puts.antt, and of a `Line` specs/Lines.antt; a number is written as specs/Decimal.antt of `common` says.
#![tactic(auto)]

ghost use Rattle.std.specs.Prelude.{◌≡◌, ◌+◌, ◌≤◌, ◌<◌, leb, length, take};
ghost use Rattle.common.specs.Bits.{bit};
ghost use Rattle.common.specs.Decimal.{decimal, digit0};
ghost use Rattle.texts.specs.Puts.{Put, put_of};
ghost use Rattle.texts.specs.Lines.{Puts};

// A lent line, and the place in it where the next piece goes.
#[derive(Drop)]
pub struct Line<'a> {
    pub bytes: &'a mut [u8],
    pub at: usize,
}

impl<'a> Line<'a> {
    // A lent line, to be written from its front.
    pub fn new(bytes: &'a mut [u8]) -> Self
        ensures { result ≡ record { bytes = bytes.entry; at = 0 } }
    {
        Line { bytes, at: 0 }
    }

    // Puts a piece of text, if there is room for all of it.
    pub fn put(&mut self, piece: &[u8])
        ensures { Puts piece.now self.old self.new }
    {
        self.at = put(self.bytes, self.at, piece);
    }

    // The same for a number.
    pub fn put_number(&mut self, n: u64)
        ensures { Puts (decimal n) self.old self.new }
    {
        self.at = put_number(self.bytes, self.at, n);
    }

    // Whether so many bytes have room.
    pub fn has_room(&self, size: usize) -> bool
        ensures { result ≡ leb (self.now.at + size) (length self.now.bytes.now) }
    {
        let all = self.bytes.len();
        self.at <= all && size <= all - self.at
    }

    // What stands in front of the place.
    pub fn text(&self) -> &[u8]
        ensures { result.now ≡ take self.now.at self.now.bytes.now }
    {
        let end = self.at.min(self.bytes.len());
        &self.bytes[..end]
    }
}

// The byte of a value: 1 for on, 0 for off.
pub fn on_off(on: bool) -> u8
    ensures { result ≡ digit0 + bit on }
{
    if on { b'1' } else { b'0' }
}

// Puts a piece of text into a line: the place after it, or the same place where there is no room for it. (`Line::put` hands its two fields over
// here: a proof knows more of a slice that is lent by itself.)
pub fn put(line: &mut [u8], at: usize, piece: &[u8]) -> usize
    ensures { (result, line.new) ≡ put_of line.old at piece.now }
{
    let size = line.len();
    if size < at {
        return at;
    }
    if size - at < piece.len() {
        return at;
    }
    at + spans::copy(piece, &mut line[at..])
}

// The same for a number.
pub fn put_number(line: &mut [u8], at: usize, n: u64) -> usize
    ensures { (result, line.new) ≡ put_of line.old at (decimal n) }
{
    let digits = width(n);
    let size = line.len();
    if size < at {
        return at;
    }
    if size - at < digits {
        return at;
    }
    number_all(line, at, n, digits)
}

// The byte of a digit.
fn digit(d: u64) -> u8
    requires { d < 10 }
    ensures { result ≡ digit0 + d }
{
    b'0' + (d as u8)
}

// How many digits a number has. (What goes down is the number; the count is the answer.)
fn width(n: u64) -> usize
    ensures { result ≡ length (decimal n) }
{
    let mut digits = 1;
    let mut rest = n;
    while 10 <= rest {
        rest = rest / 10;
        digits += 1;
    }
    digits
}

// Puts a number of this width, its last digit first, where there is room for it. (The loop ends by the number: a `for` over the places would
// have to say besides that nothing is left at the first.)
fn number_all(line: &mut [u8], at: usize, n: u64, digits: usize) -> usize
    requires { (digits ≡ length (decimal n)) × (at + digits ≤ length line.old) }
    ensures { Put line.old at (decimal n) line.new result }
{
    let next = at + digits;
    let mut i = next;
    let mut rest = n;
    while 10 <= rest {
        i -= 1;
        line[i] = digit(rest % 10);
        rest = rest / 10;
    }
    line[at] = digit(rest);
    next
}
