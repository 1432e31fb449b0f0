// Cutting the input into rows at CRLF, as it comes, through a line buffer: the program lends one of 512 bytes.
// The rule is in specs/: Rows.antt has the plain split of all bytes, Cuts.antt what a part of them gives.
// However the input is cut into parts, the rows are those of the plain split: proofs/Law.antt has it for each answer,
// proofs/Parts.antt for a whole run.
#![tactic(auto)]

ghost use Rattle.std.specs.Prelude.{◌≡◌, ◌+◌, ◌≤◌, ◌∷◌, length, drop};
ghost use Rattle.spans.specs.Bytes.{index_of, slice};
ghost use Rattle.common.specs.Ascii.{cr};
ghost use Rattle.lines.specs.Cuts.{cut_from, cut_of, last_of};

const CR: u8 = 13;

const LF: u8 = 10;

// What taking in a part gives. (Three outcomes, and none an error: what a row comes to is told by the crate above.)
#[derive(Clone, Copy)]
pub enum Taken {
    // The row is whole: the first `len` bytes of the line. It ends in front of byte `used` of the part.
    Row { used: usize, len: usize },
    // The part is used up; the row has `len` bytes so far, and a CR is held or not.
    More { len: usize, cr: bool },
    // The row is longer than the line.
    Over,
}

// What the end of the input gives. (Three outcomes too.)
#[derive(Clone, Copy)]
pub enum Final {
    // No row is under way.
    Nothing,
    // The last row: the first `len` bytes of the line.
    Last { len: usize },
    // The last row is longer than the line.
    Wider,
}

// Takes the bytes of `part` from `from` on into `line`, behind its first `len` bytes and a held CR: up to the CRLF that
// ends the row, the part's end, or the byte that makes the row longer than the line. (`len` and `cr` stand apart, here and in `reading::Run`,
// as in the rules `cut_of` and `last_of` and in all theorems on them.)
#[tactic(auto, unfolding(crate::specs::Cuts::cut_of))]
pub fn cut(part: &[u8], from: usize, line: &mut [u8], len: usize, cr: bool) -> Taken
    ensures { (result, line.new) ≡ cut_of part.now from line.old len cr }
{
    let n = len.min(line.len());
    if cr {
        return follow(part, from, line, n);
    }
    fill(part, from, line, n)
}

// The end of the input: what the first `len` bytes of `line` and a held CR are as a last row.
#[tactic(auto, unfolding(crate::specs::Cuts::last_of, crate::specs::Cuts::last_from))]
pub fn last(line: &mut [u8], len: usize, cr: bool) -> Final
    ensures { (result, line.new) ≡ last_of line.old len cr }
{
    let n = len.min(line.len());
    if !cr {
        return if n == 0 {
            Final::Nothing
        } else {
            Final::Last { len: n }
        };
    }
    if n == line.len() {
        return Final::Wider;
    }
    line[n] = CR;
    Final::Last { len: n + 1 }
}

// The place of the next CR in front of `to`, or `to`. Every byte of every row comes by here: four bytes a turn, for one a turn costs a row of
// 85 bytes some 230 instructions more, of some 4,000 (docs/BENCH.md).
#[tactic(auto, using(crate::proofs::Steps::search_on))]
fn next_cr(part: &[u8], from: usize, to: usize) -> usize
    requires from_le_to { from ≤ to }
    requires to_in_bounds { to ≤ length part.now }
    ensures value { result ≡ from + index_of cr (slice from to part.now) }
    ensures upper_bound { result ≤ to }
{
    let mut i = from;
    while 4 <= to - i {
        if part[i] == CR {
            return i;
        }
        if part[i + 1] == CR {
            return i + 1;
        }
        if part[i + 2] == CR {
            return i + 2;
        }
        if part[i + 3] == CR {
            return i + 3;
        }
        i += 4;
    }
    spans::find(part, i, to, CR)
}

// Takes in the bytes in front of the next CR, as many as are there and as the line has room for, and answers how many they
// are: what was to be taken in is what is left after them.
fn until_cr(part: &[u8], from: usize, line: &mut [u8], len: usize) -> usize
    requires from_in_bounds { from ≤ length part.now }
    requires len_in_bounds { len ≤ length line.old }
    ensures result_in_bounds { from + result ≤ length part.now }
    ensures result_in_bounds_2 { len + result ≤ length line.old }
    ensures part_value { cut_from (length part.now) line.old len (drop from part.now)
        ≡ cut_from (length part.now) line.new (len + result) (drop (from + result) part.now) }
{
    let most = (part.len() - from).min(line.len() - len);
    let end = next_cr(part, from, from + most);
    spans::copy(&part[from..end], &mut line[len..])
}

// Takes in bytes where no CR is held: in each turn one byte, and those behind it up to the next CR. (So `at` goes on by more than one.)
#[tactic(auto, using(crate::proofs::Steps::byte))]
fn fill(part: &[u8], from: usize, line: &mut [u8], len: usize) -> Taken
    requires { len ≤ length line.old }
    ensures { (result, line.new) ≡ cut_from (length part.now) line.old len (drop from part.now) }
{
    let mut at = from;
    let mut n = len;
    while at < part.len() {
        let b = part[at];
        let next = at + 1;
        if b == CR {
            if next == part.len() {
                return Taken::More { len: n, cr: true };
            }
            if part[next] == LF {
                return Taken::Row {
                    used: next + 1,
                    len: n,
                };
            }
        }
        if n == line.len() {
            return Taken::Over;
        }
        line[n] = b;
        n += 1;
        let more = until_cr(part, next, line, n);
        n += more;
        at = next + more;
    }
    Taken::More { len: n, cr: false }
}

// Takes in bytes where a CR is held.
#[tactic(auto, using(crate::proofs::Steps::byte))]
fn follow(part: &[u8], from: usize, line: &mut [u8], len: usize) -> Taken
    requires { len ≤ length line.old }
    ensures { (result, line.new) ≡ cut_from (length part.now) line.old len (cr ∷ drop from part.now) }
{
    if part.len() <= from {
        return Taken::More { len, cr: true };
    }
    if part[from] == LF {
        return Taken::Row {
            used: from + 1,
            len,
        };
    }
    if len == line.len() {
        return Taken::Over;
    }
    line[len] = CR;
    fill(part, from, line, len + 1)
}
