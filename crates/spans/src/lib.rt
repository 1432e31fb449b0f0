// Copying bytes into the front of a slice, and searching a part of a slice for a byte.
#![tactic(auto)]

ghost use Rattle.std.specs.Prelude.{◌≡◌, ◌+◌, ◌≤◌, ◌++◌, length, take, drop};
ghost use Rattle.spans.specs.Bytes.{slice, index_of};

// Copies `src` to the front of `dst` and returns its length. The bytes past it stay.
pub fn copy(src: &[u8], dst: &mut [u8]) -> usize
    requires { length src.now ≤ length dst.old }
    ensures count { result ≡ length src.now }
    ensures after { dst.new ≡ take (length src.now) src.now ++ drop (length src.now) dst.old }
{
    let n = src.len();
    dst[..n].copy_from_slice(src);
    n
}

// The place of the first `byte` from `from` up to `to`, or `to` where there is none. (No Option: `index_of` has it so, and the callers go on from
// the place.)
pub fn find(s: &[u8], from: usize, to: usize, byte: u8) -> usize
    requires ends { from ≤ to }
    requires within { to ≤ length s.now }
    ensures place { result ≡ from + index_of byte (slice from to s.now) }
    ensures in_range { result ≤ to }
{
    match s[from..to].iter().position(|b| *b == byte) {
        Some(i) => from + i,
        None => to,
    }
}
