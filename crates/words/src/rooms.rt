// Zeros for what a program reads or writes.
ghost use Rattle.std.specs.Prelude.{◌≡◌, length, replicate};

// Room for any path, or for a text of a few lines.
pub const SMALL: usize = 4096;

// Room for what a loop writes in one step.
pub const LARGE: usize = 65536;

// So many zeros.
pub fn zeros<const N: usize>() -> [u8; N]
    ensures long { N ≡ length result }
    ensures zeros { result ≡ replicate N 0 }
{
    [0; N]
}
