// The words that a program is given by who starts it; the first is its own name.
ghost use Rattle.std.specs.Prelude.{◌≤◌, length};

use std::env::{Env, FillError};

// How many there are, counted up to `most`.
pub fn count<S: Env>(system: &S, most: usize) -> usize
    ensures { result ≤ most }
{
    let mut room = [0u8; 1];
    for i in 0..most {
        if let Err(FillError::NotPresent) = system.arg(i, &mut room) {
            return i;
        }
    }
    most
}

// Puts one of them at the front of a buffer, and answers how many bytes it has; none where there is no such word, or no room for it.
// (`count` says how many there are; one that has no room is read as one of no bytes.)
pub fn word<S: Env>(system: &S, i: usize, into: &mut [u8]) -> usize
    ensures { result ≤ length into.new }
{
    system.arg(i, into).unwrap_or(0)
}
