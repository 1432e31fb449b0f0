// A whole run of saving (request K3): the trace of a lesson in, the image of its last state out, by which the lesson goes on at
// another laptop. The rule is specs/Handing.antt, from all bytes of the trace to the bytes that are written. The trace is taken in by
// parts, as for `replay` (the crate `lesson`); proofs/Law.antt says that however it is cut, the image of the whole is written.
#![tactic(auto)]

ghost use Rattle.std.specs.Prelude.{◌≡◌};
ghost use Rattle.handing.specs.Answers.{saved_says};
ghost use Rattle.handing.specs.Handing.{last_line, save_last_of};

use image::SIZE;
use reading::Run;
use refusals::Refusal;

// Saves the last state of a run into a lent buffer, which must have room for an image, and answers how many bytes were written. Where
// row 0 has not been read there is none, and nothing is written. (That is 0 bytes and no refusal: `save_last_of`.)
#[tactic(auto, unfolding(crate::specs::Handing::save_last_of))]
pub fn save_last(run: Run, out: &mut [u8]) -> Result<usize, Refusal>
    ensures { (saved_says result, out.new) ≡ save_last_of run out.old }
{
    if !run.phase().has_started() {
        return Ok(0);
    }
    image::save(run.state(), out)?;
    Ok(SIZE)
}

// The line of the trace that the last state of a run is of: that of the last row that was answered. Where row 0 has not been read it is 0. (0 and no
// None: `last_line` has it so.)
#[tactic(auto, using(crate::proofs::Law::by_line))]
pub fn last_line(run: Run) -> u64
    ensures { result ≡ last_line run.reading.phase }
{
    let line = run.phase().line();
    if 2 < line { line - 1 } else { 0 }
}
