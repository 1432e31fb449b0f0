// The floats for the drawing engine (specs/Drawn.antt).
ghost use Rattle.std.specs.Prelude.{◌≡◌};
ghost use Rattle.refusals.specs.Answers.{code_of};
ghost use Rattle.joined.specs.Drawn.{drawn_of};

use cylinder::Cylinder;
use refusals::Refusal;

// Position and rate of the six are so many floats (`floats_of_six` of specs/Drawn.antt).
const FLOATS_OF_SIX: usize = 12;

// Position and rate of the six, in front of a lent buffer; refused where it has not the room.
pub(crate) fn draw(cylinders: [Cylinder; 6], out: &mut [f32]) -> Result<(), Refusal>
    ensures { (code_of result, out.new) ≡ drawn_of cylinders out.old }
{
    if out.len() < FLOATS_OF_SIX {
        return Err(Refusal::Room);
    }
    for (i, c) in cylinders.iter().enumerate() {
        out[2 * i] = c.position;
        out[2 * i + 1] = c.rate;
    }
    Ok(())
}
