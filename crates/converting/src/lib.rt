// Converting an image from one form to the other (request K6), into a lent buffer. It is held to what loading takes, and no controller is handed
// out. The rule is specs/Converting.antt; what it promises is proofs/Exact.antt (which number is given, exactly) and proofs/Laws.antt (there and
// back, and that both forms load as the same controller).
#![tactic(auto)]

ghost use Rattle.std.specs.Prelude.{◌≡◌};
ghost use Rattle.common.specs.Lists.{some};
ghost use Rattle.refusals.specs.Answers.{code_of};
ghost use Rattle.voter.specs.Counts.{count_runs};
ghost use Rattle.converting.specs.Converting.{to_new_of, to_old_of};

use forms::SENSORS;
use refusals::Refusal;
use voter::Voter;

// Converts an image to the new form. Refused it is by 8 where the buffer is shorter than that, by 10 or 11, and the buffer stays as it was.
pub fn to_new(image: &[u8], out: &mut [u8]) -> Result<(), Refusal>
    ensures { (code_of result, out.new) ≡ to_new_of image.now out.old }
{
    if out.len() < forms::NEW {
        return Err(Refusal::Room);
    }
    image::load(image, 0)?;
    forms::put_new(out, image);
    Ok(())
}

// Converts an image to the old form. Refused it is by 8, 10 or 11 likewise, or by 12 where some count is not 0, and the buffer stays as it was.
pub fn to_old(image: &[u8], out: &mut [u8]) -> Result<(), Refusal>
    ensures { (code_of result, out.new) ≡ to_old_of image.now out.old }
{
    if out.len() < forms::OLD {
        return Err(Refusal::Room);
    }
    let state = image::load(image, 0)?;
    if some_count_runs(state.voters) {
        return Err(Refusal::OldForm);
    }
    forms::put_old(out, image);
    Ok(())
}

// Whether some count is not 0.
fn some_count_runs(voters: [Voter; SENSORS]) -> bool
    ensures { result ≡ some count_runs voters }
{
    voters.iter().any(|v| sensors::count_runs(*v))
}
