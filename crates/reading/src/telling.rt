// A run by parts that writes something of each row: what is written is the teller's, and all else is here. Its rule is specs/Runs.antt and
// specs/Fills.antt, whatever the teller.

ghost use Rattle.std.specs.Prelude.{◌≡◌, ◌-◌, ◌≤◌, ◌&&◌, ℕ, [], not, leb, ltb, length};
ghost use Rattle.controller.specs.declared.State.{State};
ghost use Rattle.reading.specs.declared.Came.TheVariants.{Nothing};
ghost use Rattle.reading.specs.Rows.{has_ended};
ghost use Rattle.reading.specs.Runs.{Teller, take_by, finish_by};
ghost use Rattle.reading.specs.Fills.{in_front, fill_by};
ghost use Rattle.reading.specs.Called.{called_says};

use crate::{Came, LINE, Run};
use controller::State;
use refusals::Refusal;

// What is made of a row.
pub trait Tell {
    // What is carried on from row to row.
    type Carried: Copy;

    // The most bytes that are written of a row.
    const ROOM: usize;

    ghost ROOM: { ℕ };

    ghost told: { Teller Self.Carried };

    // Writes what a row came to, and answers what is carried on and how many bytes that is.
    fn tell(
        carried: Self::Carried,
        before: State,
        came: Came,
        after: State,
        out: &mut [u8],
    ) -> (Self::Carried, usize)
        requires { ROOM ≤ length out.old }
        ensures { (result, out.new) ≡ in_front (told carried before came after) out.old };

    // Of what comes to nothing nothing is written.
    ghost quiet: { (a : Self.Carried) (before after : State) → told a before Nothing after ≡ (a, []) };
}

// What a call gives: the run and what is carried on after it, how much of the part is used, and how many bytes were written. (`lesson`, `dumping`,
// `sheets` and `running` have a struct each beside it: one for all would call a run, a dump, a sheet and a task by one name, and each has its
// own definition for its rule, `took_says` or `filled_says`.)
#[derive(Clone, Copy)]
pub struct Took<A> {
    pub run: Run,
    pub carried: A,
    pub used: usize,
    pub written: usize,
}

// Takes in a part of the input up to the end of its first row, or all of it, through a line buffer of 512 bytes, and writes what the row
// gives. The output buffer must have the teller's room; the rest of the part is for the next call.
#[tactic(auto, using(crate::proofs::Lending::used_within), unfolding(crate::specs::Runs::take_by))]
pub fn take<T: Tell>(
    carried: T::Carried,
    run: Run,
    part: &[u8],
    line: &mut [u8],
    out: &mut [u8],
) -> Result<Took<T::Carried>, Refusal>
    ensures out_after { (called_says carried run result, line.new, out.new) ≡ take_by T.told T.ROOM carried run part.now line.old out.old }
    ensures used_in_bounds { ((called_says carried run result).used ≤ length part.now) × ((called_says carried run result).written ≤ length out.old) }
{
    if out.len() < T::ROOM {
        return Err(Refusal::Room);
    }
    let next = run.take(part, line)?;
    let (carried, written) = T::tell(carried, run.state(), next.came, next.run.state(), out);
    Ok(Took {
        run: next.run,
        carried,
        used: next.used,
        written,
    })
}

// The end of the input: what is still in the line buffer is the last row. The output buffer must have the teller's room.
#[tactic(auto, unfolding(crate::specs::Runs::finish_by))]
pub fn finish<T: Tell>(
    carried: T::Carried,
    run: Run,
    line: &mut [u8],
    out: &mut [u8],
) -> Result<Took<T::Carried>, Refusal>
    ensures out_after { (called_says carried run result, line.new, out.new) ≡ finish_by T.told T.ROOM carried run line.old out.old }
    ensures written_in_bounds { (called_says carried run result).written ≤ length out.old }
{
    if out.len() < T::ROOM {
        return Err(Refusal::Room);
    }
    let next = run.finish(line)?;
    let (carried, written) = T::tell(carried, run.state(), next.came, next.run.state(), out);
    Ok(Took {
        run: next.run,
        carried,
        used: next.used,
        written,
    })
}

// Takes in a part of the input row by row, and writes what the rows give, each text behind the one before it, until the part is used up, a
// refusal of a row has ended the reading, or less than the teller's room is left in the output buffer. What is left of the part is for the next
// call.
pub fn fill<T: Tell>(
    carried: T::Carried,
    run: Run,
    part: &[u8],
    line: &mut [u8],
    out: &mut [u8],
) -> Result<Took<T::Carried>, Refusal>
    ensures out_after { (called_says carried run result, line.new, out.new) ≡ fill_by T.told T.ROOM carried run part.now line.old out.old }
    ensures used_in_bounds { ((called_says carried run result).used ≤ length part.now) × ((called_says carried run result).written ≤ length out.old) }
{
    if out.len() < T::ROOM || line.len() != LINE {
        return Err(Refusal::Room);
    }
    let mut took = Took {
        run,
        carried,
        used: 0,
        written: 0,
    };
    // (Each turn uses as much of the part as its row has.)
    while took.goes_on(T::ROOM, part.len(), out.len()) {
        let row = take::<T>(
            took.carried,
            took.run,
            &part[took.used..],
            line,
            &mut out[took.written..],
        )?;
        took = Took {
            run: row.run,
            carried: row.carried,
            used: took.used + row.used,
            written: took.written + row.written,
        };
    }
    Ok(took)
}

impl<A: Copy> Took<A> {
    // Whether there is a further row to take in: some of the part is left, there is room, and no refusal has ended the reading.
    fn goes_on(self, room: usize, size: usize, bytes: usize) -> bool
        requires { self.written ≤ bytes }
        ensures { result ≡ (ltb self.used size && leb room (bytes - self.written) && not (has_ended self.run.reading.phase)) }
    {
        self.used < size && room <= bytes - self.written && !self.run.phase().has_ended()
    }
}
