// What each of the six cylinders is told in a step, and where they stand after it (specs/Drives.antt).
ghost use Rattle.std.specs.Prelude.{◌≡◌};
ghost use Rattle.refusals.specs.Answers.{says};
ghost use Rattle.joined.specs.Drives.{outward, inward, ordered, drive_by, is_bad, some_bad, moved_or, six_moved};

use crate::Given;
use cylinder::{Cylinder, Drive};
use orders::Orders;

// Whether any of the six is bad, as it is given or as it is handed in.
#[tactic(auto, using(common::proofs::Searches::some_is_any), unfolding(crate::specs::Drives::some_bad, crate::specs::Drives::is_unsound))]
pub(crate) fn some_bad(given: [Given; 6], cylinders: [Cylinder; 6]) -> bool
    ensures { result ≡ some_bad given cylinders }
{
    given.iter().any(|g| is_bad(*g)) || cylinders.iter().any(|c| !c.is_sound())
}

// All six after so many ms. (A move that is refused leaves its cylinder. By its number, since
// which orders move it goes by that.)
pub(crate) fn six_moved(
    orders: Orders,
    given: [Given; 6],
    elapsed: u32,
    cylinders: [Cylinder; 6],
) -> [Cylinder; 6]
    ensures { result ≡ six_moved orders given elapsed cylinders }
{
    let mut after = cylinders;
    for i in 0..6 {
        let before = after[i];
        after[i] = before
            .moved(drive_by(orders, i, given[i]), elapsed)
            .unwrap_or(before);
    }
    after
}

// Whether what is given is no rate, or no position.
#[tactic(auto, unfolding(crate::specs::Drives::is_bad))]
fn is_bad(given: Given) -> bool
    ensures { result ≡ is_bad given }
{
    match given {
        Given::Rate(rate) => !cylinder::is_rate(rate),
        Given::StuckAt(position) => !cylinder::is_position(position),
    }
}

// What cylinder i is told: to move at its rate by the order that is on, out or in, or to be stuck.
#[tactic(auto, unfolding(crate::specs::Drives::ordered))]
fn drive_by(orders: Orders, i: usize, given: Given) -> Drive
    ensures { result ≡ drive_by (outward orders i) (inward orders i) given }
{
    let rate = match given {
        Given::Rate(rate) => rate,
        Given::StuckAt(position) => return Drive::Stuck(position),
    };
    let (outward, inward) = if i < 3 {
        (orders.opens.on, orders.closes.on)
    } else {
        (orders.extends.on, orders.retracts.on)
    };
    if outward {
        Drive::Out(rate)
    } else if inward {
        Drive::In(rate)
    } else {
        Drive::Hold
    }
}
