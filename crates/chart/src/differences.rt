// What comes next at a place of ground, handle, doors and gears, the fact that makes a difference there, and whether the ground does. The
// rule is specs/Differences.antt.
ghost use Rattle.std.specs.Prelude.{◌≡◌, Some, ◌+◌, ◌*◌};
ghost use Rattle.std.specs.List.{list_any, range_with_len};
ghost use Rattle.table.specs.Table.{changed_by_ground};
ghost use Rattle.chart.specs.Differences.{stand_at, alone, next_with, decides, decisive};

use sequence::{Place, Seen};
use table::Asked;

// A fact: what all three sensors of a kind are seen to say.
#[derive(Clone, Copy, PartialEq, Eq)]
pub enum Fact {
    AllOpen,
    AllClosed,
    AllExtended,
    AllRetracted,
}

// The facts, in the order in which they are looked at.
const FACTS: [Fact; 4] = [
    Fact::AllOpen,
    Fact::AllClosed,
    Fact::AllExtended,
    Fact::AllRetracted,
];

// What is asked at place k, with none of the facts seen.
pub(crate) fn stand_at(k: u8) -> Asked
    ensures { result ≡ stand_at k }
{
    Asked::numbered(16 * (k as usize))
}

// What is seen where a fact is seen by itself, or none.
fn alone(fact: Option<Fact>) -> Seen
    ensures { result ≡ alone fact }
{
    Seen {
        opened: fact == Some(Fact::AllOpen),
        closed: fact == Some(Fact::AllClosed),
        extended: fact == Some(Fact::AllExtended),
        retracted: fact == Some(Fact::AllRetracted),
    }
}

// What comes next of what is asked, where a fact is seen by itself, or none.
pub(crate) fn next_with(asked: Asked, fact: Option<Fact>) -> Place
    ensures { result ≡ next_with asked fact }
{
    table::moved(asked.place, asked.grounded, asked.aim, alone(fact))
}

// Whether a fact, seen by itself, makes a difference there.
fn decides(asked: Asked, fact: Fact) -> bool
    ensures { result ≡ decides asked (Some fact) }
{
    next_with(asked, Some(fact)) != next_with(asked, None)
}

// The fact that makes a difference there.
#[tactic(auto, unfolding(crate::specs::Differences::decisive))]
pub(crate) fn decisive(asked: Asked) -> Option<Fact>
    ensures { result ≡ decisive asked }
{
    FACTS.iter().copied().find(|&fact| decides(asked, fact))
}

// Whether some entry of place k is another on ground than in the air.
pub(crate) fn differs(k: u8) -> bool
    ensures { result ≡ list_any (λ n. changed_by_ground (16 * k + n)) (range_with_len 0 16) }
{
    (0..16).any(|n| table::changed_by_ground(16 * (k as usize) + n))
}
