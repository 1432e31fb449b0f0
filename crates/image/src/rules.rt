// Whether the controller that an image is of keeps the rules of requests K3 and K6 (specs/Rules.antt).
ghost use Rattle.std.specs.Prelude.{false, ◌≡◌, ◌<◌, get_or};
ghost use Rattle.common.specs.Lists.{all};
ghost use Rattle.voter.specs.Counts.{count_rules};
ghost use Rattle.voter.specs.declared.Voter.{Voter};
ghost use Rattle.image.specs.Rules.{rule_count, rules, rules_hold};
ghost use Rattle.image.specs.Faults.{first_broken, IsPlace};

use crate::SENSORS;
use controller::State;
use orders::Wanted;
use voter::Voter;

// There are so many rules.
const RULES: usize = 7 + sensors::RULES;

// Whether every rule is kept.
pub(crate) fn hold(state: State) -> bool
    ensures { result ≡ rules_hold state }
{
    first_broken(state).is_none()
}

// The place of the first rule that is broken.
pub(crate) fn first_broken(state: State) -> Option<usize>
    ensures { IsPlace rule_count (first_broken (rules state)) result }
{
    tests(state).iter().position(|kept| !kept)
}

// The rules, each as a test.
fn tests(state: State) -> [bool; RULES]
    ensures { result ≡ rules state }
{
    let place = state.core.place;
    let orders = state.core.orders;
    let red = state.core.cause != 0;
    let wanted = Wanted::at(place, red);
    let general = orders.general.on;
    [
        place.moving_have_open(),
        !orders.closes.on | (wanted.closes & general),
        !orders.opens.on | (wanted.opens & general),
        !orders.retracts.on | (wanted.retracts & general),
        !orders.extends.on | (wanted.extends & general),
        !(!place.doors.are_closed() & !red) | general,
        !state.invalid() | red,
        all_keep(state.voters, 0),
        all_keep(state.voters, 1),
        all_keep(state.voters, 2),
    ]
}

// Whether every sensor keeps rule k of odd channel and count.
fn all_keep(voters: [Voter; SENSORS], k: usize) -> bool
    requires { k < 3 }
    ensures { result ≡ all (λ (v : Voter). get_or (count_rules v) k false) voters }
{
    voters.iter().all(|v| sensors::count_rules(*v)[k])
}
