// The health monitors: the table of the thirteen causes over orders, ages and votes.
// The rule is specs/Causes.antt (document 01, "Monitors").
#![tactic(auto)]

ghost use Rattle.std.specs.Prelude.{◌≡◌};
ghost use Rattle.monitors.specs.Causes.{causes, cause_of};

use orders::Orders;

// What the three sensors of a kind say: some of them 1, all of them 1.
#[derive(Clone, Copy, PartialEq, Eq)]
pub struct Three {
    pub any: bool,
    pub all: bool,
}

// What the votes of a step say: doors seen closed and open, gears seen extended and retracted, the circuit pressurized, the
// switch closed, some sensor invalid.
#[derive(Clone, Copy, PartialEq, Eq)]
pub struct Sight {
    pub closed: Three,
    pub opened: Three,
    pub extended: Three,
    pub retracted: Three,
    pub pressurized: bool,
    pub switch: bool,
    pub invalid: bool,
}

// The lowest cause that holds, over the orders before the step with their ages grown, the handle's age and the votes; 0 where none does.
// (A number and no Option: the core and an image bear it so; see `Core` of `controller`.)
pub fn cause(orders: Orders, since: u32, see: Sight) -> u8
    ensures { result ≡ cause_of orders since see }
{
    match causes(orders, since, see).iter().position(|holds| *holds) {
        Some(place) => place as u8 + 1,
        None => 0,
    }
}

// The thirteen causes, in their order. By `&`: with thirteen `&&`, each a branch, the proof does not close.
#[tactic(auto, unfolding(crate::specs::Causes::causes))]
fn causes(orders: Orders, since: u32, see: Sight) -> [bool; 13]
    ensures { result ≡ causes orders since see }
{
    [
        // 1 to 4, of the doors
        orders.opens.on_for(7000) & see.closed.any,
        orders.opens.on_for(7000) & !see.opened.all,
        orders.closes.on_for(7000) & see.opened.any,
        orders.closes.on_for(7000) & !see.closed.all,
        // 5 to 8, of the gears
        orders.retracts.on_for(7000) & see.extended.any,
        orders.retracts.on_for(10000) & !see.retracted.all,
        orders.extends.on_for(7000) & see.retracted.any,
        orders.extends.on_for(10000) & !see.extended.all,
        // 9 to 13, of the circuit, the handle's switch and the sensors
        orders.general.on_for(2000) & !see.pressurized,
        orders.general.off_for(10000) & see.pressurized,
        (1000 <= since) & (since <= 19999) & !see.switch,
        (21500 <= since) & see.switch,
        see.invalid,
    ]
}
