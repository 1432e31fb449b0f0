// The five orders with their ages: how ages grow, which orders are wanted, and when they start and stop.
// The rule is specs/Timing.antt (document 01, "Ages" and "Orders").
#![tactic(auto)]

ghost use Rattle.std.specs.Prelude.{◌≡◌};
ghost use Rattle.orders.specs.Timing.{grown_age, grown, all_grown, on_for, off_for, switched, wanted_of, directed, off_together, general_of, orders_of};

use sequence::{Doors, Gears, Place};

// One order: whether it is on, and for how many ms it has been so.
#[derive(Clone, Copy, PartialEq, Eq)]
pub struct Order {
    pub on: bool,
    pub age: u32,
}

// The five orders, in the order of the output row: general_EV, close_EV, open_EV, retract_EV, extend_EV.
#[derive(Clone, Copy, PartialEq, Eq)]
pub struct Orders {
    pub general: Order,
    pub closes: Order,
    pub opens: Order,
    pub retracts: Order,
    pub extends: Order,
}

// Which of the four are wanted.
#[derive(Clone, Copy, PartialEq, Eq)]
pub struct Wanted {
    pub closes: bool,
    pub opens: bool,
    pub retracts: bool,
    pub extends: bool,
}

// Ages stop at so many ms (`oldest` of specs/Timing.antt).
pub const OLDEST: u32 = 60000;

// An age some ms later.
#[tactic(auto, unfolding(crate::specs::Timing::grown_age))]
pub fn grown_age(age: u32, elapsed: u32) -> u32
    ensures { result ≡ grown_age elapsed age }
{
    age.saturating_add(elapsed).min(OLDEST)
}

impl Order {
    // The order some ms later.
    #[tactic(auto, unfolding(crate::specs::Timing::grown))]
    pub fn grown(self, elapsed: u32) -> Self
        ensures { result ≡ grown elapsed self }
    {
        Order {
            on: self.on,
            age: grown_age(self.age, elapsed),
        }
    }

    // Whether it has been on for so many ms.
    #[tactic(auto, unfolding(crate::specs::Timing::on_for))]
    pub fn on_for(self, ms: u32) -> bool
        ensures { result ≡ on_for ms self }
    {
        self.on && ms <= self.age
    }

    // Whether it has been off for so many ms.
    #[tactic(auto, unfolding(crate::specs::Timing::off_for))]
    pub fn off_for(self, ms: u32) -> bool
        ensures { result ≡ off_for ms self }
    {
        !self.on && ms <= self.age
    }
}

impl Wanted {
    // Which of the four are wanted at a place; none with an anomaly.
    #[tactic(auto, unfolding(crate::specs::Timing::wanted_of))]
    pub fn at(place: Place, anomaly: bool) -> Self
        ensures { result ≡ wanted_of place anomaly }
    {
        Wanted {
            closes: place.doors == Doors::Closing && !anomaly,
            opens: place.doors == Doors::Opening && !anomaly,
            retracts: place.gears == Gears::Retracting && !anomaly,
            extends: place.gears == Gears::Extending && !anomaly,
        }
    }
}

impl Orders {
    // The orders some ms later.
    #[tactic(auto, unfolding(crate::specs::Timing::all_grown))]
    pub fn grown(self, elapsed: u32) -> Self
        ensures { result ≡ all_grown elapsed self }
    {
        Orders {
            general: self.general.grown(elapsed),
            closes: self.closes.grown(elapsed),
            opens: self.opens.grown(elapsed),
            retracts: self.retracts.grown(elapsed),
            extends: self.extends.grown(elapsed),
        }
    }

    // The orders of a step, from those before it with their ages grown, by the new doors, gears and anomaly.
    #[tactic(auto, unfolding(crate::specs::Timing::orders_of))]
    pub fn after(self, place: Place, anomaly: bool) -> Self
        ensures { result ≡ orders_of place anomaly self }
    {
        let wanted = Wanted::at(place, anomaly);
        let needed = !place.doors.are_closed() && !anomaly;
        Orders {
            general: self.general.general(needed, self.off_together()),
            closes: self
                .closes
                .directed(wanted.closes, self.general, self.opens),
            opens: self.opens.directed(wanted.opens, self.general, self.closes),
            retracts: self
                .retracts
                .directed(wanted.retracts, self.general, self.extends),
            extends: self
                .extends
                .directed(wanted.extends, self.general, self.retracts),
        }
    }
}

impl Order {
    // The order switched on or off: with age 0 where that changes it.
    #[tactic(auto, unfolding(crate::specs::Timing::switched))]
    fn switched(self, on: bool) -> Self
        ensures { result ≡ switched on self }
    {
        if on == self.on {
            self
        } else {
            Order { on, age: 0 }
        }
    }

    // One of the four after a step, by whether it is wanted, and by general_EV and its opposite as they stood before. By `&` and `|`: with `&&`
    // and `||` a step of the controller takes a tenth more instructions.
    #[tactic(auto, unfolding(crate::specs::Timing::directed))]
    fn directed(self, wanted: bool, general: Order, opposite: Order) -> Self
        ensures { result ≡ directed wanted general opposite self }
    {
        let starts = general.on_for(200) & opposite.off_for(100);
        self.switched(wanted & (self.on | starts))
    }

    // General_EV after a step, by whether it is needed, and whether the four have been off for long enough.
    #[tactic(auto, unfolding(crate::specs::Timing::general_of))]
    fn general(self, needed: bool, stops: bool) -> Self
        ensures { result ≡ general_of needed stops self }
    {
        let on = if self.on { needed || !stops } else { needed };
        self.switched(on)
    }
}

impl Orders {
    // Whether all four others have been off for so long that general_EV may stop.
    #[tactic(auto, unfolding(crate::specs::Timing::off_together))]
    fn off_together(self) -> bool
        ensures { result ≡ off_together self }
    {
        self.closes.off_for(1000)
            && self.opens.off_for(1000)
            && self.retracts.off_for(1000)
            && self.extends.off_for(1000)
    }
}
