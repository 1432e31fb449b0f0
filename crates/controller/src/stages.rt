// One accepted step in its order: ages, vote, monitors, sequence, orders (specs/Stages.antt; document 01, "One accepted step,
// in this order"). Each stage takes the state and hands it back.
ghost use Rattle.std.specs.Prelude.{◌≡◌};
ghost use Rattle.sequence.specs.Moves.{aim_in_force};
ghost use Rattle.controller.specs.Stages.{
  anomaly,
  core_ages,
  core_handle,
  core_monitors,
  core_sequence,
  core_orders,
  elapsed_of,
  ages_stage,
  vote_stage,
  monitors_stage,
  sequence_stage,
  orders_stage,
  accepted,
};

use crate::{Core, State, votes};
use monitors::Sight;
use sequence::{Aim, Seen};

// This stamp less the last accepted one, modulo 2^32.
#[tactic(auto, unfolding(crate::specs::Stages::elapsed_of))]
pub(crate) fn elapsed(last: u32, stamp: u32) -> u32
    ensures { result ≡ elapsed_of last stamp }
{
    stamp.wrapping_sub(last)
}

impl Core {
    // Whether there is an anomaly.
    #[tactic(auto, unfolding(crate::specs::Stages::anomaly))]
    pub(crate) fn anomaly(self) -> bool
        ensures { result ≡ anomaly self }
    {
        self.cause != 0
    }

    // The five orders' ages and the handle's grow.
    #[tactic(auto, unfolding(crate::specs::Stages::core_ages))]
    fn ages(self, elapsed: u32) -> Self
        ensures { result ≡ core_ages elapsed self }
    {
        Core {
            orders: self.orders.grown(elapsed),
            since: orders::grown_age(self.since, elapsed),
            ..self
        }
    }

    // The handle's age becomes 0 where the voted handle changed.
    #[tactic(auto, unfolding(crate::specs::Stages::core_handle))]
    fn handle(self, turned: bool) -> Self
        ensures { result ≡ core_handle turned self }
    {
        if turned {
            Core { since: 0, ..self }
        } else {
            self
        }
    }

    // The lowest cause that holds is latched.
    #[tactic(auto, unfolding(crate::specs::Stages::core_monitors))]
    fn monitors(self, see: Sight) -> Self
        ensures { result ≡ core_monitors see self }
    {
        if self.anomaly() {
            return self;
        }
        Core {
            cause: monitors::cause(self.orders, self.since, see),
            ..self
        }
    }

    // At most one move, and none with an anomaly.
    #[tactic(auto, unfolding(crate::specs::Stages::core_sequence))]
    fn sequence(self, grounded: bool, aim: Aim, seen: Seen) -> Self
        ensures { result ≡ core_sequence (aim_in_force grounded aim self.place.gears) seen self }
    {
        if self.anomaly() {
            return self;
        }
        Core {
            place: table::moved(self.place, grounded, aim, seen),
            ..self
        }
    }

    // The orders by the new doors, gears and anomaly.
    #[tactic(auto, unfolding(crate::specs::Stages::core_orders))]
    fn orders(self) -> Self
        ensures { result ≡ core_orders self }
    {
        Core {
            orders: self.orders.after(self.place, self.anomaly()),
            ..self
        }
    }
}

impl State {
    // One accepted step: the stages in their order.
    #[tactic(auto, unfolding(crate::specs::Stages::accepted))]
    pub(crate) fn accepted(self, stamp: u32, sample: &[u8; 54]) -> Self
        ensures { result ≡ accepted self stamp sample.now }
    {
        self.ages(stamp).vote(sample).monitors().sequence().orders()
    }

    // Ages grow by what has elapsed, and the stamp is the last accepted one.
    #[tactic(auto, unfolding(crate::specs::Stages::ages_stage))]
    fn ages(self, stamp: u32) -> Self
        ensures { result ≡ ages_stage stamp self }
    {
        State {
            stamp,
            core: self.core.ages(elapsed(self.stamp, stamp)),
            ..self
        }
    }

    // Every sensor votes; the handle's age becomes 0 where the vote changed it.
    #[tactic(auto, unfolding(crate::specs::Stages::vote_stage, crate::specs::Stages::turned))]
    fn vote(self, sample: &[u8; 54]) -> Self
        ensures { result ≡ vote_stage sample.now self }
    {
        let voters = votes::all_voted(self.voters, sample);
        let turned = votes::value_at(self.voters, votes::HANDLE)
            != votes::value_at(voters, votes::HANDLE);
        State {
            voters,
            core: self.core.handle(turned),
            ..self
        }
    }

    // The monitors look at the new votes.
    #[tactic(auto, unfolding(crate::specs::Stages::monitors_stage))]
    fn monitors(self) -> Self
        ensures { result ≡ monitors_stage self }
    {
        State {
            core: self.core.monitors(votes::sight(self.voters)),
            ..self
        }
    }

    // The sequence moves by the new votes.
    #[tactic(auto, unfolding(crate::specs::Stages::sequence_stage))]
    fn sequence(self) -> Self
        ensures { result ≡ sequence_stage self }
    {
        let voters = self.voters;
        State {
            core: self.core.sequence(
                votes::on_ground(voters),
                votes::aim(voters),
                votes::seen(voters),
            ),
            ..self
        }
    }

    // The orders follow the new place and anomaly.
    #[tactic(auto, unfolding(crate::specs::Stages::orders_stage))]
    fn orders(self) -> Self
        ensures { result ≡ orders_stage self }
    {
        State {
            core: self.core.orders(),
            ..self
        }
    }
}
