ghost use Rattle.std.specs.Prelude.{◌≡◌};
ghost use Rattle.std.specs.Iterator.{item_count};
ghost use Rattle.modes.specs.Plan.{plan as plan_of};
ghost use Rattle.modes.specs.Slots.{slots_left, GivesSlot};

use crate::mode::Mode;
use crate::plan::Slot;

/// The slots of a mode's plan, in the order of their bits. From [`Mode::slots`].
#[derive(Clone, Debug, Drop)]
pub struct Slots {
    mode: Mode,
    next: usize,
}

impl Mode {
    /// The slots of the mode's plan, in the order of their bits: 56 for
    /// `Mode::Rate23k85`.
    #[tactic(auto, unfolding(crate::specs::Slots::slots_left))]
    pub fn slots(self) -> Slots
        ensures mode { result.mode ≡ self }
        ensures all { slots_left result ≡ plan_of self }
    {
        Slots {
            mode: self,
            next: 0,
        }
    }
}

impl Iterator for Slots {
    type Item = Slot;

    ghost next_gives = { GivesSlot };

    ghost remaining = { item_count slots_left };

    #[tactic(auto, using(crate::proofs::Going::some_left, crate::proofs::Going::none_left, crate::proofs::Going::in_plan, crate::proofs::Going::own_width), unfolding(crate::specs::Slots::slots_left))]
    fn next(&mut self) -> Option<Slot> {
        let slot = self.mode.slot_at(self.next)?;
        self.next += 1;
        Some(slot)
    }
}
