ghost use Rattle.std.specs.Prelude.{◌≡◌, ◌+◌, ◌≤◌, length, IfOk};
ghost use Rattle.modes.specs.Plan.{plan, total};
ghost use Rattle.messages.specs.Messages.{read_slot, read_slots, blank};
ghost use Rattle.messages.specs.Turn.{values_of};

use crate::body::Body;
use crate::fields::Cursor;
use crate::parts::{FieldValue, Parts};
use carriers::traits::ReadCarrier;
use modes::mode::Mode;
use modes::plan::Slot;
use pulses::index::Reading;
use refusals::refusal::Refusal;

impl<'a, R: ReadCarrier> Cursor<'a, R> {
    /// The value of the slot that begins here, after the parts before it.
    #[tactic(auto, using(crate::proofs::Steps::slot_stop))]
    fn value(&self, before: &Parts, slot: Slot) -> Result<u16, Refusal>
        requires { slot.width ≤ 16 }
        ensures is { result ≡ read_slot before.now.how (R.cells self.now.carrier.now) before.now.mode self.now.frame self.now.at slot before.now.values }
        ensures inside { IfOk result (λ v. self.now.at + slot.width ≤ length (R.cells self.now.carrier.now)) }
    {
        let spot = self.spot(slot.part.spot());
        let number = self.field(spot, slot.width)?;
        let value = FieldValue {
            number,
            width: slot.width,
        };
        before
            .question(slot.part, value)
            .map_err(|e| Refusal { spot, ..e })?;
        Ok(number)
    }

    /// The frame of a mode whose slots begin here.
    pub(crate) fn body(mut self, how: Reading, mode: Mode) -> Result<Body, Refusal>
        ensures is { values_of result ≡ read_slots how (R.cells self.entry.carrier.now) mode self.entry.frame self.entry.at (plan mode) blank }
        ensures mode { IfOk result (λ b. b.parts.mode ≡ mode) }
        ensures end { IfOk result (λ b. b.end ≡ self.entry.at + total (plan mode)) }
        ensures inside { IfOk result (λ b. b.end ≤ length (R.cells self.entry.carrier.now)) }
    {
        let mut parts = Parts::none(how, mode);
        for slot in mode.slots() {
            let value = self.value(&parts, slot)?;
            parts.put(slot.part, value);
            self = self.behind(slot.width);
        }
        Ok(Body {
            parts,
            end: self.at,
        })
    }
}
