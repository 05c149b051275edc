ghost use Rattle.std.specs.Prelude.{◌≡◌, ◌<◌, MatchResult};
ghost use Rattle.refusals.specs.declared.cause.Cause.TheVariants.{NoSuchField};
ghost use Rattle.frames.specs.Frames.{field_bits, value as value_of, field_refusal, FieldSet, FieldRefused};

use crate::frame::Frame;
use crate::refusing::refused;
use modes::field::Field;
use modes::plan::Part;
use refusals::cause::Cause;
use refusals::refusal::Refusal;

impl Frame {
    /// The bits of a field.
    ///
    /// Refused where the mode has no such field.
    fn bits(&self, field: Field) -> Result<u8, Refusal>
        ensures { MatchResult result (λ b. (0 < b) × (b ≡ field_bits self.now field)) (λ e. (field_bits self.now field ≡ 0) × (e ≡ field_refusal NoSuchField field)) }
    {
        match self.mode.field_bits(field) {
            0 => Err(refused(Cause::NoSuchField, Part::Value(field))),
            bits => Ok(bits),
        }
    }

    /// The value of a field.
    ///
    /// Refused where the mode has no such field (`Cause::NoSuchField`).
    pub fn get(&self, field: Field) -> Result<u16, Refusal>
        ensures { MatchResult result (λ v. (0 < field_bits self.now field) × (v ≡ value_of self.now field)) (λ e. (field_bits self.now field ≡ 0) × (e ≡ field_refusal NoSuchField field)) }
    {
        self.bits(field)?;
        Ok(self.values[field.cell()])
    }

    /// Sets a field.
    ///
    /// Refused where the mode has no such field (`Cause::NoSuchField`), and
    /// where the value does not fit its bits (`Cause::ValueTooLarge`).
    pub fn set(&mut self, field: Field, value: u16) -> Result<(), Refusal>
        ensures { MatchResult result (λ _. FieldSet self.old self.new field value) (λ e. FieldRefused self.old self.new field value e) }
    {
        let bits = self.bits(field)?;
        if value >> bits != 0 {
            return Err(refused(Cause::ValueTooLarge, Part::Value(field)));
        }
        self.values[field.cell()] = value;
        Ok(())
    }
}
