ghost use Rattle.std.specs.Prelude.{◌≡◌, ℕ, ◌%◌, ◌^◌, ◌≤◌, length, Ok, OnOk};
ghost use Rattle.carriers.specs.Writing.{Untouched};
ghost use Rattle.carriers.specs.Fields.{PutBits};
ghost use Rattle.carriers.specs.FieldReading.{read_bits, low32};
ghost use Rattle.carriers.specs.ReadingLaws.{CellAnswers, FieldAnswers, FieldRefusals};
ghost use Rattle.carriers.specs.WritingLaws.{FieldsReadBack};

use crate::bit::Bit;
use crate::traits::{ReadCarrier, WriteCarrier};
use refusals::cause::Cause;
use refusals::refusal::Refusal;

/// Appends the low `width` bits of `value`, most significant first.
///
/// Refused with `CarrierFull` where there is no room for all of them; then
/// nothing is put. Above its 32 bits a value has zeros.
///
/// `put_bits(&mut carrier, 5, 4)` puts 0, 1, 0, 1.
#[tactic(auto, using(crate::proofs::Runs::fields_read_back))]
pub fn put_bits<C: WriteCarrier>(carrier: &mut C, value: u32, width: u32) -> Result<(), Refusal>
    ensures fixed { C.room carrier.new ≡ C.room carrier.old }
    ensures home { C.home carrier.new ≡ C.home carrier.old }
    ensures put { PutBits (C.cells carrier.old) (C.room carrier.old) value width result (C.cells carrier.new) }
    ensures same { Untouched result carrier.old carrier.new }
    ensures back { OnOk result (read_bits (C.cells carrier.new) (length (C.cells carrier.old)) width 0 ≡ Ok (value % 2 ^ width)) }
    ensures kept { (at w v : ℕ) → read_bits (C.cells carrier.old) at w 0 ≡ Ok v → read_bits (C.cells carrier.new) at w 0 ≡ Ok v }
    ensures all { FieldsReadBack }
{
    // asked first, so that a refusal leaves no part of the field
    if carrier.len() + width as usize > carrier.capacity() {
        return Err(Cause::CarrierFull.into());
    }
    for place in (0..width).rev() {
        // never refused: there is room
        carrier.put(Bit::at(value, place))?;
    }
    Ok(())
}

/// The number that `width` cells from place `at` on spell, most significant
/// first.
///
/// Refused as the first of these cells that is missing or bad is: with
/// `CellMissing` or with `BadCell`. Of a number of more than 32 bits the low
/// 32 are answered.
///
/// Of the cells 0, 1, 0, 1, `read_bits(&carrier, 1, 3)` is 5.
#[tactic(auto, using(crate::proofs::FieldCells::whole))]
pub fn read_bits<R: ReadCarrier>(carrier: &R, at: usize, width: u32) -> Result<u32, Refusal>
    ensures value { result ≡ low32 (read_bits (R.cells carrier.now) at width 0) }
    ensures whole { width ≤ 32 → result ≡ read_bits (R.cells carrier.now) at width 0 }
    ensures cell { CellAnswers }
    ensures field { FieldAnswers }
    ensures refused { FieldRefusals }
{
    let mut value = 0u32;
    for i in 0..width as usize {
        value = (value << 1) + u32::from(carrier.cell(at + i)?);
    }
    Ok(value)
}
