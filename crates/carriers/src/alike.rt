ghost use Rattle.carriers.specs.Alike.{Alike};
ghost use Rattle.carriers.specs.WritingLaws.{SameBitsSameCells};

use crate::fields::put_bits;
use crate::memory::{OctetWriter, WordWriter};
use crate::traits::WriteCarrier;
use refusals::cause::Cause;
use refusals::refusal::Refusal;

/// Writes the low `width` bits of `value` at the start of octets and at the
/// start of words alike, most significant first.
///
/// Refused with `CarrierFull` where either has room for fewer than `width`
/// cells; then neither is touched.
#[tactic(auto, using(crate::proofs::Runs::same_bits_same_cells, crate::proofs::Lent::alike_end, crate::proofs::Tables::table_fresh))]
pub fn write_alike(
    octets: &mut [u8],
    words: &mut [u16],
    value: u32,
    width: u32,
) -> Result<(), Refusal>
    ensures alike { Alike value width octets.old words.old result octets.new words.new }
    ensures law { SameBitsSameCells }
{
    let mut packed = OctetWriter::new(octets);
    let mut soft = WordWriter::new(words);
    // asked first, so that a refusal touches neither
    if soft.capacity() < width as usize {
        return Err(Cause::CarrierFull.into());
    }
    put_bits(&mut packed, value, width)?;
    put_bits(&mut soft, value, width)
}
