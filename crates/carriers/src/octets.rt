ghost use Rattle.std.specs.Prelude.{◌≡◌, ◌*◌, ◌<◌, length};
ghost use Rattle.carriers.specs.Cells.{bit};
ghost use Rattle.carriers.specs.Octets.{octet_at, OctetsPut};
ghost use Rattle.carriers.specs.WithBit.{with_bit};
ghost use Rattle.carriers.specs.Units.{octets_here, octets_below, octets_refused};

use crate::bit::Bit;
use crate::units::{MemoryUnit, counted};
use refusals::cause::Cause;
use refusals::refusal::Refusal;

/// Eight cells to an octet, most significant first. None is bad.
impl MemoryUnit for u8 {
    const CELLS: usize = 8;

    ghost CELLS = { 8 };

    ghost cell_in = { octet_at };

    ghost put_gives = { OctetsPut };

    fn read(units: &[u8], at: usize) -> Result<Bit, Refusal> {
        if at / 8 >= units.len() {
            return Err(Cause::CellMissing.into());
        }
        Ok(bit_in(units, at))
    }

    // No cell of octets is bad, so that the place is asked for once.
    #[tactic(auto, using(crate::proofs::Tables::table_in, crate::proofs::Tables::table_past))]
    fn cell(units: &[u8], cells: usize, at: usize) -> Result<Bit, Refusal> {
        if at >= cells.min(counted(8, units.len())) {
            return Err(Cause::CellMissing.into());
        }
        Ok(bit_in(units, at))
    }

    #[tactic(auto, using(std::proofs::lemmas::Grind::common_steps, crate::proofs::OctetCells::octet_here, crate::proofs::OctetCells::octet_others))]
    fn write(units: &mut [u8], at: usize, bit: Bit) -> Result<(), Refusal> {
        if at / 8 >= units.len() {
            return Err(Cause::CarrierFull.into());
        }
        units[at / 8] = with_bit(units[at / 8], 7 - (at % 8) as u32, bit);
        Ok(())
    }

    ghost refused = { octets_refused };

    ghost here = { octets_here };

    ghost below = { octets_below };
}

/// The bit at a place of octets.
fn bit_in(units: &[u8], at: usize) -> Bit
    requires { at < 8 * length units.now }
    ensures { bit result ≡ octet_at units.now at }
{
    Bit::at(u32::from(units[at / 8]), 7 - (at % 8) as u32)
}

/// The octet with its bit of weight 2^place set to `bit`, and every other kept.
#[tactic(auto, using(crate::proofs::OctetCells::clear_bit, crate::proofs::OctetCells::set_bit))]
fn with_bit(octet: u8, place: u32, bit: Bit) -> u8
    requires { place < 8 }
    ensures { result ≡ with_bit octet place bit }
{
    let mask = 1u8 << place;
    match bit {
        Bit::Zero => octet & !mask,
        Bit::One => octet | mask,
    }
}
