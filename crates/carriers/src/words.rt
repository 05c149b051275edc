ghost use Rattle.std.specs.Prelude.{◌≡◌};
ghost use Rattle.carriers.specs.Words.{word_of, word_at, WordsPut};
ghost use Rattle.carriers.specs.Units.{words_here, words_below, words_refused};

use crate::bit::Bit;
use crate::units::MemoryUnit;
use refusals::cause::Cause;
use refusals::refusal::Refusal;

/// The word that stands for a zero (ITU-T G.192).
const ZERO_WORD: u16 = 0x007F;

/// The word that stands for a one (ITU-T G.192).
const ONE_WORD: u16 = 0x0081;

/// One cell to a word. Any word but those for a zero and a one is bad.
impl MemoryUnit for u16 {
    const CELLS: usize = 1;

    ghost CELLS = { 1 };

    ghost cell_in = { word_at };

    ghost put_gives = { WordsPut };

    fn read(units: &[u16], at: usize) -> Result<Bit, Refusal> {
        if at >= units.len() {
            return Err(Cause::CellMissing.into());
        }
        match units[at] {
            ZERO_WORD => Ok(Bit::Zero),
            ONE_WORD => Ok(Bit::One),
            _ => Err(Cause::BadCell.into()),
        }
    }

    fn write(units: &mut [u16], at: usize, bit: Bit) -> Result<(), Refusal> {
        if at >= units.len() {
            return Err(Cause::CarrierFull.into());
        }
        units[at] = word_for(bit);
        Ok(())
    }

    ghost refused = { words_refused };

    ghost here = { words_here };

    ghost below = { words_below };
}

/// The word that is written for a bit.
// No `From`: it is not the bit's number.
fn word_for(bit: Bit) -> u16
    ensures { result ≡ word_of bit }
{
    match bit {
        Bit::Zero => ZERO_WORD,
        Bit::One => ONE_WORD,
    }
}
