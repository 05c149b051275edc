ghost use Rattle.std.specs.Prelude.{◌≡◌, ℕ, ◌*◌, ◌<◌, ◌≤◌, min, List, length, Ok, Err, Result};
ghost use Rattle.refusals.specs.declared.refusal.Refusal.{Refusal};
ghost use Rattle.refusals.specs.declared.cause.Cause.TheVariants.{CellMissing, CarrierFull};
ghost use Rattle.refusals.specs.Spots.{because};
ghost use Rattle.carriers.specs.declared.bit.Bit.{Bit};
ghost use Rattle.carriers.specs.Cells.{Cell, bit, max_cells, table};
ghost use Rattle.carriers.specs.Reading.{answer, cell_at};

use crate::bit::Bit;
use crate::traits::MAX_CELLS;
use refusals::cause::Cause;
use refusals::refusal::Refusal;

/// What memory is made of: a number that holds one cell or several.
pub trait MemoryUnit: Copy {
    /// The cells that a unit holds.
    const CELLS: usize;

    /// The same number.
    ghost CELLS: { ℕ };

    /// The cell at a place of the units.
    ghost cell_in: { List Self → ℕ → Cell };

    /// What putting a bit at a place, answered so, leaves of the units.
    ghost put_gives: { List Self → ℕ → Bit → Result Unit Refusal → List Self → Type 0 };

    /// The bit of the cell at a place.
    ///
    /// Refused with `CellMissing` where the units have no such place, and with
    /// `BadCell` where the cell is bad.
    fn read(units: &[Self], at: usize) -> Result<Bit, Refusal>
        ensures within { at < CELLS * length units.now → result ≡ answer (cell_in units.now at) }
        ensures beyond { CELLS * length units.now ≤ at → result ≡ Err (because CellMissing) };

    /// The bit of the cell at a place of a carrier, which has the first
    /// `cells` of the units' cells, and at most 300,000.
    ///
    /// Refused with `CellMissing` where the carrier has no such place, and with
    /// `BadCell` where the cell is bad.
    // Said here for every unit, by `read`, which asks for the place again; a
    // unit whose cells are never bad can say it with one question.
    #[tactic(auto, using(crate::proofs::Tables::table_in, crate::proofs::Tables::table_past))]
    fn cell(units: &[Self], cells: usize, at: usize) -> Result<Bit, Refusal>
        ensures { result ≡ cell_at (table (cell_in units.now) (min cells (min max_cells (CELLS * length units.now)))) at }
    {
        if at >= cells.min(counted(Self::CELLS, units.len())) {
            return Err(Cause::CellMissing.into());
        }
        Self::read(units, at)
    }

    /// Puts a bit at a place.
    ///
    /// Refused with `CarrierFull` where the units have no such place.
    fn write(units: &mut [Self], at: usize, bit: Bit) -> Result<(), Refusal>
        ensures within { at < CELLS * length units.old → result ≡ Ok tt }
        ensures beyond { CELLS * length units.old ≤ at → result ≡ Err (because CarrierFull) }
        ensures put { put_gives units.old at bit result units.new };

    /// A refusal leaves the units as they were.
    ghost refused: { (units : List Self) (at : ℕ) (b : Bit) (e : Refusal) → put_gives units at b (Err e) units };

    /// The place that was put holds the bit.
    ghost here: { (before after : List Self) (at : ℕ) (b : Bit) → at < CELLS * length before → put_gives before at b (Ok tt) after → cell_in after at ≡ bit b };

    /// A place below holds what it held.
    ghost below: { (before after : List Self) (at i : ℕ) (b : Bit) → put_gives before at b (Ok tt) after → i < at → cell_in after i ≡ cell_in before i };
}

/// The cells that so many units count for, each of which holds so many.
pub(crate) fn counted(each: usize, units: usize) -> usize
    ensures { result ≡ min max_cells (each * units) }
{
    each.saturating_mul(units).min(MAX_CELLS)
}

/// The cells that so many units count for.
pub(crate) fn room_for<U: MemoryUnit>(units: usize) -> usize
    ensures { result ≡ min max_cells (U.CELLS * units) }
{
    counted(U::CELLS, units)
}
