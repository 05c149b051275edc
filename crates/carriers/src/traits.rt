ghost use Rattle.std.specs.Prelude.{◌≡◌, ℕ, ◌≤◌, List, length};
ghost use Rattle.carriers.specs.Cells.{Cell, max_cells};
ghost use Rattle.carriers.specs.Reading.{cell_at};
ghost use Rattle.carriers.specs.Writing.{Put, Cut, Untouched};

use crate::bit::Bit;
use refusals::refusal::Refusal;

/// The most cells that a carrier can have.
pub const MAX_CELLS: usize = 300_000;

/// Cells that can be read.
pub trait ReadCarrier {
    /// The cells, from place 0 on.
    ghost cells: { Self → List Cell };

    /// A carrier has at most 300,000 cells.
    ghost bounded: { (x : Self) → length (cells x) ≤ max_cells };

    /// The number of cells.
    fn len(&self) -> usize
        ensures { result ≡ length (cells self.now) };

    /// The bit of the cell at a place.
    ///
    /// Refused with `CellMissing` where the place is not below the length,
    /// and with `BadCell` where the cell is bad.
    fn cell(&self, at: usize) -> Result<Bit, Refusal>
        ensures { result ≡ cell_at (cells self.now) at };
}

/// Cells that can be read, and written at their end.
pub trait WriteCarrier: ReadCarrier {
    /// The capacity: so many cells have room.
    ghost room: { Self → ℕ };

    /// There is room for at most 300,000 cells.
    ghost roomy: { (x : Self) → room x ≤ max_cells };

    /// The memory that the cells lie in, by a name that never changes: a
    /// caller that lent the memory goes by it.
    ghost home: { Self → ℕ };

    /// The number of cells that have room, which is fixed.
    fn capacity(&self) -> usize
        ensures { result ≡ room self.now };

    /// Appends a cell.
    ///
    /// Refused with `CarrierFull` where the length has reached the capacity.
    fn put(&mut self, bit: Bit) -> Result<(), Refusal>
        ensures fixed { room self.new ≡ room self.old }
        ensures home { home self.new ≡ home self.old }
        ensures put { Put (Self.cells self.old) (room self.old) bit result (Self.cells self.new) }
        ensures same { Untouched result self.old self.new };

    /// Keeps the first `n` cells.
    ///
    /// Refused with `CellMissing` where there are fewer.
    fn cut(&mut self, n: usize) -> Result<(), Refusal>
        ensures fixed { room self.new ≡ room self.old }
        ensures home { home self.new ≡ home self.old }
        ensures cut { Cut (Self.cells self.old) n result (Self.cells self.new) }
        ensures same { Untouched result self.old self.new };
}
