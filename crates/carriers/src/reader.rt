ghost use Rattle.std.specs.Prelude.{◌≡◌};
ghost use Rattle.carriers.specs.Cells.{table};
ghost use Rattle.carriers.specs.Memory.{room_of, reader_cells, reader_bounded};

use crate::bit::Bit;
use crate::memory::Reader;
use crate::traits::ReadCarrier;
use crate::units::{MemoryUnit, room_for};
use refusals::refusal::Refusal;

impl<'a, U: MemoryUnit> Reader<'a, U> {
    /// A reader of all cells of `memory`. Never refused.
    pub fn new(memory: &'a [U]) -> Reader<'a, U>
        ensures memory { result.memory.now ≡ memory.now }
        ensures cells { reader_cells U.CELLS U.cell_in result ≡ table (U.cell_in memory.now) (room_of U.CELLS memory.now) }
    {
        Reader { memory }
    }
}

impl<'a, U: MemoryUnit> ReadCarrier for Reader<'a, U> {
    ghost cells = { reader_cells U.CELLS U.cell_in };

    ghost bounded = { reader_bounded U.CELLS U.cell_in };

    #[tactic(auto, using(crate::proofs::Tables::table_length))]
    fn len(&self) -> usize {
        room_for::<U>(self.memory.len())
    }

    #[tactic(auto, using(crate::proofs::Tables::table_length))]
    fn cell(&self, at: usize) -> Result<Bit, Refusal> {
        U::cell(self.memory, self.len(), at)
    }
}
