ghost use Rattle.std.specs.Prelude.{◌≡◌, length};
ghost use Rattle.carriers.specs.Writing.{Put, Cut, Untouched};
ghost use Rattle.carriers.specs.Memory.{writer_cells, writer_bounded, writer_room, writer_roomy};

use crate::bit::Bit;
use crate::memory::Writer;
use crate::traits::{ReadCarrier, WriteCarrier};
use crate::units::{MemoryUnit, room_for};
use refusals::cause::Cause;
use refusals::refusal::Refusal;

impl<'a, U: MemoryUnit> Writer<'a, U> {
    /// A writer with no cells yet, and with the room of `memory`. Never refused.
    ///
    /// What `memory` holds stays until it is written over.
    pub fn new(memory: &'a mut [U]) -> Writer<'a, U>
        ensures memory { result.memory ≡ memory.entry }
        ensures empty { result.used ≡ 0 }
    {
        Writer { memory, used: 0 }
    }
}

impl<'a, U: MemoryUnit> ReadCarrier for Writer<'a, U> {
    ghost cells = { writer_cells U.cell_in };

    ghost bounded = { writer_bounded U.cell_in };

    #[tactic(auto, using(crate::proofs::Tables::table_length))]
    fn len(&self) -> usize {
        self.used
    }

    fn cell(&self, at: usize) -> Result<Bit, Refusal> {
        U::cell(self.memory, self.used, at)
    }
}

impl<'a, U: MemoryUnit> WriteCarrier for Writer<'a, U> {
    ghost room = { writer_room U.CELLS };

    ghost roomy = { writer_roomy U.CELLS };

    ghost home = { λ w. w.memory.ghost_name };

    fn capacity(&self) -> usize {
        room_for::<U>(self.memory.len())
    }

    #[tactic(auto, using(std::proofs::lemmas::Grind::common_steps, crate::proofs::Tables::table_length, crate::proofs::Tables::table_put))]
    fn put(&mut self, bit: Bit) -> Result<(), Refusal>
        ensures fixed { writer_room U.CELLS self.new ≡ writer_room U.CELLS self.old }
        ensures home { self.new.memory.ghost_name ≡ self.old.memory.ghost_name }
        ensures put { Put (writer_cells U.cell_in self.old) (writer_room U.CELLS self.old) bit result (writer_cells U.cell_in self.new) }
        ensures same { Untouched result self.old self.new }
        ensures memory { U.put_gives self.old.memory.now (length (writer_cells U.cell_in self.old)) bit result self.new.memory.now }
    {
        if self.used >= self.capacity() {
            return Err(Cause::CarrierFull.into());
        }
        U::write(self.memory, self.used, bit)?;
        self.used += 1;
        Ok(())
    }

    #[tactic(auto, using(crate::proofs::Tables::table_length, crate::proofs::Tables::table_cut))]
    fn cut(&mut self, n: usize) -> Result<(), Refusal>
        ensures fixed { writer_room U.CELLS self.new ≡ writer_room U.CELLS self.old }
        ensures home { self.new.memory.ghost_name ≡ self.old.memory.ghost_name }
        ensures cut { Cut (writer_cells U.cell_in self.old) n result (writer_cells U.cell_in self.new) }
        ensures same { Untouched result self.old self.new }
        ensures memory { self.new.memory ≡ self.old.memory }
    {
        if n > self.used {
            return Err(Cause::CellMissing.into());
        }
        self.used = n;
        Ok(())
    }
}
