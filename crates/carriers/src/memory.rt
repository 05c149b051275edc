ghost use Rattle.std.specs.Prelude.{◌*◌, ◌≤◌, min, length};
ghost use Rattle.carriers.specs.Cells.{max_cells};

use crate::units::MemoryUnit;

/// Reads the cells of memory.
///
/// Cells past 300,000 are not counted.
#[derive(Clone, Copy)]
pub struct Reader<'a, U: MemoryUnit> {
    pub(crate) memory: &'a [U],
}

/// Writes cells to memory.
///
/// Cells past 300,000 have no room.
// A slice lent by the caller with its length in use: the memory is the
// caller's, and nothing here allocates.
#[derive(Drop)]
pub struct Writer<'a, U: MemoryUnit> {
    pub(crate) memory: &'a mut [U],
    pub(crate) used: usize,
    ghost within: { used ≤ min max_cells (U.CELLS * length memory.now) },
}

/// Reads octets, eight cells to an octet, most significant first. No cell is
/// bad.
pub type OctetReader<'a> = Reader<'a, u8>;

/// Writes octets, eight cells to an octet, most significant first.
pub type OctetWriter<'a> = Writer<'a, u8>;

/// Reads 16-bit words, one cell to a word: `0x007F` is a zero, `0x0081` a
/// one, and any other word is bad (ITU-T G.192 soft bits).
pub type WordReader<'a> = Reader<'a, u16>;

/// Writes 16-bit words, one cell to a word: `0x007F` is a zero, `0x0081` a
/// one (ITU-T G.192 soft bits).
pub type WordWriter<'a> = Writer<'a, u16>;
