ghost use Rattle.std.specs.Prelude.{◌≡◌};
ghost use Rattle.modes.specs.Fields.{cell_of, field_at, spot_of};

use refusals::refusal::Spot;

/// A field of a frame that is no pulse field: the last four by their subframe.
#[derive(Clone, Copy, PartialEq, Eq, Debug)]
pub enum Field {
    /// The flag for voice activity.
    Voice,
    /// A field of the spectrum, by its number.
    Spectrum(usize),
    /// The delay of the pitch.
    Delay(usize),
    /// The flag for the filter of the pitch.
    FilterFlag(usize),
    /// The two gains, in one field.
    Gain(usize),
    /// The gain of the high band.
    HighBandGain(usize),
}

/// How many cells a record has for its fields.
pub const CELLS: usize = 24;

impl Field {
    /// The cell of the field in a record, or `CELLS` where no record has it.
    // An index past the last, as a slice's length is: callers index by it where
    // the mode has the field, and an Option would give each an arm that never runs.
    pub fn cell(self) -> usize
        ensures { result ≡ cell_of self }
    {
        match self {
            Field::Voice => 0,
            Field::Spectrum(k) => if k < 7 { 1 + k } else { CELLS },
            Field::Delay(s) => if s < 4 { 8 + s } else { CELLS },
            Field::FilterFlag(s) => if s < 4 { 12 + s } else { CELLS },
            Field::Gain(s) => if s < 4 { 16 + s } else { CELLS },
            Field::HighBandGain(s) => if s < 4 { 20 + s } else { CELLS },
        }
    }

    /// The field of a cell.
    pub fn at(cell: usize) -> Field
        ensures { result ≡ field_at cell }
    {
        match cell {
            0 => Field::Voice,
            1..8 => Field::Spectrum(cell - 1),
            8..12 => Field::Delay(cell - 8),
            12..16 => Field::FilterFlag(cell - 12),
            16..20 => Field::Gain(cell - 16),
            _ => Field::HighBandGain(cell - 20),
        }
    }

    /// What a refusal tells of the field: its subframe, if it has one.
    pub(crate) fn spot(self) -> Spot
        ensures { result ≡ spot_of self }
    {
        match self {
            Field::Voice | Field::Spectrum(_) => Spot::nowhere(),
            Field::Delay(s) | Field::FilterFlag(s) | Field::Gain(s) | Field::HighBandGain(s) =>
                Spot {
                    subframe: Some(s),
                    ..Spot::nowhere()
                },
        }
    }
}
