ghost use Rattle.std.specs.Prelude.{◌≡◌, length};
ghost use Rattle.frames.specs.Lawful.{Fit, OnTrack, Rising, Padded, Long};

use modes::mode::Mode;
use pulses::pulse::Pulse;

/// A blank record, and its mode.
pub mod blank;
/// Its fields.
pub mod fields;
/// Its tracks.
pub mod tracks;
/// Its samples.
pub mod excitation;
/// The house indices of its tracks.
pub mod indices;
/// Its delays, in quarter samples and in microseconds.
pub mod delays;
/// When two records have the same bits.
pub mod agreement;
/// Every record is a blank one with its parts set.
pub mod rebuilt;

/// The parameters and pulses of one frame, always lawful for its mode.
///
/// A field that the mode lacks is kept as 0, and so two records are equal
/// exactly when their modes, fields and pulses are.
#[derive(Clone, Copy, PartialEq, Eq, Debug)]
pub struct Frame {
    mode: Mode,
    // One for each field that some mode has: nothing here allocates.
    values: [u16; 24],
    // Track t of subframe s is row 4s + t, with room for the six pulses that a
    // track has at most: nothing here allocates, and the mode tells how many
    // are in use, so that no number stands beside them.
    tracks: [[Pulse; 6]; 16],
    ghost fit: { Fit mode values },
    ghost on: { OnTrack mode tracks },
    ghost rising: { Rising mode tracks },
    ghost padded: { Padded mode tracks },
    ghost long: { Long tracks },
    ghost cells: { length values ≡ 24 },
    ghost rows: { length tracks ≡ 16 },
}
