ghost use Rattle.std.specs.Prelude.{◌≡◌, ◌≤◌};
ghost use Rattle.modes.specs.Modes.{number_of, Numbered, row};
ghost use Rattle.modes.specs.Places.{heads, cuts};

use refusals::cause::Cause;

/// A mode of the codec, by its bit rate in kbit/s.
#[derive(Clone, Copy, PartialEq, Eq, Debug)]
pub enum Mode {
    Rate6k60,
    Rate8k85,
    Rate12k65,
    Rate14k25,
    Rate15k85,
    Rate18k25,
    Rate19k85,
    Rate23k05,
    Rate23k85,
}

/// What a mode gives a frame: bits of fields and pulses of tracks, 0 where it
/// lacks them, and how its plan is laid out.
#[derive(Clone, Copy)]
pub(crate) struct Row {
    /// The bits of spectrum fields 0 to 6.
    pub(crate) spectrum: [u8; 7],
    /// The bits of the delays of subframes 0 to 3.
    pub(crate) delays: [u8; 4],
    /// The bits of a subframe's filter flag.
    pub(crate) filter_flag: u8,
    /// The bits of a subframe's gain.
    pub(crate) gain: u8,
    /// The bits of a subframe's high band gain.
    pub(crate) high_band: u8,
    /// The pulses of tracks 0 to 3.
    pub(crate) pulses: [u8; 4],
    /// The width of a track: it has 2^width places.
    pub(crate) track_width: u8,
    /// How many tracks share a subframe's samples.
    pub(crate) tracks: usize,
    /// How many slots of the plan stand before the subframes.
    pub(crate) heads: usize,
    /// How many high parts a subframe has.
    pub(crate) cuts: usize,
}

/// The row of 23.05 kbit/s; those of the other modes from 12.65 kbit/s on
/// differ from it in pulses, in high parts or in the gain of the high band.
const UPPER: Row = Row {
    spectrum: [8, 8, 6, 7, 7, 5, 5],
    delays: [9, 6, 9, 6],
    filter_flag: 1,
    gain: 7,
    high_band: 0,
    pulses: [6, 6, 6, 6],
    track_width: 4,
    tracks: 4,
    heads: 8,
    cuts: 4,
};

/// The mode's number, 0 to 8: `u8::from(Mode::Rate12k65)` is 2.
impl From<Mode> for u8 {
    ghost from_gives = { λ m n. n ≡ number_of m };

    fn from(mode: Mode) -> u8 {
        match mode {
            Mode::Rate6k60 => 0,
            Mode::Rate8k85 => 1,
            Mode::Rate12k65 => 2,
            Mode::Rate14k25 => 3,
            Mode::Rate15k85 => 4,
            Mode::Rate18k25 => 5,
            Mode::Rate19k85 => 6,
            Mode::Rate23k05 => 7,
            Mode::Rate23k85 => 8,
        }
    }
}

/// The mode with a number: `Mode::try_from(2)` is `Ok(Mode::Rate12k65)`.
///
/// Refused where the number is not 0 to 8 (`Cause::NoSuchMode`).
impl TryFrom<u8> for Mode {
    type Error = Cause;

    ghost try_from_gives = { Numbered };

    fn try_from(number: u8) -> Result<Mode, Cause> {
        match number {
            0 => Ok(Mode::Rate6k60),
            1 => Ok(Mode::Rate8k85),
            2 => Ok(Mode::Rate12k65),
            3 => Ok(Mode::Rate14k25),
            4 => Ok(Mode::Rate15k85),
            5 => Ok(Mode::Rate18k25),
            6 => Ok(Mode::Rate19k85),
            7 => Ok(Mode::Rate23k05),
            8 => Ok(Mode::Rate23k85),
            _ => Err(Cause::NoSuchMode),
        }
    }
}

impl Mode {
    /// What the mode gives a frame.
    pub(crate) fn row(self) -> &'static Row
        ensures spectrum { result.now.spectrum ≡ (row self).spectrum }
        ensures delays { result.now.delays ≡ (row self).delays }
        ensures filter_flag { result.now.filter_flag ≡ (row self).filter }
        ensures gain { result.now.gain ≡ (row self).gain }
        ensures high_band { result.now.high_band ≡ (row self).band }
        ensures pulses { result.now.pulses ≡ (row self).pulses }
        ensures track_width { result.now.track_width ≡ (row self).places }
        ensures tracks { result.now.tracks ≡ (row self).tracks }
        ensures heads { result.now.heads ≡ heads self }
        ensures cuts { result.now.cuts ≡ cuts self }
    {
        match self {
            Mode::Rate6k60 => &Row {
                spectrum: [8, 8, 7, 7, 6, 0, 0],
                delays: [8, 5, 5, 5],
                filter_flag: 0,
                gain: 6,
                high_band: 0,
                pulses: [1, 1, 0, 0],
                track_width: 5,
                tracks: 2,
                heads: 6,
                cuts: 0,
            },
            Mode::Rate8k85 => &Row {
                delays: [8, 5, 8, 5],
                filter_flag: 0,
                gain: 6,
                pulses: [1, 1, 1, 1],
                cuts: 0,
                ..UPPER
            },
            Mode::Rate12k65 => &Row {
                pulses: [2, 2, 2, 2],
                cuts: 0,
                ..UPPER
            },
            Mode::Rate14k25 => &Row {
                pulses: [3, 3, 2, 2],
                cuts: 0,
                ..UPPER
            },
            Mode::Rate15k85 => &Row {
                pulses: [3, 3, 3, 3],
                cuts: 0,
                ..UPPER
            },
            Mode::Rate18k25 => &Row {
                pulses: [4, 4, 4, 4],
                ..UPPER
            },
            Mode::Rate19k85 => &Row {
                pulses: [5, 5, 4, 4],
                ..UPPER
            },
            Mode::Rate23k05 => &UPPER,
            Mode::Rate23k85 => &Row {
                high_band: 4,
                ..UPPER
            },
        }
    }

    /// The width of the mode's tracks: they have 2^width places.
    pub fn track_width(self) -> u8
        ensures is { result ≡ (row self).places }
        ensures small { (result ≤ 5) × (4 ≤ result) }
    {
        self.row().track_width
    }

    /// How many tracks share a subframe's samples.
    pub fn tracks(self) -> usize
        ensures is { result ≡ (row self).tracks }
        ensures some { (2 ≤ result) × (result ≤ 4) }
    {
        self.row().tracks
    }
}
