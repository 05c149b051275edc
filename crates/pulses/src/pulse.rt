ghost use Rattle.std.specs.Prelude.{◌≡◌, Some};
ghost use Rattle.pulses.specs.Pulses.{bit as bit_of, opposite as opposite_of};
ghost use Rattle.pulses.specs.Texts.{sign_text, pulse_text};

use std::fmt;

/// The sign of a pulse.
#[derive(Clone, Copy, PartialEq, Eq, Debug)]
pub enum Sign {
    Plus,
    Minus,
}

/// The sign bit: 0 for plus, 1 for minus.
impl From<Sign> for u8 {
    ghost from_gives = { λ s n. n ≡ bit_of s };

    fn from(sign: Sign) -> u8 {
        match sign {
            Sign::Plus => 0,
            Sign::Minus => 1,
        }
    }
}

impl Sign {
    /// The other sign.
    // No `Neg` or `Not`: a name tells the reader more than `-sign` or `!sign`.
    pub fn opposite(self) -> Sign
        ensures { result ≡ opposite_of self }
    {
        match self {
            Sign::Plus => Sign::Minus,
            Sign::Minus => Sign::Plus,
        }
    }
}

/// `+` or `-`.
impl fmt::Display for Sign {
    ghost output = { λ s. Some (sign_text s) };

    fn fmt<W: fmt::Write>(&self, f: &mut fmt::Formatter<W>) -> fmt::Result {
        match *self {
            Sign::Plus => write!(f, "+"),
            Sign::Minus => write!(f, "-"),
        }
    }
}

/// A pulse: its place on the track, from 0, and its sign.
#[derive(Clone, Copy, PartialEq, Eq, Debug)]
pub struct Pulse {
    pub place: u8,
    pub sign: Sign,
}

/// The sign and the place: `-7`.
impl fmt::Display for Pulse {
    ghost output = { λ p. Some (pulse_text p) };

    fn fmt<W: fmt::Write>(&self, f: &mut fmt::Formatter<W>) -> fmt::Result {
        let Pulse { place, sign } = *self;
        write!(f, "{sign}{place}")
    }
}
