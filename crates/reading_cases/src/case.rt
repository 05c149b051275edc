use pulses::index::Reading;
use std::alloc::{AllocError, Global};

/// What a line has to be read as.
// The three are read by calls of different types, so a closure in their place
// would hide which carrier is read.
#[derive(Clone, Copy)]
pub enum Kind {
    /// A message of octets.
    Octets,
    /// A message of cells, some of which may be bad.
    Cells,
    /// A frame to be returned of a message of octets.
    Frame,
}

/// A line of input.
#[derive(Clone, Copy)]
pub struct Case<'a> {
    pub kind: Kind,
    pub how: Reading,
    pub text: &'a [u8],
}

impl<'a> Case<'a> {
    /// The case of a line, if it is one.
    pub fn parse(line: &'a [u8]) -> Option<Case<'a>> {
        let [kind, how, text @ ..] = line else {
            return None;
        };
        let kind = match *kind {
            b'm' => Kind::Octets,
            b'c' => Kind::Cells,
            b'f' => Kind::Frame,
            _ => return None,
        };
        let how = match *how {
            b's' => Reading::Strict,
            b'o' => Reading::Open,
            _ => return None,
        };
        Some(Case { kind, how, text })
    }
}

/// The value of a hexadecimal digit; any other character counts as 0.
// Not by `to_digit`, which takes capitals too. No `Option`: the model writes no
// other character.
fn digit(character: u8) -> u8 {
    match character {
        b'0'..=b'9' => character - b'0',
        b'a'..=b'f' => character - b'a' + 10,
        _ => 0,
    }
}

/// The octets that pairs of hexadecimal digits spell.
pub fn octets(text: &[u8], heap: Global) -> Result<Vec<u8>, AllocError> {
    text.chunks_exact(2)
        .filter_map(|pair| match pair {
            [high, low] => Some((digit(*high) << 4) | digit(*low)),
            _ => None,
        })
        .collect(heap)
}

/// The word of a cell: `0`, `1`, and any other character for a bad one.
fn word(cell: u8) -> u16 {
    match cell {
        b'0' => 0x007F,
        b'1' => 0x0081,
        _ => 0x1234,
    }
}

/// The words of cells.
pub fn words(text: &[u8], heap: Global) -> Result<Vec<u16>, AllocError> {
    text.iter().map(|cell| word(*cell)).collect(heap)
}
