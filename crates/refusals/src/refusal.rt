ghost use Rattle.std.specs.Prelude.{◌≡◌};
ghost use Rattle.refusals.specs.Spots.{nowhere, because};

use crate::cause::Cause;

/// Where a refusal was met: each part present or absent.
///
/// A call that is handed a subframe or a track tells just what it was handed.
/// Reading a message also tells the frame, and the first cell of the field,
/// both counted from 0 at the start of the message.
#[derive(Clone, Copy, PartialEq, Eq, Debug)]
pub struct Spot {
    pub frame: Option<u32>,
    pub subframe: Option<usize>,
    pub track: Option<usize>,
    pub cell: Option<usize>,
}

/// A refused call's answer.
#[derive(Clone, Copy, PartialEq, Eq, Debug)]
pub struct Refusal {
    pub cause: Cause,
    pub spot: Spot,
}

impl Spot {
    /// The spot of a call that names no place.
    pub fn nowhere() -> Spot
        ensures { result ≡ nowhere }
    {
        Spot {
            frame: None,
            subframe: None,
            track: None,
            cell: None,
        }
    }
}

impl Refusal {
    /// A refusal for `cause` that names no place.
    pub fn because(cause: Cause) -> Refusal
        ensures { result ≡ because cause }
    {
        Refusal {
            cause,
            spot: Spot::nowhere(),
        }
    }
}

/// A refusal that names no place: `?` turns a cause into it.
impl From<Cause> for Refusal {
    ghost from_gives = { λ c r. r ≡ because c };

    fn from(cause: Cause) -> Refusal {
        Refusal::because(cause)
    }
}
