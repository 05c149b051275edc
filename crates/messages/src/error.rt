ghost use Rattle.std.specs.Prelude.{◌≡◌};
ghost use Rattle.messages.specs.declared.error.ReadError.TheVariants.{Refused, NoMemory};

use frames::frame::Frame;
use refusals::refusal::Refusal;
use std::alloc::AllocFailed as NoRoom;

/// Why the frames of a message are not handed out.
#[derive(Clone, Copy, PartialEq, Eq, Debug)]
pub enum ReadError {
    /// The message is refused.
    Refused(Refusal),
    /// There is no memory for its frames.
    NoMemory,
}

impl From<Refusal> for ReadError {
    ghost from_gives = { λ e r. r ≡ Refused e };

    fn from(refusal: Refusal) -> ReadError {
        ReadError::Refused(refusal)
    }
}

impl From<NoRoom<Frame>> for ReadError {
    ghost from_gives = { λ _ r. r ≡ NoMemory };

    fn from(_: NoRoom<Frame>) -> ReadError {
        ReadError::NoMemory
    }
}
