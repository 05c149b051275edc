ghost use Rattle.std.specs.Prelude.{◌≡◌, ◌≤◌, MatchResult};
ghost use Rattle.refusals.specs.declared.cause.Cause.TheVariants.{NoSuchMode};
ghost use Rattle.refusals.specs.Spots.{because as because_of};
ghost use Rattle.modes.specs.Modes.{number_of};
ghost use Rattle.frames.specs.Frames.{Blank};

use crate::frame::Frame;
use modes::mode::Mode;
use pulses::set::NONE;
use refusals::refusal::Refusal;

impl Frame {
    /// The blank record of a mode, by its number: every field 0, and every
    /// pulse plus on place 0.
    ///
    /// Refused where the number is not 0 to 8 (`Cause::NoSuchMode`).
    pub fn blank(number: u8) -> Result<Frame, Refusal>
        ensures { MatchResult result (λ f. (number_of f.mode ≡ number) × Blank f) (λ e. (9 ≤ number) × (e ≡ because_of NoSuchMode)) }
    {
        let mode = Mode::try_from(number)?;
        Ok(Frame::of(mode))
    }

    /// The blank record of a mode.
    pub fn of(mode: Mode) -> Frame
        ensures mode { result.mode ≡ mode }
        ensures blank { Blank result }
    {
        Frame {
            mode,
            values: [0; 24],
            tracks: [[NONE; 6]; 16],
        }
    }

    /// The mode.
    pub fn mode(&self) -> Mode
        ensures { result ≡ self.now.mode }
    {
        self.mode
    }
}
