ghost use Rattle.std.specs.Prelude.{◌≡◌, ◌-◌, ◌<◌, length};
ghost use Rattle.std.specs.Iterator.{at_most};
ghost use Rattle.std.specs.Option.{option_map, option_map_or};
ghost use Rattle.messages.specs.Messages.{next_frame};
ghost use Rattle.messages.specs.Asked.{begun as begun_by};

use crate::body::Body;
use crate::fields::Cursor;
use carriers::traits::ReadCarrier;
use modes::mode::Mode;
use pulses::index::Reading;
use refusals::cause::Cause;
use refusals::refusal::{Refusal, Spot};

/// The most frames that a message can have.
const MAX_FRAMES: u32 = 512;

/// The frames of a message, one after the other, as far as they are accepted.
#[derive(Drop)]
pub(crate) struct Turns<'a, R: ReadCarrier> {
    how: Reading,
    next: Option<Cursor<'a, R>>,
}

/// What `number` begins, where `left` more frames may come: a frame, or
/// nothing where the message ends.
fn begun(number: u16, left: u32) -> Result<Option<Mode>, Cause>
    requires { number < 16 }
    ensures { result ≡ begun_by left number }
{
    if number == 15 {
        return Ok(None);
    }
    let mode = Mode::try_from(number as u8)?;
    if left == 0 {
        Err(Cause::TooManyFrames)
    } else {
        Ok(Some(mode))
    }
}

impl<'a, R: ReadCarrier> Cursor<'a, R> {
    ghost use Rattle.messages.specs.Seen.{framed_of};
    ghost use Rattle.messages.specs.Turn.{Onward};

    /// The frame that begins here, or nothing where the message ends.
    fn turn(&self, how: Reading) -> Result<Option<Body>, Refusal>
        ensures is { framed_of result ≡ next_frame how (R.cells self.now.carrier.now) (512 - self.now.frame) self.now.frame self.now.at }
        ensures on { Onward (length (R.cells self.now.carrier.now)) self.now.frame self.now.at result }
    {
        let spot = self.spot(Spot::nowhere());
        let number = self.field(spot, 4)?;
        let behind = self.behind(4);
        let left = MAX_FRAMES - self.frame;
        match begun(number, left).map_err(|cause| Refusal { cause, spot })? {
            None => {
                behind.ending()?;
                Ok(None)
            }
            Some(mode) => Ok(Some(behind.body(how, mode)?)),
        }
    }
}

impl<'a, R: ReadCarrier> Turns<'a, R> {
    ghost use Rattle.messages.specs.Turn.{beginning};

    /// The frames of the message that a carrier has.
    pub(crate) fn new(how: Reading, carrier: &'a R) -> Turns<'a, R>
        ensures { option_map (λ h. record { how = result.how; cells = R.cells h.carrier.now; frame = h.frame; at = h.at }) result.next ≡ Some (beginning how (R.cells carrier.now)) }
    {
        let start = Cursor {
            carrier,
            frame: 0,
            at: 0,
        };
        Turns {
            how,
            next: Some(start),
        }
    }
}

impl<'a, R: ReadCarrier> Iterator for Turns<'a, R> {
    ghost use Rattle.messages.specs.Turn.{Walks};

    type Item = Result<Body, Refusal>;

    // Where a walk stands is said in full in each place: a definition of it
    // would take the carrier's type and its laws as arguments.
    ghost next_gives = { λ s r t. Walks
        (option_map (λ h. record { how = s.how; cells = R.cells h.carrier.now; frame = h.frame; at = h.at }) s.next) r
        (option_map (λ h. record { how = t.how; cells = R.cells h.carrier.now; frame = h.frame; at = h.at }) t.next) };

    ghost remaining = { λ s. at_most (option_map_or (λ h. 513 - h.frame) s.next 0) };

    fn next(&mut self) -> Option<Result<Body, Refusal>> {
        let here = self.next.take()?;
        match here.turn(self.how) {
            Ok(Some(body)) => {
                self.next = Some(Cursor {
                    carrier: here.carrier,
                    frame: here.frame + 1,
                    at: body.end,
                });
                Some(Ok(body))
            }
            Ok(None) => None,
            Err(e) => Some(Err(e)),
        }
    }
}
