ghost use Rattle.std.specs.Prelude.{◌≡◌, IfOk, if◌then◌else◌, nat_eq};
ghost use Rattle.messages.specs.declared.error.ReadError.TheVariants.{NoMemory};
ghost use Rattle.messages.specs.Seen.{framed};
ghost use Rattle.messages.specs.Messages.{read_frames, counted};
ghost use Rattle.messages.specs.Contents.{Recorded, Returned};
ghost use Rattle.messages.specs.Indexed.{ReadsByIndices};
ghost use Rattle.messages.specs.Gathered.{Begins, Gathered, HandsOut, HandsOutMessages, HandsOutByIndices};
ghost use Rattle.messages.specs.Laws.{ReadsMessages, StrictIsOpen, TrackRefusals, RefusalsTellWhere, EqualMessagesAgree, NoBeginnings, ReturnsFrames};

use crate::body::Body;
use crate::error::ReadError;
use crate::turns::Turns;
use carriers::traits::ReadCarrier;
use frames::frame::Frame;
use pulses::index::Reading;
use refusals::cause::Cause;
use refusals::refusal::Refusal;
use std::alloc::Global;

/// Reads a message and answers how many frames it has.
///
/// Refused, at the first cell of the field: where a cell is missing
/// (`Cause::CellMissing`) or bad (`Cause::BadCell`), where a mode is none
/// (`Cause::NoSuchMode`), where a 513th frame begins (`Cause::TooManyFrames`),
/// where a place of a track has both signs (`Cause::BothSigns`), strictly where
/// an index is not the house's (`Cause::NotHouseIndex`), and where the fill is
/// not zero or is not the end (`Cause::BadFill`).
///
/// The message of no frame is the octet 0xF0.
#[tactic(auto, using(crate::proofs::Opened::reads_open, crate::proofs::Telling::refusals_tell_where, crate::proofs::Meant::equal_messages_agree, crate::proofs::Longer::no_beginnings))]
pub fn read_message<R: ReadCarrier>(how: Reading, carrier: &R) -> Result<usize, Refusal>
    ensures answer { result ≡ counted (read_frames how (R.cells carrier.now)) }
    ensures reads_messages { ReadsMessages }
    ensures reads_by_indices { ReadsByIndices }
    ensures strict_is_open { StrictIsOpen }
    ensures track_refusals { TrackRefusals }
    ensures refusals_tell_where { RefusalsTellWhere }
    ensures equal_messages_agree { EqualMessagesAgree }
    ensures no_beginnings { NoBeginnings }
{
    count_frames(how, carrier)
}

/// The record of frame `n` of a message, counted from 0. The whole message is
/// read first.
///
/// Refused as [`read_message`] is, and then, without a spot, where the message
/// has no such frame (`Cause::NoSuchFrame`).
#[tactic(auto, using(crate::proofs::Meant::returns_frames))]
pub fn read_frame<R: ReadCarrier>(how: Reading, carrier: &R, n: usize) -> Result<Frame, Refusal>
    ensures answer { Returned (read_frames how (R.cells carrier.now)) n result }
    ensures returns_frames { ReturnsFrames }
{
    let mut frame = None;
    for (k, body) in Turns::new(how, carrier).enumerate() {
        frame = kept(frame, k, n, body?);
    }
    recorded(frame)
}

/// All frames of a message, in their order, from one pass over it.
///
/// Refused as [`read_message`] is. Where there is no memory for a frame that
/// was read, that is told, whether or not the message would be refused.
#[tactic(auto, using(crate::proofs::Handing::handed))]
pub fn read_frames<R: ReadCarrier>(
    how: Reading,
    carrier: &R,
    heap: Global,
) -> Result<Vec<Frame>, ReadError>
    ensures answer { Gathered (read_frames how (R.cells carrier.now)) result }
    ensures handed { IfOk result (λ v. HandsOut how (R.cells carrier.now) v.items) }
    ensures no_memory { result ≡ Err NoMemory → Begins how (R.cells carrier.now) }
    ensures hands_out_messages { HandsOutMessages }
    ensures hands_out_by_indices { HandsOutByIndices }
{
    gather(how, carrier, heap)
}

/// How many frames a message has.
// Apart from `read_message`, so that a wrong answer of the call is refused at
// the code: the goals of a loop are answered by hand.
fn count_frames<R: ReadCarrier>(how: Reading, carrier: &R) -> Result<usize, Refusal>
    ensures { result ≡ counted (read_frames how (R.cells carrier.now)) }
{
    // Not by `try_fold`, whose closure could not show that one more fits.
    let mut count = 0;
    for body in Turns::new(how, carrier) {
        body?;
        count += 1;
    }
    Ok(count)
}

/// The frame kept so far, or this one where it is the one wanted.
// Apart from the loop of `read_frame`, as `count_frames` is from `read_message`.
fn kept(frame: Option<Body>, n: usize, wanted: usize, body: Body) -> Option<Body>
    ensures { framed result ≡ (if nat_eq n wanted then framed (Some body) else framed frame) }
{
    if n == wanted { Some(body) } else { frame }
}

/// The record of the frame that was kept, or that there is none.
fn recorded(frame: Option<Body>) -> Result<Frame, Refusal>
    ensures { Recorded (framed frame) result }
{
    frame
        .map(|body| body.record())
        .ok_or(Refusal::because(Cause::NoSuchFrame))
}

/// All frames of a message, kept.
// Apart from `read_frames`, as `count_frames` is from `read_message`.
fn gather<R: ReadCarrier>(how: Reading, carrier: &R, heap: Global) -> Result<Vec<Frame>, ReadError>
    ensures answer { Gathered (read_frames how (R.cells carrier.now)) result }
    ensures no_memory { result ≡ Err NoMemory → Begins how (R.cells carrier.now) }
{
    let mut frames = Vec::new(heap);
    for body in Turns::new(how, carrier) {
        frames.push(body?.record())?;
    }
    Ok(frames)
}
