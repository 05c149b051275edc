ghost use Rattle.std.specs.Prelude.{◌≡◌, [], ◌∷◌, ◌++◌, IfOk, string_bytes, OnOk};
ghost use Rattle.refusals.specs.declared.refusal.Refusal.{Refusal as ARefusal};
ghost use Rattle.messages.specs.declared.error.ReadError.TheVariants.{Refused as RefusedWith};
ghost use Rattle.sheets.specs.Sheets.{text as text_of, frame_lines, sheet_lines, refused_line, Printed};

use crate::line::Line;
use carriers::traits::ReadCarrier;
use frames::frame::Frame;
use messages::error::ReadError;
use messages::reading::read_frames;
use pulses::index::Reading;
use std::alloc::{AllocError, Global};

/// Adds a line.
fn add_line(text: &mut String, line: Line) -> Result<(), AllocError>
    ensures { OnOk result (string_bytes text.new ≡ string_bytes text.old ++ text_of (line ∷ [])) }
{
    text.writeln(line)
}

/// Adds the delays of frame `n`.
fn add_delays(text: &mut String, n: usize, frame: &Frame) -> Result<(), AllocError>
    ensures { OnOk result (string_bytes text.new ≡ string_bytes text.old ++ text_of (frame_lines n frame.now)) }
{
    for (s, quarters) in frame.delays().iter().enumerate() {
        add_line(
            text,
            Line::Delay {
                frame: n,
                subframe: s,
                quarters: *quarters,
            },
        )?;
    }
    Ok(())
}

/// Adds the delays of all frames, and then their number.
fn add_frames(text: &mut String, frames: &[Frame]) -> Result<(), AllocError>
    ensures { OnOk result (string_bytes text.new ≡ string_bytes text.old ++ text_of (sheet_lines frames.now)) }
{
    for (n, frame) in frames.iter().enumerate() {
        add_delays(text, n, frame)?;
    }
    add_line(
        text,
        Line::End {
            frames: frames.len(),
        },
    )
}

/// Adds the line of a refusal, where the message was refused.
fn add_refusal(text: &mut String, error: ReadError) -> Result<(), AllocError>
    ensures { OnOk result ((e : ARefusal) × (error ≡ RefusedWith e) × (string_bytes text.new ≡ string_bytes text.old ++ text_of (refused_line e ∷ []))) }
{
    match error {
        ReadError::Refused(refusal) => add_line(text, Line::from(refusal)),
        ReadError::NoMemory => Err(AllocError),
    }
}

/// The delay sheet of a message, which is read strictly: the delays of every
/// subframe of every frame and then the number of frames; or, where the
/// message is refused, the line of the refusal alone.
///
/// Seventeen octets 0x00 and one 0xF0 have the lines `D 0 0 136 2656`, the
/// same for subframes 1 to 3, and `E 1`, with tabs for blanks.
pub fn sheet<R: ReadCarrier>(carrier: &R, heap: Global) -> Result<String, AllocError>
    ensures { IfOk result (λ t. Printed (R.cells carrier.now) (string_bytes t)) }
{
    let mut text = String::new(heap);
    match read_frames(Reading::Strict, carrier, heap) {
        Ok(frames) => add_frames(&mut text, &frames)?,
        Err(error) => add_refusal(&mut text, error)?,
    }
    Ok(text)
}
