use frames::frame::Frame;
use modes::field::Field;
use modes::plan::Part;
use refusals::refusal::{Refusal, Spot};
use sheets::line::Line;
use std::fmt;
use std::fmt::Write;

/// Up to so many frames an answer tells all delays.
const SMALL: usize = 4;

/// What a line is answered with.
#[derive(Drop)]
pub enum Answer {
    /// Why the message, or the call, is refused.
    Refused(Refusal),
    /// All frames of a message.
    Frames(Vec<Frame>),
    /// One frame of a message.
    One(Frame),
    /// Two calls that have to agree do not.
    Differ,
    /// The line is no case, or memory is wanting.
    Nothing,
}

impl fmt::Display for Answer {
    fn fmt<W: fmt::Write>(&self, f: &mut fmt::Formatter<W>) -> fmt::Result {
        match self {
            Answer::Refused(refusal) => tell_refusal(f, *refusal),
            Answer::Frames(frames) => tell_frames(f, frames),
            Answer::One(frame) => tell_frame(f, frame),
            Answer::Differ => f.write_str("the calls differ"),
            Answer::Nothing => f.write_str("no answer"),
        }
    }
}

/// A part of a spot: `-` where it is absent.
#[derive(Clone, Copy)]
struct Told<T>(Option<T>);

impl<T: fmt::Display> fmt::Display for Told<T> {
    fn fmt<W: fmt::Write>(&self, f: &mut fmt::Formatter<W>) -> fmt::Result {
        match &self.0 {
            Some(n) => write!(f, "{n}"),
            None => f.write_str("-"),
        }
    }
}

fn tell_refusal<W: fmt::Write>(f: &mut fmt::Formatter<W>, refusal: Refusal) -> fmt::Result {
    let Spot {
        frame,
        subframe,
        track,
        cell,
    } = refusal.spot;
    write!(
        f,
        "R {} {} {} {} {}",
        u8::from(refusal.cause),
        Told(frame),
        Told(subframe),
        Told(track),
        Told(cell),
    )
}

/// FNV-1a of 32 bits over all text that is written.
#[derive(Clone, Copy)]
struct Checksum(u32);

impl fmt::Write for Checksum {
    fn write_str(&mut self, text: &str) -> fmt::Result {
        for octet in text.as_bytes() {
            self.0 = (self.0 ^ u32::from(*octet)).wrapping_mul(16_777_619);
        }
        Ok(())
    }
}

/// The checksum of the delay sheet of the frames.
// Not by the crate `sheets`, whose text is compared for itself.
fn sheet_sum(frames: &[Frame]) -> Result<u32, fmt::Error> {
    let mut sum = Checksum(2_166_136_261);
    for (n, frame) in frames.iter().enumerate() {
        for (s, quarters) in frame.delays().iter().enumerate() {
            let line = Line::Delay {
                frame: n,
                subframe: s,
                quarters: *quarters,
            };
            writeln!(sum, "{line}")?;
        }
    }
    let end = Line::End {
        frames: frames.len(),
    };
    writeln!(sum, "{end}")?;
    Ok(sum.0)
}

/// The number of frames, the checksum of their sheet, and all delays of a few.
fn tell_frames<W: fmt::Write>(f: &mut fmt::Formatter<W>, frames: &[Frame]) -> fmt::Result {
    let count = frames.len();
    let sum = sheet_sum(frames)?;
    write!(f, "ok {count} {sum:08x}")?;
    if count <= SMALL {
        for quarters in frames.iter().flat_map(|frame| frame.delays()) {
            write!(f, " {quarters}")?;
        }
    }
    Ok(())
}

/// A field, if the mode has it.
fn tell_field<W: fmt::Write>(
    f: &mut fmt::Formatter<W>,
    frame: &Frame,
    field: Field,
) -> fmt::Result {
    match frame.get(field) {
        Ok(value) => write!(f, " {value}"),
        Err(_) => Ok(()),
    }
}

/// The fields that the mode has, in the order of their bits, and the samples
/// that are not 0.
fn tell_frame<W: fmt::Write>(f: &mut fmt::Formatter<W>, frame: &Frame) -> fmt::Result {
    let mode = frame.mode();
    write!(f, "F {}", u8::from(mode))?;
    for slot in mode.slots() {
        if let Part::Value(field) = slot.part {
            tell_field(f, frame, field)?;
        }
    }
    f.write_str(" /")?;
    let mut samples = [0i8; 256];
    if frame.excitation(&mut samples).is_err() {
        return f.write_str("no answer");
    }
    for (k, amplitude) in samples.iter().enumerate() {
        if *amplitude != 0 {
            write!(f, " {k} {amplitude}")?;
        }
    }
    Ok(())
}
