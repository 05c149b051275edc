//! Answers the cases that the independent model in C makes (`host/cases.c` has
//! the form of the lines), so that the stored output, which is what the model
//! said, is compared with what the library says.
#![tactic(auto)]

/// A line of input: what is to be read, and how.
mod case;
/// What a line is answered with.
mod answer;

use answer::Answer;
use carriers::memory::{OctetReader, WordReader};
use carriers::traits::ReadCarrier;
use case::{Case, Kind, octets, words};
use messages::error::ReadError;
use messages::reading::{read_frame, read_frames, read_message};
use pulses::index::Reading;
use std::alloc::{AllocError, Global};
use std::io;
use std::io::{BufRead, BufReader, BufWriter, Write};

/// Reads all frames, and the message alone: both have to agree.
fn read<R: ReadCarrier>(how: Reading, carrier: &R, heap: Global) -> Answer {
    let counted = read_message(how, carrier);
    match read_frames(how, carrier, heap) {
        Ok(frames) => if counted == Ok(frames.len()) {
            Answer::Frames(frames)
        } else {
            Answer::Differ
        },
        Err(ReadError::Refused(refusal)) => if counted == Err(refusal) {
            Answer::Refused(refusal)
        } else {
            Answer::Differ
        },
        Err(ReadError::NoMemory) => Answer::Nothing,
    }
}

/// Returns one frame, whose number stands in the first two octets.
fn return_frame(how: Reading, octets: &[u8]) -> Answer {
    let [high, low, message @ ..] = octets else {
        return Answer::Nothing;
    };
    let n = usize::from(u16::from_be_bytes([*high, *low]));
    match read_frame(how, &OctetReader::new(message), n) {
        Ok(frame) => Answer::One(frame),
        Err(refusal) => Answer::Refused(refusal),
    }
}

fn reply(line: &[u8], heap: Global) -> Result<Answer, AllocError> {
    let Some(Case { kind, how, text }) = Case::parse(line) else {
        return Ok(Answer::Nothing);
    };
    Ok(match kind {
        Kind::Octets => read(how, &OctetReader::new(&octets(text, heap)?), heap),
        Kind::Cells => read(how, &WordReader::new(&words(text, heap)?), heap),
        Kind::Frame => return_frame(how, &octets(text, heap)?),
    })
}

fn main(rt: HostRuntime) -> io::Result<()> {
    let heap = rt.alloc();
    let mut out = BufWriter::new(heap, rt.stdout())?;
    for line in BufReader::new(heap, rt.stdin())?.lines(heap) {
        writeln!(out, "{}", reply(line?.as_bytes(), heap)?)?;
    }
    out.flush()
}
