ghost use Rattle.std.specs.Prelude.{Some};
ghost use Rattle.sheets.specs.Lines.{line_text};

use frames::frame::delays::microseconds;
use std::fmt;

/// A line of a delay sheet.
#[derive(Clone, Copy)]
pub enum Line {
    /// The delay of a subframe, in quarter samples.
    Delay {
        frame: usize,
        subframe: usize,
        quarters: u16,
    },
    /// The number of frames, after all delays.
    End {
        frames: usize,
    },
    /// Why there is no sheet: the number of the refusal, and where it was met.
    // No `Refusal`: a line has the three numbers that it prints, and each of
    // its numbers may be any.
    Refused {
        number: u8,
        frame: u32,
        cell: usize,
    },
}

/// The fields of the line, parted by tabs: `D 0 0 136 2656` for a delay of 34
/// samples.
impl fmt::Display for Line {
    ghost output = { λ l. Some (line_text l) };

    fn fmt<W: fmt::Write>(&self, f: &mut fmt::Formatter<W>) -> fmt::Result {
        match *self {
            Line::Delay {
                frame,
                subframe,
                quarters,
            } => {
                let time = microseconds(quarters);
                write!(f, "D\t{frame}\t{subframe}\t{quarters}\t{time}")
            }
            Line::End { frames } => write!(f, "E\t{frames}"),
            Line::Refused {
                number,
                frame,
                cell,
            } => write!(f, "R\t{number}\t{frame}\t{cell}"),
        }
    }
}
