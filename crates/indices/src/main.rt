//! For each line `pulses width index` of standard input: the pulses of the
//! index from the lowest place up, the house index of their set, and whether
//! the line's index is that one.
#![tactic(auto)]

ghost use Rattle.std.specs.Prelude.{◌≤◌};

/// One line of input, octet by octet.
mod line;

use line::{Line, Question};
use pulses::index::{Reading, read_index, write_index};
use pulses::pulse::Pulse;
use pulses::set::NONE;
use refusals::refusal::Refusal;
use std::io::{BufWriter, Read, Write};
use std::{fmt, io};

/// What a question is answered with.
#[derive(Clone, Copy)]
struct Answer {
    // The calls hand the pulses out into a row of six, and this many stand in front.
    row: [Pulse; 6],
    number: usize,
    house: u32,
    /// The strictest way of reading that accepts the index.
    way: Reading,
    ghost few: { number ≤ 6 },
}

impl Answer {
    fn pulses(&self) -> &[Pulse] {
        &self.row[..self.number]
    }
}

/// The pulses, the house index, and whether the index is that one.
impl fmt::Display for Answer {
    fn fmt<W: fmt::Write>(&self, f: &mut fmt::Formatter<W>) -> fmt::Result {
        for (i, p) in self.pulses().iter().enumerate() {
            let blank = if i == 0 { "" } else { " " };
            write!(f, "{blank}{p}")?;
        }
        let house = self.house;
        let word = match self.way {
            Reading::Strict => "house",
            Reading::Open => "other",
        };
        write!(f, "\t{house}\t{word}")
    }
}

fn reply(q: Question) -> Result<Answer, Refusal> {
    let Question {
        pulses,
        width,
        index,
    } = q;
    let mut row = [NONE; 6];
    let number = read_index(Reading::Open, pulses as usize, width, index, &mut row)?;
    let house = write_index(width, &row[..number])?;
    let mut again = [NONE; 6];
    let way = match read_index(Reading::Strict, pulses as usize, width, index, &mut again) {
        Ok(_) => Reading::Strict,
        Err(_) => Reading::Open,
    };
    Ok(Answer {
        row,
        number,
        house,
        way,
    })
}

fn print_answer<W: Write>(out: &mut W, q: Question) -> io::Result<()> {
    match reply(q) {
        Ok(answer) => writeln!(out, "{q}\t{answer}"),
        Err(refusal) => {
            let number = u8::from(refusal.cause);
            writeln!(out, "{q}\tR\t{number}")
        }
    }
}

/// The line that is being taken, while it can still be three numbers, and its
/// number from 1.
#[derive(Clone, Copy)]
struct Input {
    line: Option<Line>,
    number: u64,
}

impl Input {
    /// Prints what the line is answered with, and goes to the next.
    fn end_line<W: Write>(&mut self, out: &mut W) -> io::Result<()> {
        match self.line.and_then(|line| line.question()) {
            Some(q) => print_answer(out, q)?,
            None => {
                let number = self.number;
                writeln!(out, "?\t{number}")?;
            }
        }
        self.line = Some(Line::new());
        self.number = self.number.saturating_add(1);
        Ok(())
    }

    /// Goes on with the line, or gives it up.
    fn go_on(&mut self, octet: u8) {
        let taken = self.line.as_mut().and_then(|line| line.take(octet));
        if taken.is_none() {
            self.line = None;
        }
    }

    fn take<W: Write>(&mut self, out: &mut W, octets: &[u8]) -> io::Result<()> {
        for octet in octets {
            match *octet {
                b'\n' => self.end_line(out)?,
                octet => self.go_on(octet),
            }
        }
        Ok(())
    }
}

fn main(rt: HostRuntime) -> io::Result<()> {
    let mut from = rt.stdin();
    let mut out = BufWriter::new(rt.alloc(), rt.stdout())?;
    let mut input = Input {
        line: Some(Line::new()),
        number: 1,
    };
    // By buffers of octets, and not by `bytes`: what that does for each octet
    // costs more than what the line does with it.
    let mut buf = [0u8; 4096];
    for _ in 0..u64::MAX {
        let n = from.read(&mut buf)?;
        if n == 0 {
            break;
        }
        input.take(&mut out, &buf[..n])?;
    }
    if !input.line.is_some_and(|line| line.is_empty()) {
        input.end_line(&mut out)?;
    }
    out.flush()
}
