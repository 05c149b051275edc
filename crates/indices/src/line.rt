use std::fmt;

/// What a line asks: the set of an index.
#[derive(Clone, Copy)]
pub struct Question {
    pub pulses: u32,
    pub width: u32,
    pub index: u32,
}

/// The three numbers, parted by tabs.
impl fmt::Display for Question {
    fn fmt<W: fmt::Write>(&self, f: &mut fmt::Formatter<W>) -> fmt::Result {
        let Question {
            pulses,
            width,
            index,
        } = *self;
        write!(f, "{pulses}\t{width}\t{index}")
    }
}

/// What the last octet of a line was.
#[derive(Clone, Copy)]
enum Last {
    /// There was none yet.
    Nothing,
    Digit,
    Blank,
    /// A carriage return, which only the line's end may follow.
    Return,
}

/// A line as far as it was taken: up to three decimal numbers of 32 bits,
/// parted by blanks and tabs. A carriage return may stand right before the
/// line's end.
// Octet by octet, with no `lines`, `split` and `parse`: a line may have no end,
// and one is kept in this much memory; nor is `+5` a number here.
#[derive(Clone, Copy)]
pub struct Line {
    numbers: [Option<u32>; 3],
    last: Last,
}

impl Line {
    pub fn new() -> Line {
        Line {
            numbers: [None; 3],
            last: Last::Nothing,
        }
    }

    /// Whether no octet was taken yet.
    pub fn is_empty(&self) -> bool {
        matches!(self.last, Last::Nothing)
    }

    /// Takes the line's next octet, if the line can still be three numbers.
    // In place: moving a line out and in again costs more than what most octets
    // do with it.
    pub fn take(&mut self, octet: u8) -> Option<()> {
        if matches!(self.last, Last::Return) {
            return None;
        }
        self.last = match octet {
            b'0'..=b'9' => {
                self.numbers = self.with_digit(octet - b'0')?;
                Last::Digit
            }
            b' ' | b'\t' => Last::Blank,
            b'\r' => Last::Return,
            _ => return None,
        };
        Some(())
    }

    /// The numbers with one more digit: of the last of them, or of a new one.
    fn with_digit(&self, digit: u8) -> Option<[Option<u32>; 3]> {
        match self.last {
            Last::Digit => with_digit(self.numbers, digit),
            _ => with_number(self.numbers, digit),
        }
    }

    /// The three numbers, if the line is three numbers.
    pub fn question(self) -> Option<Question> {
        let [pulses, width, index] = self.numbers;
        Some(Question {
            pulses: pulses?,
            width: width?,
            index: index?,
        })
    }
}

/// The numbers and one that begins with this digit, if there is room for it.
fn with_number(numbers: [Option<u32>; 3], digit: u8) -> Option<[Option<u32>; 3]> {
    let number = Some(u32::from(digit));
    match numbers {
        [None, _, _] => Some([number, None, None]),
        [a, None, _] => Some([a, number, None]),
        [a, b, None] => Some([a, b, number]),
        _ => None,
    }
}

/// The numbers, the last with one more digit, if it has 32 bits.
fn with_digit(numbers: [Option<u32>; 3], digit: u8) -> Option<[Option<u32>; 3]> {
    match numbers {
        [a, b, Some(c)] => Some([a, b, Some(longer(c, digit)?)]),
        [a, Some(b), None] => Some([a, Some(longer(b, digit)?), None]),
        [Some(a), None, None] => Some([Some(longer(a, digit)?), None, None]),
        _ => None,
    }
}

/// The number with one more digit, if it has 32 bits.
fn longer(number: u32, digit: u8) -> Option<u32> {
    number.checked_mul(10)?.checked_add(u32::from(digit))
}
