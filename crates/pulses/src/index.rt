ghost use Rattle.std.specs.Prelude.{◌≡◌, ◌^◌, ◌<◌, ◌≤◌, true, false, length, take, Ok, Err, MatchOption, MatchResult};
ghost use Rattle.pulses.specs.Rules.{bits as bits_of};
ghost use Rattle.pulses.specs.Reading.{pulses_of};
ghost use Rattle.pulses.specs.Calls.{used as used_by, accepts as accepted_by, write_index, read_index, handed, filled, ReadsByTheRules, EveryNumberHasOneSet, StrictIsOpen, AcceptsExactlyWhatIsWritten, GivesTheOnlyHouseIndex, WhateverTheSequence, IsReadAgain, AmplitudesTellTheSet};

use crate::bits::Bits;
use crate::pulse::Pulse;
use crate::read::Span;
use crate::set::{NONE, track_set};
use crate::write::Group;
use refusals::cause::Cause;
use refusals::refusal::Refusal;

/// Which indices are accepted: the house's alone, or every index.
#[derive(Clone, Copy, PartialEq, Eq, Debug)]
pub enum Reading {
    Strict,
    Open,
}

impl Reading {
    /// Whether `index` may stand for the set whose house index is `house`.
    fn accepts(self, house: u32, index: u32) -> bool
        ensures { result ≡ accepted_by self house index }
    {
        match self {
            Reading::Strict => house == index,
            Reading::Open => true,
        }
    }
}

/// How many bits an index of `number` pulses on a track of `width` has: 9 for
/// two pulses at width 4, and 0 for a number of pulses that has no rule.
// 0 bits are a number of bits: no `Option`. No product of an 8-bit width
// overflows, so that the answer is exact for every width.
pub fn index_bits(number: usize, width: u8) -> u32
    ensures { result ≡ bits_of number width }
{
    let width = u32::from(width);
    match number {
        1 => width + 1,
        2 => 2 * width + 1,
        3 => 3 * width + 1,
        4 => 4 * width,
        5 => 5 * width,
        6 => (6 * width).saturating_sub(2),
        _ => 0,
    }
}

/// A number of pulses on a track of a width at which some mode uses it.
#[derive(Clone, Copy)]
struct Used {
    number: usize,
    width: u32,
    ghost in_use: { used_by number width ≡ true },
}

impl Used {
    /// The pair, if some mode uses it.
    fn new(number: usize, width: u32) -> Option<Used>
        ensures { MatchOption result (used_by number width ≡ false) (λ u. (u.number ≡ number) × (u.width ≡ width)) }
    {
        match (number, width) {
            (1, 5) | (1..=6, 4) => Some(Used { number, width }),
            _ => None,
        }
    }

    /// How many bits its indices have.
    fn bits(self) -> u32
        ensures is { result ≡ bits_of self.number self.width }
        ensures few { result < 32 }
    {
        index_bits(self.number, self.width as u8)
    }

    /// The pulses of an index, group after group.
    fn pulses(self, index: u32) -> [Pulse; 6]
        requires { index < 2 ^ bits_of self.number self.width }
        ensures { take self.number result ≡ pulses_of self.number self.width index }
    {
        let mut raw = [NONE; 6];
        let index = Bits {
            value: index,
            count: self.bits(),
        };
        Span::track(self.width).read(index, &mut raw[..self.number]);
        raw
    }
}

/// The house index of the pulses, handed in in any sequence.
///
/// Refused, without a spot, where no mode uses this number of pulses on a
/// track of this width (`Cause::WrongNumber`), where a place is off the track
/// (`Cause::OffTrack`) and where a place has both signs (`Cause::BothSigns`),
/// asked in this order.
///
/// At width 4, `7-` and `3+` give 371, whichever comes first.
// Inlined: see `track_set`.
#[inline(always)]
#[tactic(auto, using(crate::proofs::CallLaws::writing_laws))]
pub fn write_index(width: u32, pulses: &[Pulse]) -> Result<u32, Refusal>
    ensures answer { result ≡ write_index width pulses.now }
    ensures gives_the_only_house_index { GivesTheOnlyHouseIndex width pulses.now }
    ensures whatever_the_sequence { WhateverTheSequence width pulses.now }
    ensures is_read_again { IsReadAgain width pulses.now }
    ensures amplitudes_tell_the_set { AmplitudesTellTheSet width pulses.now }
{
    let Used { number, width } = Used::new(pulses.len(), width).ok_or(Cause::WrongNumber)?;
    let row = track_set(number, width, pulses)?;
    let group = Group {
        width,
        pulses: &row[..number],
    };
    Ok(group.index().value)
}

/// The set of an index, in order, or why it has none.
fn read_set(how: Reading, number: usize, width: u32, index: u32) -> Result<[Pulse; 6], Refusal>
    ensures { MatchResult result (λ row. (read_index how number width index ≡ Ok (take number row)) × (number ≤ 6)) (λ e. read_index how number width index ≡ Err e) }
{
    let track = Used::new(number, width).ok_or(Cause::NoSuchIndex)?;
    if index >= 1 << track.bits() {
        return Err(Cause::NoSuchIndex.into());
    }
    let raw = track.pulses(index);
    let row = track_set(number, width, &raw[..number])?;
    let group = Group {
        width,
        pulses: &row[..number],
    };
    if !how.accepts(group.index().value, index) {
        return Err(Cause::NotHouseIndex.into());
    }
    Ok(row)
}

/// The pulses of an index, from the lowest place up, into the front of `out`;
/// answers their number.
///
/// Refused, without a spot, where no mode uses this number of pulses on a
/// track of this width or the index has more bits than such an index
/// (`Cause::NoSuchIndex`), where a place has both signs (`Cause::BothSigns`),
/// strictly where it is not the house index (`Cause::NotHouseIndex`), and
/// where `out` is too short (`Cause::BufferTooShort`), asked in this order.
/// A refusal leaves `out` as it was, and an answer what stands beyond the pulses.
///
/// Of three pulses at width 4, 601 reads as `1+ 2+ 3-`, but only openly: their
/// house index is 4874.
// The buffer is the caller's memory, and the answer how much of it is used:
// nothing here allocates.
#[tactic(auto, using(crate::proofs::CallLaws::reading_laws))]
pub fn read_index(
    how: Reading,
    number: usize,
    width: u32,
    index: u32,
    out: &mut [Pulse],
) -> Result<usize, Refusal>
    ensures answer { result ≡ handed (length out.old) (read_index how number width index) }
    ensures buffer { out.new ≡ filled out.old (read_index how number width index) }
    ensures reads_by_the_rules { ReadsByTheRules how number width index }
    ensures every_number_has_one_set { EveryNumberHasOneSet number width index }
    ensures strict_is_open { StrictIsOpen number width index }
    ensures accepts_exactly_what_is_written { AcceptsExactlyWhatIsWritten number width index }
{
    let row = read_set(how, number, width, index)?;
    if out.len() < number {
        return Err(Cause::BufferTooShort.into());
    }
    out[..number].copy_from_slice(&row[..number]);
    Ok(number)
}
