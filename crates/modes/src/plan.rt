ghost use Rattle.std.specs.Prelude.{◌≡◌, ◌<◌, ◌≤◌};
ghost use Rattle.modes.specs.Modes.{pulses_in};
ghost use Rattle.modes.specs.Fields.{width as width_of};
ghost use Rattle.modes.specs.Fields.{track_spot, part_spot};
ghost use Rattle.modes.specs.Plan.{index_bits as bits_in, high_bits, part_width, slot as slot_of, plan as plan_of, nth, total, Narrow, Totals};
ghost use Rattle.modes.specs.Places.{each as each_of, part_in};

use crate::field::Field;
use crate::mode::Mode;
use pulses::index::index_bits;
use refusals::refusal::Spot;

/// What a slot of the plan holds.
// Subframe and track are two numbers, since a refusal tells each on its own,
// and delays and most fields have a subframe alone.
#[derive(Clone, Copy, PartialEq, Eq, Debug)]
pub enum Part {
    /// A field.
    Value(Field),
    /// The high part of the index of a track, by subframe and track.
    High(usize, usize),
    /// Its low part: the whole index, where it is not cut.
    Low(usize, usize),
}

/// A slot of the plan: what it holds, and its width in bits, at least 1.
#[derive(Clone, Copy, PartialEq, Eq, Debug)]
pub struct Slot {
    pub part: Part,
    pub width: u8,
}

impl Part {
    /// What a refusal tells of the part: its subframe and track, each if it
    /// has one.
    pub fn spot(self) -> Spot
        ensures { result ≡ part_spot self }
    {
        match self {
            Part::Value(field) => field.spot(),
            Part::High(s, t) | Part::Low(s, t) => on_track(s, t),
        }
    }
}

impl Mode {
    /// The bits of a field; 0 where the mode has no such field.
    // 0 bits is a number of bits: public, and it cannot fail.
    pub fn field_bits(self, field: Field) -> u8
        ensures is { result ≡ width_of self field }
    {
        match field {
            Field::Voice => 1,
            Field::Spectrum(k) => self.row().spectrum.get(k).copied().unwrap_or(0),
            Field::Delay(s) => self.row().delays.get(s).copied().unwrap_or(0),
            Field::FilterFlag(s) => if s < 4 { self.row().filter_flag } else { 0 },
            Field::Gain(s) => if s < 4 { self.row().gain } else { 0 },
            Field::HighBandGain(s) => if s < 4 { self.row().high_band } else { 0 },
        }
    }

    /// The pulses of a track of a subframe; 0 where the mode has no such track.
    // No pulses is a number of pulses: public, and it cannot fail.
    pub fn pulses_in(self, subframe: usize, track: usize) -> usize
        ensures is { result ≡ pulses_in self subframe track }
        ensures few { result ≤ 6 }
        ensures has { 0 < result → (subframe < 4) × (track < 4) }
    {
        if subframe < 4 && track < 4 {
            usize::from(self.row().pulses[track])
        } else {
            0
        }
    }

    /// The bits of the index of a track; 0 where the mode has no such track.
    // The index of no pulses has 0 bits, and `part_bits` cannot fail.
    fn index_bits(self, subframe: usize, track: usize) -> u8
        ensures { result ≡ bits_in self subframe track }
    {
        index_bits(self.pulses_in(subframe, track), self.track_width()) as u8
    }

    /// The bits of a part; 0 where the mode has no such part.
    // 0 bits is a number of bits: public, and it cannot fail.
    pub fn part_bits(self, part: Part) -> u8
        ensures { result ≡ part_width self part }
    {
        match part {
            Part::Value(field) => self.field_bits(field),
            Part::High(s, t) => high_bits(self.index_bits(s, t)),
            Part::Low(s, t) => {
                let bits = self.index_bits(s, t);
                bits - high_bits(bits)
            }
        }
    }

    /// How many slots a subframe has: the delay, the filter flag, the high
    /// parts, the low parts, the gain, the high band gain.
    #[tactic(auto, using(crate::proofs::Modes::each_counted))]
    fn each(self) -> usize
        ensures is { result ≡ each_of self }
        ensures some { (1 ≤ result) × (result ≤ 12) }
    {
        let row = self.row();
        2 + usize::from(row.filter_flag) + row.cuts + row.tracks + usize::from(row.high_band > 0)
    }

    /// What slot `i` of subframe `s` holds: the delay, the filter flag, the
    /// high parts, the low parts, the gain, the high band gain.
    fn part_in(self, s: usize, i: usize) -> Part
        ensures { result ≡ part_in self s i }
    {
        if i == 0 {
            return Part::Value(Field::Delay(s));
        }
        let row = self.row();
        let first = 1 + usize::from(row.filter_flag);
        if i < first {
            return Part::Value(Field::FilterFlag(s));
        }
        let low = first + row.cuts;
        let gain = low + row.tracks;
        if i < gain {
            let high = i < low;
            let t = if high { i - first } else { i - low };
            return if high {
                Part::High(s, t)
            } else {
                Part::Low(s, t)
            };
        }
        Part::Value(if i == gain {
            Field::Gain(s)
        } else {
            Field::HighBandGain(s)
        })
    }

    /// A part with its width.
    fn slot(self, part: Part) -> Slot
        ensures { result ≡ slot_of self part }
    {
        Slot {
            part,
            width: self.part_bits(part),
        }
    }

    /// Slot `k` of the mode's plan, if it has so many.
    ///
    /// The plan lists the slots of a frame in the order of their bits: the
    /// voice flag, the spectrum, then each subframe.
    pub fn slot_at(self, k: usize) -> Option<Slot>
        ensures is { result ≡ nth (plan_of self) k }
        ensures narrow { Narrow result }
    {
        let heads = self.row().heads;
        if k < heads {
            return Some(self.slot(Part::Value(Field::at(k))));
        }
        let each = self.each();
        let s = (k - heads) / each;
        if s >= 4 {
            return None;
        }
        Some(self.slot(self.part_in(s, (k - heads) % each)))
    }

    /// The bits of a frame: `Mode::Rate12k65.bits()` is 253.
    // No column of `Row`, which has what the rules give: this is what the plan
    // adds up to.
    #[tactic(auto, using(crate::proofs::Modes::size_is, crate::proofs::Modes::size_most, crate::proofs::Modes::totals))]
    pub fn bits(self) -> usize
        ensures is { result ≡ total (plan_of self) }
        ensures most { result ≤ 477 }
        ensures totals { Totals }
    {
        match self {
            Mode::Rate6k60 => 132,
            Mode::Rate8k85 => 177,
            Mode::Rate12k65 => 253,
            Mode::Rate14k25 => 285,
            Mode::Rate15k85 => 317,
            Mode::Rate18k25 => 365,
            Mode::Rate19k85 => 397,
            Mode::Rate23k05 => 461,
            Mode::Rate23k85 => 477,
        }
    }
}

/// The spot of a track of a subframe.
fn on_track(subframe: usize, track: usize) -> Spot
    ensures { result ≡ track_spot subframe track }
{
    Spot {
        subframe: Some(subframe),
        track: Some(track),
        ..Spot::nowhere()
    }
}

/// How many bits of an index of `bits` bits are its high part.
fn high_bits(bits: u8) -> u8
    ensures is { result ≡ high_bits bits }
    ensures less { result ≤ bits }
{
    match bits {
        16 => 2,
        20 => 10,
        22 => 11,
        _ => 0,
    }
}
