ghost use Rattle.std.specs.Prelude.{◌≡◌, ◌+◌, ◌*◌, ◌<◌, ◌≤◌, if◌then◌else◌, length, nat_lt, slice_index, slice_set};
ghost use Rattle.pulses.specs.Calls.{handed, filled};
ghost use Rattle.frames.specs.Bits.{place_of};
ghost use Rattle.messages.specs.Messages.{joined as joined_of, questioned, blank};
ghost use Rattle.messages.specs.Asked.{completed as completed_by, track_read, track_asked};

use modes::field::Field;
use modes::mode::Mode;
use modes::plan::Part;
use pulses::index::{Reading, read_index};
use pulses::pulse::Pulse;
use pulses::set::NONE;
use refusals::refusal::Refusal;

/// The value of a field, in so many bits.
// Not the `Bits` of `pulses`, which are private to it, of 32 bits, and there to
// be cut and put together.
#[derive(Clone, Copy)]
pub(crate) struct FieldValue {
    pub number: u16,
    pub width: u8,
    ghost narrow: { width ≤ 16 },
}

/// The parts of a frame as they were read: how, in which mode, and their
/// values by the places of the parts.
#[derive(Clone, Copy)]
pub(crate) struct Parts {
    pub how: Reading,
    pub mode: Mode,
    // One for each part that some mode has: nothing here allocates.
    pub values: [u16; 57],
}

/// The place of a part that no frame has, after those of all others.
// No `Option`: a value stands here too, 0 in every frame, so that such a part
// needs no case of its own where it is read or set.
const NO_PLACE: usize = 56;

/// Place `n` of a subframe, in the order of the parts.
fn in_subframe(subframe: usize, n: usize) -> usize
    requires { n < 12 }
    ensures few { result < 57 }
    ensures is { result ≡ (if nat_lt subframe 4 then 8 + 12 * subframe + n else 56) }
{
    if subframe < 4 {
        8 + 12 * subframe + n
    } else {
        NO_PLACE
    }
}

/// The place of a part in the order of the parts.
fn place(part: Part) -> usize
    ensures few { result < 57 }
    ensures is { result ≡ place_of part }
{
    match part {
        Part::Value(Field::Voice) => 0,
        Part::Value(Field::Spectrum(k)) => if k < 7 { 1 + k } else { NO_PLACE },
        Part::Value(Field::Delay(s)) => in_subframe(s, 0),
        Part::Value(Field::FilterFlag(s)) => in_subframe(s, 1),
        Part::Value(Field::Gain(s)) => in_subframe(s, 10),
        Part::Value(Field::HighBandGain(s)) => in_subframe(s, 11),
        Part::High(s, t) => if t < 4 {
            in_subframe(s, 2 + t)
        } else {
            NO_PLACE
        },
        Part::Low(s, t) => if t < 4 {
            in_subframe(s, 6 + t)
        } else {
            NO_PLACE
        },
    }
}

/// An index from its parts.
fn joined(high: u16, low: FieldValue) -> u32
    ensures { result ≡ joined_of high low.width low.number }
{
    u32::from(high) * (1u32 << low.width) + u32::from(low.number)
}

/// The track that is whole with a part, by its subframe and its number.
fn completed(part: Part) -> Option<(usize, usize)>
    ensures { result ≡ completed_by part }
{
    match part {
        Part::Value(_) => None,
        Part::High(_, _) => None,
        Part::Low(s, t) => Some((s, t)),
    }
}

impl Parts {
    /// No value read yet.
    pub(crate) fn none(how: Reading, mode: Mode) -> Parts
        ensures how { result.how ≡ how }
        ensures mode { result.mode ≡ mode }
        ensures values { result.values ≡ blank }
    {
        Parts {
            how,
            mode,
            values: [0; 57],
        }
    }

    /// The value of a part.
    pub(crate) fn get(&self, part: Part) -> u16
        ensures { result ≡ slice_index self.now.values (place_of part) }
    {
        self.values[place(part)]
    }

    /// Sets the value of a part.
    pub(crate) fn put(&mut self, part: Part, value: u16)
        ensures how { self.new.how ≡ self.old.how }
        ensures mode { self.new.mode ≡ self.old.mode }
        ensures values { self.new.values ≡ slice_set self.old.values (place_of part) value }
    {
        self.values[place(part)] = value;
    }

    /// The pulses of a track whose low part is `low`, into the front of a row;
    /// answers their number.
    pub(crate) fn read_track(
        &self,
        s: usize,
        t: usize,
        low: FieldValue,
        row: &mut [Pulse],
    ) -> Result<usize, Refusal>
        ensures answer { result ≡ handed (length row.old) (track_read self.now.how self.now.mode self.now.values low.width low.number s t) }
        ensures buffer { row.new ≡ filled row.old (track_read self.now.how self.now.mode self.now.values low.width low.number s t) }
    {
        let index = joined(self.get(Part::High(s, t)), low);
        let n = self.mode.pulses_in(s, t);
        let places = u32::from(self.mode.track_width());
        read_index(self.how, n, places, index, row)
    }

    /// Why the index of a track is refused, whose low part is `low`.
    #[tactic(auto, using(crate::proofs::Questions::asks_ok, crate::proofs::Questions::asks_err))]
    fn ask_track(&self, s: usize, t: usize, low: FieldValue) -> Result<(), Refusal>
        ensures { result ≡ track_asked self.now.how self.now.mode self.now.values low.width low.number s t }
    {
        self.read_track(s, t, low, &mut [NONE; 6])?;
        Ok(())
    }

    /// Why the value of a part is refused, after the values before it: a
    /// track is asked with its last part.
    // Inlined, since it is asked for each slot, and most parts ask nothing.
    #[inline(always)]
    #[tactic(auto, using(crate::proofs::Asked::by_whole))]
    pub(crate) fn question(&self, part: Part, value: FieldValue) -> Result<(), Refusal>
        ensures { result ≡ questioned self.now.how self.now.mode self.now.values part value.width value.number }
    {
        match completed(part) {
            None => Ok(()),
            Some((s, t)) => self.ask_track(s, t, value),
        }
    }
}
