ghost use Rattle.std.specs.Prelude.{◌≡◌, ◌<◌, ◌≤◌, length, MatchResult, IfOk};
ghost use Rattle.refusals.specs.declared.cause.Cause.TheVariants.{NoSuchField};
ghost use Rattle.frames.specs.Frames.{count_of, pulses as pulses_of, track_refusal, TrackSet, TrackRefused, Handed, NotHanded};

use crate::frame::Frame;
use crate::refusing;
use modes::plan::Part;
use pulses::pulse::Pulse;
use pulses::set::track_set;
use refusals::cause::Cause;
use refusals::refusal::Refusal;

/// A refusal that tells the subframe and the track of a call.
fn refused(cause: Cause, subframe: usize, track: usize) -> Refusal
    ensures { result ≡ track_refusal cause subframe track }
{
    refusing::refused(cause, Part::Low(subframe, track))
}

impl Frame {
    /// The pulses of a track, from the lowest place up; none where the mode has
    /// no such track.
    pub(crate) fn pulses(&self, subframe: usize, track: usize) -> &[Pulse]
        ensures is { result.now ≡ pulses_of self.now subframe track }
        ensures long { length result.now ≡ count_of self.now subframe track }
        ensures few { length result.now ≤ 6 }
    {
        match self.mode.pulses_in(subframe, track) {
            0 => &[],
            count => &self.tracks[4 * subframe + track][..count],
        }
    }

    /// How many pulses a track has.
    ///
    /// Refused where the mode has no such track.
    fn count(&self, subframe: usize, track: usize) -> Result<usize, Refusal>
        ensures answer { MatchResult result (λ n. (0 < n) × (n ≡ count_of self.now subframe track)) (λ e. (count_of self.now subframe track ≡ 0) × (e ≡ track_refusal NoSuchField subframe track)) }
        ensures there { IfOk result (λ n. (n ≤ 6) × (subframe < 4) × (track < 4)) }
    {
        match self.mode.pulses_in(subframe, track) {
            0 => Err(refused(Cause::NoSuchField, subframe, track)),
            count => Ok(count),
        }
    }

    /// Sets the pulses of a track, given in any sequence.
    ///
    /// Refused where the mode has no such track (`Cause::NoSuchField`), where
    /// the number of pulses is another (`Cause::WrongNumber`), where a place is
    /// off the track (`Cause::OffTrack`) and where a place has both signs
    /// (`Cause::BothSigns`), asked in this order.
    // Inlined: see `pulses::set::track_set`.
    #[inline(always)]
    pub fn set_track(
        &mut self,
        subframe: usize,
        track: usize,
        pulses: &[Pulse],
    ) -> Result<(), Refusal>
        ensures { MatchResult result (λ _. TrackSet self.old self.new subframe track pulses.now) (λ e. TrackRefused self.old self.new subframe track pulses.now e) }
    {
        let count = self.count(subframe, track)?;
        let row = track_set(count, u32::from(self.mode.track_width()), pulses).map_err(|e| refused(
            e.cause, subframe, track,
        ))?;
        self.tracks[4 * subframe + track] = row;
        Ok(())
    }

    /// Writes the pulses of a track into the front of `out`, from the lowest
    /// place up, and answers their number; what stands behind them stays.
    ///
    /// Refused where the mode has no such track (`Cause::NoSuchField`), and
    /// where `out` is shorter than the pulses (`Cause::BufferTooShort`).
    // The memory is the caller's: nothing here allocates.
    pub fn track(&self, subframe: usize, track: usize, out: &mut [Pulse]) -> Result<usize, Refusal>
        ensures { MatchResult result (λ n. Handed self.now subframe track out.old out.new n) (λ e. NotHanded self.now subframe track out.old out.new e) }
    {
        let count = self.count(subframe, track)?;
        if out.len() < count {
            return Err(refused(Cause::BufferTooShort, subframe, track));
        }
        out[..count].copy_from_slice(self.pulses(subframe, track));
        Ok(count)
    }
}
