ghost use Rattle.std.specs.Prelude.{◌≡◌, ◌<◌, length, MatchResult};
ghost use Rattle.refusals.specs.declared.cause.Cause.TheVariants.{BufferTooShort};
ghost use Rattle.refusals.specs.Spots.{because as because_of};
ghost use Rattle.frames.specs.Sound.{sample as sample_at, Sounded};

use crate::frame::Frame;
use crate::rows::amplitude;
use refusals::cause::Cause;
use refusals::refusal::Refusal;

impl Frame {
    /// The amplitude of sample `k` of the frame's 256.
    fn sample(&self, k: usize) -> i8
        requires { k < 256 }
        ensures { result ≡ sample_at self.now k }
    {
        let tracks = self.mode.tracks();
        let (subframe, j) = (k / 64, k % 64);
        amplitude(self.pulses(subframe, j % tracks), (j / tracks) as u8)
    }

    /// Fills the front of `out` with the frame's 256 amplitudes, from -6 to 6,
    /// 64 for each subframe; what stands behind them stays.
    ///
    /// Refused where `out` is shorter than 256 (`Cause::BufferTooShort`).
    // The memory is the caller's, who may have more of it than a frame needs:
    // nothing here allocates.
    pub fn excitation(&self, out: &mut [i8]) -> Result<(), Refusal>
        ensures { MatchResult result (λ _. Sounded self.now out.old out.new) (λ e. (length out.old < 256) × (e ≡ because_of BufferTooShort) × (out.new ≡ out.old)) }
    {
        if out.len() < 256 {
            return Err(Cause::BufferTooShort.into());
        }
        for (k, sample) in out[..256].iter_mut().enumerate() {
            *sample = self.sample(k);
        }
        Ok(())
    }
}
