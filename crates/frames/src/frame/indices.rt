ghost use Rattle.std.specs.Prelude.{◌≡◌, ℕ, ◌+◌, ◌*◌, ◌<◌, slice_index};
ghost use Rattle.frames.specs.Bits.{index as index_of};

use crate::frame::Frame;
use pulses::index::write_index;

impl Frame {
    /// The house index of the pulses of a track; 0 where the mode has no such
    /// track.
    fn index(&self, subframe: usize, track: usize) -> u32
        ensures { result ≡ index_of self.now subframe track }
    {
        // refused only where there is no pulse
        write_index(
            u32::from(self.mode.track_width()),
            self.pulses(subframe, track),
        )
        .unwrap_or(0)
    }

    /// The house indices of all tracks, that of track t of subframe s at
    /// 4s + t; 0 where the mode has no such track.
    pub fn indices(&self) -> [u32; 16]
        ensures { (s t : ℕ) → s < 4 → t < 4 → slice_index result (4 * s + t) ≡ index_of self.now s t }
    {
        std::array::from_fn(|at| self.index(at / 4, at % 4))
    }
}
