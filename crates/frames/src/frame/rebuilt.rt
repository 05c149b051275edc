ghost use Rattle.std.specs.Prelude.{◌≡◌};
ghost use Rattle.frames.specs.Frames.{FieldCopied, TrackCopied};

use crate::frame::Frame;
use modes::field::{CELLS, Field};

impl Frame {
    /// Sets a field of `to` to this record's, if the mode has it.
    fn copy_field(&self, to: &mut Frame, field: Field)
        requires mode { to.old.mode ≡ self.now.mode }
        ensures { FieldCopied self.now to.old to.new field }
    {
        if let Ok(value) = self.get(field) {
            let _ = to.set(field, value);
        }
    }

    /// Sets a track of `to` to this record's, if the mode has it.
    fn copy_track(&self, to: &mut Frame, subframe: usize, track: usize)
        requires mode { to.old.mode ≡ self.now.mode }
        ensures { TrackCopied self.now to.old to.new subframe track }
    {
        let _ = to.set_track(subframe, track, self.pulses(subframe, track));
    }

    /// The blank record of the mode with every field and every track set
    /// again: the same record. So every record is made by setting a blank one.
    pub fn rebuilt(&self) -> Frame
        ensures { result ≡ self.now }
    {
        let mut made = Frame::of(self.mode);
        for field in (0..CELLS).map(Field::at) {
            self.copy_field(&mut made, field);
        }
        for subframe in 0..4 {
            for track in 0..4 {
                self.copy_track(&mut made, subframe, track);
            }
        }
        made
    }
}
