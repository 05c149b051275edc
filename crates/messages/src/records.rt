ghost use Rattle.std.specs.Prelude.{◌≡◌, ◌<◌};
ghost use Rattle.modes.specs.Plan.{part_width};
ghost use Rattle.modes.specs.declared.plan.Part.TheVariants.{Low as LowOf};
ghost use Rattle.frames.specs.Frames.{TrackCopied};
ghost use Rattle.frames.specs.declared.frame.Frame.{Frame as AFrame};
ghost use Rattle.messages.specs.Seen.{content_of};
ghost use Rattle.messages.specs.Contents.{Stands};
ghost use Rattle.messages.specs.Building.{Copied};

use crate::body::Body;
use crate::parts::FieldValue;
use frames::frame::Frame;
use modes::plan::Part;
use pulses::set::NONE;

impl Body {
    /// Sets a track of a record to the set of its index.
    fn put_track(&self, built: &mut Frame, s: usize, t: usize)
        requires has { 0 < part_width self.now.parts.mode (LowOf s t) }
        requires mode { built.old.mode ≡ self.now.parts.mode }
        ensures { (f : AFrame) → Stands (content_of self.now) f → TrackCopied f built.old built.new s t }
    {
        let parts = &self.parts;
        let low = FieldValue {
            number: parts.get(Part::Low(s, t)),
            width: parts.mode.part_bits(Part::Low(s, t)),
        };
        let mut row = [NONE; 6];
        if let Ok(n) = parts.read_track(s, t, low, &mut row) {
            let _ = built.set_track(s, t, &row[0..n]);
        }
    }

    /// Sets a part of a record.
    fn put_part(&self, built: &mut Frame, part: Part)
        requires has { 0 < part_width self.now.parts.mode part }
        requires mode { built.old.mode ≡ self.now.parts.mode }
        ensures { (f : AFrame) → Stands (content_of self.now) f → Copied f built.old built.new part }
    {
        match part {
            Part::Value(field) => {
                let _ = built.set(field, self.parts.get(part));
            }
            Part::High(_, _) => {}
            Part::Low(s, t) => self.put_track(built, s, t),
        }
    }

    /// The record of a frame that was read.
    pub(crate) fn record(&self) -> Frame
        ensures { Stands (content_of self.now) result }
    {
        let mode = self.parts.mode;
        let mut built = Frame::of(mode);
        for slot in mode.slots() {
            self.put_part(&mut built, slot.part);
        }
        built
    }
}
