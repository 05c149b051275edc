ghost use Rattle.std.specs.Prelude.{◌≡◌, ◌++◌, ◌+◌, ◌<◌, ◌≤◌, length};
ghost use Rattle.carriers.specs.Fields.{bits_of};
ghost use Rattle.modes.specs.Plan.{part_width, plan, total};
ghost use Rattle.frames.specs.Frames.{value as value_of};
ghost use Rattle.frames.specs.Bits.{part_value, frame_bits};
ghost use Rattle.messages.specs.Messages.{filler as filler_of};
ghost use Rattle.messages.specs.Written.{as_cells, frame_cells};
ghost use Rattle.messages.specs.Indexed.{ended};
ghost use Rattle.writers.specs.Putting.{Indices};

use carriers::fields::put_bits;
use carriers::traits::WriteCarrier;
use frames::frame::Frame;
use messages::filler;
use modes::field::Field;
use modes::plan::Part;

/// Puts a field for which there is room.
// Each function here asks for other room and promises other cells, so no one
// fact on the carrier could stand in a type round it.
fn put_field<C: WriteCarrier>(carrier: &mut C, value: u32, width: u32)
    requires { length (C.cells carrier.old) + width ≤ C.room carrier.old }
    ensures fixed { C.room carrier.new ≡ C.room carrier.old }
    ensures home { C.home carrier.new ≡ C.home carrier.old }
    ensures put { C.cells carrier.new ≡ C.cells carrier.old ++ bits_of width value }
{
    let _ = put_bits(carrier, value, width);
}

/// The value of a field; 0 where the mode lacks it.
// No `Option`: a record keeps 0 for a field that its mode lacks.
fn field_value(frame: &Frame, field: Field) -> u32
    ensures { result ≡ value_of frame.now field }
{
    frame.get(field).map_or(0, u32::from)
}

/// What a frame has for a part of its plan, with the house indices of its
/// tracks at hand.
#[tactic(auto, using(crate::proofs::Parts::low_there, crate::proofs::Parts::high_there))]
fn part_value(frame: &Frame, indices: &[u32; 16], part: Part) -> u32
    requires tracks { Indices frame.now indices.now }
    requires has { 0 < part_width frame.now.mode part }
    ensures { result ≡ part_value frame.now part }
{
    match part {
        Part::Value(field) => field_value(frame, field),
        Part::High(s, t) => indices[4 * s + t] >> frame.mode().part_bits(Part::Low(s, t)),
        Part::Low(s, t) => {
            let width = frame.mode().part_bits(Part::Low(s, t));
            indices[4 * s + t] & ((1 << width) - 1)
        }
    }
}

/// Puts the bits of a frame along its plan.
fn put_slots<C: WriteCarrier>(carrier: &mut C, frame: &Frame)
    requires { length (C.cells carrier.old) + total (plan frame.now.mode) ≤ C.room carrier.old }
    ensures fixed { C.room carrier.new ≡ C.room carrier.old }
    ensures home { C.home carrier.new ≡ C.home carrier.old }
    ensures put { C.cells carrier.new ≡ C.cells carrier.old ++ as_cells (frame_bits frame.now) }
{
    let indices = frame.indices();
    for slot in frame.mode().slots() {
        let value = part_value(frame, &indices, slot.part);
        put_field(carrier, value, u32::from(slot.width));
    }
}

/// Puts the mode of a frame and its bits.
pub(crate) fn put_frame<C: WriteCarrier>(carrier: &mut C, frame: &Frame)
    requires { length (C.cells carrier.old) + 4 + total (plan frame.now.mode) ≤ C.room carrier.old }
    ensures fixed { C.room carrier.new ≡ C.room carrier.old }
    ensures home { C.home carrier.new ≡ C.home carrier.old }
    ensures put { C.cells carrier.new ≡ C.cells carrier.old ++ frame_cells frame.now }
{
    put_field(carrier, u32::from(u8::from(frame.mode())), 4);
    put_slots(carrier, frame);
}

/// Puts 1111, and zeros up to a multiple of eight.
pub(crate) fn put_end<C: WriteCarrier>(carrier: &mut C)
    requires { length (C.cells carrier.old) + 4 + filler_of (length (C.cells carrier.old) + 4) ≤ C.room carrier.old }
    ensures fixed { C.room carrier.new ≡ C.room carrier.old }
    ensures home { C.home carrier.new ≡ C.home carrier.old }
    ensures put { C.cells carrier.new ≡ ended (C.cells carrier.old) }
{
    let fill = filler(carrier.len() + 4);
    put_field(carrier, 15, 4);
    put_field(carrier, 0, u32::from(fill));
}
