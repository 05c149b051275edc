ghost use Rattle.std.specs.Prelude.{◌≡◌, Decides};
ghost use Rattle.frames.specs.Bits.{frame_bits, Agree, LengthIsPlanned, ReadingUndoesWriting, ValuesTellRecords, EqualBitsAgree, RecordIsItsParts};

use crate::frame::Frame;

impl Frame {
    /// Whether both records are of one mode and agree in every field that is
    /// no pulse field and in excitation: just then their bits are equal.
    #[tactic(auto, using(crate::proofs::Matching::same_records, crate::proofs::Matching::same_agree, crate::proofs::Matching::same_bits, crate::proofs::Written::length_is_planned, crate::proofs::Written::reading_undoes_writing, crate::proofs::Agreeing::equal_bits_agree, crate::proofs::Written::record_is_its_parts))]
    pub fn agrees(&self, other: &Frame) -> bool
        ensures agree { Decides result ((self.now.mode ≡ other.now.mode) × Agree self.now other.now) }
        ensures bits { Decides result ((self.now.mode ≡ other.now.mode) × (frame_bits self.now ≡ frame_bits other.now)) }
        ensures same { Decides result (self.now ≡ other.now) }
        ensures length { LengthIsPlanned }
        ensures reading { ReadingUndoesWriting }
        ensures values { ValuesTellRecords }
        ensures equal { EqualBitsAgree }
        ensures parts { RecordIsItsParts }
    {
        self == other
    }
}
