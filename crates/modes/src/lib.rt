//! The modes of the codec, the fields that each gives a frame, and its plan:
//! the list of a frame's slots in the order of their bits.
#![tactic(auto)]

/// The nine modes, and what each gives a frame.
pub mod mode;
/// The fields of a frame.
pub mod field;
/// The plan of a mode: its slots in the order of their bits.
pub mod plan;
/// Going over a plan.
pub mod slots;
