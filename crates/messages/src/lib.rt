//! Messages of frames, read from any carrier.
//!
//! A message is, for each frame, its mode in 4 bits and its bits; then 1111;
//! then zeros up to a multiple of 8.
#![tactic(auto)]

/// Why the frames of a message are not handed out.
pub mod error;
/// The parts of a frame, by their places.
mod parts;
/// A frame that was read.
mod body;
/// Where reading stands, the fields there, and the spots that their refusals
/// tell.
mod fields;
/// The slots of a frame, one after the other.
mod slots;
/// The frames of a message, one after the other.
mod turns;
/// The record of a frame that was read.
mod records;
/// The calls: a message read, a frame of it returned.
pub mod reading;

pub use fields::filler;
