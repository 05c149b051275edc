//! Signed pulses on a track, and the numbers that stand for sets of them.
#![tactic(auto)]

/// A pulse and its sign.
pub mod pulse;
/// The pulses of a track, questioned and put in order.
pub mod set;
/// Numbers of a known count of bits.
mod bits;
/// The index rules undone: from a number to its pulses.
mod read;
/// The index rules by the house's choices: from pulses to their number.
mod write;
/// The calls: an index written, an index read.
pub mod index;
/// The calls for a host program in C.
pub mod export;
/// Worked examples of the rules, proved.
pub mod examples;
