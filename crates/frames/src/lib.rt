//! Speech frames as records of parameters and signed pulses.
//!
//! A [`frame::Frame`] is lawful for its mode whatever is done to it.
#![tactic(auto)]

/// What the pulses of a track add to a sample.
mod rows;
/// Refusals that tell a part of the plan.
mod refusing;
/// The frame record and its calls.
pub mod frame;
