//! The delay sheet of a message: the delays of all its subframes as lines of
//! text, or the one line that tells why it is refused.
#![tactic(auto)]

/// A line of a sheet.
pub mod line;
/// The line of a refusal.
mod refused;
/// The sheet of a message.
pub mod sheet;
