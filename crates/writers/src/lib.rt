//! Frames and the end of a message, put on any carrier: what the writing of
//! messages stands on.
#![tactic(auto)]

/// Fields, frames and the end, put where there is room for them.
mod putting;
