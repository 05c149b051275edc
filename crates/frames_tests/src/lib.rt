//! Tests of the modes and the frames: the plan against the tables of bits of
//! Recommendation G.722.2, and records as a caller uses them.
#![tactic(auto)]

#[cfg(test)]
mod records;
#[cfg(test)]
mod tables;
