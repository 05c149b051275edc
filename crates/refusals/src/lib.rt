//! Why a call refuses, and where.
//!
//! Every refusal of the library is a [`Cause`] and a [`Spot`]. The number and
//! the layer of a cause are given once, by `specs/Refusals.antt`.
#![tactic(auto)]

pub mod cause;
pub mod refusal;
