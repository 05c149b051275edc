//! Bits in memory, read and written one cell at a time.
//!
//! A carrier means a list of cells, each a zero, a one or bad. What reading
//! and writing promise is said once, by the two traits; the octet and the word
//! carriers keep them, and everything above is generic over them.
#![tactic(auto)]

/// A zero or a one.
pub mod bit;
/// What every carrier promises, for reading and for writing.
pub mod traits;
/// What memory is made of.
pub mod units;
/// The carriers on memory, to read and to write.
pub mod memory;
/// Reading memory.
pub mod reader;
/// Writing memory.
pub mod writer;
/// Octets as memory: eight cells to an octet.
pub mod octets;
/// Words as memory: one cell to a 16-bit word.
pub mod words;
/// Numbers as rows of cells.
pub mod fields;
/// The cells of a carrier as octets.
pub mod copying;
/// One field in octets and in words alike.
pub mod alike;
