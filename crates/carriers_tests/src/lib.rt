//! Examples of carriers at work.
#![tactic(auto)]

/// Refusals as answers, and the numbers of their causes.
#[cfg(test)]
mod answers;
/// Octet carriers.
mod octets;
/// Word carriers.
mod words;
/// Fields and octets copied out.
mod fields;
