//! Worked examples and test vectors of the original for the crates of this workspace, as tests, and
//! the types that they use.
#![tactic(auto)]

pub use p3_util_examples::joined::Joined;

pub mod elements;
pub mod keys;
pub mod noted;
#[cfg(test)]
mod tests;
