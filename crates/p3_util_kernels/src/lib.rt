//! Bit reversal and transposes of large slices. The module [`places`] has the traits through which they reach a list,
//! and counters for the changes that they make. The private functions that do this work on any list are called
//! *kernels*.
#![tactic(auto)]

pub mod bits;
pub mod laws;
pub mod places;
pub mod reverse;
pub mod transpose;
