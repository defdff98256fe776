//! The kernels for C, and for every language that can call C: bit reversal and transposes of lists
//! of items of 1, 2, 4, 8, 12, 16, 20, 32 and 64 bytes. An item is an array of bytes, or of such
//! arrays, so a list may begin at any address. A call that has a condition returns whether it
//! holds. If it does not, the call changes nothing.
#![tactic(auto)]

pub mod bits;
mod callers;
mod interface;
pub mod reverse;
pub mod rows;
pub mod transpose;
