//! Bit reversal and transposes of slices, as in `p3_util_kernels`, by faster ways and with the same contracts.
//!
//! The kernels here are generic over traits above `Places`, `Cells` and `Source`, whose methods make many steps at
//! once. Each such method has a proved body of single steps, and a holder of slices may have a faster one. The hidden
//! modules are for the crates of the package of plain Rust.
#![tactic(auto)]

#[doc(hidden)]
pub mod bulk;
#[doc(hidden)]
pub mod grid;
#[doc(hidden)]
pub mod registers;
#[doc(hidden)]
pub mod rows;
mod slice_forms;
#[doc(hidden)]
pub mod strips;
#[doc(hidden)]
pub mod ways;

pub use slice_forms::{reverse_slice_index_bits, reverse_slice_row_index_bits, transpose};
