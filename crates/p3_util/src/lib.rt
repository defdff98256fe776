//! The small calls at the bottom of a proof system: bit reversal, transposes, logarithms, chunks, flattened views, a
//! map in insertion order, a zip of equal lengths, and arrays as JSON.
//!
//! The kernels and the arithmetic on integers are those of `p3_util_kernels`, re-exported here.
#![tactic(auto)]

pub mod array_serialization;
pub mod chunks;
pub mod linear_map;
mod no_room;
pub mod views;
pub mod zip_eq;

pub use chunks::{ArrayChunksPadded, apply_to_chunks, iter_array_chunks_padded};
pub use no_room::NoRoom;
pub use p3_util_kernels::bits::{
    assert_clone, branch_hint, checked_log_size_sum, checked_pow2, indices_arr, is_power_of_three,
    log2_ceil_u64, log2_ceil_usize, log2_floor_usize, log2_strict_usize, log3_strict_usize,
    pretty_name, reverse_bits, reverse_bits_len,
};
pub use p3_util_kernels::reverse::{
    fits_rows, reverse_chunks_on, reverse_index_bits_long, reverse_index_bits_on,
    reverse_index_bits_short, reverse_row_index_bits_on, reverse_slice_index_bits,
    reverse_slice_row_index_bits,
};
pub use p3_util_kernels::{bits, laws, places, reverse, transpose};
pub use views::{
    BaseIter, BaseSlice, BaseSliceMut, as_base_slice, as_base_slice_mut, flat_len, flatten_to_base,
    reconstitute_from_base,
};
