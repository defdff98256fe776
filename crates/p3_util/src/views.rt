//! Slices of arrays viewed as one list of their items, and vectors that are moved between the two shapes.

ghost use Rattle.std.specs.Prelude.{◌*◌, ◌^◌, ◌<◌, SomeIff};

mod base_iter;
mod base_slice;
mod base_slice_mut;
mod loans;
mod places;
mod rows;
mod vectors;

pub use base_iter::BaseIter;
pub use base_slice::{BaseSlice, as_base_slice};
pub use base_slice_mut::{BaseSliceMut, Flattened, as_base_slice_mut};
pub use rows::Rows;
pub use vectors::{flatten_to_base, reconstitute_from_base};

/// The number of items in `count` arrays of `n` items, or `None` if it does not fit in a `usize`.
pub fn flat_len(count: usize, n: usize) -> Option<usize>
    ensures { SomeIff result (count * n < 2 ^ 64) (count * n) }
{
    count.checked_mul(n)
}
