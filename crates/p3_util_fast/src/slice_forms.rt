//! The calls on slices, with the contracts of those of `p3_util_kernels`.

ghost use Rattle.std.specs.Prelude.{◌≡◌, ℕ, ◌+◌, ◌*◌, ◌^◌, ◌<◌, length, slice_get};
ghost use Rattle.p3_util_kernels.specs.Digits.{rev};
ghost use Rattle.p3_util_kernels.specs.Reversal.{FitsRows, IsReversal, IsReversible, IsRowReversal};
ghost use Rattle.p3_util_kernels.specs.Transpose.{IsTranspose};

mod matrix;
mod order;
mod split;

use crate::bulk::Ahead;
use crate::rows::reverse_rows;
use matrix::transpose_by_shape;
use p3_util_kernels::places::{SliceCells, SlicePlaces, SliceSource};
use p3_util_kernels::transpose::Matrix;

/// Reverses the order of `vals` by index bits, and does not check the length: it must be zero or a power of two, which
/// `fits_rows(vals.len(), 1)` or std's `is_power_of_two` checks.
///
/// With 2^k items, index `i` gets the item from the index that has the k bits of `i` in reversed order. A second call
/// restores the original order. No item is cloned or dropped.
#[tactic(auto, using(p3_util_kernels::proofs::ReverseLemmas::Reversal::reversed_place, p3_util_kernels::proofs::ReverseLemmas::Lengths::rows_of_one))]
pub fn reverse_slice_index_bits<F>(vals: &mut [F])
    requires { IsReversible (length vals.old) }
    ensures order { IsReversal vals.old vals.new }
    ensures inverse { IsReversal vals.new vals.old }
    ensures at { (k i : ℕ) → length vals.old ≡ 2 ^ k → i < 2 ^ k
        → slice_get vals.new i ≡ slice_get vals.old (rev k i) }
{
    let _ = reverse_items(vals, 1);
}

/// Reverses the order of the rows of `vals` by index bits, and does not check the length: the rows must have
/// `row_width` items each, and their number must be zero or a power of two, which `fits_rows(vals.len(), row_width)`
/// checks.
///
/// With 2^k rows, the row at index `r` comes from the index that has the k bits of `r` in reversed order. A second call
/// restores the original order. No item is cloned or dropped.
pub fn reverse_slice_row_index_bits<F>(vals: &mut [F], row_width: usize)
    requires { FitsRows (length vals.old) row_width }
    ensures order { IsRowReversal row_width vals.old vals.new }
    ensures inverse { IsRowReversal row_width vals.new vals.old }
    ensures at { (k r j : ℕ) → length vals.old ≡ row_width * 2 ^ k → r < 2 ^ k → j < row_width
        → slice_get vals.new (r * row_width + j) ≡ slice_get vals.old (rev k r * row_width + j) }
{
    let _ = reverse_items(vals, row_width);
}

/// Transposes `input`, a matrix of `height` rows of `width` items, into `output`, and does not check the lengths: both
/// must be `width * height`, which [`fits_matrix`] checks.
///
/// The item at `y * width + x` of `input` is put at `x * height + y` of `output`. If you transpose `output`, as a
/// matrix of `width` rows of `height` items, you get `input` again.
#[tactic(auto, using(p3_util_kernels::proofs::TransposeLemmas::Matrix::transpose_turned))]
pub fn transpose<T: Copy>(input: &[T], output: &mut [T], width: usize, height: usize)
    requires input_fits { length input.now ≡ width * height }
    requires output_fits { length output.old ≡ width * height }
    ensures order { IsTranspose width height input.now output.new }
    ensures inverse { IsTranspose height width output.new input.now }
{
    let _ = transpose_items(Matrix::new(SliceSource::new(input), width, height), output);
}

/// Runs the kernel on a holder of the slice, and returns the slice. Single items are rows of one item. The kernel takes
/// the holder by value. After that, a proof knows nothing about the slice that the holder borrowed. So the contract is
/// about the slice that is returned, and says by `ghost_name` that this is the slice `vals`.
#[inline(always)]
fn reverse_items<F>(vals: &mut [F], row_width: usize) -> &mut [F]
    requires { FitsRows (length vals.old) row_width }
    ensures order { IsRowReversal row_width vals.old result.now }
    ensures slice { result.ghost_name ≡ vals.entry.ghost_name }
{
    let SlicePlaces { items } = reverse_rows(SlicePlaces::new(vals), row_width);
    items
}

/// Does for a transpose what [`reverse_items`] does for a reversal.
#[inline(always)]
fn transpose_items<T: Copy, R: Ahead<Item = T> + Copy>(
    matrix: Matrix<R>,
    output: &mut [T],
) -> &mut [T]
    requires input_fits { length (R.items matrix.source) ≡ matrix.width * matrix.height }
    requires output_fits { length output.old ≡ matrix.width * matrix.height }
    ensures order { IsTranspose matrix.width matrix.height (R.items matrix.source) result.now }
    ensures slice { result.ghost_name ≡ output.entry.ghost_name }
{
    let out = SliceCells::new(output);
    let SliceCells { values } = transpose_by_shape(out, matrix);
    values
}
