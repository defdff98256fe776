//! The transpose of a whole matrix, and the order in which a call in Rattle puts it.

ghost use Rattle.std.specs.Prelude.{◌≡◌, ◌*◌, ◌^◌, ◌<◌, length};
ghost use Rattle.p3_util_kernels.specs.Transpose.{IsTranspose};

use crate::bulk::{Ahead, Blocked};
use crate::slice_forms::order::Order;
use crate::strips::TINY_MATRIX;
use crate::ways::{Columns, PutRegion};
use p3_util_kernels::transpose::Matrix;

/// Transposes a matrix in an order that is chosen by its shape alone. The source is passed by value, here and in the
/// functions that this one calls. Behind a reference, the address of the items would be read from memory again for each
/// item.
#[inline(always)]
pub(crate) fn transpose_by_shape<M: Blocked, R: Ahead<Item = M::Item> + Copy>(
    out: M,
    matrix: Matrix<R>,
) -> M
    requires input_fits { length (R.items matrix.source) ≡ matrix.width * matrix.height }
    requires output_fits { length (M.items out) ≡ matrix.width * matrix.height }
    ensures order { IsTranspose matrix.width matrix.height (R.items matrix.source)
        (M.items result) }
    ensures holder { M.same_holder (matrix.width * matrix.height) out result }
{
    let items = matrix.source.len();
    // A matrix without items may have very many columns, which have no rows.
    if 0 < items && items < TINY_MATRIX {
        transpose_matrix(out, matrix, Columns)
    } else {
        transpose_outlined(out, matrix)
    }
}

/// Does the same as [`transpose_by_shape`], in the order for a matrix that is not tiny. It is not inlined, so that
/// calls for tiny matrices stay short.
#[inline(never)]
fn transpose_outlined<M: Blocked, R: Ahead<Item = M::Item> + Copy>(out: M, matrix: Matrix<R>) -> M
    requires input_fits { length (R.items matrix.source) ≡ matrix.width * matrix.height }
    requires output_fits { length (M.items out) ≡ matrix.width * matrix.height }
    ensures order { IsTranspose matrix.width matrix.height (R.items matrix.source)
        (M.items result) }
    ensures holder { M.same_holder (matrix.width * matrix.height) out result }
{
    transpose_matrix(out, matrix, Order::by_shape(matrix))
}

/// Transposes a matrix in the given order.
#[inline(always)]
pub(crate) fn transpose_matrix<M: Blocked, R: Ahead<Item = M::Item> + Copy, O: PutRegion>(
    out: M,
    matrix: Matrix<R>,
    order: O,
) -> M
    requires input_fits { length (R.items matrix.source) ≡ matrix.width * matrix.height }
    requires output_fits { length (M.items out) ≡ matrix.width * matrix.height }
    requires len_fits { length (R.items matrix.source) < 2 ^ 64 }
    ensures order { IsTranspose matrix.width matrix.height (R.items matrix.source)
        (M.items result) }
    ensures holder { M.same_holder (matrix.width * matrix.height) out result }
{
    let whole = matrix.whole();
    order.put(out, matrix, whole)
}
