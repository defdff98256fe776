//! Puts a large region: halves its longer side, and does the same with each half, until the parts are leaves. A *leaf*
//! is a part that is small or narrow.

ghost use Rattle.std.specs.Prelude.{◌≡◌, ◌+◌, ◌*◌, ◌/◌, ◌<◌, ◌≤◌, max, length};
ghost use Rattle.std.specs.Bool.{MatchBool};
ghost use Rattle.p3_util_kernels.specs.Halves.{AreHalves};
ghost use Rattle.p3_util_kernels.specs.Levels.{lev, nest};
ghost use Rattle.p3_util_kernels.specs.Region.{IsReady, IsRegionTransposed, LiesInMatrix, cols_of, items_of, rows_of};

use crate::bulk::{Ahead, Blocked};
use crate::ways::PutRegion;
use p3_util_kernels::transpose::split::{cut_in_half, is_leaf};
use p3_util_kernels::transpose::{Matrix, Region};

/// Splits `region` into leaves, with splits that nest at most `levels` deep, and puts each leaf in the way `leaf`. Also
/// returns how deep the splits nest.
pub(crate) fn put_split<M: Blocked, R: Ahead<Item = M::Item> + Copy, W: PutRegion>(
    out: M,
    matrix: Matrix<R>,
    region: Region,
    levels: u32,
    leaf: W,
) -> (M, u32)
    requires ready { IsReady region matrix.width matrix.height
        (R.items matrix.source) (M.items out) }
    requires enough { lev (rows_of region) (cols_of region) ≤ levels }
    ensures transposed { IsRegionTransposed region matrix.width matrix.height
        (R.items matrix.source)
        (M.items out) (M.items result.0) }
    ensures holder { M.same_holder (items_of region) out result.0 }
    ensures nested { result.1 ≡ nest (rows_of region) (cols_of region) }
    ensures bound { result.1 ≤ 57 }
{
    if is_leaf(region) {
        return (leaf.put(out, matrix, region), 0);
    }
    let (first, second) = cut_in_half(region);
    let (out, nested) = put_split(out, matrix, first, levels - 1, leaf);
    let (out, nested_after) = put_split(out, matrix, second, levels - 1, leaf);
    (out, 1 + nested.max(nested_after))
}
