//! The transpose of a large region, which is halved at its longer side until the parts are leaves.
//!
//! A *leaf* is a part that is small or narrow. It is put as a region of buffered tiles.

ghost use Rattle.std.specs.Prelude.{◌≡◌, ◌+◌, ◌*◌, ◌/◌, ◌<◌, ◌≤◌, max, length};
ghost use Rattle.std.specs.Bool.{MatchBool};
ghost use Rattle.p3_util_kernels.specs.Halves.{AreHalves};
ghost use Rattle.p3_util_kernels.specs.Levels.{lev, nest};
ghost use Rattle.p3_util_kernels.specs.Region.{IsRegionTransposed, LiesInMatrix, cols_of, items_of, rows_of};
ghost use Rattle.p3_util_kernels.specs.Steps.{counted};

use crate::places::{Cells, SliceSource, Source, Writes, len_fits};
use crate::transpose::region::{Matrix, Region, put_region};
use crate::transpose::tile::Tiles;

/// A part is a leaf if neither of its sides is greater than this.
const LEAF_SIDE: usize = 128;

/// A part is also a leaf if one of its sides is not greater than this, however long the other side is.
const NARROW_SIDE: usize = 2;

/// Writes the transpose of `region` to `out`, as [`transpose_region_on`](crate::transpose::transpose_region_on) does,
/// but splits the region first.
///
/// Returns how deep the splits nest, which is at most 57.
///
/// There is no split if both sides of the region are at most 128 or one of them is at most 2. Otherwise the longer side
/// is halved. If both sides are equal, the rows are halved. If the length of the side is odd, the first half is the
/// shorter one. Each half is then split and written in the same way. In each tile of 16 by 16 items, the 16 items of a
/// column are written one right after the other. The contract does not promise this order, but it is tested.
///
/// `levels` limits how deep the splits may nest, and must be enough for the region. 64 levels are enough for every
/// region of a matrix. The other preconditions are those of
/// [`transpose_region_on`](crate::transpose::transpose_region_on).
pub fn transpose_split_on<C: Cells>(
    input: &[C::Item],
    out: &mut Writes<C>,
    region: Region,
    width: usize,
    height: usize,
    levels: u32,
) -> u32
    requires input_fits { length input.now ≡ width * height }
    requires output_fits { length (C.items out.old.holder) ≡ width * height }
    requires inside { LiesInMatrix region width height }
    requires enough { lev (rows_of region) (cols_of region) ≤ levels }
    ensures transposed { IsRegionTransposed region width height input.now
        (C.items out.old.holder) (C.items out.new.holder) }
    ensures count { out.new.count ≡ counted out.old.count (items_of region) }
    ensures nested { result ≡ nest (rows_of region) (cols_of region) }
    ensures bound { result ≤ 57 }
    ensures holder { C.same_holder (items_of region) out.old.holder out.new.holder }
{
    transpose_source_split_on(&SliceSource::new(input), out, region, width, height, levels)
}

/// Writes the transpose of a region of any source to `out`, as [`transpose_split_on`] does for a slice. The
/// preconditions are the same.
#[tactic(auto, using(crate::proofs::TransposeLemmas::Halves::enough_levels))]
pub fn transpose_source_split_on<R, C>(
    input: &R,
    out: &mut Writes<C>,
    region: Region,
    width: usize,
    height: usize,
    levels: u32,
) -> u32
where
    C: Cells,
    R: Source<Item = C::Item>,
    requires input_fits { length (R.items input.now) ≡ width * height }
    requires output_fits { length (C.items out.old.holder) ≡ width * height }
    requires inside { LiesInMatrix region width height }
    requires enough { lev (rows_of region) (cols_of region) ≤ levels }
    ensures transposed { IsRegionTransposed region width height (R.items input.now)
        (C.items out.old.holder) (C.items out.new.holder) }
    ensures count { out.new.count ≡ counted out.old.count (items_of region) }
    ensures nested { result ≡ nest (rows_of region) (cols_of region) }
    ensures bound { result ≤ 57 }
    ensures holder { C.same_holder (items_of region) out.old.holder out.new.holder }
{
    len_fits(input.len());
    if is_leaf(region) {
        put_region(
            Matrix::new(input, width, height),
            out,
            region,
            Tiles::Buffered,
        );
        return 0;
    }
    let (first, second) = cut_in_half(region);
    let nested = transpose_source_split_on(input, out, first, width, height, levels - 1);
    let nested_after = transpose_source_split_on(input, out, second, width, height, levels - 1);
    1 + nested.max(nested_after)
}

/// Whether `region` is put without a split.
#[tactic(auto, using(crate::proofs::TransposeLemmas::Levels::leaves))]
#[doc(hidden)]
pub fn is_leaf(region: Region) -> bool
    requires rows_in_order { region.row_start ≤ region.row_end }
    requires cols_in_order { region.col_start ≤ region.col_end }
    ensures { let rows = rows_of region in let cols = cols_of region in
        MatchBool result (nest rows cols ≡ 0) ((NARROW_SIDE < rows) × (NARROW_SIDE < cols)
        × (LEAF_SIDE < max rows cols)) }
{
    let (rows, cols) = (region.rows(), region.cols());
    rows.min(cols) <= NARROW_SIDE || rows.max(cols) <= LEAF_SIDE
}

/// Halves the longer side of `region`, and the rows if both sides are equal. The length of the first half is rounded
/// down.
#[tactic(auto, using(crate::proofs::TransposeLemmas::Halves::halved))]
#[doc(hidden)]
pub fn cut_in_half(region: Region) -> (Region, Region)
    requires rows_in_order { region.row_start ≤ region.row_end }
    requires cols_in_order { region.col_start ≤ region.col_end }
    requires large { let rows = rows_of region in let cols = cols_of region in
        (NARROW_SIDE < rows) × (NARROW_SIDE < cols) × (LEAF_SIDE < max rows cols) }
    ensures { AreHalves region result.0 result.1 }
{
    let (rows, cols) = (region.rows(), region.cols());
    if rows >= cols {
        region.cut_rows(region.row_start + rows / 2)
    } else {
        region.cut_cols(region.col_start + cols / 2)
    }
}
