//! The regions that the transpose of a matrix is cut into.

ghost use Rattle.std.specs.Prelude.{◌≡◌, ℕ, ◌+◌, ◌*◌, ◌%◌, ◌^◌, ◌<◌, ◌≤◌, ◌↔◌, IsTrue, false, if◌then◌else◌, length, max};
ghost use Rattle.p3_util_dispatch.specs.Parts.{IsLeastPartLen, part_of_matrix, parts_in, start_of};
ghost use Rattle.p3_util_kernels.specs.Region.{IsRegionTransposed, LiesInMatrix, items_of};

use crate::calls::{Output, transpose_region};
use crate::parts::Cut;
use crate::parts::lists::{Part, Plan};
use p3_util_fast::bulk::Ahead;
use p3_util_fast::strips::UNIT;
use p3_util_kernels::transpose::{Matrix, Region};

/// The transpose of a matrix of `height` rows of `width` items, cut into regions of neighbouring
/// rows or of neighbouring columns.
#[derive(Clone, Copy)]
pub(crate) struct TransposePlan {
    pub width: usize,
    pub height: usize,
    by_rows: bool,
    cut: Cut,
    pub ghost side: { 0 < cut.len → cut.len ≡ if by_rows then height else width },
    pub ghost all: { cut.len ≡ 0 → width * height ≡ 0 },
    pub ghost len_fits: { width * height < 2 ^ 64 },
}

impl TransposePlan {
    /// Cuts the longer side into at most `parts` parts, at multiples of `UNIT`. If
    /// `may_cut_rows` is false, the columns are cut, whichever side is longer. A `parts` of 0
    /// counts as 1. A matrix without items has no region.
    pub(crate) fn new(
        width: usize,
        height: usize,
        parts: usize,
        may_cut_rows: bool,
    ) -> TransposePlan
        requires { width * height < 2 ^ 64 }
        ensures width { result.width ≡ width }
        ensures height { result.height ≡ height }
        ensures by_rows { IsTrue result.by_rows ↔ (IsTrue may_cut_rows × (width < height)) }
        ensures empty { width * height ≡ 0 → parts_in result.cut.len result.cut.part_len ≡ 0 }
        ensures few { parts_in result.cut.len result.cut.part_len ≤ max parts 1 }
        ensures least { IsLeastPartLen parts UNIT result.cut.len result.cut.part_len }
        ensures units { (k : ℕ) → k < parts_in result.cut.len result.cut.part_len
            → start_of result.cut.len result.cut.part_len k % UNIT ≡ 0 }
    {
        let by_rows = may_cut_rows && height > width;
        let side = if width == 0 || height == 0 {
            0
        } else if by_rows {
            height
        } else {
            width
        };
        TransposePlan {
            width,
            height,
            by_rows,
            cut: Cut::new(side, parts, UNIT),
        }
    }

    /// Region `number`.
    pub(crate) fn region(self, number: usize) -> Region
        requires { number < parts_in self.cut.len self.cut.part_len }
        ensures region { result ≡ part_of_matrix self.width self.height self.by_rows self.cut.len
            self.cut.part_len number }
        ensures inside { LiesInMatrix result self.width self.height }
    {
        let (from, to) = self.cut.part(number);
        if self.by_rows {
            Region {
                row_start: from,
                row_end: to,
                col_start: 0,
                col_end: self.width,
            }
        } else {
            Region {
                row_start: 0,
                row_end: self.height,
                col_start: from,
                col_end: to,
            }
        }
    }
}

impl Plan for TransposePlan {
    ghost parts = { λ plan. parts_in plan.cut.len plan.cut.part_len };

    /// The number of regions.
    fn count(self) -> usize {
        self.cut.count()
    }
}

/// Puts the region of a part.
#[inline(never)]
pub(crate) fn transpose_part<M: Output, R: Ahead<Item = M::Item> + Copy>(
    cells: M,
    source: R,
    part: Part<TransposePlan>,
) -> M
    requires input_fits { length (R.items source) ≡ part.plan.width * part.plan.height }
    requires output_fits { length (M.items cells) ≡ part.plan.width * part.plan.height }
    ensures transposed { let plan = part.plan in
        IsRegionTransposed (part_of_matrix plan.width plan.height plan.by_rows plan.cut.len plan.cut.part_len
        part.number) plan.width plan.height (R.items source) (M.items cells) (M.items result) }
    ensures holder { let plan = part.plan in
        M.same_holder (items_of (part_of_matrix plan.width plan.height plan.by_rows plan.cut.len plan.cut.part_len
        part.number)) cells result }
{
    let Part { plan, number } = part;
    let matrix = Matrix::new(source, plan.width, plan.height);
    let region = plan.region(number);
    transpose_region(cells, matrix, region)
}
