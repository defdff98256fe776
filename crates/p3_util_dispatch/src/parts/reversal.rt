//! The parts that a reversal is cut into, and what each of them does.

ghost use Rattle.p3_util_dispatch.specs.Patches.{IsPatchExchanged, patches_of};
ghost use Rattle.p3_util_fast.specs.Crossing.{HoldsRows};
ghost use Rattle.p3_util_dispatch.specs.Plans.{IsCutAsAsked, IsPartMade, IsReversalPlan, parts_of, width_of};
ghost use Rattle.p3_util_kernels.specs.Reversal.{FitsRows};
ghost use Rattle.p3_util_fast.specs.declared.grid.TheConstants.{TILE};
ghost use Rattle.std.specs.Prelude.{◌≡◌, ◌*◌, ◌/◌, ◌%◌, ◌^◌, ◌<◌, length};

use crate::parts::RowPairs;
use crate::parts::lists::{Part, Plan};
use p3_util_fast::bulk::Tiled;
use p3_util_fast::grid::{exchange_quadrants, exchange_region};
use p3_util_fast::rows::reverse_rows;
use p3_util_kernels::bits::pow2;

/// How the reversal of rows is cut.
#[derive(Clone, Copy)]
pub(crate) enum ReversalPlan {
    /// The number of items, and that of the items of each row. The call is the only part. If there
    /// are no items, there is no part.
    Whole(usize, usize),
    /// Each patch of these pairs is a part.
    Patches(RowPairs),
}

impl ReversalPlan {
    /// The plan for a list of `len` items, `row_width` in each row. With a number of parts, and if
    /// there are items, it has the patches of [`RowPairs::new`].
    pub(crate) fn new(len: usize, row_width: usize, parts: Option<usize>) -> ReversalPlan
        requires { FitsRows len row_width }
        ensures width { width_of result ≡ row_width }
        ensures plan { IsReversalPlan len result }
        ensures cut { IsCutAsAsked len parts TILE result }
    {
        match parts {
            Some(parts) if len > 0 => {
                ReversalPlan::Patches(RowPairs::new(len, row_width, parts))
            }
            _ => ReversalPlan::Whole(len, row_width),
        }
    }

    /// The plan for a list of `len` items of `size` bytes, `row_width` in each row, which is taken as a list of places. Also
    /// returns how many bytes each place has: `place` if all rows have whole places of so many bytes, and otherwise 1.
    pub(crate) fn in_places(
        len: usize,
        size: usize,
        row_width: usize,
        place: usize,
        parts: Option<usize>,
    ) -> (usize, ReversalPlan)
        requires rows { FitsRows len row_width }
        requires fits { len * size < 2 ^ 64 }
        ensures some { 0 < result.0 }
        ensures all { len * size / result.0 * result.0 ≡ len * size }
        ensures plan { IsReversalPlan (len * size / result.0) result.1 }
        ensures width { 0 < len * size → width_of result.1 * result.0 ≡ row_width * size }
        ensures cut { IsCutAsAsked (len * size / result.0) parts TILE result.1 }
    {
        let all = len * size;
        if all == 0 {
            return (1, ReversalPlan::new(0, 0, parts));
        }
        let row = row_width * size;
        let bytes = whole_places(row, place);
        (bytes, ReversalPlan::new(all / bytes, row / bytes, parts))
    }
}

/// How many bytes a place has: `place` if a row of `row` bytes has whole places of so many, and otherwise 1.
fn whole_places(row: usize, place: usize) -> usize
    ensures some { 0 < result }
    ensures whole { row % result ≡ 0 }
{
    if place > 0 && row % place == 0 {
        place
    } else {
        1
    }
}

impl Plan for ReversalPlan {
    ghost parts = { parts_of };

    /// The number of parts.
    fn count(self) -> usize {
        match self {
            ReversalPlan::Whole(len, _) => len.min(1),
            ReversalPlan::Patches(pairs) => pairs.count(),
        }
    }
}

impl RowPairs {
    /// The number of patches that are on the diagonal of their grid or above it.
    fn count(self) -> usize
        ensures { result ≡ patches_of self.rows.digits self.cut.part_len }
    {
        self.cut.pairs() * pow2(self.rows.digits % 2)
    }

    /// Exchanges the two rows of each pair in patch `number`.
    pub(crate) fn exchange<M: Tiled>(self, number: usize, m: M) -> M
        requires below { number < patches_of self.rows.digits self.cut.part_len }
        requires rows { HoldsRows self.rows.width self.rows.digits (M.items m) }
        ensures { IsPatchExchanged self.rows.digits self.rows.width self.cut.part_len number
            (M.items m) (M.items result) (λ n. M.same_holder n m result) }
    {
        let (middle, region) = self.patch(number);
        let grid = self.rows.grid(middle);
        if region.row_start == region.col_start {
            exchange_quadrants(m, grid, region.row_start, region.rows())
        } else {
            exchange_region(m, grid, region)
        }
    }
}

/// Makes the exchanges of a part.
pub(crate) fn reverse_part<M: Tiled>(items: M, part: Part<ReversalPlan>) -> M
    requires plan { IsReversalPlan (length (M.items items)) part.plan }
    requires len_fits { length (M.items items) < 2 ^ 64 }
    ensures { IsPartMade part.plan part.number (M.items items) (M.items result)
        (λ n. M.same_holder n items result) }
{
    match part.plan {
        ReversalPlan::Patches(pairs) => pairs.exchange(part.number, items),
        // In this arm, the compiler knows that a row is one item.
        ReversalPlan::Whole(_, 1) => reverse_rows(items, 1),
        ReversalPlan::Whole(_, row_width) => reverse_rows(items, row_width),
    }
}
