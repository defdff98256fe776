//! Cuts a call into parts, each of which may run on a thread of its own. No thread is started here.
//!
//! - A *plan* says how a call is cut: a [`TransposePlan`] for a transpose, and a [`ReversalPlan`]
//!   for a reversal. The parts may run in any order.
//! - A transpose is cut into regions. Each region is a part.
//! - A reversal has one part for each patch of its [`RowPairs`], or the call is its one part.
//! - A [`Cut`] cuts consecutive numbers, such as the columns of a matrix, into parts.
//!
//! The crate's module `laws`, which only the Rattle sources have, states what is proved about the parts:
//! at which places the steps of each part are, that two parts have no place in common, and that all
//! parts together have the effect of the call, however their steps are interleaved.

ghost use Rattle.std.specs.Prelude.{length, ◌≡◌, ℕ, ◌+◌, ◌-◌, ◌*◌, ◌/◌, ◌%◌, ◌^◌, ◌<◌, ◌≤◌, ◌==◌, if◌then◌else◌, max};
ghost use Rattle.p3_util_dispatch.specs.Patches.{IsPatch, patches_of};
ghost use Rattle.p3_util_dispatch.specs.Parts.{FollowEachOther, IsLeastPartLen, number_of_pair, pairs_of, parts_in, start_of};
ghost use Rattle.p3_util_kernels.specs.Reversal.{FitsRows};

mod asked;
pub(crate) mod lists;
mod reversal;
mod transpose;

pub(crate) use asked::{one_part_items, ranges_if_cut};
pub(crate) use lists::{Part, PartToRun, PartsToRun, Plan, Shared};
use p3_util_fast::grid::TILE;
use p3_util_fast::rows::RowDigits;
use p3_util_kernels::bits::pow2;
use p3_util_kernels::transpose::Region;
pub(crate) use reversal::{ReversalPlan, reverse_part};
pub(crate) use transpose::{TransposePlan, transpose_part};

/// The numbers below `len`, cut into parts of `part_len` consecutive numbers. The last part may
/// have fewer.
#[derive(Clone, Copy)]
pub(crate) struct Cut {
    len: usize,
    part_len: usize,
    pub ghost some_part_len: { 0 < part_len },
}

impl Cut {
    /// Cuts the numbers below `len` into at most `parts` parts. Each part begins at a multiple of
    /// `unit`, and the parts are no longer than necessary. A `parts` of 0 counts as 1.
    pub(crate) fn new(len: usize, parts: usize, unit: usize) -> Cut
        requires { 0 < unit }
        ensures len { result.len ≡ len }
        ensures few { parts_in result.len result.part_len ≤ max parts 1 }
        ensures units { (k : ℕ) → k < parts_in result.len result.part_len
            → start_of result.len result.part_len k % unit ≡ 0 }
        ensures least { IsLeastPartLen parts unit result.len result.part_len }
    {
        let units = len.div_ceil(unit).div_ceil(parts.max(1));
        Cut {
            len,
            part_len: units.max(1).saturating_mul(unit),
        }
    }

    /// The number of parts, which is 0 if `len` is 0.
    pub(crate) fn count(self) -> usize
        ensures count { result ≡ parts_in self.len self.part_len }
        ensures parts { FollowEachOther result self.len (start_of self.len self.part_len) }
    {
        self.len.div_ceil(self.part_len)
    }

    /// The first number of part `k`, and the number after its last one.
    pub(crate) fn part(self, k: usize) -> (usize, usize)
        requires { k < parts_in self.len self.part_len }
        ensures from { result.0 ≡ start_of self.len self.part_len k }
        ensures to { result.1 ≡ start_of self.len self.part_len (k + 1) }
    {
        let from = k * self.part_len;
        (from, from + self.part_len.min(self.len - from))
    }

    /// The number of pairs of parts: each part with itself and with each later one.
    pub(crate) fn pairs(self) -> usize
        requires { parts_in self.len self.part_len < 2 ^ 32 }
        ensures { result ≡ pairs_of (parts_in self.len self.part_len) }
    {
        let count = self.count();
        count * (count + 1) / 2
    }

    /// The two parts of pair `number`, the earlier part first. The pairs are numbered as if the
    /// parts lay in a circle, those of the parts that are farthest from each other first. The pairs
    /// of a part with itself come last.
    pub(crate) fn pair(self, number: usize) -> (usize, usize)
        requires few { parts_in self.len self.part_len < 2 ^ 32 }
        requires below { number < pairs_of (parts_in self.len self.part_len) }
        ensures in_order { result.0 ≤ result.1 }
        ensures below { result.1 < parts_in self.len self.part_len }
        ensures number { number_of_pair (parts_in self.len self.part_len) result.0 result.1 ≡ number }
    {
        let count = self.count();
        // Pair `back`, counted from the last, is part `start` with the one `distance` further on in the circle. At distance 0 are
        // the pairs of a part with itself, so these come last.
        let back = self.pairs() - 1 - number;
        let (distance, start) = (back / count, back % count);
        let end = (start + distance) % count;
        (start.min(end), start.max(end))
    }
}

/// The pairs of rows that the reversal of `rows` exchanges. Each is a place of a grid, which
/// [`RowDigits::grid`] gives, and its mirror image. The sides of the grids are cut by `cut`, which
/// divides the grids into patches.
#[derive(Clone, Copy)]
pub(crate) struct RowPairs {
    rows: RowDigits,
    cut: Cut,
    pub ghost digits: { rows.digits < 64 },
    pub ghost side: { cut.len ≡ 2 ^ (rows.digits / 2) },
    pub ghost few: { parts_in cut.len cut.part_len < 2 ^ 32 },
}

impl RowPairs {
    /// The pairs of the rows of a list of `len` items, `row_width` in each row. Each side of a grid is
    /// cut into at most `parts` parts. A `parts` of 0 counts as 1. Rows of one item are cut at
    /// multiples of `TILE`.
    pub(crate) fn new(len: usize, row_width: usize, parts: usize) -> RowPairs
        requires { FitsRows len row_width }
        ensures width { result.rows.width ≡ row_width }
        ensures rows { 0 < len → (0 < row_width) × (len ≡ row_width * 2 ^ result.rows.digits) }
        ensures few { parts_in result.cut.len result.cut.part_len ≤ max parts 1 }
        ensures least { IsLeastPartLen parts (if row_width == 1 then TILE else 1) result.cut.len
            result.cut.part_len }
        ensures units { (k : ℕ) → k < parts_in result.cut.len result.cut.part_len
            → start_of result.cut.len result.cut.part_len k % (if row_width == 1 then TILE else 1) ≡ 0 }
    {
        let rows = RowDigits::of(len, row_width);
        let unit = if row_width == 1 { TILE } else { 1 };
        let cut = Cut::new(pow2(rows.digits / 2), parts, unit);
        RowPairs { rows, cut }
    }

    /// Patch `number`: the middle part of the indices of the rows of its grid, and its rows and
    /// columns in that grid. The patches on the diagonals come last. They have half as many pairs as
    /// the others.
    fn patch(self, number: usize) -> (usize, Region)
        requires { number < patches_of self.rows.digits self.cut.part_len }
        ensures { IsPatch self.rows.digits self.cut.part_len number result.0 result.1 }
    {
        let grids = pow2(self.rows.digits % 2);
        let (first, second) = self.cut.pair(number / grids);
        let (row_start, row_end) = self.cut.part(first);
        let (col_start, col_end) = self.cut.part(second);
        let region = Region {
            row_start,
            row_end,
            col_start,
            col_end,
        };
        (number % grids, region)
    }
}
