//! The orders in which a matrix may be put that is not tiny.

ghost use Rattle.std.specs.Prelude.{◌^◌, ◌<◌, length};

use crate::bulk::{Ahead, Blocked};
use crate::slice_forms::split::put_split;
use crate::strips::{HIGH_ROWS, Strips, UNIT};
use crate::ways::{Columns, InRows, Outlined, PutRegion};
use p3_util_kernels::places::Source;
use p3_util_kernels::transpose::{Matrix, Region};

/// The greatest number of items of a matrix that is put by blocks if 16 divides its width.
const SMALL_MATRIX: usize = 1024;

/// The greatest number of items of a matrix that is not split.
pub(crate) const LARGE_MATRIX: usize = 1_048_576;

/// How many levels of splits a transpose is given. No matrix needs as many.
const ENOUGH_LEVELS: u32 = 64;

/// An order in which a matrix or a region of it is put.
#[derive(Clone, Copy)]
pub(crate) enum Order {
    /// Strip by strip.
    Strips(ShapeStrips),
    /// Leaf by leaf, as the region is split, and each leaf strip by strip.
    Leaves(ShapeStrips),
}

/// The strips of a call in Rattle.
#[derive(Clone, Copy)]
pub(crate) enum ShapeStrips {
    /// High strips, of at most 128 rows, column after column.
    High,
    /// Lower strips, or strips by squares.
    Lower(Strips<4, UNIT>),
}

impl ShapeStrips {
    /// The strips for `matrix`, chosen by its shape alone. Every call in Rattle uses this choice. The plain Rust
    /// package knows the size of an item and may choose others.
    ///
    /// A strip is read column by column, so a cache line of each of its rows is in use at the same time. If 16 divides
    /// the width, the distance of two rows may be a multiple of a high power of two. The cache lines of a high strip
    /// then fall into few sets of the cache, and each line is evicted before its next item is read. Those of 24 rows
    /// stay in the cache, and a small matrix, which stays there in any order, is put by squares of 4 by 4 items. With
    /// other widths, the rows are spread over the sets of the cache. A high strip is better there, since it puts longer
    /// runs of consecutive cells.
    pub(crate) fn by_shape<R: Source + Copy>(matrix: Matrix<R>) -> Self {
        if matrix.width % UNIT != 0 {
            ShapeStrips::High
        } else if matrix.source.len() <= SMALL_MATRIX {
            ShapeStrips::Lower(Strips::Squares)
        } else {
            ShapeStrips::Lower(Strips::Low)
        }
    }
}

impl PutRegion for ShapeStrips {
    #[inline(always)]
    fn put<M: Blocked, R: Ahead<Item = M::Item> + Copy>(
        self,
        out: M,
        matrix: Matrix<R>,
        region: Region,
    ) -> M {
        match self {
            ShapeStrips::High if region.col_start < region.col_end => {
                let apart = Outlined(Columns);
                InRows::<HIGH_ROWS, _, _>(apart, apart).put(out, matrix, region)
            }
            // A region without columns has no item, however many rows it has.
            ShapeStrips::High => out,
            ShapeStrips::Lower(strips) => strips.put(out, matrix, region),
        }
    }
}

impl Order {
    /// The order for a whole matrix that is not tiny, chosen by its shape alone. Every call in Rattle uses this choice.
    /// The plain Rust package knows the size of an item and has a choice of its own.
    #[inline(always)]
    pub(crate) fn by_shape<R: Source + Copy>(matrix: Matrix<R>) -> Self
        ensures len_fits { length (R.items matrix.source) < 2 ^ 64 }
    {
        let strips = ShapeStrips::by_shape(matrix);
        if matrix.source.len() <= LARGE_MATRIX {
            Order::Strips(strips)
        } else {
            Order::Leaves(strips)
        }
    }
}

impl PutRegion for Order {
    #[inline(always)]
    fn put<M: Blocked, R: Ahead<Item = M::Item> + Copy>(
        self,
        out: M,
        matrix: Matrix<R>,
        region: Region,
    ) -> M {
        match self {
            Order::Strips(strips) => strips.put(out, matrix, region),
            Order::Leaves(strips) => {
                let (out, _) = put_split(out, matrix, region, ENOUGH_LEVELS, strips);
                out
            }
        }
    }
}
