//! Puts a region strip by strip.
//!
//! - A *strip* is some neighbouring rows of a region. A region is cut into strips, which are put
//!   from top to bottom.
//! - A *square* is a block of 4 by 4 or of 8 by 8 items of a strip.
//!
//! [`Strips`] says how many rows a strip has, and whether it is put column after column or by squares. That choice only
//! changes the order of the puts.

ghost use Rattle.std.specs.Prelude.{◌≡◌, ◌+◌, ◌<◌, ◌≤◌};

use crate::bulk::{Ahead, Blocked};
use crate::ways::{Blocks, Columns, InCols, InRows, Outlined, PutRegion};
use p3_util_kernels::transpose::{Matrix, Region};

/// A matrix of fewer items is put column after column.
#[doc(hidden)]
pub const TINY_MATRIX: usize = 256;

/// If the width of a matrix is a multiple of this, its strips are low. Parts of a transpose begin at multiples of it.
#[doc(hidden)]
pub const UNIT: usize = 16;

/// The greatest number of rows of a high strip.
#[doc(hidden)]
pub const HIGH_ROWS: usize = 128;

/// The greatest number of rows of a low strip.
const LOW_ROWS: usize = 24;

/// The greatest number of rows of a lowest strip.
const LOWEST_ROWS: usize = 16;

/// How a region is put in strips. Strips by squares have at most `ROWS` rows, and their squares have `SIDE` rows and
/// columns. If `SIDE` is 1, these strips too are put column after column.
#[derive(Clone, Copy)]
#[doc(hidden)]
pub enum Strips<const SIDE: usize, const ROWS: usize> {
    /// Low strips, of at most 24 rows, column after column.
    Low,
    /// Lowest strips, of at most 16 rows, column after column.
    Lowest,
    /// Strips by squares. A holder may transpose squares in registers.
    Squares,
}

impl<const SIDE: usize, const ROWS: usize> PutRegion for Strips<SIDE, ROWS> {
    fn put<M: Blocked, R: Ahead<Item = M::Item> + Copy>(
        self,
        out: M,
        matrix: Matrix<R>,
        region: Region,
    ) -> M {
        if region.col_start == region.col_end {
            // A region without columns has no item, however many rows it has.
            return out;
        }
        let apart = Outlined(Columns);
        let squares = Squares::<SIDE>;
        match self {
            // Most low strips have `LOW_ROWS` rows, and most lowest ones `LOWEST_ROWS`. There the compiler knows that number.
            Strips::Low => InRows::<LOW_ROWS, _, _>(Columns, apart).put(out, matrix, region),
            Strips::Lowest => InRows::<LOWEST_ROWS, _, _>(Columns, apart).put(out, matrix, region),
            Strips::Squares => InRows::<ROWS, _, _>(squares, squares).put(out, matrix, region),
        }
    }
}

/// Puts a strip by squares: `SIDE` columns at a time, and in these one square after another. Then follow the columns to
/// the right of all squares, and then the rows below them, column after column.
#[derive(Clone, Copy)]
struct Squares<const SIDE: usize>;

impl<const SIDE: usize> PutRegion for Squares<SIDE> {
    #[inline(never)]
    fn put<M: Blocked, R: Ahead<Item = M::Item> + Copy>(
        self,
        out: M,
        matrix: Matrix<R>,
        region: Region,
    ) -> M {
        let rest = Outlined(Columns);
        match SIDE {
            0 | 1 => rest.put(out, matrix, region),
            _ => {
                let row = region.row_start + in_squares(region.rows(), SIDE);
                let (top, below) = region.cut_rows(row);
                let squares = InCols::<SIDE, _, _>(Blocks::<SIDE, _>(rest), rest);
                let out = squares.put(out, matrix, top);
                if row < region.row_end {
                    return rest.put(out, matrix, below);
                }
                out
            }
        }
    }
}

/// The number of rows in whole squares, if there are `all` rows.
#[inline(always)]
fn in_squares(all: usize, side: usize) -> usize
    requires some_side { 0 < side }
    ensures inside { result ≤ all }
    ensures all { all < result + side }
{
    all / side * side
}
