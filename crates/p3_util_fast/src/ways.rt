//! Ways to put a region, which contain each other.
//!
//! - The item in row y and column x of the matrix is at `y * width + x` of its source. It is put
//!   into cell `x * height + y`.
//! - A *region* is a rectangle in the matrix: the items that lie in some neighbouring rows and in
//!   some neighbouring columns. To *put* a region, or a part of one, is to put each of its items
//!   into its cell.
//! - A *way* to put a region is a [`PutRegion`]. [`InRows`] and [`InCols`] cut the region into parts
//!   and put these in ways of their own. [`Columns`] puts item after item, and [`Blocks`] hands blocks
//!   to the holder, which puts each in its own way. Only the holders of slices, here and in the
//!   package, have one: a counter puts item after item. So `InRows<24, Columns, Columns>` puts a
//!   region 24 rows at a time, and each of these parts column after column. The contract is the same
//!   for all ways. A number of rows or columns in a type that is 0 stands for 1, so that each part
//!   has items.
//!
//! Each way takes the holder by value and returns it. This keeps the holder in registers in the loops.

ghost use Rattle.std.specs.Prelude.{◌≡◌, ◌+◌, ◌*◌, ◌<◌};
ghost use Rattle.p3_util_fast.specs.Columns.{HoldsColumn, IsColumnPut};
ghost use Rattle.p3_util_kernels.specs.Region.{IsReady, IsRegionTransposed, items_of};

use crate::bulk::{Ahead, Block, Blocked};
use p3_util_kernels::transpose::{Matrix, Region};

/// A column is put by loops over this many items each. The compiler knows how long these loops are.
const COLUMN_ITEMS: usize = 8;

/// A way to put a region. The caller of a kernel chooses it. The contract is the same for all of them.
#[doc(hidden)]
pub trait PutRegion: Copy {
    /// Puts `region` in this way.
    fn put<M: Blocked, R: Ahead<Item = M::Item> + Copy>(
        self,
        out: M,
        matrix: Matrix<R>,
        region: Region,
    ) -> M
        requires ready { IsReady region matrix.width matrix.height
            (R.items matrix.source) (M.items out) }
        ensures transposed { IsRegionTransposed region matrix.width matrix.height
            (R.items matrix.source) (M.items out) (M.items result) }
        ensures holder { M.same_holder (items_of region) out result };
}

/// `InRows(whole, rest)` puts `ROWS` rows at a time, from top to bottom. Parts of `ROWS` rows are put in the way
/// `whole`, and the last one in the way `rest` if it has fewer rows.
#[derive(Clone, Copy)]
#[doc(hidden)]
pub struct InRows<const ROWS: usize, W, V>(pub W, pub V);

impl<const ROWS: usize, W: PutRegion, V: PutRegion> PutRegion for InRows<ROWS, W, V> {
    #[inline(always)]
    fn put<M: Blocked, R: Ahead<Item = M::Item> + Copy>(
        self,
        out: M,
        matrix: Matrix<R>,
        region: Region,
    ) -> M {
        let InRows(whole, rest) = self;
        let most = ROWS.max(1);
        let mut out = out;
        let mut row = region.row_start;
        while row < region.row_end {
            let rows = most.min(region.row_end - row);
            // If the compiler knows how many rows a part has, it knows the lengths of its loops.
            if rows == most {
                out = whole.put(out, matrix, region.with_rows(row, row + most));
            } else {
                out = rest.put(out, matrix, region.with_rows(row, row + rows));
            }
            row += rows;
        }
        out
    }
}

/// `InCols(whole, rest)` puts `COLS` columns at a time, from left to right, in the way `whole`, and then the columns
/// that remain in the way `rest`.
#[derive(Clone, Copy)]
#[doc(hidden)]
pub struct InCols<const COLS: usize, W, V>(pub W, pub V);

impl<const COLS: usize, W: PutRegion, V: PutRegion> PutRegion for InCols<COLS, W, V> {
    #[inline(always)]
    fn put<M: Blocked, R: Ahead<Item = M::Item> + Copy>(
        self,
        out: M,
        matrix: Matrix<R>,
        region: Region,
    ) -> M {
        let InCols(whole, rest) = self;
        let cols = COLS.max(1);
        let mut out = out;
        let parts = region.cols() / cols;
        for part in 0..parts {
            let col = region.col_start + part * cols;
            out = whole.put(out, matrix, region.with_cols(col, col + cols));
        }
        let col = region.col_start + parts * cols;
        if col < region.col_end {
            return rest.put(out, matrix, region.with_cols(col, region.col_end));
        }
        out
    }
}

/// `Blocks(rest)` puts blocks of `ROWS` rows, from top to bottom, in the holder's own way. They have all columns of the
/// region. The rows that remain are put in the way `rest`.
#[derive(Clone, Copy)]
#[doc(hidden)]
pub struct Blocks<const ROWS: usize, V>(pub V);

impl<const ROWS: usize, V: PutRegion> PutRegion for Blocks<ROWS, V> {
    #[inline(always)]
    fn put<M: Blocked, R: Ahead<Item = M::Item> + Copy>(
        self,
        out: M,
        matrix: Matrix<R>,
        region: Region,
    ) -> M {
        let Blocks(rest) = self;
        if region.col_start == region.col_end {
            return out;
        }
        let rows = ROWS.max(1);
        let mut out = out;
        let parts = region.rows() / rows;
        for part in 0..parts {
            let row = region.row_start + part * rows;
            out = put_as_block(out, matrix, region.with_rows(row, row + rows));
        }
        let row = region.row_start + parts * rows;
        if row < region.row_end {
            return rest.put(out, matrix, region.with_rows(row, region.row_end));
        }
        out
    }
}

/// Puts a region in this way, by a function that is not inlined. So its loops take no registers from those of the
/// caller.
#[derive(Clone, Copy)]
#[doc(hidden)]
pub struct Outlined<W>(pub W);

impl<W: PutRegion> PutRegion for Outlined<W> {
    #[inline(never)]
    fn put<M: Blocked, R: Ahead<Item = M::Item> + Copy>(
        self,
        out: M,
        matrix: Matrix<R>,
        region: Region,
    ) -> M {
        self.0.put(out, matrix, region)
    }
}

/// Puts a region as one block, in the holder's own way.
#[inline(always)]
#[doc(hidden)]
pub fn put_as_block<M: Blocked, R: Ahead<Item = M::Item> + Copy>(
    out: M,
    matrix: Matrix<R>,
    region: Region,
) -> M
    requires some_rows { region.row_start < region.row_end }
    requires some_cols { region.col_start < region.col_end }
    requires ready { IsReady region matrix.width matrix.height
        (R.items matrix.source) (M.items out) }
    ensures transposed { IsRegionTransposed region matrix.width matrix.height
        (R.items matrix.source) (M.items out) (M.items result) }
    ensures holder { M.same_holder (items_of region) out result }
{
    let Matrix {
        source,
        width,
        height,
    } = matrix;
    let block = Block {
        rows: region.rows(),
        cols: region.cols(),
        from: region.row_start * width + region.col_start,
        width,
        to: region.col_start * height + region.row_start,
        height,
    };
    let mut out = out;
    out.put_block(&source, block);
    out
}

/// A way to put one column of a region. It is also a way to put a region, column after column.
#[doc(hidden)]
pub trait PutColumn: Copy {
    /// Puts a column of `rows` items into consecutive cells from `to` on. The column begins at index `from` of the
    /// source.
    fn put_column<M: Blocked, R: Ahead<Item = M::Item> + Copy>(
        self,
        out: M,
        matrix: Matrix<R>,
        from: usize,
        to: usize,
        rows: usize,
    ) -> M
        requires column { HoldsColumn rows from matrix.width to (R.items matrix.source) (M.items out) }
        ensures put { IsColumnPut rows from matrix.width to (R.items matrix.source) (M.items out)
            (M.items result) }
        ensures holder { M.same_holder rows out result };
}

impl<C: PutColumn> PutRegion for C {
    #[inline(always)]
    fn put<M: Blocked, R: Ahead<Item = M::Item> + Copy>(
        self,
        out: M,
        matrix: Matrix<R>,
        region: Region,
    ) -> M {
        if region.row_start == region.row_end {
            // A region without rows has no item, however many columns it has.
            return out;
        }
        let mut out = out;
        for col in region.col_start..region.col_end {
            let from = region.row_start * matrix.width + col;
            let to = col * matrix.height + region.row_start;
            out = self.put_column(out, matrix, from, to, region.rows());
        }
        out
    }
}

/// Puts most items of a column by loops of `COLUMN_ITEMS` items, and the rest by one more loop.
#[derive(Clone, Copy)]
#[doc(hidden)]
pub struct Columns;

impl PutColumn for Columns {
    #[inline(always)]
    fn put_column<M: Blocked, R: Ahead<Item = M::Item> + Copy>(
        self,
        out: M,
        matrix: Matrix<R>,
        from: usize,
        to: usize,
        rows: usize,
    ) -> M {
        let mut out = out;
        for group in 0..rows / COLUMN_ITEMS {
            let done = group * COLUMN_ITEMS;
            let start = from + done * matrix.width;
            out = ShortColumns.put_column(out, matrix, start, to + done, COLUMN_ITEMS);
        }
        let done = rows / COLUMN_ITEMS * COLUMN_ITEMS;
        if done < rows {
            let start = from + done * matrix.width;
            out = ShortColumns.put_column(out, matrix, start, to + done, rows - done);
        }
        out
    }
}

/// Puts a column by one loop. If the columns are short, this takes fewer instructions than [`Columns`] does, most of
/// all in a build without optimization for speed.
#[derive(Clone, Copy)]
#[doc(hidden)]
pub struct ShortColumns;

impl PutColumn for ShortColumns {
    #[inline(always)]
    fn put_column<M: Blocked, R: Ahead<Item = M::Item> + Copy>(
        self,
        out: M,
        matrix: Matrix<R>,
        from: usize,
        to: usize,
        rows: usize,
    ) -> M {
        let mut out = out;
        let mut t = 0;
        while t < rows {
            out.put(to + t, matrix.source.at(from + t * matrix.width));
            t += 1;
        }
        out
    }
}
