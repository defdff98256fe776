//! Transposes a square of items in place, by quadrants.
//!
//! Each item above the diagonal is swapped once with its mirror image. A square of more than 8 rows is cut into
//! quadrants. The upper left one is transposed first. Then the upper right one is swapped with the lower left one
//! across the diagonal, and at last the lower right one is transposed. Blocks that are swapped across the diagonal are
//! halved until they are small.

ghost use Rattle.std.specs.Prelude.{◌≡◌, ◌+◌, ◌-◌, ◌*◌, ◌/◌, ◌^◌, ◌<◌, ◌≤◌, ◌↔◌, IsTrue, length};
ghost use Rattle.p3_util_kernels.specs.Diagonal.{SwapsAcross};
ghost use Rattle.p3_util_kernels.specs.Square.{IsSquareTransposed};
ghost use Rattle.p3_util_kernels.specs.Steps.{counted};
ghost use Rattle.p3_util_kernels.specs.SwapCounts.{square_swaps};

use crate::bits::pow2;
use crate::places::{Places, Swaps};

/// A square of at most this many rows and columns is not cut.
const SMALL_SIDE: usize = 8;

/// A block of fewer items than this is not cut.
const SMALL_BLOCK: usize = 64;

/// Whether a list of `len` items holds a square of `s = 2^log_size` rows and columns.
///
/// The square begins at place `base`, and its rows begin `2^log_stride` places apart. No row may reach into the next
/// one, and the last place of the square must lie in the list. That place is computed without wrapping. This tests the
/// preconditions of [`transpose_square_on`].
#[inline]
#[must_use]
pub const fn fits_square(len: usize, base: usize, log_stride: usize, log_size: usize) -> bool
    ensures { let s = 2 ^ log_size in
        IsTrue result ↔ ((log_size ≤ log_stride) × (log_stride < 64)
        × (base + (s - 1) * 2 ^ log_stride + (s - 1) < len)) }
{
    if log_stride >= 64 || log_size > log_stride {
        return false;
    }
    // The last place of the square is `last` rows below its first place and `last` columns to the right of it.
    let last = pow2(log_size) - 1;
    match last.checked_mul(pow2(log_stride) + 1) {
        Some(distance) => distance < len.saturating_sub(base),
        None => false,
    }
}

/// Transposes a square in place, by `s * (s - 1) / 2` swaps.
///
/// The square has `s = 2^log_size` rows and columns. It begins at place `base`, and its rows begin `2^log_stride`
/// places apart. All other places keep their items.
///
/// `log_size` must be at most `log_stride`, so that no row reaches into the next one, and `log_stride` must be below
/// 64. The list must hold the last place of the square, `base + (s - 1) * 2^log_stride + s - 1`. [`fits_square`] checks
/// all of this.
pub fn transpose_square_on<S: Places>(
    m: &mut Swaps<S>,
    base: usize,
    log_stride: usize,
    log_size: usize,
)
    requires rows_apart { log_size ≤ log_stride }
    requires stride_fits { log_stride < 64 }
    requires room { let s = 2 ^ log_size in
        base + (s - 1) * 2 ^ log_stride + (s - 1) < length (S.items m.old.holder) }
    ensures transposed { IsSquareTransposed base log_stride log_size (S.items m.old.holder)
        (S.items m.new.holder) }
    ensures count { let s = 2 ^ log_size in m.new.count ≡ counted m.old.count (s * (s - 1) / 2) }
    ensures holder { let s = 2 ^ log_size in S.same_holder (s * (s - 1) / 2)
        m.old.holder m.new.holder }
{
    let _len = m.len();
    let square = Square {
        base,
        stride: pow2(log_stride),
    };
    let lines = Lines {
        start: 0,
        end: pow2(log_size),
    };
    transpose_square(m, square, lines);
}

/// A square in a list. The item in row `a` and column `b` is at place `base + a * stride + b`.
#[derive(Clone, Copy)]
struct Square {
    base: usize,
    stride: usize,
}

impl Square {
    /// The place of the item in row `a` and column `b`.
    fn place(self, a: usize, b: usize) -> usize
        requires { self.base + a * self.stride + b < 2 ^ 64 }
        ensures { result ≡ self.base + a * self.stride + b }
    {
        self.base + a * self.stride + b
    }
}

/// Consecutive rows or columns of a square: from `start` on, and below `end`.
#[derive(Clone, Copy)]
struct Lines {
    start: usize,
    end: usize,
}

impl Lines {
    /// The number of these rows or columns.
    fn len(self) -> usize
        requires { self.start ≤ self.end }
        ensures { result ≡ self.end - self.start }
    {
        self.end - self.start
    }

    /// The first half, rounded down, and the rest.
    fn halves(self) -> (Lines, Lines)
        requires { self.start ≤ self.end }
        ensures start { result.0.start ≡ self.start }
        ensures half { result.0.end ≡ self.start + (self.end - self.start) / 2 }
        ensures middle { result.1.start ≡ result.0.end }
        ensures end { result.1.end ≡ self.end }
    {
        let middle = self.start + (self.end - self.start) / 2;
        (
            Lines {
                start: self.start,
                end: middle,
            },
            Lines {
                start: middle,
                end: self.end,
            },
        )
    }
}

/// Transposes the part of `square` that has the rows and the columns of `lines`.
fn transpose_square<S: Places>(m: &mut Swaps<S>, square: Square, lines: Lines)
    requires ordered { lines.start ≤ lines.end }
    requires within { lines.end ≤ square.stride }
    requires room { square.base + (lines.end - 1) * square.stride + (lines.end - 1)
        < length (S.items m.old.holder) }
    requires len_fits { length (S.items m.old.holder) < 2 ^ 64 }
    requires count_fits { m.old.count < 2 ^ 128 }
    ensures swapped { SwapsAcross square.base square.stride lines.start lines.end lines.start
        lines.end (S.items m.old.holder) (S.items m.new.holder) }
    ensures count { m.new.count ≡ counted m.old.count (square_swaps (lines.end - lines.start)) }
    ensures holder { S.same_holder (square_swaps (lines.end - lines.start))
        m.old.holder m.new.holder }
{
    if lines.len() <= SMALL_SIDE {
        transpose_small(m, square, lines);
    } else {
        let (first, second) = lines.halves();
        transpose_square(m, square, first);
        swap_block(m, square, first, second);
        transpose_square(m, square, second);
    }
}

/// Does the same as [`transpose_square`], row by row.
fn transpose_small<S: Places>(m: &mut Swaps<S>, square: Square, lines: Lines)
    requires ordered { lines.start ≤ lines.end }
    requires within { lines.end ≤ square.stride }
    requires room { square.base + (lines.end - 1) * square.stride + (lines.end - 1)
        < length (S.items m.old.holder) }
    requires len_fits { length (S.items m.old.holder) < 2 ^ 64 }
    requires count_fits { m.old.count < 2 ^ 128 }
    ensures swapped { SwapsAcross square.base square.stride lines.start lines.end lines.start
        lines.end (S.items m.old.holder) (S.items m.new.holder) }
    ensures count { m.new.count ≡ counted m.old.count (square_swaps (lines.end - lines.start)) }
    ensures holder { S.same_holder (square_swaps (lines.end - lines.start))
        m.old.holder m.new.holder }
{
    for line in lines.start..lines.end {
        let before = Lines {
            start: lines.start,
            end: line,
        };
        swap_line(m, square, before, line);
    }
}

/// Swaps a block above the diagonal, with the rows `rows` and the columns `cols`, with its mirror image below the
/// diagonal.
fn swap_block<S: Places>(m: &mut Swaps<S>, square: Square, rows: Lines, cols: Lines)
    requires rows { rows.start ≤ rows.end }
    requires above { rows.end ≤ cols.start }
    requires cols { cols.start ≤ cols.end }
    requires within { cols.end ≤ square.stride }
    requires room { square.base + (cols.end - 1) * square.stride + (cols.end - 1)
        < length (S.items m.old.holder) }
    requires len_fits { length (S.items m.old.holder) < 2 ^ 64 }
    requires count_fits { m.old.count < 2 ^ 128 }
    ensures swapped { SwapsAcross square.base square.stride rows.start rows.end cols.start cols.end
        (S.items m.old.holder) (S.items m.new.holder) }
    ensures count { m.new.count
        ≡ counted m.old.count ((rows.end - rows.start) * (cols.end - cols.start)) }
    ensures holder { S.same_holder ((rows.end - rows.start) * (cols.end - cols.start))
        m.old.holder m.new.holder }
{
    if rows.len() * cols.len() < SMALL_BLOCK {
        swap_small_block(m, square, rows, cols);
    } else if rows.len() > cols.len() {
        let (upper, lower) = rows.halves();
        swap_block(m, square, upper, cols);
        swap_block(m, square, lower, cols);
    } else {
        let (left, right) = cols.halves();
        swap_block(m, square, rows, left);
        swap_block(m, square, rows, right);
    }
}

/// Does the same as [`swap_block`], column by column.
fn swap_small_block<S: Places>(m: &mut Swaps<S>, square: Square, rows: Lines, cols: Lines)
    requires rows { rows.start ≤ rows.end }
    requires above { rows.end ≤ cols.start }
    requires cols { cols.start ≤ cols.end }
    requires within { cols.end ≤ square.stride }
    requires room { square.base + (cols.end - 1) * square.stride + (cols.end - 1)
        < length (S.items m.old.holder) }
    requires len_fits { length (S.items m.old.holder) < 2 ^ 64 }
    requires count_fits { m.old.count < 2 ^ 128 }
    ensures swapped { SwapsAcross square.base square.stride rows.start rows.end cols.start cols.end
        (S.items m.old.holder) (S.items m.new.holder) }
    ensures count { m.new.count
        ≡ counted m.old.count ((rows.end - rows.start) * (cols.end - cols.start)) }
    ensures holder { S.same_holder ((rows.end - rows.start) * (cols.end - cols.start))
        m.old.holder m.new.holder }
{
    for line in cols.start..cols.end {
        swap_line(m, square, rows, line);
    }
}

/// Swaps the items in the rows `rows` of column `line` with their mirror images in row `line`.
fn swap_line<S: Places>(m: &mut Swaps<S>, square: Square, rows: Lines, line: usize)
    requires ordered { rows.start ≤ rows.end }
    requires above { rows.end ≤ line }
    requires within { line < square.stride }
    requires room { square.base + line * square.stride + line < length (S.items m.old.holder) }
    requires len_fits { length (S.items m.old.holder) < 2 ^ 64 }
    requires count_fits { m.old.count < 2 ^ 128 }
    ensures swapped { SwapsAcross square.base square.stride rows.start rows.end line (line + 1)
        (S.items m.old.holder) (S.items m.new.holder) }
    ensures count { m.new.count ≡ counted m.old.count (rows.end - rows.start) }
    ensures holder { S.same_holder (rows.end - rows.start) m.old.holder m.new.holder }
{
    for i in rows.start..rows.end {
        m.swap(square.place(line, i), square.place(i, line));
    }
}
