//! How a matrix, or a part of it, is put. Each way is right for each matrix: this is what the contracts of
//! [`calls`](crate::calls) say, whatever the functions here return.
//!
//! The first line that fits says how a matrix is put. A *whole call* puts the whole matrix, and so does a single part.
//!
//! | Matrix | Put | Why |
//! |---|---|---|
//! | a whole call, fewer than two rows or columns | as a copy | its items keep their order |
//! | a whole call, one block: [`side_of`] | as this block | in registers |
//! | a whole call, fewer than 256 items of less than 1 KiB, or 128 with blocks in registers: [`few_items_of`], [`LONG_BYTES`] | column after column, in code that is inlined without debug assertions | another call would take as long |
//! | 32 MiB and more of items of 4, 8 or 16 bytes, whose rows and columns in the matrix or part have 320 bytes and more: [`Limits`] | by lines, past the caches | what is stored past the caches is not read first, but whole lines have to be stored. A part of a line, which a column may have at both of its ends, takes longer |
//! | all others | in strips, 512 columns at a time: [`SEVERAL_COLUMNS`] | the lines in which the cells of a strip end are still in the second-level cache when those of the next strip begin in them |
//!
//! | Items | Strips | Why |
//! |---|---|---|
//! | 1 or 2 bytes | high, by blocks of 8 by 8 | a register holds one or two rows of such a block |
//! | 4 or 8 bytes | high, by blocks of 4 by 4 | a register holds a row of such a block, or half a row |
//! | 1 KiB and more | of 16 rows, column after column, each item by a function of its own | in a build without optimization, other functions would have copies of it on the stack |
//! | less than 8 bytes, not by blocks, where [`has_eight_rows`] says so | of 8 rows, column after column | their lines stay in the first-level cache |
//! | all others | lowest if 16 divides the width, otherwise low, column after column | see [`strips_of`] |
//!
//! Items are put past the caches on x86-64, and by blocks where they are transposed in registers. Elsewhere these rows fit no
//! matrix. Where each index is tested, items of less than 1 KiB are not put column after column or in strips, but by blocks of 16,
//! 8, 4, 2 and 1 rows, without those of 16 where strips would have 8 rows, and only of 4, 2 and 1 if the items are few: the holder
//! tests each row and column of a block, and no single item.

ghost use Rattle.p3_util_kernels.specs.Region.{LiesInMatrix};

use p3_util_fast::strips::{HIGH_ROWS, Strips, TINY_MATRIX, UNIT};
use p3_util_kernels::transpose::{Matrix, Region};

/// An item of so many bytes is exchanged as a run of bytes, which takes hardly longer, and is put by a function of its own.
pub(crate) const LONG_BYTES: usize = 1024;

/// The same as `TINY_MATRIX`, of items that are transposed in registers.
const TINY_IN_REGISTERS: usize = 128;

/// Where few items are put column after column, columns of at most so many items are put in one loop each. This takes fewer
/// instructions, most of all in a build without optimization for speed.
pub(crate) const SHORT_COLUMN: usize = 8;

/// So many columns of a matrix are put at a time.
pub(crate) const SEVERAL_COLUMNS: usize = 512;

/// The bytes of a vector register.
const VECTOR: usize = 16;

/// The rows of a strip of short items whose rows have whole pages.
pub(crate) const EIGHT_ROWS: usize = 8;

/// Items of fewer bytes are short.
const SHORT_BYTES: usize = 8;

/// The bytes of a page. The lines at the same place of several pages lie in one set of the first-level cache.
const PAGE: usize = 1 << 12;

/// A column of so many bytes is long.
const LONG_COLUMN: usize = 1 << 9;

/// From how many bytes on a matrix is put past the caches.
#[derive(Clone, Copy)]
pub(crate) struct Limits {
    /// Those of the list.
    pub list: usize,
    /// Those in a row of the matrix or part, and those in a column.
    pub side: usize,
}

impl Limits {
    /// The limits for users.
    #[inline(always)]
    pub(crate) const fn of_users() -> Limits {
        Limits {
            list: 1 << 25,
            side: 320,
        }
    }

    /// Whether a region of a matrix of items of `size` bytes is put past the caches, if it [may be](has_lines). `at` is the address
    /// of the first cell of the output. The list is in memory, so no product wraps.
    #[inline(always)]
    pub(crate) fn fit<R: Copy>(
        self,
        size: usize,
        matrix: Matrix<R>,
        region: Region,
        at: usize,
    ) -> bool
        requires { LiesInMatrix region matrix.width matrix.height }
    {
        let items = matrix.width.wrapping_mul(matrix.height);
        items.wrapping_mul(size) >= self.list
            && at % size.max(1) == 0
            && region.cols().wrapping_mul(size) >= self.side
            && region.rows().wrapping_mul(size) >= self.side
    }
}

/// The strips of a matrix. If they are put by squares, these have `SIDE` by `SIDE` items: `SIDE` is [`side_of`] these items. A
/// strip is read column by column, so each of its rows is a stream of its own, and processors read ahead in few of them: in 32
/// at most. If 16 divides the width, the lines of its rows may lie in few sets of the cache, and most heights that come with such
/// a width are multiples of 16. The compiler knows how many rows such a strip has.
#[inline(always)]
pub(crate) fn strips_of<const SIDE: usize>(width: usize) -> Strips<SIDE, HIGH_ROWS> {
    if SIDE > 1 {
        Strips::Squares
    } else if width % UNIT == 0 {
        Strips::Lowest
    } else {
        Strips::Low
    }
}

/// Whether strips have eight rows: those of short items without squares, whose rows have whole pages and whose columns are not
/// long. A line has many short items, and has to stay in the first-level cache until they are read. A set has room for the lines
/// of 8 rows, and seldom for those of more. In long columns, twice as many parts of a line are stored, which takes longer.
#[inline(always)]
pub(crate) fn has_eight_rows(size: usize, side: usize, width: usize, height: usize) -> bool {
    side == 1
        && size < SHORT_BYTES
        && width.wrapping_mul(size) % PAGE == 0
        && height.wrapping_mul(size) < LONG_COLUMN
}

/// The side of the blocks in which items of `size` bytes are transposed in registers, or 1 if there are none.
#[inline(always)]
pub(crate) const fn side_of(size: usize, has_registers: bool) -> usize {
    match size {
        1 | 2 if has_registers => 8,
        4 | 8 if has_registers => 4,
        _ => 1,
    }
}

/// A matrix of fewer items is put column after column, if the holder transposes squares of `side` rows in registers, or none.
/// Without such squares, strips would put the columns in the same way, after more calls.
#[inline(always)]
pub(crate) const fn few_items_of(side: usize) -> usize {
    if side > 1 {
        TINY_IN_REGISTERS
    } else {
        TINY_MATRIX
    }
}

/// Whether items of `size` bytes may be put past the caches. On one thread, those of 32 bytes and more take no less time there.
/// On aarch64, that was not tried.
#[inline(always)]
pub(crate) const fn has_lines(size: usize, has_registers: bool, is_x86_64: bool) -> bool {
    has_registers && is_x86_64 && (size == 4 || size == 8 || size == VECTOR)
}
