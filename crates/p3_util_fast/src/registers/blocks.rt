//! How a holder puts a block: by whole cache lines, by squares, or item by item.

ghost use Rattle.std.specs.Prelude.{◌≡◌, ℕ, ◌+◌, ◌*◌, ◌%◌, ◌^◌, ◌<◌, ◌≤◌, ◌⊎◌, IsTrue, length, slice_index};
ghost use Rattle.p3_util_fast.specs.BlockPut.{BlockFits, IsBlockPut, block_items};
ghost use Rattle.p3_util_fast.specs.RegisterLines.{LinesReached};
ghost use Rattle.p3_util_fast.specs.Registers.{ColumnsPut, IsSide, RowsReached};

use crate::bulk::{Ahead, Block, Blocked};
use crate::registers::line_blocks::put_by_lines;
use crate::registers::{Loads, Register, Runs, in_columns, in_rows, load_columns, store};
use p3_util_kernels::places::Cells;

/// Cells into which runs are put, too.
pub(crate) trait RunsOfCells<T: Copy, D: Register<T>>: Runs<T, D> + Cells<Item = T> {
    ghost same_items: { (a : Self) → Self.Loads.items a ≡ Self.Cells.items a };

    ghost same_steps: { (n : ℕ) (a b : Self) → Self.Runs.same_holder n a b → Self.Cells.same_holder n a b };
}

/// Cells into which some blocks are put by squares that are transposed in registers.
pub(crate) trait SquaresOfCells<T: Copy, D: Register<T>>: RunsOfCells<T, D> {
    /// The side of the blocks that the holder transposes in registers, or 1.
    const SQUARE: usize;

    /// Only for speed: a hint that a square is put, and that the next cells of its columns may be put soon.
    fn expect_columns(&self, square: Block);
}

/// Cells into which some blocks are put by whole lines, past the caches.
pub(crate) trait LinesOfCells<T: Copy, D: Register<T>>: RunsOfCells<T, D> {
    /// Whether each column of a block of this many rows is a line that may be streamed.
    fn may_stream_lines(&self, block: Block) -> bool
        requires lines { block.rows ≡ 4 * D.SIDE }
        requires room { (r c : ℕ) → r < block.rows → c < block.cols
            → block.to + c * block.height + r < length (Self.Loads.items self.now) }
        ensures { IsTrue result → LinesReached D.SIDE block (Self.Loads.may_stream (Self.Loads.reach self.now)) };
}

/// Does what `Blocked::put_block` does: by squares if the block is one that the holder transposes in registers, and
/// otherwise item by item. Registers are read from `runs`, which has the items of the source. A holder may read each
/// run of these, and put each run that is within a column of the block.
#[inline(always)]
pub(crate) fn put_block_in_squares<
    T: Copy,
    D: Register<T>,
    S: Loads<T, D>,
    R: Ahead<Item = T>,
    M: SquaresOfCells<T, D> + Blocked,
>(cells: &mut M, runs: &S, source: &R, block: Block)
    requires same { S.items runs.now ≡ R.items source.now }
    requires fits { BlockFits block (length (R.items source.now)) (length (M.Cells.items cells.old)) }
    requires reads { (p : ℕ) → p + D.SIDE ≤ length (R.items source.now) → S.may (S.reach runs.now) p }
    requires writes { (c r : ℕ) → c < block.cols → r + D.SIDE ≤ block.rows
        → M.Loads.may (M.Loads.reach cells.old) (block.to + c * block.height + r) }
    ensures put { IsBlockPut (block_items block) block (R.items source.now)
        (M.Cells.items cells.old) (M.Cells.items cells.new) }
    ensures holder { M.Cells.same_holder (block_items block) cells.old cells.new }
{
    let side = D::SIDE;
    match M::SQUARE {
        0 | 1 => {}
        square => {
            if is_square(side, square, block) {
                cells.expect_columns(block);
                put_by_squares(cells, runs, block);
                return;
            }
        }
    }
    cells.put_block_singly(source, block);
}

/// Does what `Blocked::put_block` does: by whole lines if the holder may stream the lines of the block, and otherwise
/// item by item. Registers are read from `runs`, which has the items of the source. A holder may read each run of
/// these.
#[inline(always)]
pub(crate) fn put_block_in_lines<
    T: Copy,
    D: Register<T>,
    S: Loads<T, D>,
    R: Ahead<Item = T>,
    M: LinesOfCells<T, D> + Blocked,
>(cells: &mut M, runs: &S, source: &R, block: Block)
    requires same { S.items runs.now ≡ R.items source.now }
    requires fits { BlockFits block (length (R.items source.now)) (length (M.Cells.items cells.old)) }
    requires reads { (p : ℕ) → p + D.SIDE ≤ length (R.items source.now) → S.may (S.reach runs.now) p }
    ensures put { IsBlockPut (block_items block) block (R.items source.now)
        (M.Cells.items cells.old) (M.Cells.items cells.new) }
    ensures holder { M.Cells.same_holder (block_items block) cells.old cells.new }
{
    let (side, len) = (D::SIDE, source.len());
    if is_of_lines(side, block, len) && cells.may_stream_lines(block) {
        put_by_lines(cells, runs, block);
        return;
    }
    cells.put_block_singly(source, block);
}

/// Whether a block has the rows and columns of whole lines, and a source of `len` items has `side` items of each row,
/// from the block's first column on.
#[inline(always)]
fn is_of_lines(side: usize, block: Block, len: usize) -> bool
    requires inside { (r c : ℕ) → r < block.rows → c < block.cols → block.from + r * block.width + c < len }
    requires len_fits { len < 2 ^ 63 }
    ensures side { IsTrue result → (side ≡ 1) ⊎ ((side ≡ 2) ⊎ (side ≡ 4)) }
    ensures lines { IsTrue result → block.rows ≡ 4 * side }
    ensures cols { IsTrue result → (block.cols ≡ 1) ⊎ (block.cols ≡ block.rows) }
    ensures inside { IsTrue result → (r : ℕ) → r < block.rows → block.from + r * block.width + side ≤ len }
{
    if side != 1 && side != 2 && side != 4 || block.rows != 4 * side {
        return false;
    }
    block.cols == block.rows
        || block.cols == 1 && block.from + (block.rows - 1) * block.width + side <= len
}

/// Whether a block has `square` rows and columns, and registers whose halves have `side` items transpose it.
#[inline(always)]
fn is_square(side: usize, square: usize, block: Block) -> bool
    ensures side { IsTrue result → IsSide side }
    ensures known { IsTrue result → (block.rows ≡ 4) ⊎ (block.rows ≡ 8) }
    ensures square { IsTrue result → block.cols ≡ block.rows }
    ensures lines { IsTrue result → (block.rows ≡ side) ⊎ (block.rows ≡ 2 * side) }
{
    block.cols == block.rows
        && block.rows == square
        && (square == 4 || square == 8)
        && (side == square || side == square / 2)
}

/// Where row `c` of `count` rows begins. After the last row come the same rows again.
#[inline(always)]
fn start(first: usize, stride: usize, count: usize, c: usize) -> usize
    requires known { (count ≡ 4) ⊎ (count ≡ 8) }
    requires fits { (r : ℕ) → r < count → first + r * stride + 8 < 2 ^ 64 }
    ensures { result ≡ first + c % count * stride }
{
    first + c % count * stride
}

/// Where the rows of a block begin, or those of its transpose.
#[inline(always)]
pub(super) fn starts(first: usize, stride: usize, count: usize) -> [usize; 8]
    requires known { (count ≡ 4) ⊎ (count ≡ 8) }
    requires fits { (r : ℕ) → r < count → first + r * stride + 8 < 2 ^ 64 }
    ensures are { (c : ℕ) → c < 8 → slice_index result c ≡ first + c % count * stride }
    ensures fit { (c : ℕ) → c < 8 → slice_index result c + 8 < 2 ^ 64 }
{
    eight!(start(first, stride, count))
}

/// Puts `D::SIDE` columns of a block, from column `col` on, which are squares one above another. If the block has 4
/// rows, the registers have each of its squares twice, and one of both is put.
#[inline(always)]
fn put_squares<T, D: Register<T>, S: Loads<T, D>, M: Runs<T, D>>(
    cells: &mut M,
    source: &S,
    block: Block,
    col: usize,
)
    requires some_side { IsSide D.SIDE }
    requires known { (block.rows ≡ 4) ⊎ (block.rows ≡ 8) }
    requires below { col + D.SIDE ≤ block.rows }
    requires square { block.cols ≡ block.rows }
    requires block { BlockFits block (length (S.items source.now)) (length (M.items cells.old)) }
    requires reads { RowsReached block.rows D.SIDE (λ r. block.from + r * block.width) (S.may (S.reach source.now)) }
    requires writes { RowsReached block.rows D.SIDE (λ c. block.to + c * block.height) (M.may (M.reach cells.old)) }
    requires source_len_fits { length (S.items source.now) < 2 ^ 63 }
    requires cells_len_fits { length (M.items cells.old) < 2 ^ 63 }
    ensures put { ColumnsPut col (col + D.SIDE) block (S.items source.now) (M.items cells.old) (M.items cells.new) }
    ensures reach { M.reach cells.new ≡ M.reach cells.old }
    ensures holder { M.same_holder (block.rows * D.SIDE) cells.old cells.new }
{
    let from = in_columns(starts(block.from, block.width, block.rows), [col; 8]);
    let to = in_rows(
        starts(block.to, block.height, block.rows),
        D::SIDE,
        [col; 8],
    );
    store(cells, block.rows, to, load_columns(source, from));
}

/// Does what `Blocked::put_block` does, by squares of `D::SIDE` rows.
#[inline(always)]
fn put_by_squares<T, D: Register<T>, S: Loads<T, D>, M: Runs<T, D>>(
    cells: &mut M,
    source: &S,
    block: Block,
)
    requires some_side { IsSide D.SIDE }
    requires known { (block.rows ≡ 4) ⊎ (block.rows ≡ 8) }
    requires square { block.cols ≡ block.rows }
    requires lines { (block.rows ≡ D.SIDE) ⊎ (block.rows ≡ 2 * D.SIDE) }
    requires block { BlockFits block (length (S.items source.now)) (length (M.items cells.old)) }
    requires reads { RowsReached block.rows D.SIDE (λ r. block.from + r * block.width) (S.may (S.reach source.now)) }
    requires writes { RowsReached block.rows D.SIDE (λ c. block.to + c * block.height) (M.may (M.reach cells.old)) }
    ensures put { IsBlockPut (block_items block) block (S.items source.now) (M.items cells.old) (M.items cells.new) }
    ensures reach { M.reach cells.new ≡ M.reach cells.old }
    ensures holder { M.same_holder (block_items block) cells.old cells.new }
{
    put_squares(cells, source, block, 0);
    if D::SIDE < block.rows {
        put_squares(cells, source, block, D::SIDE);
    }
}
