//! Blocks whose columns are whole cache lines: each column is stored from its first cell to its last, one right after
//! the other.

ghost use Rattle.std.specs.Prelude.{◌≡◌, ℕ, ◌+◌, ◌*◌, ◌^◌, ◌<◌, ◌≤◌, ◌⊎◌, ◌++◌, length};
ghost use Rattle.p3_util_fast.specs.BlockPut.{BlockFits, IsBlockPut, block_items};
ghost use Rattle.p3_util_fast.specs.Registers.{ColumnsPut, IsRunStored, IsStored, items_of_four};
ghost use Rattle.p3_util_fast.specs.RegisterLines.{AreLines, ColumnsReached, LinesReached};

use crate::bulk::Block;
use crate::registers::blocks::starts;
use crate::registers::{Four, Loads, Register, Runs, load, load_two, next_stage};

/// Reads 8 rows, from place `from` on, and transposes them. The registers hold the columns, of 8 items each, one after
/// another.
#[inline(always)]
fn load_lines<T, D: Register<T>, S: Loads<T, D>>(list: &S, from: usize, width: usize) -> Four<D>
    requires side { (D.SIDE ≡ 2) ⊎ (D.SIDE ≡ 4) }
    requires inside { (r : ℕ) → r < 8 → from + r * width + D.SIDE ≤ length (S.items list.now) }
    requires len_fits { length (S.items list.now) < 2 ^ 63 }
    requires reached { (r : ℕ) → r < 8 → S.may (S.reach list.now) (from + r * width) }
    ensures { AreLines D.SIDE from width (S.items list.now) (items_of_four D.items result) }
{
    let one = load(list, starts(from, width, 8));
    let two = next_stage(one);
    next_stage(two)
}

/// Writes the first half of a register from place `first` on, and then the second half from place `second` on.
#[inline(always)]
fn stream_two<T, D: Register<T>, M: Runs<T, D>>(list: &mut M, first: usize, second: usize, rows: D)
    requires apart { (first + D.SIDE ≤ second) ⊎ (second + D.SIDE ≤ first) }
    requires first { M.may_stream (M.reach list.old) first }
    requires second { M.may_stream (M.reach list.old) second }
    ensures stored { IsStored D.SIDE first second (D.items rows) (M.items list.old) (M.items list.new) }
    ensures reach { M.reach list.new ≡ M.reach list.old }
    ensures holder { M.same_holder (2 * D.SIDE) list.old list.new }
{
    let (a, b) = rows.halves();
    list.stream(first, a);
    list.stream(second, b);
}

/// Stores two registers, one after the other, where column `col` of a block is put.
#[inline(always)]
fn put_line<T, D: Register<T>, M: Runs<T, D>>(list: &mut M, block: Block, col: usize, a: D, b: D)
    requires some_side { 0 < D.SIDE }
    requires line { block.rows ≡ 4 * D.SIDE }
    requires below { col < block.cols }
    requires room { (r c : ℕ) → r < block.rows → c < block.cols → block.to + c * block.height + r < length (M.items list.old) }
    requires len_fits { length (M.items list.old) < 2 ^ 63 }
    requires reached { (k : ℕ) → k < 4 → M.may_stream (M.reach list.old) (block.to + col * block.height + k * D.SIDE) }
    ensures stored { IsRunStored block.rows (block.to + col * block.height) (D.items a ++ D.items b)
        (M.items list.old) (M.items list.new) }
    ensures reach { M.reach list.new ≡ M.reach list.old }
    ensures holder { M.same_holder block.rows list.old list.new }
{
    let side = D::SIDE;
    let to = block.to + col * block.height;
    stream_two(list, to, to + side, a);
    stream_two(list, to + 2 * side, to + 3 * side, b);
}

/// Puts `D::SIDE` columns of a block, from column `col` on. Each is stored from its first cell to its last.
#[inline(never)]
fn put_some_lines<T, D: Register<T>, S: Loads<T, D>, M: Runs<T, D>>(
    cells: &mut M,
    source: &S,
    block: Block,
    col: usize,
)
    requires some_side { (D.SIDE ≡ 2) ⊎ (D.SIDE ≡ 4) }
    requires lines { block.rows ≡ 4 * D.SIDE }
    requires below { col + D.SIDE ≤ block.cols }
    requires block { BlockFits block (length (S.items source.now)) (length (M.items cells.old)) }
    requires reads { ColumnsReached D.SIDE block (S.may (S.reach source.now)) }
    requires writes { LinesReached D.SIDE block (M.may_stream (M.reach cells.old)) }
    requires source_len_fits { length (S.items source.now) < 2 ^ 63 }
    requires cells_len_fits { length (M.items cells.old) < 2 ^ 63 }
    ensures put { ColumnsPut col (col + D.SIDE) block (S.items source.now) (M.items cells.old) (M.items cells.new) }
    ensures reach { M.reach cells.new ≡ M.reach cells.old }
    ensures holder { M.same_holder (block.rows * D.SIDE) cells.old cells.new }
{
    let side = D::SIDE;
    let from = block.from + col;
    let top = load_lines(source, from, block.width);
    if side == 2 {
        put_line(cells, block, col, top.a, top.b);
        put_line(cells, block, col + 1, top.c, top.d);
        return;
    }
    let bottom = load_lines(source, from + 8 * block.width, block.width);
    put_line(cells, block, col, top.a, bottom.a);
    put_line(cells, block, col + 1, top.b, bottom.b);
    put_line(cells, block, col + 2, top.c, bottom.c);
    put_line(cells, block, col + 3, top.d, bottom.d);
}

/// Puts a block of one column. Of each row, the registers have some items to the right of this column too.
#[inline(always)]
fn put_one_line<T, D: Register<T>, S: Loads<T, D>, M: Runs<T, D>>(
    cells: &mut M,
    source: &S,
    block: Block,
)
    requires some_side { (D.SIDE ≡ 2) ⊎ (D.SIDE ≡ 4) }
    requires lines { block.rows ≡ 4 * D.SIDE }
    requires one { block.cols ≡ 1 }
    requires inside { (r : ℕ) → r < block.rows → block.from + r * block.width + D.SIDE ≤ length (S.items source.now) }
    requires block { BlockFits block (length (S.items source.now)) (length (M.items cells.old)) }
    requires reads { ColumnsReached D.SIDE block (S.may (S.reach source.now)) }
    requires writes { LinesReached D.SIDE block (M.may_stream (M.reach cells.old)) }
    requires source_len_fits { length (S.items source.now) < 2 ^ 63 }
    requires cells_len_fits { length (M.items cells.old) < 2 ^ 63 }
    ensures put { ColumnsPut 0 block.cols block (S.items source.now) (M.items cells.old) (M.items cells.new) }
    ensures reach { M.reach cells.new ≡ M.reach cells.old }
    ensures holder { M.same_holder block.rows cells.old cells.new }
{
    let side = D::SIDE;
    let top = load_lines(source, block.from, block.width);
    if side == 2 {
        put_line(cells, block, 0, top.a, top.b);
        return;
    }
    let bottom = load_lines(source, block.from + 8 * block.width, block.width);
    put_line(cells, block, 0, top.a, bottom.a);
}

/// Puts a column of a block of 4 rows.
#[inline(always)]
fn put_four<T, D: Register<T>, S: Loads<T, D>, M: Runs<T, D>>(
    cells: &mut M,
    source: &S,
    block: Block,
    col: usize,
)
    requires side { D.SIDE ≡ 1 }
    requires lines { block.rows ≡ 4 }
    requires below { col < block.cols }
    requires block { BlockFits block (length (S.items source.now)) (length (M.items cells.old)) }
    requires reads { ColumnsReached D.SIDE block (S.may (S.reach source.now)) }
    requires writes { LinesReached D.SIDE block (M.may_stream (M.reach cells.old)) }
    requires source_len_fits { length (S.items source.now) < 2 ^ 63 }
    requires cells_len_fits { length (M.items cells.old) < 2 ^ 63 }
    ensures put { ColumnsPut col (col + 1) block (S.items source.now) (M.items cells.old) (M.items cells.new) }
    ensures reach { M.reach cells.new ≡ M.reach cells.old }
    ensures holder { M.same_holder block.rows cells.old cells.new }
{
    let from = block.from + col;
    let a = load_two(source, from, from + block.width);
    let b = load_two(source, from + 2 * block.width, from + 3 * block.width);
    put_line(cells, block, col, a, b);
}

/// Does what `Blocked::put_block` does, for blocks of 4 * `D::SIDE` rows and as many columns, or of one column, column
/// after column.
#[inline(always)]
pub(crate) fn put_by_lines<T, D: Register<T>, S: Loads<T, D>, M: Runs<T, D>>(
    cells: &mut M,
    source: &S,
    block: Block,
)
    requires some_side { (D.SIDE ≡ 1) ⊎ ((D.SIDE ≡ 2) ⊎ (D.SIDE ≡ 4)) }
    requires lines { block.rows ≡ 4 * D.SIDE }
    requires cols { (block.cols ≡ 1) ⊎ (block.cols ≡ block.rows) }
    requires inside { (r : ℕ) → r < block.rows → block.from + r * block.width + D.SIDE ≤ length (S.items source.now) }
    requires block { BlockFits block (length (S.items source.now)) (length (M.items cells.old)) }
    requires reads { ColumnsReached D.SIDE block (S.may (S.reach source.now)) }
    requires writes { LinesReached D.SIDE block (M.may_stream (M.reach cells.old)) }
    ensures put { IsBlockPut (block_items block) block (S.items source.now) (M.items cells.old) (M.items cells.new) }
    ensures reach { M.reach cells.new ≡ M.reach cells.old }
    ensures holder { M.same_holder (block_items block) cells.old cells.new }
{
    let side = D::SIDE;
    if side > 1 && block.cols == 1 {
        put_one_line(cells, source, block);
        return;
    }
    for part in 0..block.cols / side {
        if side == 1 {
            put_four(cells, source, block, part);
        } else {
            put_some_lines(cells, source, block, part * side);
        }
    }
}
