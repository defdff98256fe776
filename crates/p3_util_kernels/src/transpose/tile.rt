//! A tile of 16 by 16 items, which is 16 blocks of 4 by 4 items. Each block is transposed by [`butterfly_4x4`].
//!
//! A *direct* tile puts each block straight into the output. A *buffered* tile collects its blocks in an array of 256
//! items, and then puts the 16 runs of 16 items that this array has.

ghost use Rattle.std.specs.Prelude.{◌≡◌, ℕ, ◌+◌, ◌*◌, ◌^◌, ◌<◌, ◌≤◌, ◌⊎◌, IsTrue, length, slice_get, drop};
ghost use Rattle.p3_util_kernels.specs.Region.{IsRegionTransposed, LiesInMatrix, cols_of, items_of, rows_of};
ghost use Rattle.p3_util_kernels.specs.Steps.{counted};
ghost use Rattle.p3_util_kernels.specs.Stages.{item_at};
ghost use prog.Memory.{size};
ghost use denote.Param.{layout};

use crate::places::{Cells, SliceCells, Source, Writes, len_fits};
use crate::transpose::butterfly::butterfly_4x4;
use crate::transpose::region::{Matrix, Region, put_plain};
use std::mem::size_of_val;

/// The number of rows and of columns of a tile.
pub(crate) const TILE_SIDE: usize = 16;

/// How the tiles of a region are put. The output is the same, but not the order of the puts.
#[derive(Clone, Copy)]
pub(crate) enum Tiles {
    /// Each block is put straight into the output.
    Direct,
    /// The blocks are collected in an array, whose items are put in runs of 16.
    Buffered,
}

/// Puts a tile. If its items are too long for an array of 256, it is copied plainly.
pub(crate) fn put_tile<R, C>(matrix: Matrix<R>, out: &mut Writes<C>, tile: Region, kind: Tiles)
where
    C: Cells,
    R: Source<Item = C::Item> + Copy,
    requires input_fits { length (R.items matrix.source) ≡ matrix.width * matrix.height }
    requires output_fits { length (C.items out.old.holder) ≡ matrix.width * matrix.height }
    requires inside { LiesInMatrix tile matrix.width matrix.height }
    requires rows { rows_of tile ≡ 16 }
    requires cols { cols_of tile ≡ 16 }
    ensures transposed { IsRegionTransposed tile matrix.width matrix.height
        (R.items matrix.source) (C.items out.old.holder) (C.items out.new.holder) }
    ensures count { out.new.count ≡ counted out.old.count (items_of tile) }
    ensures holder { C.same_holder (items_of tile) out.old.holder out.new.holder }
{
    let place = place_in(
        matrix.source.len(),
        tile.row_start,
        tile.col_start,
        matrix.width,
    );
    let first = matrix.source.at(place);
    if !fits_tile(&first) {
        put_plain(matrix, out, tile);
        return;
    }
    match kind {
        Tiles::Direct => put_direct(matrix, out, tile),
        Tiles::Buffered => put_buffered(matrix, out, tile),
    }
}

/// Whether 256 items like this one fit in an array. No item of a real program is so long that they do not.
pub(crate) fn fits_tile<T>(item: &T) -> bool
    ensures { IsTrue result → 256 * size (layout T.row) < 2 ^ 63 }
{
    size_of_val(item) < 1 << 32
}

/// The place of row `row` and column `col` in a list of `_len` items, in rows of `width` items.
pub(crate) fn place_in(_len: usize, row: usize, col: usize, width: usize) -> usize
    requires { row * width + col < _len }
    ensures { result ≡ row * width + col }
{
    row * width + col
}

/// The direct tile: each block is put straight into the output.
fn put_direct<R, C>(matrix: Matrix<R>, cells: &mut C, tile: Region)
where
    C: Cells,
    R: Source<Item = C::Item> + Copy,
    requires input_fits { length (R.items matrix.source) ≡ matrix.width * matrix.height }
    requires output_fits { length (C.items cells.old) ≡ matrix.width * matrix.height }
    requires inside { LiesInMatrix tile matrix.width matrix.height }
    requires rows { rows_of tile ≡ 16 }
    requires cols { cols_of tile ≡ 16 }
    requires small { 256 * size (layout C.Item.row) < 2 ^ 63 }
    ensures transposed { IsRegionTransposed tile matrix.width matrix.height
        (R.items matrix.source) (C.items cells.old) (C.items cells.new) }
    ensures holder { C.same_holder 256 cells.old cells.new }
{
    put_rows_of_blocks(matrix, cells, tile);
}

/// The buffered tile: its blocks are collected in an array, from which the runs are put.
fn put_buffered<R, C>(matrix: Matrix<R>, cells: &mut C, tile: Region)
where
    C: Cells,
    R: Source<Item = C::Item> + Copy,
    requires input_fits { length (R.items matrix.source) ≡ matrix.width * matrix.height }
    requires output_fits { length (C.items cells.old) ≡ matrix.width * matrix.height }
    requires inside { LiesInMatrix tile matrix.width matrix.height }
    requires rows { rows_of tile ≡ 16 }
    requires cols { cols_of tile ≡ 16 }
    requires small { 256 * size (layout C.Item.row) < 2 ^ 63 }
    ensures transposed { IsRegionTransposed tile matrix.width matrix.height
        (R.items matrix.source) (C.items cells.old) (C.items cells.new) }
    ensures holder { C.same_holder 256 cells.old cells.new }
{
    let buffer = read_tile(matrix, tile.row_start, tile.col_start);
    put_runs(matrix, cells, &buffer, tile);
}

/// Puts the 16 blocks of a tile, one row of blocks after another.
fn put_rows_of_blocks<R, C>(matrix: Matrix<R>, cells: &mut C, tile: Region)
where
    C: Cells,
    R: Source<Item = C::Item> + Copy,
    requires read { (r c : ℕ) → r < tile.row_end → c < tile.col_end
        → r * matrix.width + c < length (R.items matrix.source) }
    requires room { (c r : ℕ) → c < tile.col_end → r < tile.row_end
        → c * matrix.height + r < length (C.items cells.old) }
    requires tall { tile.row_end ≤ matrix.height }
    requires rows { tile.row_end ≡ tile.row_start + 16 }
    requires cols { tile.col_end ≡ tile.col_start + 16 }
    requires small { 256 * size (layout C.Item.row) < 2 ^ 63 }
    ensures transposed { IsRegionTransposed tile matrix.width matrix.height
        (R.items matrix.source) (C.items cells.old) (C.items cells.new) }
    ensures holder { C.same_holder 256 cells.old cells.new }
{
    for k in 0..4 {
        let start = tile.row_start + 4 * k;
        let blocks = tile.with_rows(start, start + 4);
        put_row_of_blocks(matrix, cells, blocks);
    }
}

/// Puts four blocks that lie side by side, from left to right.
fn put_row_of_blocks<R, C>(matrix: Matrix<R>, cells: &mut C, blocks: Region)
where
    C: Cells,
    R: Source<Item = C::Item> + Copy,
    requires read { (r c : ℕ) → r < blocks.row_end → c < blocks.col_end
        → r * matrix.width + c < length (R.items matrix.source) }
    requires room { (c r : ℕ) → c < blocks.col_end → r < blocks.row_end
        → c * matrix.height + r < length (C.items cells.old) }
    requires tall { blocks.row_end ≤ matrix.height }
    requires rows { blocks.row_end ≡ blocks.row_start + 4 }
    requires cols { blocks.col_end ≡ blocks.col_start + 16 }
    requires small { 256 * size (layout C.Item.row) < 2 ^ 63 }
    ensures transposed { IsRegionTransposed blocks matrix.width matrix.height
        (R.items matrix.source) (C.items cells.old) (C.items cells.new) }
    ensures holder { C.same_holder 64 cells.old cells.new }
{
    for k in 0..4 {
        let start = blocks.col_start + 4 * k;
        let block = blocks.with_cols(start, start + 4);
        put_block(matrix, cells, block);
    }
}

/// Puts a block of 4 by 4 items.
fn put_block<R, C>(matrix: Matrix<R>, cells: &mut C, block: Region)
where
    C: Cells,
    R: Source<Item = C::Item> + Copy,
    requires read { (r c : ℕ) → r < block.row_end → c < block.col_end
        → r * matrix.width + c < length (R.items matrix.source) }
    requires room { (c r : ℕ) → c < block.col_end → r < block.row_end
        → c * matrix.height + r < length (C.items cells.old) }
    requires tall { block.row_end ≤ matrix.height }
    requires rows { block.row_end ≡ block.row_start + 4 }
    requires cols { block.col_end ≡ block.col_start + 4 }
    requires small { 256 * size (layout C.Item.row) < 2 ^ 63 }
    ensures transposed { IsRegionTransposed block matrix.width matrix.height
        (R.items matrix.source) (C.items cells.old) (C.items cells.new) }
    ensures holder { C.same_holder 16 cells.old cells.new }
{
    let (row, col) = (block.row_start, block.col_start);
    let turned = butterfly_4x4(read_block(matrix, row, col));
    for k in 0..4 {
        let column = row_of(turned, k);
        let to = place_in(cells.len(), col + k, row, matrix.height);
        put_run(cells, to, &column, 0, 4);
    }
}

/// The block that begins at row `row` and column `col`.
fn read_block<R: Source + Copy>(matrix: Matrix<R>, row: usize, col: usize) -> [[R::Item; 4]; 4]
    requires fits { row + 4 < 2 ^ 64 }
    requires read { (r c : ℕ) → r < row + 4 → c < col + 4
        → r * matrix.width + c < length (R.items matrix.source) }
    ensures { (r c : ℕ) → r < 4 → c < 4 → item_at result r c
        ≡ slice_get (R.items matrix.source) ((row + r) * matrix.width + (col + c)) }
{
    [
        four_items(&matrix.source, row, col, matrix.width),
        four_items(&matrix.source, row + 1, col, matrix.width),
        four_items(&matrix.source, row + 2, col, matrix.width),
        four_items(&matrix.source, row + 3, col, matrix.width),
    ]
}

/// The four items of row `row` that begin at column `col`, in rows of `width` items.
fn four_items<R: Source>(input: &R, row: usize, col: usize, width: usize) -> [R::Item; 4]
    requires { row * width + (col + 3) < length (R.items input.now) }
    ensures { (c : ℕ) → c < 4
        → slice_get result c ≡ slice_get (R.items input.now) (row * width + (col + c)) }
{
    let at = place_in(input.len(), row, col, width);
    [
        input.at(at),
        input.at(at + 1),
        input.at(at + 2),
        input.at(at + 3),
    ]
}

/// Row `r` of a block. This is a function of its own, so that a proof can name the row.
fn row_of<T: Copy>(block: [[T; 4]; 4], r: usize) -> [T; 4]
    requires { r < 4 }
    ensures { (c : ℕ) → slice_get result c ≡ item_at block r c }
{
    block[r]
}

/// Puts `count` items from index `from` on into the cells from `to` on.
fn put_run<C: Cells>(cells: &mut C, to: usize, items: &[C::Item], from: usize, count: usize)
    requires room { to + count ≤ length (C.items cells.old) }
    requires there { from + count ≤ length items.now }
    ensures same_length { length (C.items cells.new) ≡ length (C.items cells.old) }
    ensures places { (t : ℕ) → t < count
        → slice_get (C.items cells.new) (to + t) ≡ slice_get items.now (from + t) }
    ensures others { (p : ℕ) → (p < to) ⊎ (to + count ≤ p)
        → slice_get (C.items cells.new) p ≡ slice_get (C.items cells.old) p }
    ensures holder { C.same_holder count cells.old cells.new }
{
    len_fits(cells.len());
    len_fits(items.len());
    for t in 0..count {
        cells.put(to + t, items[from + t]);
    }
}

/// Puts a tile from `buffer`, which has its items column after column, in 16 runs of 16 items.
fn put_runs<R, C>(matrix: Matrix<R>, cells: &mut C, buffer: &[C::Item], tile: Region)
where
    C: Cells,
    R: Source<Item = C::Item> + Copy,
    requires output_fits { length (C.items cells.old) ≡ matrix.width * matrix.height }
    requires inside { LiesInMatrix tile matrix.width matrix.height }
    requires rows { tile.row_end ≡ tile.row_start + 16 }
    requires cols { tile.col_end ≡ tile.col_start + 16 }
    requires long { length buffer.now ≡ 256 }
    requires collected { (x y : ℕ) → x < 16 → y < 16
        → slice_get buffer.now (x * 16 + y) ≡ slice_get (R.items matrix.source)
        ((tile.row_start + y) * matrix.width + (tile.col_start + x)) }
    ensures transposed { IsRegionTransposed tile matrix.width matrix.height
        (R.items matrix.source) (C.items cells.old) (C.items cells.new) }
    ensures holder { C.same_holder 256 cells.old cells.new }
{
    for k in 0..TILE_SIDE {
        let to = place_in(
            cells.len(),
            tile.col_start + k,
            tile.row_start,
            matrix.height,
        );
        put_run(cells, to, buffer, k * TILE_SIDE, TILE_SIDE);
    }
}

/// The items of the tile that begins at row `row` and column `col`, column after column.
fn read_tile<R: Source + Copy>(matrix: Matrix<R>, row: usize, col: usize) -> [R::Item; 256]
    requires read { (r c : ℕ) → r < 16 → c < 16
        → (row + r) * matrix.width + (col + c) < length (R.items matrix.source) }
    requires small { 256 * size (layout R.Item.row) < 2 ^ 63 }
    ensures { (x y : ℕ) → x < 16 → y < 16 → slice_get result (x * 16 + y)
        ≡ slice_get (R.items matrix.source) ((row + y) * matrix.width + (col + x)) }
{
    let from = place_in(matrix.source.len(), row, col, matrix.width);
    let rest = Rest {
        source: &matrix.source,
        from,
    };
    collect_tile(&rest, matrix.width)
}

/// The items of a source from index `from` on.
#[derive(Clone, Copy)]
struct Rest<'a, R> {
    source: &'a R,
    from: usize,
}

impl<'a, R: Source> Source for Rest<'a, R> {
    type Item = R::Item;

    ghost items = { λ s. drop s.from (R.items s.source.now) };

    fn len(&self) -> usize {
        self.source.len().saturating_sub(self.from)
    }

    fn at(&self, i: usize) -> R::Item {
        len_fits(self.source.len());
        self.source.at(self.from + i)
    }
}

/// The items of the tile that begins with the first item of `input`, column after column.
fn collect_tile<R: Source>(input: &R, width: usize) -> [R::Item; 256]
    requires read { (r c : ℕ) → r < 16 → c < 16 → r * width + c < length (R.items input.now) }
    requires small { 256 * size (layout R.Item.row) < 2 ^ 63 }
    ensures { (x y : ℕ) → x < 16 → y < 16
        → slice_get result (x * 16 + y) ≡ slice_get (R.items input.now) (y * width + x) }
{
    let mut buffer = [input.at(0); 256];
    fill_tile(input, &mut buffer, width);
    buffer
}

/// Puts the items of that tile into a buffer.
fn fill_tile<R: Source>(input: &R, buffer: &mut [R::Item], width: usize)
    requires read { (r c : ℕ) → r < 16 → c < 16 → r * width + c < length (R.items input.now) }
    requires long { length buffer.old ≡ 256 }
    requires small { 256 * size (layout R.Item.row) < 2 ^ 63 }
    ensures same_length { length buffer.new ≡ 256 }
    ensures collected { (x y : ℕ) → x < 16 → y < 16
        → slice_get buffer.new (x * 16 + y) ≡ slice_get (R.items input.now) (y * width + x) }
{
    let tile = Region {
        row_start: 0,
        row_end: TILE_SIDE,
        col_start: 0,
        col_end: TILE_SIDE,
    };
    let rows = Matrix::new(input, width, TILE_SIDE);
    put_rows_of_blocks(rows, &mut SliceCells::new(buffer), tile);
}
