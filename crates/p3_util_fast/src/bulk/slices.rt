//! How the holders of slices make many steps at once: runs of places are exchanged as slices, and the rows of a block
//! are read as slices.

ghost use Rattle.std.specs.Prelude.{Some, IfSome, slice_get, take, drop, ◌≡◌, ℕ, ◌+◌, ◌-◌, ◌*◌, ◌<◌, ◌≤◌, ◌⊎◌, ◌++◌, length, swap};
ghost use Rattle.p3_util_fast.specs.BlockPut.{AreRows, BlockFits, IsBlockPut, block_items};
ghost use Rattle.p3_util_kernels.specs.Exchanged.{RunsExchanged};

use crate::bulk::{Ahead, Block, Blocked, Tiled};
use p3_util_kernels::places::{SliceCells, SlicePlaces, SliceSource, len_fits};

impl<'a, F> Tiled for SlicePlaces<'a, F> {
    #[inline(always)]
    fn exchange_runs(&mut self, i: usize, j: usize, len: usize) {
        exchange_runs_of_items(self.items, i, j, len);
    }
}

/// Exchanges two runs of `len` items: those from place `i` on and those from place `j` on.
#[inline(always)]
fn exchange_runs_of_items<F>(items: &mut [F], i: usize, j: usize, len: usize)
    requires apart { (i + len ≤ j) ⊎ (j + len ≤ i) }
    requires first { i + len ≤ length items.old }
    requires second { j + len ≤ length items.old }
    ensures { RunsExchanged i j len items.old items.new }
{
    let (low, high) = (i.min(j), i.max(j));
    let (front, back) = items.split_at_mut(high);
    front[low..low + len].swap_with_slice(&mut back[..len]);
}

impl<'a, T: Copy> Blocked for SliceCells<'a, T> {
    #[inline(always)]
    fn put_block<R: Ahead<Item = T>>(&mut self, source: &R, block: Block) {
        let items = match source.as_slice() {
            Some(items) if block.cols > 0 => items,
            _ => return self.put_block_singly(source, block),
        };
        match block.rows {
            16 => put_rows_apart::<16, _>(self.values, items, block),
            8 => put_rows_apart::<8, _>(self.values, items, block),
            4 => put_rows::<4, _>(self.values, items, block),
            2 => put_rows::<2, _>(self.values, items, block),
            1 => put_rows::<1, _>(self.values, items, block),
            _ => self.put_block_singly(source, block),
        }
    }
}

/// Does the same as [`put_rows`]. It is not inlined, so the compiler knows that the lists do not overlap.
#[inline(never)]
fn put_rows_apart<const ROWS: usize, T: Copy>(values: &mut [T], items: &[T], block: Block)
    requires some { 0 < block.rows }
    requires most { ROWS ≤ 16 }
    requires rows { block.rows ≡ ROWS }
    requires cols { 0 < block.cols }
    requires fits { BlockFits block (length items.now) (length values.old) }
    ensures { IsBlockPut (block_items block) block items.now values.old values.new }
{
    put_rows::<ROWS, _>(values, items, block);
}

/// Puts a block of `ROWS` rows, column after column. One test is made for each row and each column, and none for a
/// single item.
#[inline(always)]
fn put_rows<const ROWS: usize, T: Copy>(values: &mut [T], items: &[T], block: Block)
    requires some { 0 < block.rows }
    requires most { ROWS ≤ 16 }
    requires rows { block.rows ≡ ROWS }
    requires cols { 0 < block.cols }
    requires fits { BlockFits block (length items.now) (length values.old) }
    ensures { IsBlockPut (block_items block) block items.now values.old values.new }
{
    len_fits(items.len());
    let rows = rows_of::<ROWS, _>(items, block);
    for col in 0..block.cols {
        let at = block.to + col * block.height;
        put_column(&mut values[at..at + ROWS], &rows, col);
    }
}

/// An array whose first `ROWS` items are the rows of a block. The compiler knows that these slices have one length. The
/// checker takes no array of `ROWS` references, so the array has 16 items.
#[inline(always)]
fn rows_of<const ROWS: usize, T>(items: &[T], block: Block) -> [&[T]; 16]
    requires most { ROWS ≤ 16 }
    requires rows { block.rows ≡ ROWS }
    requires cols { 0 < block.cols }
    requires inside { (r c : ℕ) → r < block.rows → c < block.cols
        → block.from + r * block.width + c < length items.now }
    ensures len { length result ≡ 16 }
    ensures rows { AreRows block block.rows items.now result }
{
    let mut rows = [items; 16];
    for r in 0..ROWS {
        rows[r] = &items[block.from + r * block.width..][..block.cols];
    }
    rows
}

/// Puts item `col` of each of the first rows.
#[inline(always)]
fn put_column<T: Copy>(column: &mut [T], rows: &[&[T]], col: usize)
    requires most { length column.old ≤ length rows.now }
    requires long { (r : ℕ) → r < length column.old
        → IfSome (slice_get rows.now r) (λ row. col < length row.now) }
    ensures same_length { length column.new ≡ length column.old }
    ensures put { (r : ℕ) → r < length column.old
        → IfSome (slice_get rows.now r) (λ row. slice_get column.new r ≡ slice_get row.now col) }
{
    for r in 0..column.len() {
        let row = rows[r];
        column[r] = row[col];
    }
}

impl<'a, T: Copy> Ahead for SliceSource<'a, T> {
    #[inline(always)]
    fn as_slice(&self) -> Option<&[T]> {
        Some(self.slice)
    }
}
