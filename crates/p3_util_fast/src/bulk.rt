//! Many steps at once, only for speed: tiles and runs of places, and blocks of cells.
//!
//! A kernel is generic over these traits. Each method that changes a list has a body of single steps, and a contract
//! that counts them. A holder of a slice may have a faster way to do the same. Where it has none, it can call the
//! method whose name ends in `_singly`, which makes single steps. A counter keeps these bodies, so it makes and counts
//! each step by itself. A call runs its kernel on a holder of its own slice, or on a counter. So a holder of a caller
//! needs none of these traits.

ghost use Rattle.std.specs.Prelude.{◌≡◌, ℕ, ◌+◌, ◌*◌, ◌<◌, ◌≤◌, ◌⊎◌, IfSome, length};
ghost use Rattle.p3_util_fast.specs.BlockPut.{BlockFits, IsBlockPut, block_items};
ghost use Rattle.p3_util_kernels.specs.Exchanged.{RunsExchanged};
ghost use Rattle.p3_util_fast.specs.Registers.{IsSquareOf, ItemsExchanged};
ghost use Rattle.p3_util_fast.specs.Tiles.{AreTiles, IsTile, TileTurned, TilesExchanged};

mod slices;

use p3_util_kernels::places::{Cells, Places, Source, len_fits};

/// A block of a matrix, and where its transpose goes.
///
/// The item in row r and column c of the block is at index `from + r * width + c` of a source. In the transpose, it
/// belongs into cell `to + c * height + r`.
#[derive(Clone, Copy)]
#[doc(hidden)]
pub struct Block {
    /// The number of rows of the block.
    pub rows: usize,
    /// The number of its columns.
    pub cols: usize,
    /// The index of the block's first item.
    pub from: usize,
    /// The distance of two rows of the block in the source.
    pub width: usize,
    /// The cell of the block's first item.
    pub to: usize,
    /// The distance of two columns of the block in the cells.
    pub height: usize,
}

/// Places of which tiles and runs can be exchanged.
#[doc(hidden)]
pub trait Tiled: Places {
    /// Exchanges two tiles of 8 by 8 items, each with the mirror image of the other. The item in row r and column c of
    /// a tile goes to row c and column r of the other tile. Row r of the one tile is the 8 places from `x[r]` on, and
    /// row r of the other the 8 places from `y[r]` on. No two of these 16 rows may overlap. A holder may have a faster
    /// way to do this than 64 calls of `exchange`.
    #[inline(always)]
    fn exchange_tiles(&mut self, x: [usize; 8], y: [usize; 8])
    where
        Self: Sized,
        requires { AreTiles x y (length (Self.items self.old)) }
        ensures exchanged { TilesExchanged 64 x y (Self.items self.old) (Self.items self.new) }
        ensures holder { Self.same_holder 64 self.old self.new }
    {
        exchange_singly(self, x, y);
    }

    /// Transposes a tile of 8 by 8 items in place. For all r < c, the item in row r and column c is exchanged with the
    /// item in row c and column r. Row r is the 8 places from `x[r]` on. No two of the 8 rows may overlap. A holder may
    /// have a faster way to do this than 28 calls of `exchange`.
    #[inline(always)]
    fn turn_tile(&mut self, x: [usize; 8])
        requires { IsTile x (length (Self.items self.old)) }
        ensures turned { TileTurned 64 x (Self.items self.old) (Self.items self.new) }
        ensures holder { Self.same_holder 28 self.old self.new }
    {
        self.turn_tile_singly(x);
    }

    /// Does the same by 28 calls of `exchange`.
    #[inline(always)]
    fn turn_tile_singly(&mut self, x: [usize; 8])
        requires { IsTile x (length (Self.items self.old)) }
        ensures turned { TileTurned 64 x (Self.items self.old) (Self.items self.new) }
        ensures holder { Self.same_holder 28 self.old self.new }
    {
        len_fits(self.len());
        for row in 0..8 {
            for col in row + 1..8 {
                self.exchange(x[row] + col, x[col] + row);
            }
        }
    }

    /// A hint that a call of `exchange_tiles` with the same arguments may come soon. Nothing has to follow from it, and
    /// the list stays as it is. A holder may fetch the tiles into a cache. The arguments may be any numbers.
    #[inline(always)]
    fn expect_tiles(&self, _x: [usize; 8], _y: [usize; 8]) {}

    /// Exchanges two runs of `len` consecutive items, those from place `i` on and those from place `j` on. Each run
    /// keeps its order. The runs must not overlap. A holder may have a faster way to do this than `len` calls of
    /// `exchange`.
    #[inline(always)]
    fn exchange_runs(&mut self, i: usize, j: usize, len: usize)
        requires apart { (i + len ≤ j) ⊎ (j + len ≤ i) }
        requires first { i + len ≤ length (Self.items self.old) }
        requires second { j + len ≤ length (Self.items self.old) }
        ensures exchanged { RunsExchanged i j len (Self.items self.old) (Self.items self.new) }
        ensures holder { Self.same_holder len self.old self.new }
    {
        len_fits(self.len());
        for t in 0..len {
            self.exchange(i + t, j + t);
        }
    }
}

/// Exchanges two tiles item by item, in squares of 4 by 4. The rows of a tile often lie in one set of the first-level
/// cache, which has room for the lines of a square and its mirror image.
#[inline(always)]
pub(crate) fn exchange_singly<M: Places>(list: &mut M, x: [usize; 8], y: [usize; 8])
    requires { AreTiles x y (length (M.items list.old)) }
    ensures exchanged { TilesExchanged 64 x y (M.items list.old) (M.items list.new) }
    ensures holder { M.same_holder 64 list.old list.new }
{
    exchange_square(list, x, y, 0, 0);
    exchange_square(list, x, y, 0, 4);
    exchange_square(list, x, y, 4, 0);
    exchange_square(list, x, y, 4, 4);
}

/// Exchanges the square of 4 by 4 items of a tile from row `row` and column `col` on, with its mirror image in another
/// tile: by its diagonals, of which all but the first go on at the other side of the square. The rows of a tile often
/// begin at distances of whole pages. A processor compares the last 12 bits of addresses first, so a load from one row
/// waits for a store to the same column of another one. Items of a diagonal are in different rows and columns.
#[inline(always)]
fn exchange_square<M: Places>(list: &mut M, x: [usize; 8], y: [usize; 8], row: usize, col: usize)
    requires tiles { AreTiles x y (length (M.items list.old)) }
    requires row { row + 4 ≤ 8 }
    requires col { col + 4 ≤ 8 }
    ensures exchanged { ItemsExchanged (IsSquareOf row col 16) x y (M.items list.old) (M.items list.new) }
    ensures holder { M.same_holder 16 list.old list.new }
{
    let _len = list.len();
    for d in 0..4 {
        for r in 0..4 {
            let c = (r + d) % 4;
            list.exchange(x[row + r] + (col + c), y[col + c] + (row + r));
        }
    }
}

/// Cells into which blocks can be put.
#[doc(hidden)]
pub trait Blocked: Cells {
    /// Puts the transpose of a block. For each row r and column c of the block, the item at index `from + r * width +
    /// c` of `source` is put into cell `to + c * height + r`. All other cells keep their items. The columns of the
    /// block must not overlap in the cells. A holder may have a faster way to do this than one call of `put` for each
    /// item.
    #[inline(always)]
    fn put_block<R: Ahead<Item = Self::Item>>(&mut self, source: &R, block: Block)
    where
        Self: Sized,
        requires { BlockFits block (length (R.items source.now)) (length (Self.items self.old)) }
        ensures put { IsBlockPut (block_items block) block (R.items source.now)
            (Self.items self.old) (Self.items self.new) }
        ensures holder { Self.same_holder (block_items block) self.old self.new }
    {
        self.put_block_singly(source, block);
    }

    /// Does the same by one call of `put` for each item.
    #[inline(always)]
    fn put_block_singly<R: Ahead<Item = Self::Item>>(&mut self, source: &R, block: Block)
    where
        Self: Sized,
        requires { BlockFits block (length (R.items source.now)) (length (Self.items self.old)) }
        ensures put { IsBlockPut (block_items block) block (R.items source.now)
            (Self.items self.old) (Self.items self.new) }
        ensures holder { Self.same_holder (block_items block) self.old self.new }
    {
        let Block {
            rows,
            cols,
            from,
            width,
            to,
            height,
        } = block;
        len_fits(source.len());
        len_fits(Self::len(self));
        for c in 0..cols {
            for r in 0..rows {
                self.put(to + c * height + r, source.at(from + r * width + c));
            }
        }
    }
}

/// A source that can be told what is read next, and may have all items in a slice.
#[doc(hidden)]
pub trait Ahead: Source {
    /// A hint that the item at index `i` may be read soon. Nothing has to follow from it. A holder may fetch the item
    /// into a cache. The index may be any number.
    #[inline(always)]
    fn expect(&self, _i: usize) {}

    /// The items as a slice, if they are next to each other in memory in this order. A holder of cells can then read
    /// more than one of them at once.
    #[inline(always)]
    fn as_slice(&self) -> Option<&[Self::Item]>
        ensures { IfSome result (λ slice. slice.now ≡ Self.items self.now) }
    {
        None
    }
}
