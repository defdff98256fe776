//! Squares of a list, and the exchange of their items across the diagonal.
//!
//! A *grid* is a square with 2^k rows and columns. Its row `x` begins at a place of the list, and the row's other
//! places follow this one. The rows lie in the list at equal distances, in bit-reversed order. So the place of row `x`
//! and column `y` is `base + rev(x) * stride + y`, where `rev(x)` is `x` with its k binary digits in reversed order.
//!
//! The place of row `x` and column `y` is exchanged with the place of row `y` and column `x`, for all `x < y`. This
//! reverses the list by index bits, as the module [`rows`](crate::rows) explains. If the list consists of runs of
//! `width` items, such as rows, a place of the grid is the index of a run.
//!
//! The exchanges are made in the order of nested squares, down to *tiles* of 8 rows and columns. So the items of a
//! tile, which lie in a few cache lines, are exchanged together.

ghost use Rattle.std.specs.Prelude.{◌≡◌, ◌≢◌, ℕ, ◌+◌, ◌-◌, ◌*◌, ◌/◌, ◌%◌, ◌^◌, ◌<◌, ◌≤◌, length, slice_index};
ghost use Rattle.p3_util_kernels.specs.Digits.{rev};
ghost use Rattle.p3_util_kernels.specs.Exchanged.{RunsExchanged};
ghost use Rattle.p3_util_fast.specs.Grid.{HoldsGrid, IsInFirstRow, IsRowDistance, PlacesFit, SwapsInGrid, row_place, square_at};
ghost use Rattle.p3_util_kernels.specs.Region.{cols_of, items_of};
ghost use Rattle.p3_util_kernels.specs.SwapCounts.{square_swaps};

use crate::bulk::Tiled;
use p3_util_kernels::bits::{pow2, reverse_bits_len};
use p3_util_kernels::reverse::REVERSED_SIX;
use p3_util_kernels::transpose::Region;

/// The number of rows and of columns of a tile.
#[doc(hidden)]
pub const TILE: usize = 8;

/// The greatest number of rows and of columns of a region that is not cut further.
const LEAF: usize = 64;

/// A square of `2^digits` rows and columns in a list of runs of `width` items.
#[derive(Clone, Copy)]
#[doc(hidden)]
pub struct Grid {
    pub width: usize,
    /// The first place.
    pub base: usize,
    /// How far apart neighbouring rows of the list begin.
    pub stride: usize,
    pub digits: usize,
}

impl Grid {
    /// The place at which row `x` begins.
    #[inline(always)]
    #[tactic(auto, unfolding(crate::specs::Grid::row_place))]
    fn start(self, x: usize) -> usize
        requires fits { PlacesFit self }
        requires below { x < 2 ^ self.digits }
        ensures { result ≡ row_place self x }
    {
        self.base + reverse_digits(x, self.digits) * self.stride
    }

    /// How far from row `x` row `x + 4` begins, if 8 divides `x`. `_first` is a place of row `x`.
    #[inline(always)]
    fn row_distance(self, _first: usize) -> usize
        requires fits { PlacesFit self }
        requires tile { IsInFirstRow self _first }
        ensures rows { IsRowDistance self result }
        ensures room { _first + 7 * result < 2 ^ 64 }
    {
        self.stride * pow2(self.digits - 3)
    }

    /// The places of one column in the 8 rows of a tile. `first` is the place in the first of these rows.
    #[inline(always)]
    fn tile_rows(self, first: usize) -> [usize; 8]
        requires fits { PlacesFit self }
        requires tile { IsInFirstRow self first }
        ensures { (x y : ℕ) → x % 8 ≡ 0 → x + 8 ≤ 2 ^ self.digits → first ≡ row_place self x + y
            → (t : ℕ) → t < 8 → slice_index result t ≡ row_place self (x + t) + y }
    {
        // If 8 divides `x`, row `x + t` begins as far from row `x` as these distances say, one for each binary digit of
        // `t` that is set.
        let four = self.row_distance(first);
        let (one, two) = (4 * four, 2 * four);
        let middle = first + four;
        [
            first,
            first + one,
            first + two,
            first + one + two,
            middle,
            middle + one,
            middle + two,
            middle + one + two,
        ]
    }

    /// The rows of the tile at row `x` and column `y`, and those of its mirror image. Row `x` begins at place `first`,
    /// and row `y` at place `start`.
    #[inline(always)]
    fn tile_pair(self, x: usize, y: usize, first: usize, start: usize) -> ([usize; 8], [usize; 8])
        requires fits { PlacesFit self }
        requires whole_x { x % 8 ≡ 0 }
        requires whole_y { y % 8 ≡ 0 }
        requires x_below { x + 8 ≤ 2 ^ self.digits }
        requires y_below { y + 8 ≤ 2 ^ self.digits }
        requires first { first ≡ row_place self x }
        requires start { start ≡ row_place self y }
        ensures rows { (t : ℕ) → t < 8 → slice_index result.0 t ≡ row_place self (x + t) + y }
        ensures cols { (t : ℕ) → t < 8 → slice_index result.1 t ≡ row_place self (y + t) + x }
    {
        (self.tile_rows(first + y), self.tile_rows(start + x))
    }
}

/// Exchanges the runs of `width` items with the indices `i` and `j`.
#[inline(always)]
fn exchange_places<M: Tiled>(m: M, width: usize, i: usize, j: usize) -> M
    requires apart { i ≢ j }
    requires first { i * width + width ≤ length (M.items m) }
    requires second { j * width + width ≤ length (M.items m) }
    requires len_fits { length (M.items m) < 2 ^ 64 }
    ensures exchanged { RunsExchanged (i * width) (j * width) width (M.items m) (M.items result) }
    ensures holder { M.same_holder width m result }
{
    let mut m = m;
    if width == 1 {
        m.exchange(i, j);
    } else {
        m.exchange_runs(i * width, j * width, width);
    }
    m
}

/// Exchanges places of row `row` with their mirror images. These are the places in the columns of `region`, which are
/// to the right of the diagonal.
#[inline(always)]
fn exchange_row<M: Tiled>(m: M, grid: Grid, row: usize, region: Region) -> M
    requires cols_in_order { region.col_start ≤ region.col_end }
    requires above { row < region.col_start }
    requires within { region.col_end ≤ 2 ^ grid.digits }
    requires ready { HoldsGrid grid (M.items m) }
    ensures exchanged { SwapsInGrid grid
        (record region { row_start = row; row_end = row + 1 }) (M.items m) (M.items result) }
    ensures holder { M.same_holder (grid.width * cols_of region) m result }
{
    let first = grid.start(row);
    let mut m = m;
    for col in region.col_start..region.col_end {
        m = exchange_places(m, grid.width, first + col, grid.start(col) + row);
    }
    m
}

/// Exchanges the tiles of a region that lie in the 8 columns from `col` on with their mirror images.
#[inline(always)]
fn exchange_tile_column<M: Tiled>(m: M, grid: Grid, col: usize, region: Region) -> M
    requires one { grid.width ≡ 1 }
    requires rows_in_order { region.row_start ≤ region.row_end }
    requires whole_start { region.row_start % 8 ≡ 0 }
    requires whole_end { region.row_end % 8 ≡ 0 }
    requires whole_col { col % 8 ≡ 0 }
    requires above { region.row_end ≤ col }
    requires within { col + 8 ≤ 2 ^ grid.digits }
    requires fits { PlacesFit grid }
    requires ready { HoldsGrid grid (M.items m) }
    ensures exchanged { SwapsInGrid grid (record region { col_start = col; col_end = col + 8 })
        (M.items m) (M.items result) }
    ensures holder { M.same_holder ((region.row_end - region.row_start) * 8) m result }
{
    let start = grid.start(col);
    let mut first = grid.start(region.row_start);
    let mut m = m;
    for tile in region.row_start / TILE..region.row_end / TILE {
        let next = tile * TILE + TILE;
        // After the last tile the next one is below the region, and within the grid too.
        let below = grid.start(next);
        let (next_rows, next_cols) = grid.tile_pair(next, col, below, start);
        m.expect_tiles(next_rows, next_cols);
        let (rows, cols) = grid.tile_pair(tile * TILE, col, first, start);
        m.exchange_tiles(rows, cols);
        first = below;
    }
    m
}

/// Exchanges a region above the diagonal with its mirror image, tile by tile.
#[inline(always)]
fn exchange_leaf_tiles<M: Tiled>(m: M, grid: Grid, region: Region) -> M
    requires one { grid.width ≡ 1 }
    requires rows_in_order { region.row_start ≤ region.row_end }
    requires cols_in_order { region.col_start ≤ region.col_end }
    requires whole_row_start { region.row_start % 8 ≡ 0 }
    requires whole_row_end { region.row_end % 8 ≡ 0 }
    requires whole_col_start { region.col_start % 8 ≡ 0 }
    requires whole_col_end { region.col_end % 8 ≡ 0 }
    requires above { region.row_end ≤ region.col_start }
    requires within { region.col_end ≤ 2 ^ grid.digits }
    requires ready { HoldsGrid grid (M.items m) }
    ensures exchanged { SwapsInGrid grid region (M.items m) (M.items result) }
    ensures holder { M.same_holder (items_of region) m result }
{
    let mut m = m;
    for tile in region.col_start / TILE..region.col_end / TILE {
        m = exchange_tile_column(m, grid, tile * TILE, region);
    }
    m
}

/// Exchanges a region above the diagonal with its mirror image, without cutting the region: tile by tile if the region
/// consists of tiles, and otherwise row after row.
#[inline(always)]
fn exchange_leaf<M: Tiled>(m: M, grid: Grid, region: Region) -> M
    requires rows_in_order { region.row_start ≤ region.row_end }
    requires cols_in_order { region.col_start ≤ region.col_end }
    requires above { region.row_end ≤ region.col_start }
    requires within { region.col_end ≤ 2 ^ grid.digits }
    requires ready { HoldsGrid grid (M.items m) }
    ensures exchanged { SwapsInGrid grid region (M.items m) (M.items result) }
    ensures holder { M.same_holder (grid.width * items_of region) m result }
{
    let whole_rows = region.row_start % TILE == 0 && region.row_end % TILE == 0;
    let whole_cols = region.col_start % TILE == 0 && region.col_end % TILE == 0;
    if grid.width == 1 && whole_rows && whole_cols {
        return exchange_leaf_tiles(m, grid, region);
    }
    let mut m = m;
    for row in region.row_start..region.row_end {
        m = exchange_row(m, grid, row, region);
    }
    m
}

/// Exchanges a region above the diagonal with its mirror image. A region that is not a leaf is cut in half at its
/// longer side. The calls nest at most as deep as the sides can be halved until neither is longer than `LEAF`. The
/// proof that the calls end counts these levels.
#[doc(hidden)]
pub fn exchange_region<M: Tiled>(m: M, grid: Grid, region: Region) -> M
    requires rows_in_order { region.row_start ≤ region.row_end }
    requires cols_in_order { region.col_start ≤ region.col_end }
    requires above { region.row_end ≤ region.col_start }
    requires within { region.col_end ≤ 2 ^ grid.digits }
    requires ready { HoldsGrid grid (M.items m) }
    ensures exchanged { SwapsInGrid grid region (M.items m) (M.items result) }
    ensures holder { M.same_holder (grid.width * items_of region) m result }
{
    let (rows, cols) = (region.rows(), region.cols());
    if rows <= LEAF && cols <= LEAF {
        exchange_leaf(m, grid, region)
    } else if rows > cols {
        let (upper, lower) = region.cut_rows(region.row_start + upper_half(rows));
        let m = exchange_region(m, grid, upper);
        exchange_region(m, grid, lower)
    } else {
        let (left, right) = region.cut_cols(region.col_start + upper_half(cols));
        let m = exchange_region(m, grid, left);
        exchange_region(m, grid, right)
    }
}

/// Half of `size`, rounded up to whole tiles. The rest is not greater. So a side of at most `8 * 2^d` is cut into two
/// sides of at most `8 * 2^(d - 1)`.
#[inline(always)]
fn upper_half(size: usize) -> usize
    requires { 8 < size }
    ensures whole { result % 8 ≡ 0 }
    ensures half { size ≤ 2 * result }
    ensures up { 2 * result < size + 16 }
    ensures below { result < size }
{
    (size - 1) / (2 * TILE) * TILE + TILE
}

/// Exchanges the items above the diagonal with their mirror images in a smaller square inside `grid`: the one with the
/// `size` rows and the `size` columns from `start` on. This is done row after row.
#[inline(always)]
fn exchange_on_diagonal<M: Tiled>(m: M, grid: Grid, start: usize, size: usize) -> M
    requires within { start + size ≤ 2 ^ grid.digits }
    requires ready { HoldsGrid grid (M.items m) }
    ensures exchanged { SwapsInGrid grid (square_at start size) (M.items m) (M.items result) }
    ensures holder { M.same_holder (grid.width * square_swaps size) m result }
{
    let end = start + size;
    let mut m = m;
    for row in start..end {
        let right = Region {
            row_start: row,
            row_end: row + 1,
            col_start: row + 1,
            col_end: end,
        };
        m = exchange_row(m, grid, row, right);
    }
    m
}

/// Does the same as [`exchange_on_diagonal`], for a tile.
#[inline(always)]
fn exchange_diagonal_tile<M: Tiled>(m: M, grid: Grid, start: usize) -> M
    requires whole { start % 8 ≡ 0 }
    requires within { start + 8 ≤ 2 ^ grid.digits }
    requires ready { HoldsGrid grid (M.items m) }
    ensures exchanged { SwapsInGrid grid (square_at start 8) (M.items m) (M.items result) }
    ensures holder { M.same_holder (grid.width * square_swaps 8) m result }
{
    let places = grid.tile_rows(grid.start(start) + start);
    let mut m = m;
    if grid.width == 1 {
        m.turn_tile(places);
        return m;
    }
    for row in 0..TILE {
        for col in row + 1..TILE {
            m = exchange_places(m, grid.width, places[row] + col, places[col] + row);
        }
    }
    m
}

/// Does the same as [`exchange_on_diagonal`], by quadrants. The calls nest at most as deep as `size` can be halved
/// until it is at most 8. The proof that the calls end counts these levels.
#[doc(hidden)]
pub fn exchange_quadrants<M: Tiled>(m: M, grid: Grid, start: usize, size: usize) -> M
    requires within { start + size ≤ 2 ^ grid.digits }
    requires ready { HoldsGrid grid (M.items m) }
    ensures exchanged { SwapsInGrid grid (square_at start size) (M.items m) (M.items result) }
    ensures holder { M.same_holder (grid.width * square_swaps size) m result }
{
    if size == TILE && start % TILE == 0 {
        return exchange_diagonal_tile(m, grid, start);
    }
    if size <= TILE {
        return exchange_on_diagonal(m, grid, start, size);
    }
    let half = upper_half(size);
    let upper_right = Region {
        row_start: start,
        row_end: start + half,
        col_start: start + half,
        col_end: start + size,
    };
    let m = exchange_quadrants(m, grid, start, half);
    let m = exchange_region(m, grid, upper_right);
    exchange_quadrants(m, grid, start + half, size - half)
}

/// Exchanges all items of a grid that are above the diagonal with their mirror images, by quadrants or row by row. Row
/// by row, the compiler unrolls the exchanges if it knows that the grid has two or four rows.
#[inline(always)]
pub(crate) fn exchange_square<M: Tiled>(m: M, grid: Grid, row_by_row: bool) -> M
    requires { HoldsGrid grid (M.items m) }
    ensures exchanged { SwapsInGrid grid (square_at 0 (2 ^ grid.digits))
        (M.items m) (M.items result) }
    ensures holder { M.same_holder (grid.width * square_swaps (2 ^ grid.digits)) m result }
{
    let size = pow2(grid.digits);
    if row_by_row {
        exchange_on_diagonal(m, grid, 0, size)
    } else {
        exchange_quadrants(m, grid, 0, size)
    }
}

/// Reverses `x`, which has at most `digits` binary digits. Up to six digits are looked up in the table, and more are
/// reversed by halves.
#[inline(always)]
pub(crate) fn reverse_digits(x: usize, digits: usize) -> usize
    requires few { digits < 64 }
    requires below { x < 2 ^ digits }
    ensures { result ≡ rev digits x }
{
    if digits <= 6 {
        usize::from(REVERSED_SIX[x * (64 >> digits) % 64])
    } else {
        reverse_bits_len(x, digits)
    }
}
