//! How a holder exchanges two tiles, or transposes one: in registers, or by single exchanges.

ghost use Rattle.std.specs.Prelude.{◌≡◌, ℕ, ◌+◌, ◌-◌, ◌*◌, ◌%◌, ◌^◌, ◌<◌, ◌≤◌, length, slice_index};
ghost use Rattle.p3_util_fast.specs.Tiles.{AreTiles, IsTile, TileTurned, TilesExchanged};
ghost use Rattle.p3_util_fast.specs.Registers.{IsSide, RowsExchanged, RowsReached, SquaresTurned};

use crate::bulk::{Tiled, exchange_singly};
use crate::registers::{Register, Runs, in_columns, in_rows, load_columns, store};
use p3_util_kernels::places::Places;

/// Places of which tiles are exchanged and transposed by runs, too.
pub(crate) trait RunsOfPlaces<T, D: Register<T>>: Runs<T, D> + Places<Item = T> {
    ghost same_items: { (a : Self) → Self.Loads.items a ≡ Self.Places.items a };

    /// All items of two tiles are written for 64 exchanges.
    ghost same_tiles: { (a b : Self) → Self.Runs.same_holder 128 a b → Self.Places.same_holder 64 a b };

    /// All items of a tile are written for 28 exchanges, those on the diagonal too.
    ghost same_tile: { (a b : Self) → Self.Runs.same_holder 64 a b → Self.Places.same_holder 28 a b };
}

/// Does what `Tiled::exchange_tiles` does: in registers if squares have 2, 4 or 8 rows, and otherwise item by item.
#[inline(always)]
pub(crate) fn exchange_both<T, D: Register<T>, M: RunsOfPlaces<T, D>>(
    list: &mut M,
    x: [usize; 8],
    y: [usize; 8],
)
    requires tiles { AreTiles x y (length (M.Places.items list.old)) }
    requires reached_x { RowsReached 8 D.SIDE (slice_index x) (M.Loads.may (M.Loads.reach list.old)) }
    requires reached_y { RowsReached 8 D.SIDE (slice_index y) (M.Loads.may (M.Loads.reach list.old)) }
    ensures exchanged { TilesExchanged 64 x y (M.Places.items list.old) (M.Places.items list.new) }
    ensures holder { M.Places.same_holder 64 list.old list.new }
{
    match D::SIDE {
        2 => {
            exchange_band(list, x, y, 0);
            exchange_band(list, x, y, 2);
            exchange_band(list, x, y, 4);
            exchange_band(list, x, y, 6);
        }
        4 => {
            exchange_band(list, x, y, 0);
            exchange_band(list, x, y, 4);
        }
        8 => exchange_band(list, x, y, 0),
        _ => exchange_singly(list, x, y),
    }
}

/// Does what `Tiled::turn_tile` does: in registers if squares have 2, 4 or 8 rows, and otherwise item by item.
#[inline(always)]
pub(crate) fn turn<T, D: Register<T>, M: RunsOfPlaces<T, D> + Tiled>(list: &mut M, x: [usize; 8])
    requires tile { IsTile x (length (M.Places.items list.old)) }
    requires reached { RowsReached 8 D.SIDE (slice_index x) (M.Loads.may (M.Loads.reach list.old)) }
    ensures turned { TileTurned 64 x (M.Places.items list.old) (M.Places.items list.new) }
    ensures holder { M.Places.same_holder 28 list.old list.new }
{
    match D::SIDE {
        2 => {
            turn_squares(list, x, 0);
            turn_squares(list, x, 2);
            turn_squares(list, x, 4);
            turn_squares(list, x, 6);
        }
        4 => {
            turn_squares(list, x, 0);
            turn_squares(list, x, 4);
        }
        8 => turn_squares(list, x, 0),
        _ => list.turn_tile_singly(x),
    }
}

/// Exchanges `D::SIDE` rows of a tile, from row `row` on, with as many columns of the other.
#[inline(always)]
fn exchange_band<T, D: Register<T>, M: Runs<T, D>>(
    list: &mut M,
    x: [usize; 8],
    y: [usize; 8],
    row: usize,
)
    requires some_side { IsSide D.SIDE }
    requires below { row + D.SIDE ≤ 8 }
    requires tiles { AreTiles x y (length (M.items list.old)) }
    requires reached_x { RowsReached 8 D.SIDE (slice_index x) (M.may (M.reach list.old)) }
    requires reached_y { RowsReached 8 D.SIDE (slice_index y) (M.may (M.reach list.old)) }
    requires len_fits { length (M.items list.old) < 2 ^ 63 }
    ensures exchanged { RowsExchanged row (row + D.SIDE) x y (M.items list.old) (M.items list.new) }
    ensures reach { M.reach list.new ≡ M.reach list.old }
    ensures holder { M.same_holder (16 * D.SIDE) list.old list.new }
{
    let in_x = in_rows(x, D::SIDE, [row; 8]);
    let in_y = in_columns(y, [row; 8]);
    let to_y = load_columns(list, in_x);
    let to_x = load_columns(list, in_y);
    store(list, 8, in_y, to_y);
    store(list, 8, in_x, to_x);
}

/// The first column of the square whose mirror image is in row `c` of all squares.
#[inline(always)]
fn opposite(side: usize, sum: usize, c: usize) -> usize
    requires some_side { IsSide side }
    requires sum { sum < 8 }
    requires below { c < 8 }
    ensures { result ≡ (8 + sum - (c - c % side)) % 8 }
{
    (8 + sum - (c - c % side)) % 8
}

/// The first column of the square whose mirror image is in row `c` of all squares, for each `c`.
#[inline(always)]
fn opposites(side: usize, sum: usize) -> [usize; 8]
    requires some_side { IsSide side }
    requires sum { sum < 8 }
    ensures { (c : ℕ) → c < 8 → slice_index result c ≡ (8 + sum - (c - c % side)) % 8 }
{
    eight!(opposite(side, sum))
}

/// Transposes some squares of a tile, each into the place of its mirror image.
#[inline(always)]
fn turn_squares<T, D: Register<T>, M: Runs<T, D>>(list: &mut M, x: [usize; 8], sum: usize)
    requires some_side { IsSide D.SIDE }
    requires sum { sum < 8 }
    requires whole { sum % D.SIDE ≡ 0 }
    requires tile { IsTile x (length (M.items list.old)) }
    requires reached { RowsReached 8 D.SIDE (slice_index x) (M.may (M.reach list.old)) }
    requires len_fits { length (M.items list.old) < 2 ^ 63 }
    ensures turned { SquaresTurned sum (sum + D.SIDE) D.SIDE x (M.items list.old) (M.items list.new) }
    ensures reach { M.reach list.new ≡ M.reach list.old }
    ensures holder { M.same_holder (8 * D.SIDE) list.old list.new }
{
    let side = D::SIDE;
    let tops = opposites(side, sum);
    let columns = load_columns(list, in_columns(x, tops));
    store(list, 8, in_rows(x, side, tops), columns);
}
