//! The order of exchanges and of writes in cases that show which path was taken. No test looks at
//! other orders.

use crate::noted::Noted;
use crate::tests::calls::{Call, Put, count_swaps, count_writes};
use crate::tests::checks::{Shape, equal, found, numbers, same};
use crate::tests::reversals::reversed;
use p3_util::transpose::Region;
use std::alloc::Global;
use std::process::Abort;

/// A list of the numbers below `len`, with room for notes of `exchanges` exchanges and `puts`
/// writes.
fn noted(rt: &impl Abort, alloc: Global, len: usize, exchanges: usize, puts: usize) -> Noted {
    Noted {
        items: numbers(rt, alloc, len),
        exchanges: found(rt, Vec::with_capacity(alloc, exchanges)),
        puts: found(rt, Vec::with_capacity(alloc, puts)),
    }
}

/// The exchanges that a call makes in a list of `len` items, in order. Their number is the one that
/// the call counts.
fn exchanges(rt: &impl Abort, alloc: Global, call: Call, len: usize) -> Vec<(usize, usize)> {
    let mut noted = noted(rt, alloc, len, len.saturating_mul(2), 0);
    let swaps = count_swaps(rt, &mut noted, call);
    let Noted { exchanges, .. } = noted;
    same(rt, len, &(exchanges.len() as u128), &swaps);
    exchanges
}

/// The row of `len` items in which a place is, and its place in the row.
fn row_and_place(place: usize, len: usize) -> (usize, usize) {
    let row = place.checked_div(len).unwrap_or(0);
    (row, place.checked_rem(len).unwrap_or(0))
}

/// Reversals on the short path: the digits of the number of rows, and the items of a row.
const SHORT: [(Call, usize, usize); 4] = [
    (Call::Reversal, 6, 1),
    (Call::Reversal, 7, 1),
    (Call::Reversal, 13, 1),
    (Call::Rows(3), 7, 3),
];

/// Row after row is exchanged, item by item, with the row whose number has the digits in reversed
/// order, if that row comes later.
#[test]
fn pairs_of_rows_in_order(rt: HostRuntime) {
    for &(call, digits, width) in &SHORT {
        let rows = 1usize << (digits % 64);
        let pairs = exchanges(&rt, rt.alloc(), call, rows.saturating_mul(width));
        let mut pairs = pairs.iter();
        for place in 0..rows.saturating_mul(width) {
            let (row, item) = row_and_place(place, width);
            let other = reversed(row, digits as u32);
            if row < other {
                let second = other.wrapping_mul(width).wrapping_add(item);
                same(&rt, place, &pairs.next(), &Some(&(place, second)));
            }
        }
        equal(&rt, &pairs.next(), &None);
    }
}

/// The logarithms of the sides of squares, and how many exchanges there are before the second half
/// of the columns across the diagonal, before the lower right quadrant, and in all.
const QUADRANTS: [(usize, [usize; 3]); 2] = [(4, [60, 92, 120]), (7, [4064, 6112, 8128])];

/// The sides of upper left corners of a square, and how many exchanges there are in them.
const CORNERS: [(usize, usize); 4] = [(8, 28), (16, 120), (32, 496), (64, 2016)];

/// The exchanges within the upper left quadrant come first, then those across the diagonal, then
/// those within the lower right quadrant. Of 16 rows, these are 28, 64 and 28.
#[test]
fn quadrants_in_order(rt: HostRuntime) {
    for &(log_size, [middle, across, all]) in &QUADRANTS {
        let side = 1usize << (log_size % 64);
        let half = side / 2;
        let call = Call::Square(0, log_size, log_size);
        let pairs = exchanges(&rt, rt.alloc(), call, side.saturating_mul(side));
        equal(&rt, &pairs.len(), &all);
        for (k, (first, second)) in pairs.iter().enumerate() {
            let (row, column) = row_and_place(*first, side);
            same(&rt, k, second, &column.wrapping_mul(side).wrapping_add(row));
            let (least, most) = (row.min(column), row.max(column));
            for &(corner, swaps) in &CORNERS {
                same(&rt, k, &(most < corner), &(k < swaps));
            }
            let left = least < half && most < half + half / 2;
            same(&rt, k, &(left, least < half), &(k < middle, k < across));
        }
    }
}

/// For an exchange on the long path of 16384 items, which are 128 chunks of 128: whether its items
/// are in two chunks, and whether it is across the diagonal of the square.
fn kind_of(first: usize, second: usize) -> (bool, bool) {
    let (chunk, other) = (first / 128, second / 128);
    let (place, place_in_other) = (first % 128, second % 128);
    let of_chunks = chunk != other && place == place_in_other;
    let mirrored = chunk != other && chunk == place_in_other && other == place;
    (of_chunks, mirrored)
}

/// There are 7168 exchanges of items in two chunks, 8128 across the diagonal of the square, and the
/// first 7168 again.
#[test]
fn long_path_in_order(rt: HostRuntime) {
    let pairs = exchanges(&rt, rt.alloc(), Call::Reversal, 16384);
    equal(&rt, &pairs.len(), &22464);
    for (k, (first, second)) in pairs.iter().enumerate() {
        let in_square = k >= 7168 && k < 15296;
        same(&rt, k, &kind_of(*first, *second), &(!in_square, in_square));
    }
    equal(&rt, &pairs.get(..7168), &pairs.get(15296..));
}

/// The places of the writes of a transpose, in order.
fn puts(rt: &impl Abort, alloc: Global, call: Put, shape: Shape) -> Vec<usize> {
    let input = numbers(rt, alloc, shape.len());
    let mut noted = noted(rt, alloc, shape.len(), 0, shape.len());
    let writes = count_writes(rt, call, &input, &mut noted, shape);
    let Noted { puts, .. } = noted;
    same(rt, shape.width, &(puts.len() as u128), &writes);
    puts
}

/// Asserts that in each group of `len` consecutive writes, all are in one part of a matrix of
/// `height` rows that is cut into parts of `side` columns and rows from the first write on.
fn check_parts(rt: &impl Abort, puts: &[usize], height: usize, len: usize, side: usize) {
    let first = puts.first().copied().unwrap_or(0);
    let mut part = (None, None);
    for (k, place) in puts.iter().enumerate() {
        let (x, y) = row_and_place(place.wrapping_sub(first), height);
        let here = (x.checked_div(side), y.checked_div(side));
        if k.checked_rem(len) == Some(0) {
            part = here;
        }
        same(rt, k, &here, &part);
    }
}

/// The rows and the columns of a region, each as a first one and the one after the last.
type Part = ([usize; 2], [usize; 2]);

/// Asserts that a transpose puts whole tiles by its first writes, as many as `tiled`, and then the
/// parts `plain`, each column after column. A tile has 16 columns and rows and is put in blocks of
/// 4 columns and rows.
fn check_tiled(rt: &impl Abort, puts: &[usize], height: usize, tiled: usize, plain: &[Part]) {
    let (tiles, others) = puts.split_at(tiled.min(puts.len()));
    check_parts(rt, tiles, height, 16, 4);
    check_parts(rt, tiles, height, 256, 16);
    let mut others = others.iter().copied();
    for &([top, bottom], [left, right]) in plain {
        for x in left..right {
            for y in top..bottom {
                let place = x.wrapping_mul(height).wrapping_add(y);
                same(rt, place, &others.next(), &Some(place));
            }
        }
    }
    equal(rt, &others.next(), &None);
}

/// Widths, heights, how many writes put whole tiles, and the parts that come after them.
const TILED: [(usize, usize, usize, &[Part]); 8] = [
    (255, 1, 0, &[([0, 1], [0, 255])]),
    (15, 17, 0, &[([0, 17], [0, 15])]),
    (
        17,
        19,
        256,
        &[
            ([0, 16], [16, 17]),
            ([16, 19], [0, 16]),
            ([16, 19], [16, 17]),
        ],
    ),
    (32, 32, 1024, &[]),
    (48, 32, 1536, &[]),
    (64, 64, 4096, &[]),
    (
        1000,
        120,
        111_104,
        &[
            ([0, 112], [992, 1000]),
            ([112, 120], [0, 992]),
            ([112, 120], [992, 1000]),
        ],
    ),
    (1024, 1024, 1_048_576, &[]),
];

/// After the whole tiles come the right edge, the bottom edge and the corner. A matrix of at most
/// 255 items is one part.
#[test]
fn tiles_and_edges_in_order(rt: HostRuntime) {
    for &(width, height, tiled, plain) in &TILED {
        let puts = puts(&rt, rt.alloc(), Put::On, Shape::new(width, height));
        check_tiled(&rt, &puts, height, tiled, plain);
    }
}

/// In a matrix of 40 rows of 50 items, a region of one tile, 5 columns beside it and 3 rows below.
#[test]
fn tiles_of_a_region_in_order(rt: HostRuntime) {
    let region = Region {
        row_start: 7,
        row_end: 26,
        col_start: 2,
        col_end: 23,
    };
    let puts = puts(&rt, rt.alloc(), Put::Region(region), Shape::new(50, 40));
    let plain = [
        ([7, 23], [18, 23]),
        ([23, 26], [2, 18]),
        ([23, 26], [18, 23]),
    ];
    check_tiled(&rt, &puts, 40, 256, &plain);
}

/// The first 16384 writes are all in one part of 128 columns and rows. The third part is below this
/// one; without a split it would be to the right of the second. The last part has 65 columns. In
/// each group of 16 writes, every write is right below the one before.
#[test]
fn parts_of_a_split_in_order(rt: HostRuntime) {
    let shape = Shape::new(1025, 1024);
    let puts = puts(&rt, rt.alloc(), Put::On, shape);
    equal(&rt, &puts.len(), &1_049_600);
    let mut next = 0;
    for (k, place) in puts.iter().enumerate() {
        let (x, y) = (*place / 1024, *place % 1024);
        same(&rt, k, &(k % 16 == 0 || *place == next), &true);
        if k < 16384 {
            same(&rt, k, &(x < 128 && y < 128), &true);
        }
        if k / 16384 == 2 {
            same(&rt, k, &(x < 128 && y / 128 == 1), &true);
        }
        if k >= 1_049_600 - 8320 {
            same(&rt, k, &(x >= 960 && y >= 896), &true);
        }
        next = place.wrapping_add(1);
    }
}

/// Of 129 rows of 3 items, the first 64 are put before the others, and the last row is the corner
/// of the second half. Without a split, the first 128 rows would be one part.
#[test]
fn halves_of_a_split_in_order(rt: HostRuntime) {
    let plain = [([0, 64], [0, 3]), ([64, 128], [0, 3]), ([128, 129], [0, 3])];
    for call in [Put::Split(64), Put::SourceSplit(64)] {
        let puts = puts(&rt, rt.alloc(), call, Shape::new(3, 129));
        check_tiled(&rt, &puts, 129, 0, &plain);
    }
}
