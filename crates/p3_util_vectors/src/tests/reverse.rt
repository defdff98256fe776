//! Calls that reorder a list, compared with worked examples and the original crate.

use crate::Joined;
use crate::tests::calls::{Call, count_swaps, reverse_slice};
use crate::tests::checks::{Shape, check_places, check_transposed, copied, equal, found, same};
use crate::tests::items::{Item, items_of, numbered};
use crate::tests::oracle::reversals::REVERSALS;
use crate::tests::oracle::{hash, items};
use p3_util::laws::least_runs;
use p3_util::places::{SliceCells, SlicePlaces, Swaps, Writes};
use p3_util::reverse::fits_rows;
use std::alloc::Global;
use std::process::Abort;

const EIGHT: &[u64] = &[0, 1, 2, 3, 4, 5, 6, 7];

const REVERSED_EIGHT: &[u64] = &[0, 4, 2, 6, 1, 5, 3, 7];

/// Calls, lists, the lists afterwards, and the numbers of swaps.
const EXAMPLES: [(Call, &[u64], &[u64], u128); 17] = [
    (Call::Reversal, &[], &[], 0),
    (Call::Reversal, &[7], &[7], 0),
    (Call::Reversal, &[10, 20, 30, 40], &[10, 30, 20, 40], 1),
    (Call::Reversal, EIGHT, REVERSED_EIGHT, 2),
    (Call::Short, &[], &[], 0),
    (Call::Long, &[10, 20, 30, 40], &[10, 30, 20, 40], 1),
    (Call::Long, EIGHT, REVERSED_EIGHT, 2),
    (Call::Rows(5), &[], &[], 0),
    (Call::Rows(3), &[7, 8, 9], &[7, 8, 9], 0),
    (
        Call::Rows(3),
        &[0, 1, 2, 3, 4, 5, 6, 7, 8, 9, 10, 11],
        &[0, 1, 2, 6, 7, 8, 3, 4, 5, 9, 10, 11],
        3,
    ),
    (Call::Rows(1), EIGHT, REVERSED_EIGHT, 2),
    (Call::Chunks(2, 1), EIGHT, &[0, 1, 4, 5, 2, 3, 6, 7], 2),
    (Call::Chunks(0, 3), EIGHT, EIGHT, 0),
    (Call::Chunks(3, 0), EIGHT, REVERSED_EIGHT, 2),
    (Call::Chunks(0, 0), &[7], &[7], 0),
    (Call::Square(2, 2, 1), EIGHT, &[0, 1, 2, 6, 4, 5, 3, 7], 1),
    (Call::Square(1, 1, 0), &[7, 8, 9], &[7, 8, 9], 0),
];

/// Makes the call of a row on items of a type, and asserts which items are at which places
/// afterwards.
fn check_example<T: Item>(
    rt: &impl Abort,
    alloc: Global,
    call: Call,
    list: &[u64],
    wanted: &[u64],
) -> u128 {
    let mut got = found(rt, items_of::<T>(alloc, list));
    let swaps = count_swaps(rt, &mut SlicePlaces::new(&mut got), call);
    for (place, number) in wanted.iter().enumerate() {
        check_places(rt, &got, &[(place, *number)]);
    }
    swaps
}

/// The width of the rows that a call reverses, if the same call is there for a slice.
fn row_width_of(call: Call) -> Option<usize> {
    match call {
        Call::Reversal => Some(1),
        Call::Rows(row_width) => Some(row_width),
        _ => None,
    }
}

/// Lengths, widths of rows, and whether a list of that length consists of such rows and their
/// number is zero or a power of two.
const LENGTHS: [(usize, usize, bool); 10] = [
    (12, 3, true),
    (9, 3, false),
    (7, 7, true),
    (7, 8, false),
    (0, 0, true),
    (1, 0, false),
    (0, usize::MAX, true),
    (8, 1, true),
    (6, 1, false),
    (usize::MAX, usize::MAX, true),
];

/// Which lengths fit, and each example with items of 1, 3, 8 and 32 bytes.
#[test]
fn worked_examples(rt: HostRuntime) {
    for (row, (len, row_width, wanted)) in LENGTHS.iter().enumerate() {
        same(&rt, row, &fits_rows(*len, *row_width), wanted);
    }
    for (row, (call, list, wanted, swaps)) in EXAMPLES.iter().enumerate() {
        let counts = [
            check_example::<u8>(&rt, rt.alloc(), *call, list, wanted),
            check_example::<[u8; 3]>(&rt, rt.alloc(), *call, list, wanted),
            check_example::<u64>(&rt, rt.alloc(), *call, list, wanted),
            check_example::<[u64; 4]>(&rt, rt.alloc(), *call, list, wanted),
        ];
        same(&rt, row, &counts, &[*swaps; 4]);
        if let Some(row_width) = row_width_of(*call) {
            let mut got = copied(&rt, rt.alloc(), list);
            reverse_slice(&rt, &mut got, row_width);
            same(&rt, row, &got.as_slice(), wanted);
        }
    }
}

/// Calls on the numbers below a length, the numbers of swaps, and which items come to some places.
const NUMBERED: [(Call, usize, u128, &[(usize, u64)]); 12] = [
    (Call::Reversal, 256, 120, &[(1, 128), (3, 192), (128, 1)]),
    (Call::Reversal, 8192, 4032, &[(1, 4096), (4096, 1)]),
    (Call::Reversal, 16384, 22464, &[(1, 8192), (8192, 1)]),
    (
        Call::Reversal,
        32768,
        44928,
        &[(1, 16384), (3, 24576), (256, 64)],
    ),
    (Call::Reversal, 65536, 94080, &[(1, 32768), (256, 128)]),
    (Call::Short, 16384, 8128, &[(1, 8192)]),
    (Call::Long, 8192, 11200, &[(1, 4096)]),
    (Call::Rows(5), 80, 30, &[(5, 40), (44, 9)]),
    (Call::Chunks(7, 7), 16384, 7168, &[(128, 8192), (129, 8193)]),
    (Call::Square(0, 4, 4), 256, 120, &[(1, 16), (16, 1)]),
    (
        Call::Square(3, 5, 4),
        499,
        120,
        &[(4, 35), (35, 4), (2, 2), (498, 498)],
    ),
    (Call::Square(0, 0, 0), 1, 0, &[(0, 0)]),
];

/// Runs the rows with items of one type. The call on a slice puts the items back.
fn check_numbered<T: Item>(rt: &impl Abort, alloc: Global) {
    for (row, (call, len, swaps, places)) in NUMBERED.iter().enumerate() {
        let mut list = found(rt, numbered::<T>(alloc, *len));
        let count = count_swaps(rt, &mut SlicePlaces::new(&mut list), *call);
        same(rt, row, &count, swaps);
        check_places(rt, &list, places);
        if let Some(row_width) = row_width_of(*call) {
            reverse_slice(rt, &mut list, row_width);
            check_transposed(rt, &list, Shape::new(1, *len));
        }
    }
}

/// With every type of items.
#[test]
fn numbered_items(rt: HostRuntime) {
    check_numbered::<u8>(&rt, rt.alloc());
    check_numbered::<u32>(&rt, rt.alloc());
    check_numbered::<u64>(&rt, rt.alloc());
    check_numbered::<u128>(&rt, rt.alloc());
    check_numbered::<[u8; 3]>(&rt, rt.alloc());
    check_numbered::<[u8; 8]>(&rt, rt.alloc());
    check_numbered::<[u64; 4]>(&rt, rt.alloc());
}

/// The numbers of swaps of whole squares with sides of 2, 4, 8 and so on.
const SQUARES: [u128; 10] = [1, 6, 28, 120, 496, 2016, 8128, 32640, 130_816, 523_776];

/// Transposes these squares of items of one type.
fn check_squares<T: Item>(rt: &impl Abort, alloc: Global) {
    for (log, wanted) in (1usize..).zip(SQUARES) {
        let side = 1usize << (log % 64);
        let shape = Shape::new(side, side);
        let mut list = found(rt, numbered::<T>(alloc, shape.len()));
        let call = Call::Square(0, log, log);
        let swaps = count_swaps(rt, &mut SlicePlaces::new(&mut list), call);
        same(rt, side, &swaps, &wanted);
        check_transposed(rt, &list, shape);
    }
}

/// With every type of items. No other exchanges transpose a square in fewer steps.
#[test]
fn whole_squares(rt: HostRuntime) {
    least_runs();
    check_squares::<u8>(&rt, rt.alloc());
    check_squares::<u32>(&rt, rt.alloc());
    check_squares::<u64>(&rt, rt.alloc());
    check_squares::<u128>(&rt, rt.alloc());
    check_squares::<[u8; 3]>(&rt, rt.alloc());
    check_squares::<[u8; 8]>(&rt, rt.alloc());
    check_squares::<[u64; 4]>(&rt, rt.alloc());
}

/// A second reversal puts all items back.
#[test]
fn hashes_of_the_original(rt: HostRuntime) {
    for (k, wanted) in REVERSALS.iter().enumerate() {
        let before = items(&rt, rt.alloc(), 1usize << (k % 64));
        let mut list = copied(&rt, rt.alloc(), &before);
        reverse_slice(&rt, &mut list, 1);
        same(&rt, k, &hash(&list), wanted);
        reverse_slice(&rt, &mut list, 1);
        assert!(rt; list == before, "2^{k} items");
    }
}

/// Two slices, reversed as one list. A counter counts each step of its holder, and returns the
/// holder.
#[test]
fn joined_slices_and_counters(rt: HostRuntime) {
    let (mut front, mut back) = ([0u64, 1, 2], [3u64, 4, 5, 6, 7]);
    let mut joined = Joined::new(&mut front, &mut back);
    let swaps = count_swaps(&rt, &mut joined, Call::Reversal);
    equal(&rt, &swaps, &2);
    equal(&rt, &(front, back), &([0, 4, 2], [6, 1, 5, 3, 7]));
    let mut values = [10u64, 20, 30];
    let mut m = Swaps::new(SlicePlaces::new(&mut values));
    assert!(rt; m.len() == 3);
    m.swap(0, 1);
    m.swap(2, 1);
    equal(&rt, &m.swaps(), &2);
    let _ = m.into_inner();
    equal(&rt, &values, &[20, 30, 10]);
    let mut writes = Writes::new(SliceCells::new(&mut values));
    assert!(rt; writes.len() == 3);
    writes.put(1, 7);
    equal(&rt, &writes.writes(), &1);
    let _ = writes.into_inner();
    equal(&rt, &values, &[20, 7, 10]);
}
