//! Views of arrays and moved vectors, compared with worked examples, and the kernels on views.
ghost use Rattle.std.specs.Prelude.{◌≤◌};

use crate::tests::calls::{Call, Put, count_swaps, count_writes, put_between};
use crate::tests::checks::{Shape, equal, found, numbers, same};
use p3_util::{
    as_base_slice, as_base_slice_mut, flat_len, flatten_to_base, reconstitute_from_base,
};
use std::alloc::Global;
use std::process::Abort;

/// Numbers of arrays and their lengths, and the number of their items.
const LENGTHS: [(usize, usize, Option<usize>); 4] = [
    (3, 4, Some(12)),
    (1 << 63, 2, None),
    (1 << 63, 1, Some(1 << 63)),
    (usize::MAX, 0, Some(0)),
];

/// Asserts that a view of `rows` has the items `wanted`, by their places and in order.
fn check_view<const N: usize>(rt: &impl Abort, rows: &[[u64; N]], wanted: &[u64]) {
    assert!(rt; flat_len(rows.len(), N).is_some());
    let view = as_base_slice(rows);
    equal(rt, &view.len(), &wanted.len());
    equal(rt, &view.is_empty(), &wanted.is_empty());
    for (place, item) in wanted.iter().enumerate() {
        same(rt, place, &view.get(place), &Some(item));
    }
    equal(rt, &view.get(wanted.len()), &None);
    assert!(rt; view.iter().eq(wanted.iter()) && view.into_iter().eq(wanted.iter()));
}

/// The same for a view that can be written.
fn check_view_mut<const N: usize>(rt: &impl Abort, rows: &mut [[u64; N]], wanted: &[u64]) {
    assert!(rt; flat_len(rows.len(), N).is_some());
    let view = as_base_slice_mut(rows);
    equal(rt, &view.len(), &wanted.len());
    equal(rt, &view.is_empty(), &wanted.is_empty());
    for (place, item) in wanted.iter().enumerate() {
        same(rt, place, &view.get(place).copied(), &Some(*item));
    }
    equal(rt, &view.get(wanted.len()).copied(), &None);
    assert!(rt; view.iter().eq(wanted.iter()));
}

/// The same for both views.
fn check_views<const N: usize>(rt: &impl Abort, rows: &mut [[u64; N]], wanted: &[u64]) {
    check_view(rt, rows, wanted);
    check_view_mut(rt, rows, wanted);
}

#[test]
fn lengths_and_items(rt: HostRuntime) {
    for (row, (count, n, wanted)) in LENGTHS.iter().enumerate() {
        same(&rt, row, &flat_len(*count, *n), wanted);
    }
    check_views(&rt, &mut [[1, 2, 3], [4, 5, 6]], &[1, 2, 3, 4, 5, 6]);
    check_views::<0>(&rt, &mut [[], [], [], [], []], &[]);
    let mut rows = [[1u64, 2], [3, 4]];
    let mut view = as_base_slice_mut(&mut rows);
    if let Some(item) = view.get_mut(3) {
        *item = 9;
    }
    assert!(rt; view.get_mut(4).is_none());
    equal(&rt, &rows, &[[1, 2], [3, 9]]);
}

#[test]
fn kernels_on_a_view(rt: HostRuntime) {
    let mut rows = [[0u64, 1], [2, 3], [4, 5], [6, 7]];
    let mut view = as_base_slice_mut(&mut rows);
    equal(&rt, &count_swaps(&rt, &mut view, Call::Reversal), &2);
    equal(&rt, &rows, &[[0, 4], [2, 6], [1, 5], [3, 7]]);
    let mut rows = [[0u64, 1], [2, 3], [4, 5], [6, 7]];
    let mut view = as_base_slice_mut(&mut rows);
    equal(&rt, &count_swaps(&rt, &mut view, Call::Rows(2)), &2);
    equal(&rt, &rows, &[[0, 1], [4, 5], [2, 3], [6, 7]]);
    let mut rows = [[0u64; 2]; 3];
    let mut view = as_base_slice_mut(&mut rows);
    let shape = Shape::new(3, 2);
    let writes = count_writes(&rt, Put::On, &[1, 2, 3, 4, 5, 6], &mut view, shape);
    equal(&rt, &writes, &6);
    equal(&rt, &rows, &[[1, 4], [2, 5], [3, 6]]);
}

/// 19 rows of 17 items: the numbers from 0 on.
fn numbered_rows() -> [[u64; 17]; 19] {
    let mut rows = [[0; 17]; 19];
    let mut next = 0u64;
    for row in rows.iter_mut() {
        for item in row.iter_mut() {
            *item = next;
            next = next.wrapping_add(1);
        }
    }
    rows
}

#[test]
fn transposes_between_views(rt: HostRuntime) {
    let mut turned = [[0u64; 2]; 3];
    let mut view = as_base_slice_mut(&mut turned);
    let shape = Shape::new(3, 2);
    let rows = [[0, 1, 2], [3, 4, 5]];
    let writes = put_between(&rt, &as_base_slice(&rows), &mut view, shape);
    equal(&rt, &writes, &6);
    equal(&rt, &turned, &[[0, 3], [1, 4], [2, 5]]);
    let mut none = [[0u64; 4]; 0];
    let mut view = as_base_slice_mut(&mut none);
    let shape = Shape::new(0, 5);
    let writes = put_between(&rt, &as_base_slice::<u64, 3>(&[]), &mut view, shape);
    equal(&rt, &writes, &0);
    let mut turned = [[0u64; 19]; 17];
    let mut view = as_base_slice_mut(&mut turned);
    let shape = Shape::new(17, 19);
    let rows = numbered_rows();
    let writes = put_between(&rt, &as_base_slice(&rows), &mut view, shape);
    equal(&rt, &writes, &323);
    let [first, second, .., last] = turned;
    equal(&rt, &(first[0], first[1]), &(0, 17));
    equal(&rt, &(second[0], second[1]), &(1, 18));
    equal(&rt, &last[18], &322);
}

/// Asserts that the numbers from 0 on are moved to arrays, which are the rows `wanted`, and back.
fn there_and_back<const N: usize>(rt: &impl Abort, alloc: Global, wanted: &[[u64; N]])
    requires { 1 ≤ N }
{
    let items = numbers(rt, alloc, wanted.len().saturating_mul(N));
    assert!(rt; items.len() % N == 0);
    let rows = found(rt, reconstitute_from_base::<u64, N>(alloc, items));
    equal(rt, &rows.as_slice(), &wanted);
    check_flattened(rt, alloc, rows, wanted.len().saturating_mul(N));
}

/// Asserts that the items of `rows` are the numbers below `count`.
fn check_flattened<const N: usize>(
    rt: &impl Abort,
    alloc: Global,
    rows: Vec<[u64; N]>,
    count: usize,
) {
    assert!(rt; flat_len(rows.len(), N).is_some());
    let items = found(rt, flatten_to_base(alloc, rows));
    equal(rt, &items.as_slice(), &numbers(rt, alloc, count).as_slice());
}

#[test]
fn vectors_there_and_back(rt: HostRuntime) {
    there_and_back(&rt, rt.alloc(), &[[0, 1], [2, 3], [4, 5], [6, 7]]);
    there_and_back::<2>(&rt, rt.alloc(), &[]);
    let none = found(&rt, <[[u64; 0]]>::to_vec(&[[], [], []], rt.alloc()));
    check_flattened(&rt, rt.alloc(), none, 0);
}
