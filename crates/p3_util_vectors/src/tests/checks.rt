//! Functions that the tests share. They have no clauses, so the proof of a test learns nothing
//! about what they return or change, and stays short.

use crate::tests::items::Item;
use std::alloc::Global;
use std::fmt::Debug;
use std::process::Abort;

/// Asserts that `got` is `wanted`.
pub(crate) fn equal<T: PartialEq + Debug>(rt: &impl Abort, got: &T, wanted: &T) {
    assert_eq!(rt; *got, *wanted);
}

/// Asserts that `got` is `wanted`, at the row or the place `at`.
pub(crate) fn same<T: PartialEq + Debug>(rt: &impl Abort, at: usize, got: &T, wanted: &T) {
    assert_eq!(rt; *got, *wanted, "at {at}");
}

/// Asserts which items a list has at some places, by their numbers.
pub(crate) fn check_places<T: Item>(rt: &impl Abort, list: &[T], wanted: &[(usize, u64)]) {
    for (place, number) in wanted {
        let is_there = match list.get(*place) {
            Some(item) => item.is(*number as usize),
            None => false,
        };
        assert!(rt; is_there, "at {place}");
    }
}

/// The sides of a matrix.
#[derive(Clone, Copy)]
pub(crate) struct Shape {
    pub(crate) width: usize,
    pub(crate) height: usize,
}

impl Shape {
    pub(crate) fn new(width: usize, height: usize) -> Self {
        Shape { width, height }
    }

    /// The number of items of the matrix.
    pub(crate) fn len(self) -> usize {
        self.width.saturating_mul(self.height)
    }
}

/// Whether the items of a list are those with the numbers `first`, `first + step` and so on.
fn are_numbered<T: Item>(list: &[T], first: usize, step: usize) -> bool {
    let mut number = first;
    for item in list {
        if !item.is(number) {
            return false;
        }
        number = number.wrapping_add(step);
    }
    true
}

/// Asserts that a list is the transpose of the items with the numbers from 0 on.
pub(crate) fn check_transposed<T: Item>(rt: &impl Abort, list: &[T], shape: Shape) {
    let Shape { width, height } = shape;
    for (x, column) in list.chunks_exact(height.max(1)).enumerate() {
        assert!(rt;
            are_numbered(column, x, width),
            "column {x} of {width} by {height}"
        );
    }
}

/// The value of a call that must not be refused, for want of memory or another reason.
pub(crate) fn found<T, E: Drop>(rt: &impl Abort, asked: Result<T, E>) -> T {
    asked.ok().expect(rt, "refused")
}

/// The numbers from 0 to below `count`.
pub(crate) fn numbers(rt: &impl Abort, alloc: Global, count: usize) -> Vec<u64> {
    found(rt, (0..count as u64).collect(alloc))
}

/// A copy of the numbers.
pub(crate) fn copied(rt: &impl Abort, alloc: Global, numbers: &[u64]) -> Vec<u64> {
    found(rt, numbers.to_vec(alloc))
}
