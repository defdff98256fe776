//! Transposes of many shapes, of items of several sizes, checked at each place.

use crate::tests::calls::transpose_slice;
use crate::tests::checks::{Shape, check_transposed, found};
use crate::tests::items::{Item, numbered};
use crate::tests::oracle::transposes::TRANSPOSES;
use std::alloc::Global;
use std::process::Abort;

/// Transposes a matrix of the first items of `input`, and checks each place.
fn check_shape<T: Item>(
    rt: &impl Abort,
    input: &[T],
    output: &mut [T],
    width: usize,
    height: usize,
) {
    let shape = Shape { width, height };
    let len = shape.len();
    assert!(rt; len <= input.len() && len <= output.len());
    transpose_slice(rt, &input[..len], &mut output[..len], shape);
    check_transposed(rt, &output[..len], shape);
}

/// Every pair of sides up to 17, one row and one column of up to 200 items, and some of the shapes of
/// the original's tests.
fn check_shapes<T: Item>(rt: &impl Abort, alloc: Global, shapes: &[(usize, usize, u64)]) {
    let input = found(rt, numbered::<T>(alloc, 2003 * 757));
    let mut output = found(rt, input.to_vec(alloc));
    for k in 0..17 * 17usize {
        check_shape(rt, &input, &mut output, k / 17 + 1, k % 17 + 1);
    }
    for len in 1..=200 {
        check_shape(rt, &input, &mut output, len, 1);
        check_shape(rt, &input, &mut output, 1, len);
    }
    for &(width, height, _) in shapes {
        check_shape(rt, &input, &mut output, width, height);
    }
}

#[test]
fn of_bytes(rt: HostRuntime) {
    check_shapes::<u8>(&rt, rt.alloc(), &TRANSPOSES);
}

#[test]
fn of_three_bytes(rt: HostRuntime) {
    check_shapes::<[u8; 3]>(&rt, rt.alloc(), &TRANSPOSES);
}

#[test]
fn of_eight_bytes(rt: HostRuntime) {
    check_shapes::<[u8; 8]>(&rt, rt.alloc(), &TRANSPOSES);
}

#[test]
fn of_numbers_of_32_bits(rt: HostRuntime) {
    check_shapes::<u32>(&rt, rt.alloc(), &TRANSPOSES);
}

#[test]
fn of_numbers_of_64_bits(rt: HostRuntime) {
    check_shapes::<u64>(&rt, rt.alloc(), &TRANSPOSES);
}

#[test]
fn of_numbers_of_128_bits(rt: HostRuntime) {
    check_shapes::<u128>(&rt, rt.alloc(), &TRANSPOSES);
}

#[test]
fn of_four_numbers(rt: HostRuntime) {
    check_shapes::<[u64; 4]>(&rt, rt.alloc(), &TRANSPOSES[..20]);
}

#[test]
fn of_four_numbers_in_larger_matrices(rt: HostRuntime) {
    check_shapes::<[u64; 4]>(&rt, rt.alloc(), &TRANSPOSES[20..]);
}
