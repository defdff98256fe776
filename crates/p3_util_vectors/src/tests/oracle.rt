//! The inputs of the test vectors, and the original crate's answers, in a file for each subject.
//!
//! The answers were made by a program that calls the code of `p3-util` 0.8.0 itself, built with
//! rustc 1.95 at optimization level 3 without its parallel feature. They are lists that a test goes
//! through in one loop.

pub mod pieces;
pub mod reversals;
pub mod transposes;
pub mod words;

use crate::tests::checks::found;
use std::alloc::Global;
use std::process::Abort;

/// Item `i` of a list of vectors: `i * 2654435761 mod 2^32`.
pub(crate) fn item(i: usize) -> u64 {
    (i as u64).wrapping_mul(2_654_435_761) % 4_294_967_296
}

/// The items with the numbers 0 to `count - 1`.
pub(crate) fn items(rt: &impl Abort, alloc: Global, count: usize) -> Vec<u64> {
    found(rt, (0..count).map(item).collect(alloc))
}

/// The hash of a list. It starts at 14695981039346656037. For each item it becomes its exclusive or
/// with the item, multiplied by 1099511628211 modulo 2^64.
pub(crate) fn hash(list: &[u64]) -> u64 {
    let mut hash = 14_695_981_039_346_656_037u64;
    for x in list {
        hash = (hash ^ *x).wrapping_mul(1_099_511_628_211);
    }
    hash
}
