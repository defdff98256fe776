//! The zip of two lists of one length.

use crate::tests::checks::{equal, found, same};
use p3_util::zip_eq::zip_eq;
use std::fmt::Debug;
use std::process::Abort;

/// Asserts the pairs of two lists of one length, and how many are left after each.
fn check_pairs<A: Copy + PartialEq + Debug, B: Copy + PartialEq + Debug>(
    rt: &impl Abort,
    first: &[A],
    second: &[B],
    wanted: &[(A, B)],
) {
    let mut pairs = found(
        rt,
        zip_eq(first.iter().copied(), second.iter().copied(), ()),
    );
    for (place, pair) in wanted.iter().enumerate() {
        let left = wanted.len().saturating_sub(place);
        same(rt, place, &pairs.len(), &left);
        same(rt, place, &pairs.size_hint(), &(left, Some(left)));
        same(rt, place, &pairs.next(), &Some(*pair));
    }
    equal(rt, &pairs.len(), &0);
    equal(rt, &pairs.next(), &None);
}

#[test]
fn pairs_by_place(rt: HostRuntime) {
    assert_eq!(rt;
        zip_eq([1u8, 2], ['x', 'y', 'z'], "oops").err(),
        Some("oops")
    );
    let letters = [(1, 'a'), (2, 'b'), (3, 'c')];
    check_pairs(&rt, &[1u32, 2, 3], &['a', 'b', 'c'], &letters);
    check_pairs(&rt, &[10u32, 20], &[100u32, 200], &[(10, 100), (20, 200)]);
    check_pairs(&rt, &[1u32, 2], &[3u32, 4], &[(1, 3), (2, 4)]);
    check_pairs::<u8, u8>(&rt, &[], &[], &[]);
}
