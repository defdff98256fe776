//! Transposes, compared with worked examples and the original crate.

use crate::tests::calls::{Put, count_writes, split_on, transpose_slice, whole};
use crate::tests::checks::{Shape, check_places, check_transposed, equal, found, numbers, same};
use crate::tests::oracle::transposes::TRANSPOSES;
use crate::tests::oracle::{hash, items};
use p3_util::places::{SliceCells, Writes};
use p3_util::transpose::{
    Region, butterfly_4x4, butterfly_stage1, butterfly_stage2, fits_matrix, fits_square,
};
use p3_util_examples::uses::levels_of;
use std::alloc::Global;
use std::process::Abort;

/// The transpose of `input`, and the number of writes.
fn transposed(
    rt: &impl Abort,
    alloc: Global,
    call: Put,
    input: &[u64],
    shape: Shape,
) -> (Vec<u64>, u128) {
    let mut output = found(rt, vec![in alloc; 99; input.len()]);
    let writes = count_writes(rt, call, input, &mut SliceCells::new(&mut output), shape);
    (output, writes)
}

/// The same with the call on slices, which does not count writes.
fn transposed_slice(rt: &impl Abort, alloc: Global, input: &[u64], shape: Shape) -> Vec<u64> {
    let mut output = found(rt, vec![in alloc; 99; input.len()]);
    transpose_slice(rt, input, &mut output, shape);
    output
}

/// Width, height, matrices and their transposes.
const EXAMPLES: [(usize, usize, &[u64], &[u64]); 3] = [
    (3, 2, &[1, 2, 3, 4, 5, 6], &[1, 4, 2, 5, 3, 6]),
    (1, 6, &[1, 2, 3, 4, 5, 6], &[1, 2, 3, 4, 5, 6]),
    (0, 5, &[], &[]),
];

/// The result of each call on a matrix, with one write for each item, and the result of the call on
/// slices.
#[test]
fn worked_examples(rt: HostRuntime) {
    for &(width, height, input, wanted) in &EXAMPLES {
        let shape = Shape { width, height };
        for call in [
            Put::On,
            Put::SourceOn,
            Put::Region(whole(shape)),
            Put::Split(0),
            Put::SourceSplit(0),
        ] {
            let (output, writes) = transposed(&rt, rt.alloc(), call, input, shape);
            same(&rt, width, &output.as_slice(), &wanted);
            same(&rt, width, &writes, &(wanted.len() as u128));
        }
        let output = transposed_slice(&rt, rt.alloc(), input, shape);
        same(&rt, width, &output.as_slice(), &wanted);
    }
}

/// Matrices of the numbers from 0 on: widths, heights, numbers of writes, and some places with
/// their items.
const NUMBERED: [(usize, usize, u128, &[(usize, u64)]); 7] = [
    (15, 17, 255, &[(1, 15), (17, 1)]),
    (16, 16, 256, &[(1, 16), (16, 1)]),
    (17, 16, 272, &[(1, 17), (271, 271)]),
    (16, 17, 272, &[(1, 16), (271, 271)]),
    (17, 19, 323, &[(1, 17), (19, 1), (304, 16), (322, 322)]),
    (1024, 1024, 1_048_576, &[(1, 1024), (1024, 1)]),
    (1025, 1024, 1_049_600, &[(1, 1025), (1024, 1)]),
];

/// By the call on slices.
#[test]
fn hashes_of_the_original(rt: HostRuntime) {
    for &(width, height, wanted) in &TRANSPOSES {
        let shape = Shape { width, height };
        let input = items(&rt, rt.alloc(), shape.len());
        let output = transposed_slice(&rt, rt.alloc(), &input, shape);
        same(&rt, width, &hash(&output), &wanted);
    }
}

/// By the call that counts writes.
#[test]
fn numbered_items(rt: HostRuntime) {
    for &(width, height, wanted, places) in &NUMBERED {
        let shape = Shape { width, height };
        let input = numbers(&rt, rt.alloc(), shape.len());
        let (output, writes) = transposed(&rt, rt.alloc(), Put::On, &input, shape);
        same(&rt, width, &writes, &wanted);
        check_places(&rt, &output, places);
        check_transposed(&rt, &output, shape);
    }
}

/// Rows, columns, the levels that their split needs, and how many splits are nested.
const SPLITS: [(usize, usize, u32, u32); 6] = [
    (128, 128, 0, 0),
    (129, 128, 1, 1),
    (1000, 129, 4, 4),
    (2, 1000, 3, 0),
    (3, 1000, 3, 3),
    (1024, 1025, 7, 7),
];

/// With as many levels as it needs, and with 64.
#[test]
fn nested_splits(rt: HostRuntime) {
    for &(height, width, needed, nested) in &SPLITS {
        same(&rt, height, &levels_of(height, width), &needed);
        let shape = Shape { width, height };
        let input = numbers(&rt, rt.alloc(), shape.len());
        for call in [Put::Split(needed), Put::Split(64), Put::SourceSplit(64)] {
            let mut output = numbers(&rt, rt.alloc(), shape.len());
            let out = Writes::new(SliceCells::new(&mut output));
            let counts = split_on(&rt, call, &input, out, shape);
            same(&rt, height, &counts, &(shape.len() as u128, nested));
            check_transposed(&rt, &output, shape);
        }
    }
}

/// The rows of a block, those after the first stage, and those of the block's transpose.
const STAGES: [[[u8; 4]; 4]; 3] = [
    [[0, 1, 2, 3], [4, 5, 6, 7], [8, 9, 10, 11], [12, 13, 14, 15]],
    [[0, 4, 2, 6], [1, 5, 3, 7], [8, 12, 10, 14], [9, 13, 11, 15]],
    [[0, 4, 8, 12], [1, 5, 9, 13], [2, 6, 10, 14], [3, 7, 11, 15]],
];

/// Both stages of a block. Of a matrix, two rows of two items in its middle, and no row.
#[test]
fn blocks_and_regions(rt: HostRuntime) {
    let [block, first, turned] = STAGES;
    equal(&rt, &butterfly_stage1(block), &first);
    equal(&rt, &butterfly_stage2(first), &turned);
    equal(&rt, &butterfly_4x4(block), &turned);
    let input = numbers(&rt, rt.alloc(), 12);
    let shape = Shape::new(4, 3);
    let region = Region {
        row_start: 1,
        row_end: 3,
        col_start: 2,
        col_end: 4,
    };
    let wanted = [99u64, 99, 99, 99, 99, 99, 99, 6, 10, 99, 7, 11];
    let (output, writes) = transposed(&rt, rt.alloc(), Put::Region(region), &input, shape);
    equal(&rt, &writes, &4);
    equal(&rt, &output.as_slice(), &wanted.as_slice());
    let empty = Region {
        row_end: 1,
        ..region
    };
    let (_, writes) = transposed(&rt, rt.alloc(), Put::Region(empty), &input, shape);
    equal(&rt, &writes, &0);
}

/// The lengths of two lists, widths and heights, and whether both lists have as many items as such
/// a matrix.
const LENGTHS: [(usize, usize, usize, usize, bool); 4] = [
    (0, 0, 4_294_967_296, 4_294_967_296, false),
    (0, 0, 0, usize::MAX, true),
    (1, 0, 1, 1, false),
    (0, 0, 9_223_372_036_854_775_808, 2, false),
];

/// The length of a list, the base of a square, the logarithms of its stride and its side, and
/// whether the square lies in the list. In the last row, the sum for the last place would wrap to 0.
const SQUARES: [(usize, usize, usize, usize, bool); 12] = [
    (0, 0, 0, 0, false),
    (1, 0, 0, 0, true),
    (1, 1, 0, 0, false),
    (8, 2, 2, 1, true),
    (7, 2, 2, 1, false),
    (256, 0, 4, 4, true),
    (255, 0, 4, 4, false),
    (256, 0, 3, 4, false),
    (usize::MAX, 0, 64, 0, false),
    (usize::MAX, usize::MAX - 1, 63, 0, true),
    (usize::MAX, 0, 63, 63, false),
    (1, (1 << 63) - (1 << 33) + 1, 63, 33, false),
];

/// The rows and the columns of regions, each as a first one and the one after the last, and whether
/// the region lies in a matrix of 3 rows of 4 items.
const REGIONS: [([usize; 2], [usize; 2], bool); 8] = [
    ([0, 3], [0, 4], true),
    ([1, 1], [4, 4], true),
    ([3, 3], [0, 4], true),
    ([0, 4], [0, 4], false),
    ([0, 3], [0, 5], false),
    ([2, 1], [0, 4], false),
    ([0, 3], [3, 2], false),
    ([4, 4], [0, 0], false),
];

#[test]
fn conditions(rt: HostRuntime) {
    for (row, &(input, output, width, height, wanted)) in LENGTHS.iter().enumerate() {
        let fits = fits_matrix(input, output, width, height);
        same(&rt, row, &fits, &wanted);
    }
    for (row, &(len, base, log_stride, log_size, wanted)) in SQUARES.iter().enumerate() {
        let fits = fits_square(len, base, log_stride, log_size);
        same(&rt, row, &fits, &wanted);
    }
    for (row, &([row_start, row_end], [col_start, col_end], wanted)) in REGIONS.iter().enumerate() {
        let region = Region {
            row_start,
            row_end,
            col_start,
            col_end,
        };
        same(&rt, row, &region.fits(4, 3), &wanted);
    }
}
