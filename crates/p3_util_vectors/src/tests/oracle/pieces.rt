//! Pieces of the numbers from 0 on, as the original crate cuts them.

/// The numbers from 0 to 20.
pub const NUMBERS: [Option<u8>; 21] = [
    Some(0),
    Some(1),
    Some(2),
    Some(3),
    Some(4),
    Some(5),
    Some(6),
    Some(7),
    Some(8),
    Some(9),
    Some(10),
    Some(11),
    Some(12),
    Some(13),
    Some(14),
    Some(15),
    Some(16),
    Some(17),
    Some(18),
    Some(19),
    Some(20),
];

/// How many numbers are cut, and the pieces of 4.
pub const BY_FOUR: [(usize, &[&[u8]]); 7] = [
    (0, &[]),
    (1, &[&[0]]),
    (3, &[&[0, 1, 2]]),
    (4, &[&[0, 1, 2, 3]]),
    (7, &[&[0, 1, 2, 3], &[4, 5, 6]]),
    (8, &[&[0, 1, 2, 3], &[4, 5, 6, 7]]),
    (
        20,
        &[
            &[0, 1, 2, 3],
            &[4, 5, 6, 7],
            &[8, 9, 10, 11],
            &[12, 13, 14, 15],
            &[16, 17, 18, 19],
        ],
    ),
];

/// How many numbers are cut, and the pieces of 3, filled with 99.
pub const PADDED_BY_THREE: [(usize, &[[u8; 3]]); 7] = [
    (0, &[]),
    (1, &[[0, 99, 99]]),
    (3, &[[0, 1, 2]]),
    (4, &[[0, 1, 2], [3, 99, 99]]),
    (7, &[[0, 1, 2], [3, 4, 5], [6, 99, 99]]),
    (8, &[[0, 1, 2], [3, 4, 5], [6, 7, 99]]),
    (
        20,
        &[
            [0, 1, 2],
            [3, 4, 5],
            [6, 7, 8],
            [9, 10, 11],
            [12, 13, 14],
            [15, 16, 17],
            [18, 19, 99],
        ],
    ),
];
