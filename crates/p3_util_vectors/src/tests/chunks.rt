//! Chunks of iterators, and how often the iterator is called.
ghost use Rattle.std.specs.Prelude.{◌<◌, ◌^◌, length};
ghost use Rattle.std.specs.Iterator.{at_most};

use crate::tests::checks::same;
use crate::tests::oracle::pieces::{BY_FOUR, NUMBERS, PADDED_BY_THREE};
use p3_util::chunks::{apply_to_chunks, iter_array_chunks_padded};
use std::cell::Cell;
use std::process::Abort;

/// An iterator that yields the given answers in order and then `None`, and counts its calls.
#[derive(Drop)]
struct Asked<'a> {
    answers: &'a [Option<u8>],
    asks: &'a Cell<usize>,
}

impl<'a> Iterator for Asked<'a> {
    type Item = u8;

    ghost remaining = { λ s. at_most (length s.answers.now) };

    fn next(&mut self) -> Option<u8> {
        self.asks.set(self.asks.get().wrapping_add(1));
        let (first, rest) = self.answers.split_first()?;
        self.answers = rest;
        *first
    }
}

/// How many of the pieces `wanted` have come after one more piece, or `usize::MAX` if it was not
/// the next one.
fn count_wanted(wanted: &[&[u8]], count: usize, piece: &[u8]) -> usize {
    match wanted.get(count) {
        Some(next) if *next == piece => count.saturating_add(1),
        _ => usize::MAX,
    }
}

/// Asserts that the closure is called on the pieces `wanted`, and that the iterator is called
/// `wanted_asks` times.
fn check_pieces<const BUFLEN: usize>(
    rt: &impl Abort,
    answers: &[Option<u8>],
    wanted: &[&[u8]],
    wanted_asks: usize,
)
    requires { BUFLEN < 2 ^ 63 }
{
    let (asks, count) = (Cell::new(0), Cell::new(0));
    let input = Asked {
        answers,
        asks: &asks,
    };
    apply_to_chunks::<BUFLEN, _, _>(input, |piece| {
        count.set(count_wanted(wanted, count.get(), piece));
    });
    same(rt, BUFLEN, &count.get(), &wanted.len());
    same(rt, BUFLEN, &asks.get(), &wanted_asks);
}

/// Asserts the padded pieces of an iterator, that `None` follows for good, and that the iterator is
/// called `wanted_asks` times.
fn check_padded<const N: usize>(
    rt: &impl Abort,
    answers: &[Option<u8>],
    fill: u8,
    wanted: &[[u8; N]],
    wanted_asks: usize,
) {
    let asks = Cell::new(0);
    let input = Asked {
        answers,
        asks: &asks,
    };
    let mut padded = iter_array_chunks_padded::<u8, N, _>(input, fill);
    for piece in wanted {
        same(rt, N, &padded.next(), &Some(*piece));
    }
    for _ in 0..3 {
        same(rt, N, &padded.next(), &None);
    }
    same(rt, N, &asks.get(), &wanted_asks);
}

/// Two numbers, and one more after the first `None`.
const BROKEN: [Option<u8>; 4] = [Some(1), Some(2), None, Some(3)];

#[test]
fn pieces_of_lists(rt: HostRuntime) {
    let seven = &NUMBERS[1..8];
    check_pieces::<3>(&rt, seven, &[&[1, 2, 3], &[4, 5, 6], &[7]], 8);
    check_pieces::<0>(&rt, seven, &[], 0);
    let eight = &NUMBERS[1..9];
    check_pieces::<4>(&rt, eight, &[&[1, 2, 3, 4], &[5, 6, 7, 8]], 9);
    check_pieces::<10>(&rt, &NUMBERS[1..6], &[&[1, 2, 3, 4, 5]], 6);
    check_pieces::<100>(&rt, eight, &[&[1, 2, 3, 4, 5, 6, 7, 8]], 9);
    let fives: [&[u8]; 4] = [
        &[1, 2, 3, 4, 5],
        &[6, 7, 8, 9, 10],
        &[11, 12, 13, 14, 15],
        &[16, 17, 18, 19, 20],
    ];
    check_pieces::<5>(&rt, &NUMBERS[1..], &fives, 21);
    check_pieces::<3>(&rt, &BROKEN, &[&[1, 2]], 3);
    for (len, wanted) in &BY_FOUR {
        let answers = NUMBERS.get(..*len).unwrap_or(&[]);
        check_pieces::<4>(&rt, answers, wanted, len.saturating_add(1));
    }
}

#[test]
fn padded_pieces(rt: HostRuntime) {
    check_padded(&rt, &NUMBERS[1..6], 9, &[[1, 2, 3, 4], [5, 9, 9, 9]], 6);
    check_padded(&rt, &[Some(1), None, Some(2)], 0, &[[1, 0]], 2);
    check_padded(&rt, &BROKEN, 0, &[[1, 2]], 3);
    check_padded::<0>(&rt, &NUMBERS[1..3], 0, &[], 0);
    for (len, wanted) in &PADDED_BY_THREE {
        let answers = NUMBERS.get(..*len).unwrap_or(&[]);
        check_padded::<3>(&rt, answers, 99, wanted, len.saturating_add(1));
    }
}
