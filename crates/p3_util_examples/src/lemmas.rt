//! A caller for each lemma that `docs/CALLING.md` lists, in the form that the checker proves.

ghost use Rattle.std.specs.Prelude.{◌≡◌, ◌≢◌, ◌+◌, ◌*◌, ◌^◌, ◌<◌, ◌≤◌, ℕ, Some, IfOk, IfSome, OnOk, length, nat_eq, slice_get};
ghost use Rattle.p3_util.specs.Digits.{rev};
ghost use Rattle.p3_util.specs.LinearMap.{value_at};
ghost use Rattle.p3_util.specs.Pieces.{padded};
ghost use Rattle.p3_util.specs.Powers.{HasLog2};
ghost use Rattle.p3_util.specs.Reversal.{IsReversal, IsReversible};
ghost use Rattle.p3_util.specs.Steps.{counted};
ghost use Rattle.p3_util.specs.SwapCounts.{short_swaps};

use crate::transform::matrix::RowMajorMatrix;
use crate::uses::{PairError, weighted};
use p3_util::linear_map::LinearMap;
use p3_util::places::{Places, Swaps};
use p3_util::transpose::transpose_square_on;
use p3_util::{
    NoRoom, fits_rows, log2_strict_usize, reverse_bits, reverse_index_bits_short,
    reverse_slice_index_bits, reverse_slice_row_index_bits,
};
use std::alloc::{AllocError, Global};

/// Reverses a list twice.
#[tactic(auto, using(p3_util::proofs::Callers::reversed_twice))]
pub fn reverse_twice<F>(vals: &mut [F])
    requires { IsReversible (length vals.old) }
    ensures { vals.new ≡ vals.old }
{
    reverse_slice_index_bits(vals);
    reverse_slice_index_bits(vals);
}

/// Reverses the rows of a matrix twice, if their number fits.
#[tactic(auto, using(p3_util::proofs::Callers::rows_reversed_twice))]
pub fn reverse_rows_twice<F>(vals: &mut [F], width: usize, height: usize)
    requires { length vals.old ≡ width * height }
    ensures { vals.new ≡ vals.old }
{
    if fits_rows(height, 1) {
        reverse_slice_row_index_bits(vals, width);
        reverse_slice_row_index_bits(vals, width);
    }
}

/// Reverses a list, which brings an item of each half side by side.
#[tactic(auto, using(p3_util::proofs::Callers::reversed_even, p3_util::proofs::Callers::reversed_odd))]
pub fn bring_halves_together<F>(vals: &mut [F])
    requires { IsReversible (length vals.old) }
    ensures even { (k i : ℕ) → length vals.old ≡ 2 ^ (k + 1) → i < 2 ^ k
        → slice_get vals.new (2 * i) ≡ slice_get vals.old (rev k i) }
    ensures odd { (k i : ℕ) → length vals.old ≡ 2 ^ (k + 1) → i < 2 ^ k
        → slice_get vals.new (2 * i + 1) ≡ slice_get vals.old (rev k i + 2 ^ k) }
{
    reverse_slice_index_bits(vals);
}

/// States that a list is reversed if each place has the item from the reversed place.
pub fn reversed_if_placed<F>(old: &[F], new: &[F])
    requires { (k : ℕ) × (length new.now ≡ length old.now) × (length old.now ≡ 2 ^ k)
        × ((i : ℕ) → i < 2 ^ k → slice_get new.now i ≡ slice_get old.now (rev k i)) }
    ensures { IsReversal old.now new.now }
{}

/// Transposes a matrix there and back. The call of `height` tells the proof that the rows are whole.
#[tactic(auto, using(p3_util::proofs::Callers::transposed_back))]
pub fn transpose_twice<T: Copy + Default>(
    alloc: Global,
    matrix: &RowMajorMatrix<T>,
) -> Result<RowMajorMatrix<T>, AllocError>
    ensures { IfOk result (λ back. back.items ≡ matrix.now.items) }
{
    let _ = matrix.height();
    let turned = matrix.transpose(alloc)?;
    let back = turned.transpose(alloc)?;
    Ok(back)
}

/// Transposes a square twice in place.
pub fn transpose_square_twice<S: Places>(m: &mut Swaps<S>, log_size: usize)
    requires fits { length (S.items m.old.holder) ≡ 2 ^ log_size * 2 ^ log_size }
    requires small { log_size < 64 }
    ensures { S.items m.new.holder ≡ S.items m.old.holder }
{
    transpose_square_on(m, 0, log_size, log_size);
    transpose_square_on(m, 0, log_size, log_size);
}

/// Sets the value of a key. The other keys keep theirs.
#[tactic(auto, using(p3_util::proofs::Callers::put_found, p3_util::proofs::Callers::put_others))]
pub fn define(
    map: &mut LinearMap<u32, u64>,
    key: u32,
    value: u64,
) -> Result<Option<u64>, NoRoom<(u32, u64)>>
    ensures found { OnOk result (value_at nat_eq map.new key ≡ Some value) }
    ensures others { (other : ℕ) → other ≢ key
        → value_at nat_eq map.new other ≡ value_at nat_eq map.old other }
{
    map.insert(key, value)
}

/// The logarithm of a length, if it is a power of two.
#[tactic(auto, using(p3_util::proofs::Callers::power_of_two_test))]
pub fn log_of_len(xs: &[u32]) -> Option<usize>
    ensures { IfSome result (λ k. length xs.now ≡ 2 ^ k) }
{
    if xs.len().is_power_of_two() {
        Some(log2_strict_usize(xs.len()))
    } else {
        None
    }
}

/// Reverses `2^k` items by the short path, and counts the swaps by k.
#[tactic(auto, using(p3_util::proofs::Callers::log_of_power))]
pub fn reverse_power<S: Places>(m: &mut Swaps<S>, k: usize)
    requires { length (S.items m.old.holder) ≡ 2 ^ k }
    ensures { m.new.count ≡ counted m.old.count (short_swaps k) }
{
    reverse_index_bits_short(m);
}

/// The index with the `k` digits of `x` in reversed order.
#[tactic(auto, using(p3_util::proofs::Callers::rev_below, p3_util::proofs::Callers::rev_twice))]
pub fn reversed_index(x: usize, n: usize) -> usize
    requires power { HasLog2 n }
    requires below { x < n }
    ensures below { (k : ℕ) → 1 ≤ k → n ≡ 2 ^ k → result < 2 ^ k }
    ensures back { (k : ℕ) → 1 ≤ k → n ≡ 2 ^ k → rev k result ≡ x }
{
    reverse_bits(x, n)
}

/// The row and the column of a place that is given by them.
#[tactic(auto, using(p3_util::proofs::Callers::place_row, p3_util::proofs::Callers::place_column))]
pub fn row_and_column(width: usize, row: usize, column: usize) -> (usize, usize)
    requires inside { column < width }
    requires fits { row * width + column < 2 ^ 64 }
    ensures { result ≡ (row, column) }
{
    let place = row * width + column;
    (place / width, place % width)
}

/// An item of a list that was filled up to a lane of 4.
#[tactic(auto, using(p3_util::proofs::Callers::padded_read))]
pub fn item_of_lane(lane: &[u32; 4], xs: &[u32], fill: u32, i: usize) -> u32
    requires lane { lane.now ≡ padded 4 fill xs.now }
    requires whole { length xs.now ≤ 4 }
    requires inside { i < length xs.now }
    ensures { slice_get xs.now i ≡ Some result }
{
    lane[i]
}

/// How many values have a weight.
#[tactic(auto, using(p3_util::proofs::Callers::length_zip))]
pub fn count_weighted(alloc: Global, values: &[u32], weights: &[u16]) -> Result<usize, PairError>
    ensures { IfOk result (λ n. n ≡ length values.now) }
{
    let pairs = weighted(alloc, values, weights)?;
    Ok(pairs.len())
}

/// How many items are zero. Its invariant is that `n` is at most the index of `x`, so `n + 1` fits.
pub fn count_zeros(xs: &[u32]) -> usize
    ensures { result ≤ length xs.now }
{
    let mut n = 0;
    for x in xs {
        if *x == 0 {
            n += 1;
        }
    }
    n
}
