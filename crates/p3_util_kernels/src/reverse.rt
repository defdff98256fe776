//! Bit reversal of lists: item `i` moves to the index whose binary digits are those of `i` in reversed order.
//!
//! The rows of a list can be reordered in the same way, by the index of each row. The items within a row then keep
//! their order.
//!
//! There are two paths. The *short path* swaps each pair of items, or of rows, whose indices are each other's reverse.
//! The *long path* makes three passes over chunks and squares, and more swaps. Rows are always reversed by the short
//! path. A list of single items takes the short path for up to 8192 items, and the long path for more. A call on a
//! slice is the call whose name ends in `_on`, over a counter that starts at 0.
//!
//! It is proved that each call leaves the list in bit-reversed order (`IsReversal`, `IsRowReversal`). For the calls
//! that are given a counter, the exact number of swaps is proved too. The order of the swaps is only tested.

ghost use Rattle.std.specs.Prelude.{◌≡◌, ℕ, ◌+◌, ◌*◌, ◌/◌, ◌^◌, ◌↔◌, ◌<◌, ◌≤◌, IsTrue, length, slice_get};
ghost use Rattle.p3_util_kernels.specs.Reversal.{FitsRows, IsReversal, IsReversible, IsRowReversal, IsZeroOrPowerOfTwo};
ghost use Rattle.p3_util_kernels.specs.Digits.{rev};
ghost use Rattle.p3_util_kernels.specs.Logarithms.{clog};
ghost use Rattle.p3_util_kernels.specs.Steps.{counted};
ghost use Rattle.p3_util_kernels.specs.SwapCounts.{long_swaps, reversal_swaps, row_swaps, short_swaps};

mod long;
mod rows;

use crate::bits::{log2_strict_usize, pow2};
use crate::places::{Places, SlicePlaces, Swaps};
use long::transpose_squares_on;
#[doc(hidden)]
pub use rows::REVERSED_SIX;
use rows::swap_rows;

/// A list of at most this many items takes the short path, and a longer one the long path.
const SHORT_PATH_ITEMS: usize = 8192;

/// Whether `len` items can be cut into rows of `row_width` items so that the number of rows is zero or a power of two.
///
/// With a `row_width` of 1 this says whether `len` is zero or a power of two. With a `row_width` of 0 it says whether
/// `len` is zero.
#[inline]
#[must_use]
pub const fn fits_rows(len: usize, row_width: usize) -> bool
    ensures rows { IsTrue result ↔ FitsRows len row_width }
    ensures items { row_width ≡ 1 → (IsTrue result ↔ IsZeroOrPowerOfTwo len) }
{
    if row_width == 0 {
        return len == 0;
    }
    len == 0 || (len % row_width == 0 && (len / row_width).is_power_of_two())
}

/// Reverses the order of `vals` by index bits, and does not check the length: it must be zero or a power of two, which
/// `fits_rows(vals.len(), 1)` or std's `is_power_of_two` checks.
///
/// With 2^k items, index `i` gets the item from the index that has the k bits of `i` in reversed order. A second call
/// restores the original order. No item is cloned or dropped.
#[tactic(auto, using(crate::proofs::ReverseLemmas::Reversal::reversed_place))]
pub fn reverse_slice_index_bits<F>(vals: &mut [F])
    requires { IsReversible (length vals.old) }
    ensures order { IsReversal vals.old vals.new }
    ensures inverse { IsReversal vals.new vals.old }
    ensures at { (k i : ℕ) → length vals.old ≡ 2 ^ k → i < 2 ^ k
        → slice_get vals.new i ≡ slice_get vals.old (rev k i) }
{
    on_fresh_counter(&mut SlicePlaces::new(vals));
}

/// Reverses the order of the rows of `vals` by index bits, and does not check the length: the rows must have
/// `row_width` items each, and their number must be zero or a power of two, which `fits_rows(vals.len(), row_width)`
/// checks.
///
/// With 2^k rows, the row at index `r` comes from the index that has the k bits of `r` in reversed order. A second call
/// restores the original order. No item is cloned or dropped.
pub fn reverse_slice_row_index_bits<F>(vals: &mut [F], row_width: usize)
    requires { FitsRows (length vals.old) row_width }
    ensures order { IsRowReversal row_width vals.old vals.new }
    ensures inverse { IsRowReversal row_width vals.new vals.old }
    ensures at { (k r j : ℕ) → length vals.old ≡ row_width * 2 ^ k → r < 2 ^ k → j < row_width
        → slice_get vals.new (r * row_width + j) ≡ slice_get vals.old (rev k r * row_width + j) }
{
    rows_on_fresh_counter(&mut SlicePlaces::new(vals), row_width);
}

/// Reverses `m` by index bits, as [`reverse_slice_index_bits`] does: by the short path up to 8192 items, and by the
/// long one if there are more.
///
/// A list of n items takes at most 3n/2 swaps. The length must be zero or a power of two, which `fits_rows(m.len(), 1)`
/// checks.
pub fn reverse_index_bits_on<S: Places>(m: &mut Swaps<S>)
    requires { IsReversible (length (S.items m.old.holder)) }
    ensures order { IsReversal (S.items m.old.holder) (S.items m.new.holder) }
    ensures at { (k i : ℕ) → length (S.items m.old.holder) ≡ 2 ^ k → i < 2 ^ k
        → slice_get (S.items m.new.holder) i ≡ slice_get (S.items m.old.holder) (rev k i) }
    ensures count { m.new.count ≡ counted m.old.count
        (reversal_swaps (length (S.items m.old.holder))) }
    ensures bound { let n = length (S.items m.old.holder) in reversal_swaps n ≤ 3 * n / 2 }
    ensures holder { S.same_holder (reversal_swaps (length (S.items m.old.holder)))
        m.old.holder m.new.holder }
{
    if m.len() <= SHORT_PATH_ITEMS {
        reverse_index_bits_short(m);
    } else {
        reverse_index_bits_long(m);
    }
}

/// Reverses `m` by index bits, as [`reverse_slice_index_bits`] does.
///
/// Each pair of items whose indices are each other's reverse is swapped once. The length must be zero or a power of
/// two, which `fits_rows(m.len(), 1)` checks.
pub fn reverse_index_bits_short<S: Places>(m: &mut Swaps<S>)
    requires { IsReversible (length (S.items m.old.holder)) }
    ensures order { IsReversal (S.items m.old.holder) (S.items m.new.holder) }
    ensures at { (k i : ℕ) → length (S.items m.old.holder) ≡ 2 ^ k → i < 2 ^ k
        → slice_get (S.items m.new.holder) i ≡ slice_get (S.items m.old.holder) (rev k i) }
    ensures count { m.new.count ≡ counted m.old.count
        (short_swaps (clog (length (S.items m.old.holder)))) }
    ensures bound { let n = length (S.items m.old.holder) in short_swaps (clog n) ≤ n / 2 }
    ensures holder { S.same_holder (short_swaps (clog (length (S.items m.old.holder))))
        m.old.holder m.new.holder }
{
    reverse_row_index_bits_on(m, 1);
}

/// Reverses `m` by index bits, as [`reverse_slice_index_bits`] does, in three passes over chunks and squares.
///
/// A list of n items takes at most 3n/2 swaps, while [`reverse_index_bits_short`] takes at most n/2. The length must be
/// at least 4, and a power of two, which std's `is_power_of_two` checks.
pub fn reverse_index_bits_long<S: Places>(m: &mut Swaps<S>)
    requires fits { IsReversible (length (S.items m.old.holder)) }
    requires not_short { 4 ≤ length (S.items m.old.holder) }
    ensures order { IsReversal (S.items m.old.holder) (S.items m.new.holder) }
    ensures at { (k i : ℕ) → length (S.items m.old.holder) ≡ 2 ^ k → i < 2 ^ k
        → slice_get (S.items m.new.holder) i ≡ slice_get (S.items m.old.holder) (rev k i) }
    ensures count { m.new.count ≡ counted m.old.count
        (long_swaps (clog (length (S.items m.old.holder)))) }
    ensures bound { let n = length (S.items m.old.holder) in long_swaps (clog n) ≤ 3 * n / 2 }
    ensures holder { S.same_holder (long_swaps (clog (length (S.items m.old.holder))))
        m.old.holder m.new.holder }
{
    let digits = log2_strict_usize(m.len());
    let half = digits / 2;
    reverse_chunks_on(m, half, digits - half);
    transpose_squares_on(m, digits - half, half);
    reverse_chunks_on(m, half, digits - half);
}

/// Reverses the order of the rows of `m` by index bits.
///
/// Each row has `row_width` items. With 2^k rows, the row at index `r` comes from the index that has the k bits of `r`
/// in reversed order. The number of rows must be zero or a power of two, which [`fits_rows`] checks.
pub fn reverse_row_index_bits_on<S: Places>(m: &mut Swaps<S>, row_width: usize)
    requires { FitsRows (length (S.items m.old.holder)) row_width }
    ensures order { IsRowReversal row_width (S.items m.old.holder) (S.items m.new.holder) }
    ensures at { (k r j : ℕ) → length (S.items m.old.holder) ≡ row_width * 2 ^ k → r < 2 ^ k
        → j < row_width → slice_get (S.items m.new.holder) (r * row_width + j)
        ≡ slice_get (S.items m.old.holder) (rev k r * row_width + j) }
    ensures count { m.new.count ≡ counted m.old.count
        (row_swaps (length (S.items m.old.holder)) row_width) }
    ensures bound { let n = length (S.items m.old.holder) in row_swaps n row_width ≤ n / 2 }
    ensures holder { S.same_holder (row_swaps (length (S.items m.old.holder)) row_width)
        m.old.holder m.new.holder }
{
    let len = m.len();
    if len == 0 {
        return;
    }
    swap_rows(m, row_width, log2_strict_usize(len / row_width));
}

/// Reverses the order of chunks by index bits.
///
/// There are `2^h` chunks of `2^c` items, where h is `lb_num_chunks` and c is `lb_chunk_size`. Place `i` gets the item
/// from place `rev(h, i / 2^c) * 2^c + i mod 2^c`, where `rev(h, x)` has the h bits of x in reversed order. A list of n
/// items takes at most n/2 swaps. The length must be `2^(h + c)`. To check the length, compare it with the power that
/// [`checked_log_size_sum`](crate::bits::checked_log_size_sum) returns for the two exponents.
pub fn reverse_chunks_on<S: Places>(m: &mut Swaps<S>, lb_num_chunks: usize, lb_chunk_size: usize)
    requires { length (S.items m.old.holder) ≡ 2 ^ (lb_num_chunks + lb_chunk_size) }
    ensures order { IsRowReversal (2 ^ lb_chunk_size) (S.items m.old.holder)
        (S.items m.new.holder) }
    ensures count { m.new.count ≡ counted m.old.count
        (short_swaps lb_num_chunks * 2 ^ lb_chunk_size) }
    ensures bound { short_swaps lb_num_chunks * 2 ^ lb_chunk_size
        ≤ length (S.items m.old.holder) / 2 }
    ensures holder { S.same_holder (short_swaps lb_num_chunks * 2 ^ lb_chunk_size)
        m.old.holder m.new.holder }
{
    let _len = m.len();
    swap_rows(m, pow2(lb_chunk_size), lb_num_chunks);
}

/// Reverses the items of a holder by index bits, by a counter that starts at 0.
fn on_fresh_counter<S: Places>(places: &mut S)
    requires { IsReversible (length (S.items places.old)) }
    ensures order { IsReversal (S.items places.old) (S.items places.new) }
    ensures holder { S.same_holder (reversal_swaps (length (S.items places.old)))
        places.old places.new }
{
    let mut m = Swaps::new(places);
    reverse_index_bits_on(&mut m);
}

/// Reverses the rows of a holder by index bits, by a counter that starts at 0.
fn rows_on_fresh_counter<S: Places>(places: &mut S, row_width: usize)
    requires { FitsRows (length (S.items places.old)) row_width }
    ensures order { IsRowReversal row_width (S.items places.old) (S.items places.new) }
    ensures holder { S.same_holder (row_swaps (length (S.items places.old)) row_width)
        places.old places.new }
{
    let mut m = Swaps::new(places);
    reverse_row_index_bits_on(&mut m, row_width);
}
