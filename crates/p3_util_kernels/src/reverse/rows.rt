//! The short path of bit reversal, for rows of any width. Single items are rows of one item, and chunks are rows too.
//!
//! Each pair of rows whose indices are each other's reverse is swapped once, item by item. All other rows stay where
//! they are.

ghost use Rattle.std.specs.Prelude.{◌≡◌, ◌+◌, ◌*◌, ◌^◌, ◌<◌, ◌≤◌, length};
ghost use Rattle.p3_util_kernels.specs.Digits.{rev};
ghost use Rattle.p3_util_kernels.specs.Exchanged.{RunsExchanged};
ghost use Rattle.p3_util_kernels.specs.Reversal.{IsRowReversal};
ghost use Rattle.p3_util_kernels.specs.Steps.{counted};
ghost use Rattle.p3_util_kernels.specs.SwapCounts.{short_swaps};

use crate::bits::pow2;
use crate::places::{Places, Swaps};

/// Entry `i` has the six binary digits of `i` in reversed order.
#[doc(hidden)]
pub const REVERSED_SIX: [u8; 64] = [
    0, 32, 16, 48, 8, 40, 24, 56, 4, 36, 20, 52, 12, 44, 28, 60, 2, 34, 18, 50, 10, 42, 26, 58, 6,
    38, 22, 54, 14, 46, 30, 62, 1, 33, 17, 49, 9, 41, 25, 57, 5, 37, 21, 53, 13, 45, 29, 61, 3, 35,
    19, 51, 11, 43, 27, 59, 7, 39, 23, 55, 15, 47, 31, 63,
];

/// Reverses the `digits` binary digits of `x`. Up to six digits are read from the table. If there are more, the table
/// has the six lowest, and another call reverses the others.
fn reversed_index(x: usize, digits: usize) -> usize
    requires few { digits < 64 }
    requires below { x < 2 ^ digits }
    ensures { result ≡ rev digits x }
{
    if digits <= 6 {
        return usize::from(REVERSED_SIX[x]) >> (6 - digits);
    }
    let high = reversed_index(x / 64, digits - 6);
    (usize::from(REVERSED_SIX[x % 64]) << (digits - 6)) + high
}

/// Swaps the `len` items from place `i` on with those from place `j` on, in order.
fn swap_runs<S: Places>(m: &mut Swaps<S>, i: usize, j: usize, len: usize)
    requires apart { i + len ≤ j }
    requires within { j + len ≤ length (S.items m.old.holder) }
    requires len_fits { length (S.items m.old.holder) < 2 ^ 64 }
    requires count_fits { m.old.count < 2 ^ 128 }
    ensures exchanged { RunsExchanged i j len (S.items m.old.holder) (S.items m.new.holder) }
    ensures count { m.new.count ≡ counted m.old.count len }
    ensures holder { S.same_holder len m.old.holder m.new.holder }
{
    for t in 0..len {
        m.swap(i + t, j + t);
    }
}

/// Reverses the order of `2^digits` rows of `width` items by index bits.
pub(crate) fn swap_rows<S: Places>(m: &mut Swaps<S>, width: usize, digits: usize)
    requires few { digits < 64 }
    requires rows { length (S.items m.old.holder) ≡ width * 2 ^ digits }
    requires len_fits { length (S.items m.old.holder) < 2 ^ 64 }
    requires count_fits { m.old.count < 2 ^ 128 }
    requires wide { 0 < width }
    ensures order { IsRowReversal width (S.items m.old.holder) (S.items m.new.holder) }
    ensures count { m.new.count ≡ counted m.old.count (width * short_swaps digits) }
    ensures holder { S.same_holder (width * short_swaps digits) m.old.holder m.new.holder }
{
    for r in 0..pow2(digits) {
        let partner = reversed_index(r, digits);
        if r < partner {
            swap_runs(m, r * width, partner * width, width);
        }
    }
}
