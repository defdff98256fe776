//! Logarithms of integers, and the reversal of their binary digits.

ghost use Rattle.std.specs.Prelude.{◌≡◌, ℕ, ◌^◌, ◌<◌, ◌≤◌, IsTrue, ◌↔◌};
ghost use Rattle.std.specs.Int.{IsPowerOfTwo};
ghost use Rattle.p3_util_kernels.specs.Powers.{IsPowerOfThree};
ghost use Rattle.p3_util_kernels.specs.Digits.{rev_word};
ghost use Rattle.p3_util_c.specs.Tried.{IsTried};

use p3_util_kernels::bits::{
    is_power_of_three, log2_ceil_usize, log2_floor_usize, log2_strict_usize, log3_strict_usize,
    reverse_bits_len,
};

/// The logarithm of `n` to base 2, rounded up: the least `e` with `n <= 2^e`. It is 0 for 0 and 1.
#[unsafe(no_mangle)]
pub extern "C" fn p3_util_log2_ceil(n: usize) -> usize
    ensures enough { n ≤ 2 ^ result }
    ensures least { (e : ℕ) → n ≤ 2 ^ e → result ≤ e }
{
    log2_ceil_usize(n)
}

/// The logarithm of `n` to base 2, rounded down: the greatest `e` with `2^e <= n`. It is 0 for 0.
#[unsafe(no_mangle)]
pub extern "C" fn p3_util_log2_floor(n: usize) -> usize
    ensures zero { n ≡ 0 → result ≡ 0 }
    ensures within { 0 < n → 2 ^ result ≤ n }
    ensures greatest { (e : ℕ) → 2 ^ e ≤ n → e ≤ result }
{
    log2_floor_usize(n)
}

/// Writes the logarithm to base 2 of `n` to `exponent` if `n` is a power of two. Returns whether it
/// is.
#[unsafe(no_mangle)]
pub extern "C" fn p3_util_log2_strict(n: usize, exponent: &mut usize) -> bool
    ensures { IsTried result (IsPowerOfTwo n) (n ≡ 2 ^ exponent.new) (exponent.new ≡ exponent.old) }
{
    let fits = is_power_of_two(n);
    if fits {
        *exponent = log2_strict_usize(n);
    }
    fits
}

/// Writes the logarithm to base 3 of `n` to `exponent` if `n` is a power of three. Returns whether
/// it is.
#[unsafe(no_mangle)]
pub extern "C" fn p3_util_log3_strict(n: usize, exponent: &mut usize) -> bool
    ensures { IsTried result (IsPowerOfThree n) (n ≡ 3 ^ exponent.new) (exponent.new
        ≡ exponent.old) }
{
    let fits = is_power_of_three(n);
    if fits {
        *exponent = log3_strict_usize(n);
    }
    fits
}

/// Writes the `bit_len` low binary digits of `x` in reversed order to `reversed` if `bit_len` is at
/// most 64. For a `bit_len` of 0 all 64 digits are reversed. Returns whether `bit_len` is at most
/// 64.
#[unsafe(no_mangle)]
pub extern "C" fn p3_util_reverse_bits_len(x: usize, bit_len: usize, reversed: &mut usize) -> bool
    ensures { IsTried result (bit_len ≤ 64) (reversed.new ≡ rev_word bit_len x) (reversed.new
        ≡ reversed.old) }
{
    let fits = bit_len <= 64;
    if fits {
        *reversed = reverse_bits_len(x, bit_len);
    }
    fits
}

/// Whether `n` is a power of two.
#[tactic(auto, using(p3_util_kernels::proofs::BitsLemmas::Powers::power_of_two_test))]
fn is_power_of_two(n: usize) -> bool
    ensures { IsTrue result ↔ IsPowerOfTwo n }
{
    n.is_power_of_two()
}
