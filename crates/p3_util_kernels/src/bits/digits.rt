//! Reverses the binary digits of an integer by halves: the two halves change places, then the two halves of each half,
//! and so on, down to single digits.
//!
//! LLVM compiles this to one instruction on ARM, and to a byte swap and three rounds of masks and shifts on x86-64. For
//! std's `reverse_bits`, Rattle's compilers make a loop over single digits instead, which takes about 20 ns for each
//! call.

ghost use Rattle.std.specs.Prelude.{◌≡◌, ℕ, ◌*◌, ◌/◌, ◌^◌, ◌<◌, ◌≤◌, ◌%◌, bit_and, bit_or};
ghost use Rattle.p3_util_kernels.specs.Digits.{rev, rev_word};
ghost use Rattle.p3_util_kernels.specs.Powers.{HasLog2};

/// Reverses the k low binary digits of `x`, where `n` is 2^k. This call does not check that `n` is a power of two, and
/// std's `is_power_of_two` does.
///
/// This is `reverse_bits_len(x, k)`.
#[inline(always)]
pub const fn reverse_bits(x: usize, n: usize) -> usize
    requires { HasLog2 n }
    ensures reversed { (k : ℕ) → n ≡ 2 ^ k → result ≡ rev_word k x }
    ensures digits { (k : ℕ) → 1 ≤ k → n ≡ 2 ^ k → result ≡ rev k x }
    ensures below { x < n → result < n }
{
    reverse_bits_len(x, n.trailing_zeros() as usize)
}

/// Reverses the `bit_len` low binary digits of `x` and drops the others. `bit_len` must be at most 64, which this call
/// does not check. A `bit_len` of 0 reverses all 64 digits.
#[inline(always)]
pub const fn reverse_bits_len(x: usize, bit_len: usize) -> usize
    requires { bit_len ≤ 64 }
    ensures reversed { result ≡ rev_word bit_len x }
    ensures digits { 1 ≤ bit_len → result ≡ rev bit_len x }
    ensures below { 1 ≤ bit_len → result < 2 ^ bit_len }
    ensures inverse { 1 ≤ bit_len → rev bit_len result ≡ x % 2 ^ bit_len }
    ensures twice { x < 2 ^ bit_len → rev_word bit_len result ≡ x }
{
    let reversed = reverse_u64(x as u64) as usize;
    // If `bit_len` is 0, this shifts by 0 and keeps all 64 digits.
    reversed >> ((64 - bit_len) % 64)
}

#[tactic(auto, using(crate::proofs::BitsLemmas::Groups::reversed))]
#[inline(always)]
const fn reverse_u64(x: u64) -> u64
    ensures { result ≡ rev 64 x }
{
    let halves = swap_groups(x, 32, 0x0000_0000_ffff_ffff);
    let quarters = swap_groups(halves, 16, 0x0000_ffff_0000_ffff);
    let bytes = swap_groups(quarters, 8, 0x00ff_00ff_00ff_00ff);
    let nibbles = swap_groups(bytes, 4, 0x0f0f_0f0f_0f0f_0f0f);
    let pairs = swap_groups(nibbles, 2, 0x3333_3333_3333_3333);
    swap_groups(pairs, 1, 0x5555_5555_5555_5555)
}

/// Exchanges the groups of `width` digits at which `low` has ones with those above them.
#[inline(always)]
const fn swap_groups(x: u64, width: u32, low: u64) -> u64
    requires { width < 64 }
    ensures { result ≡ bit_or (bit_and x low * 2 ^ width % 2 ^ 64) (bit_and (x / 2 ^ width) low) }
{
    ((x & low) << width) | ((x >> width) & low)
}
