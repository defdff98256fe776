//! Logarithms and powers of integers, the reversal of their binary digits, and the short names of types.

ghost use Rattle.std.specs.Prelude.{◌≡◌, ℕ, ◌+◌, ◌-◌, ◌*◌, ◌^◌, ◌<◌, ◌≤◌, ◌↔◌, IsTrue, SomeIff, length, slice_index};
ghost use Rattle.p3_util_kernels.specs.Powers.{HasLog2, HasLog3, IsPowerOfThree};
ghost use Rattle.p3_util_kernels.specs.Logarithms.{clog};

mod digits;
mod names;

pub use digits::{reverse_bits, reverse_bits_len};
pub use names::pretty_name;

/// The powers of three below 2^64, in order.
const POWERS_OF_THREE: [usize; 41] = [
    1,
    3,
    9,
    27,
    81,
    243,
    729,
    2_187,
    6_561,
    19_683,
    59_049,
    177_147,
    531_441,
    1_594_323,
    4_782_969,
    14_348_907,
    43_046_721,
    129_140_163,
    387_420_489,
    1_162_261_467,
    3_486_784_401,
    10_460_353_203,
    31_381_059_609,
    94_143_178_827,
    282_429_536_481,
    847_288_609_443,
    2_541_865_828_329,
    7_625_597_484_987,
    22_876_792_454_961,
    68_630_377_364_883,
    205_891_132_094_649,
    617_673_396_283_947,
    1_853_020_188_851_841,
    5_559_060_566_555_523,
    16_677_181_699_666_569,
    50_031_545_098_999_707,
    150_094_635_296_999_121,
    450_283_905_890_997_363,
    1_350_851_717_672_992_089,
    4_052_555_153_018_976_267,
    12_157_665_459_056_928_801,
];

/// Entry `t` is the exponent of the greatest power of three below `2^(t + 1)`. So if bit `t` is the highest set bit of
/// a power of three, entry `t` is the exponent of that power.
const EXPONENTS_OF_THREE: [u8; 64] = [
    0, 1, 1, 2, 3, 3, 4, 5, 5, 6, 6, 7, 8, 8, 9, 10, 10, 11, 11, 12, 13, 13, 14, 15, 15, 16, 17,
    17, 18, 18, 19, 20, 20, 21, 22, 22, 23, 23, 24, 25, 25, 26, 27, 27, 28, 29, 29, 30, 30, 31, 32,
    32, 33, 34, 34, 35, 35, 36, 37, 37, 38, 39, 39, 40,
];

/// The logarithm of `n` to base 2, rounded up: the least `e` with `n <= 2^e`. It is 0 for 0 and 1.
///
/// ```
/// assert_eq!(p3_util_proved::log2_ceil_usize(8), 3);
/// assert_eq!(p3_util_proved::log2_ceil_usize(9), 4);
/// ```
#[inline(always)]
#[must_use]
pub const fn log2_ceil_usize(n: usize) -> usize
    ensures enough { n ≤ 2 ^ result }
    ensures least { (e : ℕ) → n ≤ 2 ^ e → result ≤ e }
    ensures near { 0 < n → 2 ^ result < 2 * n }
    ensures tight { 1 < n → 2 ^ (result - 1) < n }
    ensures counted { result ≡ clog n }
    ensures bound { result ≤ 64 }
{
    // The result is the number of binary digits of `n - 1`.
    (usize::BITS - n.saturating_sub(1).leading_zeros()) as usize
}

/// The logarithm of `n` to base 2, rounded down: the greatest `e` with `2^e <= n`. It is 0 for 0.
///
/// ```
/// assert_eq!(p3_util_proved::log2_floor_usize(7), 2);
/// assert_eq!(p3_util_proved::log2_floor_usize(8), 3);
/// ```
#[tactic(auto, using(crate::proofs::BitsLemmas::Powers::exponents))]
#[inline(always)]
#[must_use]
pub const fn log2_floor_usize(n: usize) -> usize
    ensures zero { n ≡ 0 → result ≡ 0 }
    ensures within { 0 < n → 2 ^ result ≤ n }
    ensures greatest { (e : ℕ) → 2 ^ e ≤ n → e ≤ result }
    ensures below { 0 < n → n < 2 ^ (result + 1) }
    ensures bound { result < 64 }
{
    if n == 0 { 0 } else { n.ilog2() as usize }
}

/// The logarithm of `n` to base 2, rounded up: the least `e` with `n <= 2^e`. It is 0 for 0 and 1.
///
/// ```
/// assert_eq!(p3_util_proved::log2_ceil_u64(8), 3);
/// assert_eq!(p3_util_proved::log2_ceil_u64(9), 4);
/// ```
#[inline]
#[must_use]
pub const fn log2_ceil_u64(n: u64) -> u64
    ensures enough { n ≤ 2 ^ result }
    ensures least { (e : ℕ) → n ≤ 2 ^ e → result ≤ e }
    ensures near { 0 < n → 2 ^ result < 2 * n }
    ensures tight { 1 < n → 2 ^ (result - 1) < n }
    ensures bound { result ≤ 64 }
{
    log2_ceil_usize(n as usize) as u64
}

/// 2 to the power of `exponent`.
#[inline(always)]
#[doc(hidden)]
pub const fn pow2(exponent: usize) -> usize
    requires { exponent < 64 }
    ensures { result ≡ 2 ^ exponent }
{
    1 << exponent
}

/// `2^log_degree`, or `None` if it does not fit in a `usize`.
///
/// ```
/// assert_eq!(p3_util_proved::checked_pow2(5), Some(32));
/// assert_eq!(p3_util_proved::checked_pow2(64), None);
/// ```
#[inline]
#[must_use]
pub const fn checked_pow2(log_degree: usize) -> Option<usize>
    ensures { SomeIff result (log_degree < 64) (2 ^ log_degree) }
{
    if log_degree < 64 {
        Some(1 << log_degree)
    } else {
        None
    }
}

/// `a + b` and `2^(a + b)`, or `None` if the power does not fit in a `usize`.
///
/// ```
/// assert_eq!(p3_util_proved::checked_log_size_sum(2, 3), Some((5, 32)));
/// assert_eq!(p3_util_proved::checked_log_size_sum(32, 32), None);
/// ```
#[inline]
#[must_use]
pub const fn checked_log_size_sum(a: usize, b: usize) -> Option<(usize, usize)>
    ensures { SomeIff result (a + b < 64) (a + b, 2 ^ (a + b)) }
{
    let sum = a.saturating_add(b);
    if sum < 64 {
        Some((sum, 1 << sum))
    } else {
        None
    }
}

/// The logarithm to base 2 of `n`, which must be a power of two. This call does not check that, and std's
/// `is_power_of_two` does.
#[inline]
pub const fn log2_strict_usize(n: usize) -> usize
    requires { HasLog2 n }
    ensures power { n ≡ 2 ^ result }
    ensures counted { result ≡ clog n }
    ensures bound { result < 64 }
{
    n.trailing_zeros() as usize
}

/// The logarithm to base 3 of `n`, which must be a power of three. This call does not check that, and
/// [`is_power_of_three`] does.
#[inline]
pub const fn log3_strict_usize(n: usize) -> usize
    requires { HasLog3 n }
    ensures power { n ≡ 3 ^ result }
    ensures only { (e : ℕ) → n ≡ 3 ^ e → result ≡ e }
    ensures bound { result < 41 }
{
    let top = n.ilog2();
    exponent_of_three(top as usize)
}

/// Whether `n` is `3^e` for some `e`.
#[inline]
pub const fn is_power_of_three(n: usize) -> bool
    ensures { IsTrue result ↔ IsPowerOfThree n }
{
    n != 0 && powers_of_three()[exponent_of_three(n.ilog2() as usize)] == n
}

/// The table of all powers of three that fit in a `usize`. The highest set bits of any two of them are at different
/// positions.
#[tactic(auto, using(crate::proofs::BitsLemmas::Tables::powers))]
#[inline]
const fn powers_of_three() -> &'static [usize; 41]
    ensures powers { (e : ℕ) → e < 41 → slice_index result.now e ≡ 3 ^ e }
    ensures all { (e : ℕ) → 3 ^ e < 2 ^ 64 ↔ e < 41 }
    ensures apart { (d e top : ℕ) → 2 ^ top ≤ 3 ^ d → 3 ^ d < 2 ^ (top + 1)
        → 2 ^ top ≤ 3 ^ e → 3 ^ e < 2 ^ (top + 1) → d ≡ e }
{
    &POWERS_OF_THREE
}

/// The exponent of the power of three whose highest set bit is bit `top`, if there is such a power.
#[inline]
const fn exponent_of_three(top: usize) -> usize
    requires { top < 64 }
    ensures found { (e : ℕ) → 2 ^ top ≤ 3 ^ e → 3 ^ e < 2 ^ (top + 1) → result ≡ e }
    ensures bound { result < 41 }
{
    let exponents = &EXPONENTS_OF_THREE;
    exponents[top] as usize
}

/// The array `[0, 1, .., N - 1]`, in which each item is its own index.
///
/// ```
/// assert_eq!(p3_util_proved::indices_arr::<4>(), [0, 1, 2, 3]);
/// ```
#[inline]
#[must_use]
pub const fn indices_arr<const N: usize>() -> [usize; N]
    ensures len { length result ≡ N }
    ensures places { (i : ℕ) → i < N → slice_index result i ≡ i }
{
    let mut indices = [0; N];
    let mut i = 0;
    while i < N {
        indices[i] = i;
        i += 1;
    }
    indices
}

/// Marks a branch that is seldom taken, and does nothing.
///
/// The original has an empty line of assembly here, so that the compiler keeps the branch. This body is empty, so the
/// compiler may turn the branch into a conditional move.
///
/// ```
/// let bits = |n: usize| if n == 0 { p3_util_proved::branch_hint(); 1 } else { n.ilog2() + 1 };
/// assert_eq!([bits(0), bits(8)], [1, 4]);
/// ```
#[inline]
pub const fn branch_hint() {}

/// Does nothing, but a call compiles only if `T` is `Clone`.
///
/// ```compile_fail,E0277
/// p3_util_proved::assert_clone::<&mut u8>();
/// ```
#[inline]
pub const fn assert_clone<T: Clone>() {}
