//! Numbers modulo a prime, and roots of 1 whose orders are powers of two.

ghost use Rattle.std.specs.Prelude.{◌≡◌, ℕ, ◌+◌, ◌-◌, ◌*◌, ◌%◌, ◌^◌, ◌<◌, ◌≤◌, slice_index};
ghost use Rattle.p3_util_examples.specs.Stages.{IsRoot};

/// The modulus, the prime 15 * 2^27 + 1. The functions in this file take and return numbers below it.
pub const PRIME: u32 = 2_013_265_921;

/// The greatest `k` for which there is a root of order `2^k`.
pub const MOST_STAGES: usize = 27;

/// The inverse of 2.
pub const HALF: u32 = 1_006_632_961;

/// Entry `k` is a root of 1 of order `2^k`: its powers are distinct up to that exponent, at which the power is 1.
pub static ROOTS: [u32; 28] = [
    1, 2013265920, 1728404513, 1592366214, 196396260, 760005850, 1721589904, 397765732, 1732600167,
    1753498361, 341742893, 1340477990, 1282623253, 298008106, 1657000625, 2009781145, 1421947380,
    1286330022, 1559589183, 1049899240, 195061667, 414040701, 570250684, 1267047229, 1003846038,
    1149491290, 975630072, 440564289,
];

/// The sum of two numbers.
pub fn add(a: u32, b: u32) -> u32
    requires left { a < PRIME }
    requires right { b < PRIME }
    ensures { result ≡ (a + b) % PRIME }
{
    let sum = a + b;
    if sum < PRIME { sum } else { sum - PRIME }
}

/// The difference of two numbers.
pub fn sub(a: u32, b: u32) -> u32
    requires left { a < PRIME }
    requires right { b < PRIME }
    ensures { result ≡ (a + PRIME - b) % PRIME }
{
    if a < b { a + PRIME - b } else { a - b }
}

/// The product of two numbers.
pub fn mul(a: u32, b: u32) -> u32
    requires left { a < PRIME }
    requires right { b < PRIME }
    ensures { result ≡ a * b % PRIME }
{
    (u64::from(a) * u64::from(b) % u64::from(PRIME)) as u32
}

/// `base` to the power of `exponent`, by repeated squaring.
pub fn pow(base: u32, exponent: u64) -> u32
    requires { base < PRIME }
    ensures { result ≡ base ^ exponent % PRIME }
{
    let mut power = 1;
    let mut square = base;
    let mut left = exponent;
    while left > 0 {
        if left % 2 == 1 {
            power = mul(power, square);
        }
        square = mul(square, square);
        left /= 2;
    }
    power
}

/// The root of order `2^levels` in [`ROOTS`].
pub fn root(levels: usize) -> u32
    requires { levels ≤ MOST_STAGES }
    ensures value { result ≡ slice_index ROOTS levels }
    ensures reduced { result < PRIME }
    ensures order { IsRoot levels result }
{
    ROOTS[levels]
}

/// States that each root in [`ROOTS`] is the square of the next one, the first is 1 and the second is -1. Nothing else
/// about them is used.
pub fn roots_are_squares()
    ensures first { slice_index ROOTS 0 ≡ 1 }
    ensures second { slice_index ROOTS 1 ≡ PRIME - 1 }
    ensures squares { (k : ℕ) → k < MOST_STAGES
        → slice_index ROOTS k ≡ slice_index ROOTS (k + 1) ^ 2 % PRIME }
{}
