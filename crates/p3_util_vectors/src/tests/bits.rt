//! Logarithms, powers, reversed digits and short names, compared with worked examples and the
//! original crate. The package's tests have more of the original's answers.

use crate::tests::checks::{equal, found, same};
use crate::tests::oracle::words::{LOGARITHMS, NAMES, POWERS, REVERSED_DIGITS, SUMS};
use p3_util::{
    assert_clone, branch_hint, checked_log_size_sum, checked_pow2, indices_arr, is_power_of_three,
    log2_ceil_u64, log2_ceil_usize, log2_floor_usize, log2_strict_usize, log3_strict_usize,
    pretty_name, reverse_bits, reverse_bits_len,
};

#[test]
fn logarithms_and_powers(rt: HostRuntime) {
    for &(n, ceil, floor) in &LOGARITHMS {
        same(&rt, n, &log2_ceil_usize(n), &ceil);
        same(&rt, n, &log2_floor_usize(n), &floor);
        same(&rt, n, &log2_ceil_u64(n as u64), &(ceil as u64));
        if n.is_power_of_two() {
            same(&rt, n, &log2_strict_usize(n), &floor);
        }
    }
    // The powers of three, of which 41 fit in a `usize`, and numbers next to them.
    let mut power = 1usize;
    for exponent in 0..=40usize {
        assert!(rt; is_power_of_three(power));
        same(&rt, power, &log3_strict_usize(power), &exponent);
        power = power.wrapping_mul(3);
    }
    assert!(rt; is_power_of_three(243) && is_power_of_three(12_157_665_459_056_928_801));
    for &n in &[0, 2, 4, 6, 9_223_372_036_854_775_808, usize::MAX] {
        same(&rt, n, &is_power_of_three(n), &false);
    }
    for &(exponent, power) in &POWERS {
        same(&rt, exponent, &checked_pow2(exponent), &power);
    }
    for &(a, b, sum) in &SUMS {
        same(&rt, a, &checked_log_size_sum(a, b), &sum);
    }
}

#[test]
fn digits_and_names(rt: HostRuntime) {
    for &(x, bit_len, reversed) in &REVERSED_DIGITS {
        assert!(rt; bit_len <= 64);
        same(&rt, x, &reverse_bits_len(x, bit_len), &reversed);
        if bit_len < 64 {
            same(&rt, x, &reverse_bits(x, 1 << bit_len), &reversed);
        }
    }
    for (row, (name, short)) in NAMES.iter().enumerate() {
        let got = found(&rt, pretty_name(rt.alloc(), name));
        same(&rt, row, &got.as_str(), short);
    }
    equal(&rt, &indices_arr::<3>(), &[0, 1, 2]);
    equal(&rt, &indices_arr::<0>(), &[]);
    branch_hint();
    assert_clone::<u64>();
}
