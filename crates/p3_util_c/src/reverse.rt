//! Bit reversal of lists, by the size of an item in bytes. `p3_util_reverse_8` is for items of 8
//! bytes, and so on.
//!
//! Each call reverses the order of `vals` by index bits if the length is zero or a power of two,
//! and returns whether it is.

ghost use Rattle.std.specs.Prelude.{◌≡◌, ◌↔◌, IsTrue, length};
ghost use Rattle.std.specs.Bool.{OnTrue, OnFalse};
ghost use Rattle.p3_util_kernels.specs.Reversal.{IsReversal, IsZeroOrPowerOfTwo};
ghost use Rattle.p3_util_c.specs.Tried.{IsTriedReversal};

use p3_util_fast::reverse_slice_index_bits;
use p3_util_kernels::reverse::fits_rows;

#[unsafe(no_mangle)]
pub extern "C" fn p3_util_reverse_1(vals: &mut [u8]) -> bool
    ensures { IsTriedReversal result vals.old vals.new }
{
    reverse_where_it_fits(vals)
}

#[unsafe(no_mangle)]
pub extern "C" fn p3_util_reverse_2(vals: &mut [[u8; 2]]) -> bool
    ensures { IsTriedReversal result vals.old vals.new }
{
    reverse_where_it_fits(vals)
}

#[unsafe(no_mangle)]
pub extern "C" fn p3_util_reverse_4(vals: &mut [[u8; 4]]) -> bool
    ensures { IsTriedReversal result vals.old vals.new }
{
    reverse_where_it_fits(vals)
}

#[unsafe(no_mangle)]
pub extern "C" fn p3_util_reverse_8(vals: &mut [[u8; 8]]) -> bool
    ensures { IsTriedReversal result vals.old vals.new }
{
    reverse_where_it_fits(vals)
}

#[unsafe(no_mangle)]
pub extern "C" fn p3_util_reverse_12(vals: &mut [[[u8; 4]; 3]]) -> bool
    ensures { IsTriedReversal result vals.old vals.new }
{
    reverse_where_it_fits(vals)
}

#[unsafe(no_mangle)]
pub extern "C" fn p3_util_reverse_16(vals: &mut [[[u8; 8]; 2]]) -> bool
    ensures { IsTriedReversal result vals.old vals.new }
{
    reverse_where_it_fits(vals)
}

#[unsafe(no_mangle)]
pub extern "C" fn p3_util_reverse_20(vals: &mut [[[u8; 4]; 5]]) -> bool
    ensures { IsTriedReversal result vals.old vals.new }
{
    reverse_where_it_fits(vals)
}

#[unsafe(no_mangle)]
pub extern "C" fn p3_util_reverse_32(vals: &mut [[[u8; 8]; 4]]) -> bool
    ensures { IsTriedReversal result vals.old vals.new }
{
    reverse_where_it_fits(vals)
}

#[unsafe(no_mangle)]
pub extern "C" fn p3_util_reverse_64(vals: &mut [[[u8; 8]; 8]]) -> bool
    ensures { IsTriedReversal result vals.old vals.new }
{
    reverse_where_it_fits(vals)
}

/// Reverses `vals` if its length fits. Each part of [`IsTriedReversal`] is a clause of its own.
fn reverse_where_it_fits<T>(vals: &mut [T]) -> bool
    ensures held { IsTrue result ↔ IsZeroOrPowerOfTwo (length vals.old) }
    ensures done { OnTrue result (IsReversal vals.old vals.new) }
    ensures unchanged { OnFalse result (vals.new ≡ vals.old) }
{
    let fits = fits_rows(vals.len(), 1);
    if fits {
        reverse_slice_index_bits(vals);
    }
    fits
}
