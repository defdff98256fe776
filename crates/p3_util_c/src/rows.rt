//! Bit reversal of rows, by the size of an item in bytes. `p3_util_reverse_rows_8` is for items of
//! 8 bytes, and so on. Each row moves as a whole.
//!
//! Each call reverses the order of the rows of `vals`, of `row_width` items each, by index bits if
//! the length is `row_width` times zero or a power of two, and returns whether it is.

ghost use Rattle.std.specs.Prelude.{◌≡◌, ◌↔◌, IsTrue, length};
ghost use Rattle.std.specs.Bool.{OnTrue, OnFalse};
ghost use Rattle.p3_util_kernels.specs.Reversal.{FitsRows, IsRowReversal};
ghost use Rattle.p3_util_c.specs.Tried.{IsTriedRowReversal};

use p3_util_fast::reverse_slice_row_index_bits;
use p3_util_kernels::reverse::fits_rows;

#[unsafe(no_mangle)]
pub extern "C" fn p3_util_reverse_rows_1(vals: &mut [u8], row_width: usize) -> bool
    ensures { IsTriedRowReversal result row_width vals.old vals.new }
{
    reverse_rows_where_they_fit(vals, row_width)
}

#[unsafe(no_mangle)]
pub extern "C" fn p3_util_reverse_rows_2(vals: &mut [[u8; 2]], row_width: usize) -> bool
    ensures { IsTriedRowReversal result row_width vals.old vals.new }
{
    reverse_rows_where_they_fit(vals, row_width)
}

#[unsafe(no_mangle)]
pub extern "C" fn p3_util_reverse_rows_4(vals: &mut [[u8; 4]], row_width: usize) -> bool
    ensures { IsTriedRowReversal result row_width vals.old vals.new }
{
    reverse_rows_where_they_fit(vals, row_width)
}

#[unsafe(no_mangle)]
pub extern "C" fn p3_util_reverse_rows_8(vals: &mut [[u8; 8]], row_width: usize) -> bool
    ensures { IsTriedRowReversal result row_width vals.old vals.new }
{
    reverse_rows_where_they_fit(vals, row_width)
}

#[unsafe(no_mangle)]
pub extern "C" fn p3_util_reverse_rows_12(vals: &mut [[[u8; 4]; 3]], row_width: usize) -> bool
    ensures { IsTriedRowReversal result row_width vals.old vals.new }
{
    reverse_rows_where_they_fit(vals, row_width)
}

#[unsafe(no_mangle)]
pub extern "C" fn p3_util_reverse_rows_16(vals: &mut [[[u8; 8]; 2]], row_width: usize) -> bool
    ensures { IsTriedRowReversal result row_width vals.old vals.new }
{
    reverse_rows_where_they_fit(vals, row_width)
}

#[unsafe(no_mangle)]
pub extern "C" fn p3_util_reverse_rows_20(vals: &mut [[[u8; 4]; 5]], row_width: usize) -> bool
    ensures { IsTriedRowReversal result row_width vals.old vals.new }
{
    reverse_rows_where_they_fit(vals, row_width)
}

#[unsafe(no_mangle)]
pub extern "C" fn p3_util_reverse_rows_32(vals: &mut [[[u8; 8]; 4]], row_width: usize) -> bool
    ensures { IsTriedRowReversal result row_width vals.old vals.new }
{
    reverse_rows_where_they_fit(vals, row_width)
}

#[unsafe(no_mangle)]
pub extern "C" fn p3_util_reverse_rows_64(vals: &mut [[[u8; 8]; 8]], row_width: usize) -> bool
    ensures { IsTriedRowReversal result row_width vals.old vals.new }
{
    reverse_rows_where_they_fit(vals, row_width)
}

/// Reverses the rows of `vals` if its length fits. Each part of [`IsTriedRowReversal`] is a clause
/// of its own.
fn reverse_rows_where_they_fit<T>(vals: &mut [T], row_width: usize) -> bool
    ensures held { IsTrue result ↔ FitsRows (length vals.old) row_width }
    ensures done { OnTrue result (IsRowReversal row_width vals.old vals.new) }
    ensures unchanged { OnFalse result (vals.new ≡ vals.old) }
{
    let fits = fits_rows(vals.len(), row_width);
    if fits {
        reverse_slice_row_index_bits(vals, row_width);
    }
    fits
}
