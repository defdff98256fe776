//! Callers of one export of each kind. No program calls them. Their clauses are the parts of what
//! the export guarantees, so if a definition in `specs/Tried.antt` is weakened, one of them is no
//! longer proved.

ghost use Rattle.std.specs.Prelude.{◌≡◌, ◌*◌, ◌^◌, ◌↔◌, IsTrue, length};
ghost use Rattle.std.specs.Bool.{OnTrue, OnFalse};
ghost use Rattle.std.specs.Int.{IsPowerOfTwo};
ghost use Rattle.p3_util_kernels.specs.Reversal.{FitsRows, IsReversal, IsRowReversal, IsZeroOrPowerOfTwo};
ghost use Rattle.p3_util_kernels.specs.Transpose.{IsTranspose};

use crate::bits::p3_util_log2_strict;
use crate::reverse::p3_util_reverse_1;
use crate::rows::p3_util_reverse_rows_1;
use crate::transpose::p3_util_transpose_1;

fn log2_strict(n: usize, exponent: &mut usize) -> bool
    ensures held { IsTrue result ↔ IsPowerOfTwo n }
    ensures done { OnTrue result (n ≡ 2 ^ exponent.new) }
    ensures unchanged { OnFalse result (exponent.new ≡ exponent.old) }
{
    p3_util_log2_strict(n, exponent)
}

fn reverse(vals: &mut [u8]) -> bool
    ensures held { IsTrue result ↔ IsZeroOrPowerOfTwo (length vals.old) }
    ensures done { OnTrue result (IsReversal vals.old vals.new) }
    ensures unchanged { OnFalse result (vals.new ≡ vals.old) }
{
    p3_util_reverse_1(vals)
}

fn reverse_rows(vals: &mut [u8], row_width: usize) -> bool
    ensures held { IsTrue result ↔ FitsRows (length vals.old) row_width }
    ensures done { OnTrue result (IsRowReversal row_width vals.old vals.new) }
    ensures unchanged { OnFalse result (vals.new ≡ vals.old) }
{
    p3_util_reverse_rows_1(vals, row_width)
}

fn transpose(input: &[u8], output: &mut [u8], width: usize, height: usize) -> bool
    ensures held { IsTrue result ↔ ((length input.now ≡ width * height)
        × (length output.old ≡ width * height)) }
    ensures done { OnTrue result (IsTranspose width height input.now output.new) }
    ensures unchanged { OnFalse result (output.new ≡ output.old) }
{
    p3_util_transpose_1(input, output, width, height)
}
