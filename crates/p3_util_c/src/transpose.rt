//! Transposes of matrices that are stored as flat lists, row after row, by the size of an item in
//! bytes.
//!
//! Each call writes the transpose of `input`, a matrix of `height` rows of `width` items, to
//! `output` if both lengths are `width` times `height`, and returns whether they are.

ghost use Rattle.std.specs.Prelude.{◌≡◌, ◌*◌, ◌↔◌, IsTrue, length};
ghost use Rattle.std.specs.Bool.{OnTrue, OnFalse};
ghost use Rattle.p3_util_kernels.specs.Transpose.{IsTranspose};
ghost use Rattle.p3_util_c.specs.Tried.{IsTriedTranspose};

use p3_util_fast::transpose;
use p3_util_kernels::transpose::fits_matrix;

#[unsafe(no_mangle)]
pub extern "C" fn p3_util_transpose_1(
    input: &[u8],
    output: &mut [u8],
    width: usize,
    height: usize,
) -> bool
    ensures { IsTriedTranspose result width height input.now output.old output.new }
{
    transpose_where_it_fits(input, output, width, height)
}

#[unsafe(no_mangle)]
pub extern "C" fn p3_util_transpose_2(
    input: &[[u8; 2]],
    output: &mut [[u8; 2]],
    width: usize,
    height: usize,
) -> bool
    ensures { IsTriedTranspose result width height input.now output.old output.new }
{
    transpose_where_it_fits(input, output, width, height)
}

#[unsafe(no_mangle)]
pub extern "C" fn p3_util_transpose_4(
    input: &[[u8; 4]],
    output: &mut [[u8; 4]],
    width: usize,
    height: usize,
) -> bool
    ensures { IsTriedTranspose result width height input.now output.old output.new }
{
    transpose_where_it_fits(input, output, width, height)
}

#[unsafe(no_mangle)]
pub extern "C" fn p3_util_transpose_8(
    input: &[[u8; 8]],
    output: &mut [[u8; 8]],
    width: usize,
    height: usize,
) -> bool
    ensures { IsTriedTranspose result width height input.now output.old output.new }
{
    transpose_where_it_fits(input, output, width, height)
}

#[unsafe(no_mangle)]
pub extern "C" fn p3_util_transpose_12(
    input: &[[[u8; 4]; 3]],
    output: &mut [[[u8; 4]; 3]],
    width: usize,
    height: usize,
) -> bool
    ensures { IsTriedTranspose result width height input.now output.old output.new }
{
    transpose_where_it_fits(input, output, width, height)
}

#[unsafe(no_mangle)]
pub extern "C" fn p3_util_transpose_16(
    input: &[[[u8; 8]; 2]],
    output: &mut [[[u8; 8]; 2]],
    width: usize,
    height: usize,
) -> bool
    ensures { IsTriedTranspose result width height input.now output.old output.new }
{
    transpose_where_it_fits(input, output, width, height)
}

#[unsafe(no_mangle)]
pub extern "C" fn p3_util_transpose_20(
    input: &[[[u8; 4]; 5]],
    output: &mut [[[u8; 4]; 5]],
    width: usize,
    height: usize,
) -> bool
    ensures { IsTriedTranspose result width height input.now output.old output.new }
{
    transpose_where_it_fits(input, output, width, height)
}

#[unsafe(no_mangle)]
pub extern "C" fn p3_util_transpose_32(
    input: &[[[u8; 8]; 4]],
    output: &mut [[[u8; 8]; 4]],
    width: usize,
    height: usize,
) -> bool
    ensures { IsTriedTranspose result width height input.now output.old output.new }
{
    transpose_where_it_fits(input, output, width, height)
}

#[unsafe(no_mangle)]
pub extern "C" fn p3_util_transpose_64(
    input: &[[[u8; 8]; 8]],
    output: &mut [[[u8; 8]; 8]],
    width: usize,
    height: usize,
) -> bool
    ensures { IsTriedTranspose result width height input.now output.old output.new }
{
    transpose_where_it_fits(input, output, width, height)
}

/// Writes the transpose if both lengths fit. Each part of [`IsTriedTranspose`] is a clause of its
/// own.
fn transpose_where_it_fits<T: Copy>(
    input: &[T],
    output: &mut [T],
    width: usize,
    height: usize,
) -> bool
    ensures held { IsTrue result ↔ ((length input.now ≡ width * height)
        × (length output.old ≡ width * height)) }
    ensures done { OnTrue result (IsTranspose width height input.now output.new) }
    ensures unchanged { OnFalse result (output.new ≡ output.old) }
{
    let fits = fits_matrix(input.len(), output.len(), width, height);
    if fits {
        transpose(input, output, width, height);
    }
    fits
}
