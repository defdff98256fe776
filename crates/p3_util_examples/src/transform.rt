//! A number-theoretic transform of the columns of a matrix, built on the calls of `p3_util`. It is an example to read
//! and to copy from.
//!
//! ```text
//! let mut matrix = RowMajorMatrix::new(values, width).ok_or(..)?;
//! if fits_transform(&matrix) {
//!     transform_columns(alloc, &mut matrix)?;
//! }
//! ```
//!
//! The meaning of the calls is defined in `specs/Transform.antt`, by sums, powers and remainders. The definitions do
//! not depend on the algorithm.
//!
//! - `field`: numbers modulo a prime, and a root of order `2^k` for each k up to 27.
//! - `matrix`: a matrix in row-major order. The reversal of its rows and its transpose are one call
//!   of `p3_util` each.
//! - `transform` itself: the rows are reversed by index bits. Then k stages follow, each of which
//!   joins pairs of neighbouring blocks of rows, until there is one block.
//!
//! The proof follows the stages. After s of them there are `2^(k - s)` blocks of `2^s` rows, and block b is the
//! transform of the rows that are `2^(k - s)` apart from row `rev (k - s) b` on (`IsStage`). Before the first stage,
//! this is what the contract of `reverse_slice_row_index_bits` says about blocks of one row. After the last stage, it
//! is the transform. Each stage is right because `rev (m + 1) (2 * b + c)` is `c * 2^m + rev m b`, and because a root
//! to the power of half its order is -1.

ghost use Rattle.std.specs.Prelude.{◌≡◌, ℕ, ◌-◌, ◌*◌, ◌/◌, ◌%◌, ◌^◌, ◌<◌, ◌≤◌, ◌↔◌, IfOk, IsTrue, OnErr, OnOk, length, slice_index};
ghost use Rattle.p3_util.specs.Reversal.{FitsRows, IsRowReversal};
ghost use Rattle.p3_util_examples.specs.Stages.{AreBelowPrime, ArePowers, IsRoot};
ghost use Rattle.p3_util_examples.specs.Transform.{FitsTransform, InverseRestores, IsInverseTransformed, IsTransformed, TransformRestores};

pub mod field;
pub mod matrix;
mod stage;

use field::{HALF, MOST_STAGES, PRIME, ROOTS, mul, pow, root};
use matrix::RowMajorMatrix;
use p3_util::{
    log2_ceil_usize, log2_strict_usize, reverse_slice_index_bits, reverse_slice_row_index_bits,
};
use stage::{Twiddles, join_blocks};
use std::alloc::{AllocError, Global};

/// Whether `matrix` has `2^k` rows, with `k` at most [`MOST_STAGES`], and all its numbers are below [`PRIME`].
pub fn fits_transform(matrix: &RowMajorMatrix<u32>) -> bool
    ensures { IsTrue result ↔ FitsTransform matrix.now }
{
    has_root(matrix.height) && matrix.values.iter().all(|value| *value < PRIME)
}

/// Whether there is a root of order `height` in [`ROOTS`].
fn has_root(height: usize) -> bool
    ensures { IsTrue result ↔ ((k : ℕ) × (k ≤ MOST_STAGES) × (height ≡ 2 ^ k)) }
{
    let levels = log2_ceil_usize(height);
    levels <= MOST_STAGES && height == 1 << levels
}

/// Transforms each column in place. With `2^k` rows, row `r` becomes the sum of all rows `j`, each multiplied by the
/// root of order `2^k` to the power of `r * j`, modulo the prime. [`fits_transform`] checks the matrix.
///
/// The call needs memory for powers of the root: half as many numbers as there are rows. If there is none, the matrix
/// is unchanged.
pub fn transform_columns(alloc: Global, matrix: &mut RowMajorMatrix<u32>) -> Result<(), AllocError>
    requires { FitsTransform matrix.old }
    ensures transformed { (k : ℕ) → matrix.old.height ≡ 2 ^ k → OnOk result
        (IsTransformed (slice_index ROOTS k) matrix.old.width matrix.old.height matrix.old.items
        matrix.new.items) }
    ensures fits { FitsTransform matrix.new }
    ensures width { matrix.new.width ≡ matrix.old.width }
    ensures height { matrix.new.height ≡ matrix.old.height }
    ensures refused { OnErr result (matrix.new ≡ matrix.old) }
{
    let levels = levels_of(matrix);
    transform_by(
        alloc,
        &mut matrix.values,
        matrix.width,
        levels,
        root(levels),
    )?;
    Ok(())
}

/// The inverse of [`transform_columns`], under the same condition. Row `r` becomes the sum of all rows `j`, each
/// multiplied by the inverse of the root to the power of `r * j`, and by the inverse of the number of rows.
pub fn inverse_transform_columns(
    alloc: Global,
    matrix: &mut RowMajorMatrix<u32>,
) -> Result<(), AllocError>
    requires { FitsTransform matrix.old }
    ensures transformed { (k : ℕ) → matrix.old.height ≡ 2 ^ k → OnOk result
        (IsInverseTransformed k (slice_index ROOTS k)
        matrix.old.width matrix.old.items matrix.new.items) }
    ensures fits { FitsTransform matrix.new }
    ensures width { matrix.new.width ≡ matrix.old.width }
    ensures height { matrix.new.height ≡ matrix.old.height }
    ensures refused { OnErr result (matrix.new ≡ matrix.old) }
{
    let levels = levels_of(matrix);
    inverse_transform(alloc, &mut matrix.values, matrix.width, levels)?;
    Ok(())
}

/// States that each of the two transforms undoes the other.
pub fn transforms_are_inverse()
    ensures inverse_last { InverseRestores }
    ensures inverse_first { TransformRestores }
{}

/// Transforms a matrix and then transforms it back, which leaves it unchanged.
pub fn transform_and_back(alloc: Global, matrix: &mut RowMajorMatrix<u32>) -> Result<(), AllocError>
    requires { FitsTransform matrix.old }
    ensures { OnOk result (matrix.new ≡ matrix.old) }
{
    // `height` is called for its contract, which tells the proof that the rows are whole.
    let _ = matrix.height();
    transform_columns(alloc, matrix)?;
    inverse_transform_columns(alloc, matrix)?;
    Ok(())
}

/// The logarithm of the number of rows of a matrix that fits.
fn levels_of(matrix: &RowMajorMatrix<u32>) -> usize
    requires { FitsTransform matrix.now }
    ensures power { matrix.now.height ≡ 2 ^ result }
    ensures bound { result ≤ MOST_STAGES }
    ensures whole { length matrix.now.items ≡ matrix.now.width * 2 ^ result }
    ensures below { AreBelowPrime matrix.now.items }
{
    log2_strict_usize(matrix.height)
}

/// The inverse of a root of order `2^levels`.
fn inverse_root(levels: usize) -> u32
    requires { levels ≤ MOST_STAGES }
    ensures power { result ≡ slice_index ROOTS levels ^ (2 ^ levels - 1) % PRIME }
    ensures root { IsRoot levels result }
{
    pow(root(levels), (1 << levels) - 1)
}

/// The inverse transform of each column of `2^levels` rows.
fn inverse_transform(
    alloc: Global,
    values: &mut [u32],
    width: usize,
    levels: usize,
) -> Result<(), AllocError>
    requires levels { levels ≤ MOST_STAGES }
    requires len { length values.old ≡ width * 2 ^ levels }
    requires below { AreBelowPrime values.old }
    ensures transformed { OnOk result
        (IsInverseTransformed levels (slice_index ROOTS levels) width values.old values.new) }
    ensures below { AreBelowPrime values.new }
    ensures refused { OnErr result (values.new ≡ values.old) }
{
    transform_by(alloc, values, width, levels, inverse_root(levels))?;
    scale(values, pow(HALF, levels as u64));
    Ok(())
}

/// Multiplies each number by `factor`.
fn scale(values: &mut [u32], factor: u32)
    requires factor { factor < PRIME }
    requires below { AreBelowPrime values.old }
    ensures below { AreBelowPrime values.new }
    ensures scaled { (i : ℕ) → i < length values.old
        → slice_index values.new i ≡ slice_index values.old i * factor % PRIME }
{
    for value in values.iter_mut() {
        *value = mul(*value, factor);
    }
}

/// Transforms each column of `2^levels` rows by a root of that order.
fn transform_by(
    alloc: Global,
    values: &mut [u32],
    width: usize,
    levels: usize,
    root: u32,
) -> Result<(), AllocError>
    requires levels { levels < 64 }
    requires len { length values.old ≡ width * 2 ^ levels }
    requires below { AreBelowPrime values.old }
    requires reduced { root < PRIME }
    requires root { IsRoot levels root }
    ensures transformed { OnOk result (IsTransformed root width (2 ^ levels)
        values.old values.new) }
    ensures below { AreBelowPrime values.new }
    ensures refused { OnErr result (values.new ≡ values.old) }
{
    let powers = powers_of(alloc, root, (1 << levels) / 2)?;
    transform_rows(values, width, levels, &powers);
    Ok(())
}

/// The first `count` powers of `root`, from power 0 on.
fn powers_of(alloc: Global, root: u32, count: usize) -> Result<Vec<u32>, AllocError>
    requires { root < PRIME }
    ensures { IfOk result (λ powers. ArePowers root count powers.items) }
{
    let mut powers = vec![in alloc; 0; count]?;
    let mut power = 1;
    for i in 0..count {
        powers[i] = power;
        power = mul(power, root);
    }
    Ok(powers)
}

/// Puts the rows into the order of their reversed index bits.
fn reverse_rows(values: &mut [u32], width: usize)
    requires { FitsRows (length values.old) width }
    ensures { IsRowReversal width values.old values.new }
{
    if width == 1 {
        // Beyond a few thousand items this is much faster than the reversal of rows of one item.
        reverse_slice_index_bits(values);
    } else {
        reverse_slice_row_index_bits(values, width);
    }
}

/// Transforms each column of `2^levels` rows by the root of that order whose powers are given.
fn transform_rows(values: &mut [u32], width: usize, levels: usize, powers: &[u32])
    requires levels { levels < 64 }
    requires len { length values.old ≡ width * 2 ^ levels }
    requires below { AreBelowPrime values.old }
    requires powers { AreBelowPrime powers.now }
    requires count { length powers.now ≡ 2 ^ levels / 2 }
    ensures below { AreBelowPrime values.new }
    ensures transformed { (root : ℕ) → IsRoot levels root
        → ArePowers root (2 ^ levels / 2) powers.now
        → IsTransformed root width (2 ^ levels) values.old values.new }
{
    reverse_rows(values, width);
    for s in 0..levels {
        let blocks = power(levels - 1 - s);
        let twiddles = Twiddles {
            powers,
            stride: blocks,
        };
        join_blocks(values, width, power(s), blocks, &twiddles);
    }
}

/// 2 to the power of `exponent`. This is a function of its own, so that a proof knows nothing except the power.
fn power(exponent: usize) -> usize
    requires { exponent < 64 }
    ensures { result ≡ 2 ^ exponent }
{
    1 << exponent
}
