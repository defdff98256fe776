//! A matrix in row-major order. The reversal of its rows and its transpose are one call of `p3_util` each.

ghost use Rattle.std.specs.Prelude.{◌≡◌, ℕ, ◌*◌, ◌<◌, ◌↔◌, IfOk, IfSome, IsSome, length, take, drop};
ghost use Rattle.p3_util.specs.Reversal.{IsRowReversal, IsZeroOrPowerOfTwo};
ghost use Rattle.p3_util.specs.Transpose.{IsTranspose};
ghost use Rattle.p3_util_examples.specs.Matrix.{Matrix};

use p3_util::reverse::reverse_slice_row_index_bits;
use p3_util::transpose::transpose;
use std::alloc::{AllocError, Global};
use std::marker::Model;

/// A matrix in row-major order: `height` rows of `width` items, one after the other.
#[derive(Drop)]
pub struct RowMajorMatrix<T> {
    pub(crate) values: Vec<T>,
    pub(crate) width: usize,
    pub(crate) height: usize,
    ghost whole: { length values.items ≡ width * height },
}

impl<T> Model for RowMajorMatrix<T> {
    ghost Value = { Matrix T };

    ghost view = { λ m. record { items = m.values.items; width = m.width; height = m.height } };

    ghost invariant = { λ m. length m.values.items ≡ m.width * m.height };
}

impl<T> RowMajorMatrix<T> {
    /// The matrix of these values in rows of `width`, or `None` if they do not make whole rows. A width of 0 needs an
    /// empty list of values, and then there are no rows.
    pub fn new(values: Vec<T>, width: usize) -> Option<Self>
    where
        T: Drop,
        ensures items { IfSome result (λ m. m.items ≡ values.items) }
        ensures width { IfSome result (λ m. m.width ≡ width) }
        ensures no_rows { IfSome result (λ m. width ≡ 0 → m.height ≡ 0) }
        ensures whole { IfSome result (λ m. length m.items ≡ m.width * m.height) }
        ensures fits { IsSome result ↔ ((rows : ℕ) × (length values.items ≡ width * rows)) }
    {
        let height = if width == 0 { 0 } else { values.len() / width };
        if values.len() != width * height {
            return None;
        }
        Some(RowMajorMatrix {
            values,
            width,
            height,
        })
    }

    /// The number of items of a row.
    pub fn width(&self) -> usize
        ensures { result ≡ self.now.width }
    {
        self.width
    }

    /// The number of rows.
    pub fn height(&self) -> usize
        ensures height { result ≡ self.now.height }
        ensures whole { length self.now.items ≡ self.now.width * self.now.height }
    {
        self.height
    }

    /// All items, row by row.
    pub fn values(&self) -> &[T]
        ensures { result.now ≡ self.now.items }
    {
        &self.values
    }

    /// Row `r`.
    pub fn row(&self, r: usize) -> &[T]
        requires { r < self.now.height }
        ensures { result.now ≡ take self.now.width (drop (r * self.now.width) self.now.items) }
    {
        let start = r * self.width;
        &self.values[start..start + self.width]
    }

    /// Puts the rows into the order of their reversed index bits. The number of rows must be zero or a power of two,
    /// which `fits_rows(height, 1)` of `p3_util::reverse` checks.
    pub fn bit_reverse_rows(&mut self)
        requires { IsZeroOrPowerOfTwo self.old.height }
        ensures order { IsRowReversal self.old.width self.old.items self.new.items }
        ensures inverse { IsRowReversal self.old.width self.new.items self.old.items }
        ensures width { self.new.width ≡ self.old.width }
        ensures height { self.new.height ≡ self.old.height }
    {
        reverse_slice_row_index_bits(&mut self.values, self.width);
    }
}

impl<T: Copy + Default> RowMajorMatrix<T> {
    /// The transpose: its rows are the columns.
    pub fn transpose(&self, alloc: Global) -> Result<RowMajorMatrix<T>, AllocError>
        ensures order { IfOk result (λ m. IsTranspose self.now.width self.now.height
            self.now.items m.items) }
        ensures width { IfOk result (λ m. m.width ≡ self.now.height) }
        ensures height { IfOk result (λ m. m.height ≡ self.now.width) }
    {
        Ok(RowMajorMatrix {
            values: self.transposed_values(alloc)?,
            width: self.height,
            height: self.width,
        })
    }

    /// The items, column by column.
    fn transposed_values(&self, alloc: Global) -> Result<Vec<T>, AllocError>
        ensures { IfOk result (λ v. IsTranspose self.now.width self.now.height
            self.now.items v.items) }
    {
        let mut values = vec![in alloc; T::default(); self.values.len()]?;
        transpose(&self.values, &mut values, self.width, self.height);
        Ok(values)
    }
}
