//! The holders of slices. [`SlicePlaces`] exchanges items, [`SliceCells`] puts items into the slice, and
//! [`SliceSource`] reads items.

ghost use Rattle.std.specs.Prelude.{IfSome, slice_get, take, drop, ◌≡◌, ℕ, ◌+◌, ◌*◌, ◌<◌, length};
ghost use Rattle.std.proofs.Common.{rules};

use crate::places::{Cells, Places, Source};

/// The places of a mutable slice. All changes are made in the slice itself.
#[derive(Debug, Drop)]
pub struct SlicePlaces<'a, F> {
    /// The slice whose items are exchanged.
    pub items: &'a mut [F],
}

impl<'a, F> SlicePlaces<'a, F> {
    /// A holder for the slice `items`. Place `i` is index `i` of the slice.
    pub fn new(items: &'a mut [F]) -> Self
        ensures { result.items ≡ items.entry }
    {
        SlicePlaces { items }
    }
}

impl<'a, F> Places for SlicePlaces<'a, F> {
    type Item = F;

    ghost items = { λ s. s.items.now };

    ghost same_holder = { λ n a b. a.items.ghost_name ≡ b.items.ghost_name };

    fn len(&self) -> usize {
        self.items.len()
    }

    #[inline(always)]
    fn exchange(&mut self, i: usize, j: usize) {
        self.items.swap(i, j);
    }

    ghost same_holder_refl = { Prim.search rules };

    ghost same_holder_trans = { Prim.search rules };
}

/// The cells of a mutable slice. All items are put into the slice itself.
#[derive(Debug, Drop)]
pub struct SliceCells<'a, T> {
    /// The slice into which items are put.
    pub values: &'a mut [T],
}

impl<'a, T: Copy> SliceCells<'a, T> {
    /// A holder for the slice `values`. Cell `i` is index `i` of the slice.
    pub fn new(values: &'a mut [T]) -> Self
        ensures { result.values ≡ values.entry }
    {
        SliceCells { values }
    }
}

impl<'a, T: Copy> Cells for SliceCells<'a, T> {
    type Item = T;

    ghost items = { λ s. s.values.now };

    ghost same_holder = { λ n a b. a.values.ghost_name ≡ b.values.ghost_name };

    fn len(&self) -> usize {
        self.values.len()
    }

    #[inline(always)]
    fn put(&mut self, i: usize, v: T) {
        self.values[i] = v;
    }

    ghost same_holder_refl = { Prim.search rules };

    ghost same_holder_trans = { Prim.search rules };
}

/// A source that reads the items of a slice.
#[derive(Clone, Copy, Debug)]
pub struct SliceSource<'a, T> {
    /// The slice that is read.
    pub slice: &'a [T],
}

impl<'a, T: Copy> SliceSource<'a, T> {
    /// A source of the items of `slice`, in order.
    pub fn new(slice: &'a [T]) -> Self
        ensures { result.slice ≡ slice.entry }
    {
        SliceSource { slice }
    }
}

impl<'a, T: Copy> Source for SliceSource<'a, T> {
    type Item = T;

    ghost items = { λ s. s.slice.now };

    fn len(&self) -> usize {
        self.slice.len()
    }

    #[inline(always)]
    fn at(&self, i: usize) -> T {
        self.slice[i]
    }
}
