//! Slices of arrays, viewed as the list of their items.

ghost use Rattle.std.specs.Prelude.{◌≡◌, ⊤, ◌==◌, ◌*◌, ◌^◌, ◌<◌, ◌≤◌, List, Some, length, slice_get};
ghost use Rattle.std.specs.Map.Iter.{ShowsInOrder, deref};
ghost use Rattle.std.specs.Option.{option_copied};
ghost use Rattle.p3_util.specs.Flat.{IsFlat, flat};

use super::BaseIter;
use super::places::each_in_its_row;
use p3_util_kernels::places::Source;
use std::alloc::AllocError;
use std::fmt;
use std::marker::Model;
use std::ops::Index;

/// A slice of arrays of `N` items, viewed as the list of their items, array after array.
///
/// A contract sees the list. For `N` = 0 it is empty.
#[derive(Drop)]
pub struct BaseSlice<'a, Base, const N: usize> {
    items: &'a [Base],
}

impl<'a, Base, const N: usize> Model for BaseSlice<'a, Base, N> {
    ghost Value = { List Base };

    ghost view = { λ s. s.items.now };
}

/// Views the arrays in `buf` as the list of their items, array after array. Nothing is copied.
///
/// The number of items must fit in a `usize`, which [`flat_len`](super::flat_len) checks.
pub fn as_base_slice<Base, const N: usize>(buf: &[[Base; N]]) -> BaseSlice<'_, Base, N>
    requires { length buf.now * N < 2 ^ 64 }
    ensures items { result ≡ flat buf.now }
    ensures len { length result ≡ length buf.now * N }
    ensures places { IsFlat N buf.now result }
{
    prove!(each_in_its_row(buf));
    BaseSlice {
        items: buf.as_flattened(),
    }
}

impl<'a, Base, const N: usize> BaseSlice<'a, Base, N> {
    /// The number of items.
    pub fn len(&self) -> usize
        ensures { result ≡ length self.now }
    {
        self.items.len()
    }

    /// Whether the view has no items.
    pub fn is_empty(&self) -> bool
        ensures { result ≡ (length self.now == 0) }
    {
        self.items.is_empty()
    }

    /// Item `i`, or `None` if `i` is out of bounds.
    pub fn get(&self, i: usize) -> Option<&'a Base>
        ensures { option_copied result ≡ slice_get self.now i }
    {
        self.items.get(i)
    }

    /// Iterates over the items, in order.
    pub fn iter(&self) -> BaseIter<'a, Base>
        ensures rest { result ≡ self.now }
        ensures runs { ShowsInOrder (deref {X = Base}) }
    {
        BaseIter::new(self.items)
    }
}

/// A clone is a view of the same items. It allocates nothing.
impl<'a, Base, const N: usize> Clone for BaseSlice<'a, Base, N> {
    ghost is_clone = { λ s r. r ≡ s };

    ghost is_infallible = { λ _. ⊤ };

    fn clone(&self) -> Result<BaseSlice<'a, Base, N>, AllocError> {
        Ok(BaseSlice { items: self.items })
    }
}

/// Prints the items as a list.
impl<'a, Base: fmt::Debug, const N: usize> fmt::Debug for BaseSlice<'a, Base, N> {
    fn fmt<W: fmt::Write>(&self, f: &mut fmt::Formatter<W>) -> fmt::Result {
        f.debug_list().entries(self.items).finish()
    }
}

/// Item `i`. It must exist, which `get` checks.
impl<'a, Base, const N: usize> Index<usize> for BaseSlice<'a, Base, N> {
    type Output = Base;

    ghost can_index = { λ s i. i < length s };

    ghost index_gives = { λ s i item. slice_get s i ≡ Some item };

    fn index(&self, i: usize) -> &Base {
        self.get(i).unwrap()
    }
}

/// Iterates over references to the items, in order.
impl<'a, Base, const N: usize> IntoIterator for BaseSlice<'a, Base, N> {
    type Item = &'a Base;

    type IntoIter = BaseIter<'a, Base>;

    ghost into_iter_gives = { λ s r. (r ≡ s) × ShowsInOrder (deref {X = Base}) };

    fn into_iter(self) -> BaseIter<'a, Base> {
        self.iter()
    }
}

/// Iterates over references to the items, in order.
impl<'v, 'a, Base, const N: usize> IntoIterator for &'v BaseSlice<'a, Base, N> {
    type Item = &'a Base;

    type IntoIter = BaseIter<'a, Base>;

    ghost into_iter_gives = { λ s r. (r ≡ s.now) × ShowsInOrder (deref {X = Base}) };

    fn into_iter(self) -> BaseIter<'a, Base> {
        self.iter()
    }
}

impl<'a, Base: Copy, const N: usize> Source for BaseSlice<'a, Base, N> {
    type Item = Base;

    ghost items = { λ s. s };

    fn len(&self) -> usize {
        BaseSlice::len(self)
    }

    fn at(&self, i: usize) -> Base {
        // The checker knows that a slice fits in memory if a variable holds it, but not if it is a field behind a
        // `Model`.
        let items = self.items;
        items[i]
    }
}
