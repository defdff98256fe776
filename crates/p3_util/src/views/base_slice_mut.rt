//! Mutable slices of arrays, viewed as the list of their items.

ghost use Rattle.std.specs.Prelude.{◌≡◌, ◌==◌, ◌*◌, ◌^◌, ◌<◌, ◌≤◌, List, Some, length, slice_get};
ghost use Rattle.std.proofs.Common.{rules};
ghost use Rattle.std.specs.Map.Iter.{ShowsInOrder, deref};
ghost use Rattle.p3_util.specs.Flat.{IsFlat, countable_items, flat};
ghost use Rattle.std.specs.Borrow.{sem};
ghost use Rattle.std.specs.Option.{option_copied, option_copied_mut};

use super::BaseIter;
use super::places::each_in_its_row;
use super::rows::Rows;
use p3_util_kernels::places::{Cells, Places};
use std::ops::Index;

/// The rows behind `S`, viewed as the list of their items, row after row.
///
/// All changes are made in the rows themselves. A contract sees the list as `S.items` of `rows`. For a `&mut` to arrays
/// this is `flat` of the rows, as long as a `usize` can count their items, which holds for each view that
/// [`as_base_slice_mut`] returns.
#[derive(Drop)]
pub struct Flattened<S> {
    rows: S,
}

/// A mutable slice of arrays of `N` items, viewed as the list of their items, array after array. For `N` = 0 it is
/// empty.
pub type BaseSliceMut<'a, Base, const N: usize> = Flattened<&'a mut [[Base; N]]>;

/// Views the arrays in `buf` as the list of their items, array after array, to exchange or write them. Nothing is
/// copied.
///
/// The number of items must fit in a `usize`, which [`flat_len`](super::flat_len) checks.
pub fn as_base_slice_mut<Base, const N: usize>(buf: &mut [[Base; N]]) -> BaseSliceMut<'_, Base, N>
    requires { length buf.old * N < 2 ^ 64 }
    ensures rows { result.rows ≡ buf.entry }
    ensures items { countable_items result.rows.now ≡ flat buf.old }
    ensures len { length (countable_items result.rows.now) ≡ length buf.old * N }
    ensures places { IsFlat N buf.old (countable_items result.rows.now) }
{
    prove!(each_in_its_row(buf));
    Flattened { rows: buf }
}

impl<S: Rows> Flattened<S> {
    ghost use Rattle.p3_util.specs.ViewLends.{lends_item};
    ghost use Rattle.p3_util.specs.contracts.views.base_slice_mut.Flattened.{the_row};

    /// The number of items.
    pub fn len(&self) -> usize
        ensures { result ≡ length (S.items self.now.rows) }
    {
        self.rows.row_items().len()
    }

    /// Whether the view has no items.
    pub fn is_empty(&self) -> bool
        ensures { result ≡ (length (S.items self.now.rows) == 0) }
    {
        self.rows.row_items().is_empty()
    }

    /// Item `i`, or `None` if `i` is out of bounds.
    pub fn get(&self, i: usize) -> Option<&S::Item>
        ensures { option_copied result ≡ slice_get (S.items self.now.rows) i }
    {
        self.rows.row_items().get(i)
    }

    /// A mutable reference to item `i`, or `None` if `i` is out of bounds.
    ///
    /// When the reference ends, the same rows have the value that was last behind it as item `i`, and every other item
    /// is unchanged.
    pub fn get_mut(&mut self, i: usize) -> Option<&mut S::Item>
        ensures* writes_back { sem 𝓛 (lends_item (the_row S.row) S.Item.row
            (λ v. S.items v.rows) (λ a b. S.same_rows a.rows b.rows) self.entry i result) }
        ensures item { option_copied_mut result ≡ slice_get (S.items self.old.rows) i }
    {
        self.rows.item_mut(i)
    }

    /// Iterates over the items, in order.
    pub fn iter(&self) -> BaseIter<'_, S::Item>
        ensures rest { result ≡ S.items self.now.rows }
        ensures runs { ShowsInOrder (deref {X = S.Item}) }
    {
        BaseIter::new(self.rows.row_items())
    }
}

/// Item `i`. It must exist, which `get` checks.
impl<S: Rows> Index<usize> for Flattened<S> {
    type Output = S::Item;

    ghost can_index = { λ v i. i < length (S.items v.rows) };

    ghost index_gives = { λ v i item. slice_get (S.items v.rows) i ≡ Some item };

    fn index(&self, i: usize) -> &S::Item {
        self.get(i).unwrap()
    }
}

/// Iterates over references to the items, in order.
impl<'v, 'a: 'v, Base, const N: usize> IntoIterator for &'v Flattened<&'a mut [[Base; N]]> {
    type Item = &'v Base;

    type IntoIter = BaseIter<'v, Base>;

    ghost into_iter_gives = { λ v r. (r ≡ countable_items v.now.rows.now)
        × ShowsInOrder (deref {X = Base}) };

    fn into_iter(self) -> BaseIter<'v, Base> {
        self.iter()
    }
}

impl<S: Rows> Places for Flattened<S> {
    type Item = S::Item;

    ghost items = { λ v. S.items v.rows };

    ghost same_holder = { λ n a b. S.same_rows a.rows b.rows };

    fn len(&self) -> usize {
        Flattened::len(self)
    }

    fn exchange(&mut self, i: usize, j: usize) {
        self.rows.exchange(i, j);
    }

    ghost same_holder_refl = { Prim.search rules };

    ghost same_holder_trans = { Prim.search rules };
}

impl<S: Rows> Cells for Flattened<S>
where
    S::Item: Copy,
{
    type Item = S::Item;

    ghost items = { λ v. S.items v.rows };

    ghost same_holder = { λ n a b. S.same_rows a.rows b.rows };

    fn len(&self) -> usize {
        Places::len(self)
    }

    fn put(&mut self, i: usize, v: S::Item) {
        self.rows.put(i, v);
    }

    ghost same_holder_refl = { Prim.search rules };

    ghost same_holder_trans = { Prim.search rules };
}
