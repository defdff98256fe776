//! The iterator over the items of a view.

ghost use Rattle.std.specs.Prelude.{◌≡◌, List, length, Some, IfSome};
ghost use Rattle.std.specs.Iterator.{item_count, UpTo};
ghost use Rattle.std.specs.Map.Iter.{TakesFirst, ShowsInOrder, deref};
ghost use Rattle.std.specs.Iterator.SizeHint.{IsWithinCount};
ghost use Rattle.std.specs.Slice.Iter.{iter_rest};

use std::marker::Model;
use std::slice::Iter;

/// An iterator over references to the items of a view, in order. A contract sees it as the list of the items that are
/// left.
#[derive(Drop)]
pub struct BaseIter<'a, Base> {
    rest: Iter<'a, Base>,
}

impl<'a, Base> Model for BaseIter<'a, Base> {
    ghost Value = { List Base };

    ghost view = { λ s. iter_rest s.rest };
}

impl<'a, Base> BaseIter<'a, Base> {
    /// An iterator over the items of `items`, in order.
    pub(super) fn new(items: &'a [Base]) -> Self
        ensures rest { result ≡ items.now }
        ensures runs { ShowsInOrder (deref {X = Base}) }
    {
        BaseIter { rest: items.iter() }
    }
}

impl<'a, Base> Iterator for BaseIter<'a, Base> {
    type Item = &'a Base;

    ghost next_gives = { TakesFirst (deref {X = Base}) };

    ghost remaining = { item_count (λ s. s) };

    fn next(&mut self) -> Option<&'a Base> {
        self.rest.next()
    }

    /// The number of items that are left, as the lower and as the upper bound.
    fn size_hint(&self) -> (usize, Option<usize>)
        ensures lower { IsWithinCount result.0 (item_count (λ s. s) self.now) }
        ensures upper { IfSome result.1 (UpTo (item_count (λ s. s) self.now)) }
        ensures left { result.0 ≡ length (self.now) }
        ensures twice { result.1 ≡ Some result.0 }
    {
        let left = self.len();
        (left, Some(left))
    }
}

impl<'a, Base> ExactSizeIterator for BaseIter<'a, Base> {
    /// The number of items that are left.
    fn len(&self) -> usize {
        self.rest.len()
    }
}
