//! The iterators that lend the pairs, the keys or the values of a map, in its order. A contract sees each of them as
//! the list of the items that are left.
ghost use Rattle.std.specs.Prelude.{◌≡◌, ⊤, List, Some, length, IfSome};
ghost use Rattle.std.specs.Iterator.{item_count, at_most, UpTo};
ghost use Rattle.std.specs.Iterator.SizeHint.{IsWithinCount};
ghost use Rattle.std.specs.Map.{keys_of, values_of};
ghost use Rattle.std.specs.Map.Iter.{TakesFirst, TakesLast, deref};
ghost use Rattle.std.specs.Slice.Iter.{iter_rest};

use std::alloc::AllocError;
use std::iter::FusedIterator;
use std::marker::Model;
use std::slice;

/// The pairs of a map, in order.
#[derive(Debug, Drop)]
#[must_use = "iterators are lazy and do nothing unless consumed"]
pub struct Iter<'a, K, V> {
    pub(super) pairs: slice::Iter<'a, (K, V)>,
}

impl<'a, K, V> Model for Iter<'a, K, V> {
    ghost Value = { List (K × V) };

    ghost view = { λ s. iter_rest s.pairs };
}

/// A clone has the same pairs left. It allocates nothing.
impl<'a, K, V> Clone for Iter<'a, K, V> {
    ghost is_clone = { λ s r. r ≡ s };

    ghost is_infallible = { λ _. ⊤ };

    fn clone(&self) -> Result<Iter<'a, K, V>, AllocError> {
        Ok(Iter {
            pairs: self.pairs.clone()?,
        })
    }
}

impl<'a, K, V> Iterator for Iter<'a, K, V> {
    type Item = &'a (K, V);

    ghost next_gives = { TakesFirst (deref {X = K × V}) };

    ghost remaining = { item_count (λ s. s) };

    #[inline(always)]
    fn next(&mut self) -> Option<&'a (K, V)> {
        self.pairs.next()
    }

    /// The number of pairs that are left, as the lower and as the upper bound.
    fn size_hint(&self) -> (usize, Option<usize>)
        ensures lower { IsWithinCount result.0 (at_most (length self.now)) }
        ensures upper { IfSome result.1 (UpTo (at_most (length self.now))) }
        ensures exact { result ≡ (length self.now, Some (length self.now)) }
    {
        let pairs = self.len();
        (pairs, Some(pairs))
    }
}

impl<'a, K, V> DoubleEndedIterator for Iter<'a, K, V> {
    ghost next_back_gives = { TakesLast (deref {X = K × V}) };

    fn next_back(&mut self) -> Option<&'a (K, V)> {
        self.pairs.next_back()
    }
}

impl<'a, K, V> ExactSizeIterator for Iter<'a, K, V> {
    /// The number of pairs that are left.
    fn len(&self) -> usize {
        self.pairs.len()
    }
}

impl<'a, K, V> FusedIterator for Iter<'a, K, V> {}

/// The keys of a map, in order.
#[derive(Debug, Drop)]
#[must_use = "iterators are lazy and do nothing unless consumed"]
pub struct Keys<'a, K, V> {
    pub(super) pairs: slice::Iter<'a, (K, V)>,
}

impl<'a, K, V> Model for Keys<'a, K, V> {
    ghost Value = { List K };

    ghost view = { λ s. keys_of (iter_rest s.pairs) };
}

/// A clone has the same keys left. It allocates nothing.
impl<'a, K, V> Clone for Keys<'a, K, V> {
    ghost is_clone = { λ s r. r ≡ s };

    ghost is_infallible = { λ _. ⊤ };

    fn clone(&self) -> Result<Keys<'a, K, V>, AllocError> {
        Ok(Keys {
            pairs: self.pairs.clone()?,
        })
    }
}

impl<'a, K, V> Iterator for Keys<'a, K, V> {
    type Item = &'a K;

    ghost next_gives = { TakesFirst (deref {X = K}) };

    ghost remaining = { item_count (λ s. s) };

    #[inline(always)]
    fn next(&mut self) -> Option<&'a K> {
        self.pairs.next().map(|pair| &pair.0)
    }

    /// The number of keys that are left, as the lower and as the upper bound.
    fn size_hint(&self) -> (usize, Option<usize>)
        ensures lower { IsWithinCount result.0 (at_most (length self.now)) }
        ensures upper { IfSome result.1 (UpTo (at_most (length self.now))) }
        ensures exact { result ≡ (length self.now, Some (length self.now)) }
    {
        let keys = self.len();
        (keys, Some(keys))
    }
}

impl<'a, K, V> DoubleEndedIterator for Keys<'a, K, V> {
    ghost next_back_gives = { TakesLast (deref {X = K}) };

    fn next_back(&mut self) -> Option<&'a K> {
        self.pairs.next_back().map(|pair| &pair.0)
    }
}

impl<'a, K, V> ExactSizeIterator for Keys<'a, K, V> {
    /// The number of keys that are left.
    fn len(&self) -> usize {
        self.pairs.len()
    }
}

impl<'a, K, V> FusedIterator for Keys<'a, K, V> {}

/// The values of a map, in order.
#[derive(Debug, Drop)]
#[must_use = "iterators are lazy and do nothing unless consumed"]
pub struct Values<'a, K, V> {
    pub(super) pairs: slice::Iter<'a, (K, V)>,
}

impl<'a, K, V> Model for Values<'a, K, V> {
    ghost Value = { List V };

    ghost view = { λ s. values_of (iter_rest s.pairs) };
}

/// A clone has the same values left. It allocates nothing.
impl<'a, K, V> Clone for Values<'a, K, V> {
    ghost is_clone = { λ s r. r ≡ s };

    ghost is_infallible = { λ _. ⊤ };

    fn clone(&self) -> Result<Values<'a, K, V>, AllocError> {
        Ok(Values {
            pairs: self.pairs.clone()?,
        })
    }
}

impl<'a, K, V> Iterator for Values<'a, K, V> {
    type Item = &'a V;

    ghost next_gives = { TakesFirst (deref {X = V}) };

    ghost remaining = { item_count (λ s. s) };

    #[inline(always)]
    fn next(&mut self) -> Option<&'a V> {
        self.pairs.next().map(|pair| &pair.1)
    }

    /// The number of values that are left, as the lower and as the upper bound.
    fn size_hint(&self) -> (usize, Option<usize>)
        ensures lower { IsWithinCount result.0 (at_most (length self.now)) }
        ensures upper { IfSome result.1 (UpTo (at_most (length self.now))) }
        ensures exact { result ≡ (length self.now, Some (length self.now)) }
    {
        let values = self.len();
        (values, Some(values))
    }
}

impl<'a, K, V> DoubleEndedIterator for Values<'a, K, V> {
    ghost next_back_gives = { TakesLast (deref {X = V}) };

    fn next_back(&mut self) -> Option<&'a V> {
        self.pairs.next_back().map(|pair| &pair.1)
    }
}

impl<'a, K, V> ExactSizeIterator for Values<'a, K, V> {
    /// The number of values that are left.
    fn len(&self) -> usize {
        self.pairs.len()
    }
}

impl<'a, K, V> FusedIterator for Values<'a, K, V> {}
