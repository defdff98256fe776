//! A map that keeps its pairs in the order of insertion. It finds a key by comparing it with each stored key.
ghost use Rattle.std.specs.Prelude.{◌≡◌, ◌==◌, List, ◌∷◌, ◌++◌, [], None, Some, IfOk, IfErr, OnOk, OnErr, IsSome, IsOk, position, length};
ghost use Rattle.std.proofs.Common.{rules};
ghost use Rattle.std.specs.Cmp.Lexicographic.{pointwise};
ghost use Rattle.std.specs.Cmp.Rules.{comparing};
ghost use Rattle.std.specs.Ordering.{eq_of_both, on};
ghost use Rattle.std.specs.Option.{option_copied, option_copied_mut, UnwrapsOrElse};
ghost use Rattle.std.specs.Iterator.Runs.{WholeRun};
ghost use Rattle.std.specs.Map.{keys_of, values_of};
ghost use Rattle.std.specs.Map.Iter.{ShowsInOrder, deref};
ghost use Rattle.std.specs.Iterator.{IsFiniteIterable, Drains, YieldsThen};
ghost use Rattle.std.specs.Borrow.{sem};
ghost use Rattle.p3_util.specs.LinearMap.{value_at, with_value, put, put_all, HasDistinctKeys};
ghost use Rattle.p3_util.specs.MapIter.{OwnsInOrder, LendsInOrder};
ghost use Rattle.p3_util.specs.MapLends.{lends_value, lends_put};

mod iter;

use crate::NoRoom;
pub use iter::{Iter, Keys, Values};
use std::alloc::{AllocError, Global};
use std::marker::Model;
use std::mem::replace;
use std::ops::Index;
use std::{slice, vec};

/// A map in insertion order, for few keys. A lookup compares one stored key after the other with the given one, as in
/// `stored == given`.
#[derive(Debug, Drop)]
pub struct LinearMap<K: Eq, V> {
    pairs: Vec<(K, V)>,
}

impl<K: Eq, V> Model for LinearMap<K, V> {
    ghost use Rattle.std.specs.Prelude.{List};
    ghost use Rattle.p3_util.specs.LinearMap.{HasDistinctKeys};

    ghost Value = { List (K × V) };

    ghost view = { λ m. m.pairs.items };

    ghost invariant = { λ m. HasDistinctKeys K.eq m.pairs.items };
}

impl<K: Eq, V> LinearMap<K, V> {
    /// An empty map. It allocates nothing until the first pair is inserted.
    pub fn new(alloc: Global) -> Self
        ensures { result ≡ [] }
    {
        LinearMap {
            pairs: Vec::new(alloc),
        }
    }

    /// An empty map with room for `capacity` pairs.
    pub fn with_capacity(alloc: Global, capacity: usize) -> Result<Self, AllocError>
        ensures empty { IfOk result (λ m. m ≡ []) }
        ensures needs_none { capacity ≡ 0 → IsOk result }
    {
        Ok(LinearMap {
            pairs: Vec::with_capacity(alloc, capacity)?,
        })
    }

    /// The number of pairs.
    pub fn len(&self) -> usize
        ensures len { result ≡ length self.now }
        ensures distinct { HasDistinctKeys K.eq self.now }
    {
        self.pairs.len()
    }

    /// Whether there is no pair.
    pub fn is_empty(&self) -> bool
        ensures { result ≡ (length self.now == 0) }
    {
        self.pairs.is_empty()
    }

    /// The values, in order.
    pub fn values(&self) -> Values<'_, K, V>
        ensures rest { result ≡ values_of self.now }
        ensures runs { ShowsInOrder (deref {X = V}) }
    {
        Values {
            pairs: self.pairs.iter(),
        }
    }

    /// The keys, in order.
    pub fn keys(&self) -> Keys<'_, K, V>
        ensures rest { result ≡ keys_of self.now }
        ensures runs { ShowsInOrder (deref {X = K}) }
    {
        Keys {
            pairs: self.pairs.iter(),
        }
    }

    /// The pairs, in order.
    pub fn iter(&self) -> Iter<'_, K, V>
        ensures rest { result ≡ self.now }
        ensures runs { ShowsInOrder (deref {X = K × V}) }
    {
        Iter {
            pairs: self.pairs.iter(),
        }
    }

    /// The index of the pair whose key equals `k`, or `None` if there is no such pair.
    fn place_of(&self, k: &K) -> Option<usize>
        ensures { result ≡ position (λ e. K.eq k.now e.0) self.now }
    {
        self.pairs.iter().position(|pair| pair.0 == *k)
    }

    /// The value of the pair whose key equals `k`, or `None` if there is no such pair.
    pub fn get(&self, k: &K) -> Option<&V>
        ensures { option_copied result ≡ value_at K.eq self.now k.now }
    {
        let place = self.place_of(k)?;
        Some(&self.pairs[place].1)
    }

    /// A mutable reference to the value of the pair whose key equals `k`, or `None` if there is no such pair. A write
    /// changes only that value.
    pub fn get_mut(&mut self, k: &K) -> Option<&mut V>
        ensures* writes_back { sem 𝓛 (lends_value K.row V.row K.eq self.entry k.now result) }
        ensures value { option_copied_mut result ≡ value_at K.eq self.old k.now }
    {
        let place = self.place_of(k)?;
        Some(&mut self.pairs[place].1)
    }
}

impl<K: Eq + Drop, V> LinearMap<K, V> {
    /// Gives `k` the value `v`.
    ///
    /// A known key keeps its place and its stored spelling: its old value is returned, and `k` is dropped. A new pair
    /// goes to the end. Only a new pair can need memory. If there is none, `NoRoom` returns the pair, and the map is
    /// unchanged.
    #[inline(always)]
    pub fn insert(&mut self, k: K, v: V) -> Result<Option<V>, NoRoom<(K, V)>>
        ensures old { IfOk result (λ old. old ≡ value_at K.eq self.old k) }
        ensures put { OnOk result (self.new ≡ put K.eq self.old k v) }
        ensures given { IfErr result (λ e. e.given ≡ (k, v)) }
        ensures unchanged { OnErr result (self.new ≡ self.old) }
        ensures refuses_new { OnErr result (value_at K.eq self.old k ≡ None) }
        ensures known { IsSome (value_at K.eq self.old k) → IsOk result }
        ensures known_keys { IsSome (value_at K.eq self.old k)
            → keys_of self.new ≡ keys_of self.old }
        ensures distinct { HasDistinctKeys K.eq self.new }
    {
        if let Some(place) = self.place_of(&k) {
            return Ok(Some(replace(&mut self.pairs[place].1, v)));
        }
        let Ok(()) = self.pairs.reserve(1) else {
            return Err(NoRoom { given: (k, v) });
        };
        self.pairs.push_reserved((k, v));
        Ok(None)
    }

    /// A mutable reference to the value of `k`.
    ///
    /// For a new key, the call first makes room, and then adds the value that `f` returns at the end. For a known key
    /// `f` is not called. Only a new key can need memory. If there is none, `NoRoom` returns the key, and the map is
    /// unchanged.
    pub fn get_or_insert_with<F: FnOnce() -> V>(&mut self, k: K, f: F) -> Result<&mut V, NoRoom<K>>
        requires { value_at K.eq self.old k ≡ None → F.pre f }
        ensures* writes_back { sem 𝓛 (lends_put K.row V.row K.eq self.entry k result) }
        ensures value { IfOk result (λ v. UnwrapsOrElse (value_at K.eq self.old k)
            (F.post f) v.now) }
        ensures given { IfErr result (λ e. e.given ≡ k) }
        ensures refuses_new { OnErr result (value_at K.eq self.old k ≡ None) }
        ensures known { IsSome (value_at K.eq self.old k) → IsOk result }
    {
        if let Some(place) = self.place_of(&k) {
            return Ok(&mut self.pairs[place].1);
        }
        let last = self.len();
        let Ok(()) = self.pairs.reserve(1) else {
            return Err(NoRoom { given: k });
        };
        self.pairs.push_reserved((k, f()));
        Ok(&mut self.pairs[last].1)
    }
}

impl<K: Eq + Drop, V: Drop> LinearMap<K, V> {
    /// The map of the pairs of `it`, inserted in order. If memory runs out, the pairs that were taken are dropped.
    #[tactic(auto, using(std::proofs::lemmas::Grind::common_steps))]
    pub fn try_from_iter<I: IntoIterator<Item = (K, V)>>(
        alloc: Global,
        it: I,
    ) -> Result<Self, AllocError>
        requires { IsFiniteIterable I.into_iter_gives I.IntoIter.can_next I.IntoIter.remaining it }
        ensures pairs { IfOk result
            (λ m. (from : I.IntoIter) × (xs : List (K × V)) × I.into_iter_gives it from
            × Drains I.IntoIter.next_gives from xs × (m ≡ put_all K.eq [] xs)) }

        // The pair x that was refused has a new key. The pairs xs came before it.
        ensures refuses_new { OnErr result ((from : I.IntoIter) × (xs : List (K × V)) × (x : K × V)
            × (rest : I.IntoIter)
            × I.into_iter_gives it from × YieldsThen I.IntoIter.next_gives from xs (Some x) rest
            × (value_at K.eq (put_all K.eq [] xs) x.0 ≡ None)) }

        // The clause `pairs` for one run of `next`. The proof for a chain of iterators needs this form.
        ensures runs { IfOk result
            (λ m. (from : I.IntoIter) × I.into_iter_gives it from
            × WholeRun I.IntoIter.next_gives from (λ run. m ≡ put_all K.eq [] run.items)) }
    {
        let mut map = LinearMap::new(alloc);
        for (k, v) in it {
            if map.insert(k, v).is_err() {
                return Err(AllocError);
            }
        }
        Ok(map)
    }
}

/// The value of the pair whose key equals `k`. There must be such a pair, which `get` checks.
impl<'q, K: Eq, V> Index<&'q K> for LinearMap<K, V> {
    type Output = V;

    ghost can_index = { λ m k. IsSome (value_at K.eq m k.now) };

    ghost index_gives = { λ m k v. value_at K.eq m k.now ≡ Some v };

    fn index(&self, k: &'q K) -> &V {
        self.get(k).unwrap()
    }
}

/// Two maps are equal if they have equal pairs in the same order.
impl<K: Eq, V: PartialEq> PartialEq for LinearMap<K, V> {
    ghost eq = { pointwise (eq_of_both (on (λ x. x.0) K.eq) (on (λ x. x.1) V.eq)) };

    ghost laws = { Prim.search (comparing, rules) };

    fn eq(&self, other: &Self) -> bool {
        self.pairs == other.pairs
    }
}

impl<K: Eq, V: Eq> Eq for LinearMap<K, V> {
    ghost laws = { Prim.search (comparing, rules) };
}

/// Iterates over the pairs by value, in order.
impl<K: Eq + Drop, V: Drop> IntoIterator for LinearMap<K, V> {
    type Item = (K, V);

    type IntoIter = vec::IntoIter<(K, V)>;

    ghost into_iter_gives = { λ m r. OwnsInOrder m r × HasDistinctKeys K.eq m };

    #[tactic(auto, using(std::proofs::lemmas::Grind::common_steps))]
    fn into_iter(self) -> vec::IntoIter<(K, V)> {
        self.pairs.into_iter()
    }
}

/// Iterates over references to the pairs, in order.
impl<'a, K: Eq, V> IntoIterator for &'a LinearMap<K, V> {
    type Item = &'a (K, V);

    type IntoIter = slice::Iter<'a, (K, V)>;

    ghost into_iter_gives = { λ m r. LendsInOrder m.now r × HasDistinctKeys K.eq m.now };

    fn into_iter(self) -> slice::Iter<'a, (K, V)> {
        self.pairs.as_slice().iter()
    }
}
