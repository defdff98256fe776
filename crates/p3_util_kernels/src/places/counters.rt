//! Counters: holders around another holder, which count its exchanges or its puts.
//!
//! A counter is itself a holder, as [`places`](crate::places) explains. The count rises by 1 with each step that the
//! holder inside makes. No other module can reach the fields of a counter. So whoever has one can change the list
//! inside only by steps that are counted.

ghost use Rattle.std.specs.Prelude.{◌≡◌, ◌^◌, ◌<◌, length, swap, slice_set};
ghost use Rattle.std.proofs.Common.{rules};
ghost use Rattle.p3_util_kernels.specs.Steps.{counted};

use crate::places::{Cells, Places, len_fits};

/// A counter around a holder of places. It counts exchanges. The count stops at `u128::MAX`.
#[derive(Debug, Drop)]
pub struct Swaps<S> {
    holder: S,
    count: u128,
    pub ghost count_fits: { count < 2 ^ 128 },
}

impl<S: Places> Swaps<S> {
    /// A counter around `holder` that starts at 0.
    pub fn new(holder: S) -> Self
        ensures holder { result.holder ≡ holder }
        ensures count { result.count ≡ 0 }
        ensures len_fits { length (S.items holder) < 2 ^ 64 }
    {
        len_fits(holder.len());
        Swaps { holder, count: 0 }
    }

    /// The number of places.
    pub fn len(&self) -> usize
        ensures { result ≡ length (S.items self.now.holder) }
    {
        self.holder.len()
    }

    /// Makes one swap: the holder inside exchanges the items at places `i` and `j`, and the counter counts this.
    #[inline(always)]
    pub fn swap(&mut self, i: usize, j: usize)
        requires first { i < length (S.items self.old.holder) }
        requires second { j < length (S.items self.old.holder) }
        ensures exchanged { S.items self.new.holder ≡ swap (S.items self.old.holder) i j }
        ensures count { self.new.count ≡ counted self.old.count 1 }
        ensures holder { S.same_holder 1 self.old.holder self.new.holder }
    {
        self.holder.exchange(i, j);
        self.count = self.count.saturating_add(1);
    }

    /// The number of swaps so far, at most `u128::MAX`.
    pub fn swaps(&self) -> u128
        ensures { result ≡ self.now.count }
    {
        self.count
    }

    /// Returns the holder inside, without the count.
    pub fn into_inner(self) -> S
        ensures { result ≡ self.holder }
    {
        let Swaps { holder, count: _ } = self;
        holder
    }
}

/// A counter around a holder of cells. It counts puts. The count stops at `u128::MAX`.
#[derive(Debug, Drop)]
pub struct Writes<C> {
    holder: C,
    count: u128,
    pub ghost count_fits: { count < 2 ^ 128 },
}

impl<C: Cells> Writes<C> {
    /// A counter around `holder` that starts at 0.
    pub fn new(holder: C) -> Self
        ensures holder { result.holder ≡ holder }
        ensures count { result.count ≡ 0 }
        ensures len_fits { length (C.items holder) < 2 ^ 64 }
    {
        len_fits(holder.len());
        Writes { holder, count: 0 }
    }

    /// The number of cells.
    pub fn len(&self) -> usize
        ensures { result ≡ length (C.items self.now.holder) }
    {
        self.holder.len()
    }

    /// Makes one write: the holder inside puts `v` into cell `i`, and the counter counts this.
    #[inline(always)]
    pub fn put(&mut self, i: usize, v: C::Item)
        requires { i < length (C.items self.old.holder) }
        ensures written { C.items self.new.holder ≡ slice_set (C.items self.old.holder) i v }
        ensures count { self.new.count ≡ counted self.old.count 1 }
        ensures holder { C.same_holder 1 self.old.holder self.new.holder }
    {
        self.holder.put(i, v);
        self.count = self.count.saturating_add(1);
    }

    /// The number of writes so far, at most `u128::MAX`.
    pub fn writes(&self) -> u128
        ensures { result ≡ self.now.count }
    {
        self.count
    }

    /// Returns the holder inside, without the count.
    pub fn into_inner(self) -> C
        ensures { result ≡ self.holder }
    {
        let Writes { holder, count: _ } = self;
        holder
    }
}

/// The holder inside makes each exchange, and the counter counts it.
impl<S: Places> Places for Swaps<S> {
    type Item = S::Item;

    ghost items = { λ m. S.items m.holder };

    ghost same_holder = { λ n a b. (b.count ≡ counted a.count n)
        × S.same_holder n a.holder b.holder };

    fn len(&self) -> usize {
        Swaps::len(self)
    }

    #[inline(always)]
    fn exchange(&mut self, i: usize, j: usize) {
        Swaps::swap(self, i, j);
    }

    ghost same_holder_refl = { Prim.search rules };

    ghost same_holder_trans = { Prim.search rules };
}

/// The holder inside makes each put, and the counter counts it.
impl<C: Cells> Cells for Writes<C> {
    type Item = C::Item;

    ghost items = { λ m. C.items m.holder };

    ghost same_holder = { λ n a b. (b.count ≡ counted a.count n)
        × C.same_holder n a.holder b.holder };

    fn len(&self) -> usize {
        Writes::len(self)
    }

    #[inline(always)]
    fn put(&mut self, i: usize, v: Self::Item) {
        Writes::put(self, i, v);
    }

    ghost same_holder_refl = { Prim.search rules };

    ghost same_holder_trans = { Prim.search rules };
}
