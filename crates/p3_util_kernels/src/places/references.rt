//! References to holders. Such a reference is a holder too: each step and each read is made by the holder behind the
//! reference.

ghost use Rattle.std.specs.Prelude.{◌≡◌};
ghost use Rattle.std.proofs.Common.{rules};

use crate::places::{Cells, Places, Source};

/// The holder behind the reference makes the exchanges.
impl<S: Places> Places for &mut S {
    type Item = S::Item;

    ghost items = { λ m. S.items m.now };

    ghost same_holder = { λ n a b. (a.ghost_name ≡ b.ghost_name) × S.same_holder n a.now b.now };

    fn len(&self) -> usize {
        S::len(self)
    }

    #[inline(always)]
    fn exchange(&mut self, i: usize, j: usize) {
        S::exchange(self, i, j);
    }

    ghost same_holder_refl = { Prim.search rules };

    ghost same_holder_trans = { Prim.search rules };
}

/// The holder behind the reference makes the puts.
impl<C: Cells> Cells for &mut C {
    type Item = C::Item;

    ghost items = { λ m. C.items m.now };

    ghost same_holder = { λ n a b. (a.ghost_name ≡ b.ghost_name) × C.same_holder n a.now b.now };

    fn len(&self) -> usize {
        C::len(self)
    }

    #[inline(always)]
    fn put(&mut self, i: usize, v: Self::Item) {
        C::put(self, i, v);
    }

    ghost same_holder_refl = { Prim.search rules };

    ghost same_holder_trans = { Prim.search rules };
}

/// The items are read from the source behind the reference.
impl<R: Source> Source for &R {
    type Item = R::Item;

    ghost items = { λ m. R.items m.now };

    fn len(&self) -> usize {
        R::len(self)
    }

    #[inline(always)]
    fn at(&self, i: usize) -> Self::Item {
        R::at(self, i)
    }
}
