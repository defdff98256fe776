//! Two slices seen as one list, which a kernel reorders like any other holder, and callers. In the function that makes
//! a struct of two `&mut`, a proof does not know what is behind both when they end, so `reverse_joined` takes the
//! holder. To use the file elsewhere, copy `count_swaps` and `proofs/JoinedLemmas.antt` too.

ghost use Rattle.std.specs.Prelude.{◌≡◌, ◌+◌, ◌++◌, ◌^◌, ◌<◌, length, swap};
ghost use Rattle.std.proofs.Common.{rules};
ghost use Rattle.p3_util.specs.Reversal.{IsReversal, IsReversible};

use crate::uses::count_swaps;
use p3_util::places::Places;
use std::mem;

/// The items of one slice and then those of another one. When the borrows end, its items are in the two slices.
#[derive(Drop)]
pub struct Joined<'a, F> {
    front: &'a mut [F],
    back: &'a mut [F],
    ghost fits: { length front.now + length back.now < 2 ^ 64 },
}

impl<'a, F> Joined<'a, F> {
    /// Joins two slices. The sum of their lengths must fit in a `usize`.
    pub fn new(front: &'a mut [F], back: &'a mut [F]) -> Self
        requires { length front.old + length back.old < 2 ^ 64 }
        ensures front { result.front ≡ front.entry }
        ensures back { result.back ≡ back.entry }
    {
        Joined { front, back }
    }
}

impl<'a, F> Places for Joined<'a, F> {
    type Item = F;

    ghost items = { λ s. s.front.now ++ s.back.now };

    ghost same_holder = { λ n a b. (a.front.ghost_name ≡ b.front.ghost_name)
        × (a.back.ghost_name ≡ b.back.ghost_name)
        × (length b.front.now ≡ length a.front.now) × (length b.back.now ≡ length a.back.now) };

    fn len(&self) -> usize {
        self.front.len() + self.back.len()
    }

    fn exchange(&mut self, i: usize, j: usize) {
        exchange_in(self.front, self.back, i, j);
    }

    ghost same_holder_refl = { Prim.search rules };

    ghost same_holder_trans = { Prim.search rules };
}

/// Exchanges the items at places `i` and `j` of the list that is `front` and then `back`.
#[tactic(auto, using(crate::proofs::JoinedLemmas::joined_front, crate::proofs::JoinedLemmas::joined_back, crate::proofs::JoinedLemmas::swap_turned))]
fn exchange_in<F>(front: &mut [F], back: &mut [F], i: usize, j: usize)
    requires first { i < length (front.old ++ back.old) }
    requires second { j < length (front.old ++ back.old) }
    ensures front { length front.new ≡ length front.old }
    ensures back { length back.new ≡ length back.old }
    ensures exchanged { front.new ++ back.new ≡ swap (front.old ++ back.old) i j }
{
    let n = front.len();
    if i < n {
        if j < n {
            front.swap(i, j);
        } else {
            exchange_between(front, i, back, j - n);
        }
    } else if j < n {
        exchange_between(front, j, back, i - n);
    } else {
        back.swap(i - n, j - n);
    }
}

/// Exchanges item `i` of `front` and item `j` of `back`.
#[tactic(auto, using(crate::proofs::JoinedLemmas::joined_across))]
fn exchange_between<F>(front: &mut [F], i: usize, back: &mut [F], j: usize)
    requires first { i < length front.old }
    requires second { j < length back.old }
    ensures front { length front.new ≡ length front.old }
    ensures back { length back.new ≡ length back.old }
    ensures exchanged { front.new ++ back.new
        ≡ swap (front.old ++ back.old) i (length front.old + j) }
{
    mem::swap(&mut front[i], &mut back[j]);
}

/// Reverses the list that is the front and then the back by index bits. Each slice keeps its length.
pub fn reverse_joined<F>(joined: &mut Joined<F>)
    requires { IsReversible (length (joined.old.front.now ++ joined.old.back.now)) }
    ensures order { IsReversal (joined.old.front.now ++ joined.old.back.now)
        (joined.new.front.now ++ joined.new.back.now) }
    ensures front { length joined.new.front.now ≡ length joined.old.front.now }
    ensures back { length joined.new.back.now ≡ length joined.old.back.now }
{
    count_swaps(joined);
}
