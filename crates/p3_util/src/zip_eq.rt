//! Two iterators of one length as one iterator of pairs.
ghost use Rattle.std.specs.Prelude.{◌≡◌, MatchResult, IfOk, IfSome, Some};
ghost use Rattle.std.specs.Iterator.{size, MakesProgress, UpTo};
ghost use Rattle.std.specs.Iterator.SizeHint.{IsWithinCount};
ghost use Rattle.p3_util.specs.ZipEq.{HasTrueLength, zip_eq_first, zip_eq_second, zip_eq_left, zip_eq_steps, AskedRuns, PairsRuns};

use std::iter::FusedIterator;

/// Pairs the items of `a` and `b` in order, or returns `err` if their lengths differ.
pub fn zip_eq<A, B, Error>(a: A, b: B, err: Error) -> Result<ZipEq<A::IntoIter, B::IntoIter>, Error>
where
    A: IntoIterator,
    A::IntoIter: ExactSizeIterator,
    A::Item: Drop,
    B: IntoIterator,
    B::IntoIter: ExactSizeIterator,
    B::Item: Drop,
    Error: Drop,
    ensures lengths { (i : A.IntoIter) × (j : B.IntoIter)
        × A.into_iter_gives a i × B.into_iter_gives b j
        × (let same = size (A.IntoIter.remaining i) ≡ size (B.IntoIter.remaining j) in
        MatchResult result
        (λ z. same × (zip_eq_first z ≡ i) × (zip_eq_second z ≡ j))
        (λ e. (e ≡ err) × ¬ same)) }
    ensures runs { IfOk result (PairsRuns A.IntoIter.next_gives B.IntoIter.next_gives) }

    // The clause `runs`, with all calls of `next` on both iterators. It lets the proof search of a caller find the list
    // of the pairs.
    ensures asked { IfOk result (AskedRuns A.IntoIter.next_gives B.IntoIter.next_gives) }

    // If the lengths that both iterators state are true, the length that the pairs state is true.
    ensures length { IfOk result (λ z.
        HasTrueLength A.IntoIter.next_gives A.IntoIter.remaining (zip_eq_first z)
        → HasTrueLength B.IntoIter.next_gives B.IntoIter.remaining (zip_eq_second z)
        → HasTrueLength (zip_eq_steps A.IntoIter.next_gives B.IntoIter.next_gives)
        (zip_eq_left A.IntoIter.remaining) z) }
{
    let first = a.into_iter();
    let second = b.into_iter();
    if first.len() != second.len() {
        return Err(err);
    }
    Ok(ZipEq { first, second })
}

/// The iterator that [`zip_eq`] returns.
#[derive(Clone, Debug, Drop)]
#[must_use = "iterators are lazy and do nothing unless consumed"]
pub struct ZipEq<A, B> {
    first: A,
    second: B,
}

impl<A: ExactSizeIterator, B: ExactSizeIterator> ZipEq<A, B>
where
    A::Item: Drop,
    B::Item: Drop,
{
    /// Calls `next` of the first iterator, and then `next` of the second one.
    #[inline(always)]
    pub(crate) fn next_of_each(&mut self) -> (Option<A::Item>, Option<B::Item>)
        requires first_can { A.can_next (zip_eq_first self.old) }
        requires second_can { B.can_next (zip_eq_second self.old) }
        ensures first { A.next_gives (zip_eq_first self.old) result.0 (zip_eq_first self.new) }
        ensures first_goes { MakesProgress A.can_next A.remaining (zip_eq_first self.old) result.0 (zip_eq_first self.new) }
        ensures second { B.next_gives (zip_eq_second self.old) result.1 (zip_eq_second self.new) }
        ensures second_goes { MakesProgress B.can_next B.remaining (zip_eq_second self.old) result.1 (zip_eq_second self.new) }
    {
        let x = self.first.next();
        let y = self.second.next();
        (x, y)
    }
}

impl<A: ExactSizeIterator, B: ExactSizeIterator> Iterator for ZipEq<A, B>
where
    A::Item: Drop,
    B::Item: Drop,
{
    type Item = (A::Item, B::Item);

    ghost can_next = { λ z. A.can_next (zip_eq_first z) × B.can_next (zip_eq_second z) };

    ghost next_gives = { zip_eq_steps A.next_gives B.next_gives };

    ghost remaining = { zip_eq_left A.remaining };

    fn next(&mut self) -> Option<(A::Item, B::Item)> {
        let (x, y) = self.next_of_each();
        match (x, y) {
            (Some(x), Some(y)) => Some((x, y)),
            _ => None,
        }
    }

    fn size_hint(&self) -> (usize, Option<usize>)
        ensures lower { IsWithinCount result.0 (zip_eq_left A.remaining self.now) }
        ensures upper { IfSome result.1 (UpTo (zip_eq_left A.remaining self.now)) }
        ensures exact { let left = size (zip_eq_left A.remaining self.now) in
            (result.0 ≡ left) × (result.1 ≡ Some left) }
    {
        let len = self.len();
        (len, Some(len))
    }
}

impl<A: ExactSizeIterator, B: ExactSizeIterator> ExactSizeIterator for ZipEq<A, B>
where
    A::Item: Drop,
    B::Item: Drop,
{
    fn len(&self) -> usize {
        self.first.len()
    }
}

impl<A: ExactSizeIterator + FusedIterator, B: ExactSizeIterator + FusedIterator> FusedIterator
    for ZipEq<A, B>
where
    A::Item: Drop,
    B::Item: Drop,
{}
