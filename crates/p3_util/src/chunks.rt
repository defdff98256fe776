//! Iterators that are cut into chunks of a fixed size.
ghost use Rattle.std.specs.Prelude.{◌≡◌, ℕ, ◌+◌, ◌<◌, ◌≤◌, ◌^◌, List, None, false, length, take};
ghost use Rattle.std.specs.Iterator.{IsFinite, IsFiniteIterable, Yields, YieldsThen, size};
ghost use Rattle.std.specs.Iterator.Runs.{WholeRun};
ghost use Rattle.p3_util.specs.PaddedPieces.{padded_source, padded_done, padded_fill, padded_steps, PadsRuns, EndsForGood};
ghost use Rattle.p3_util.specs.Flat.{flat};
ghost use Rattle.p3_util.specs.Pieces.{CallsOnPieces, pieces};

use std::iter::FusedIterator;

/// Calls `func` on each chunk of `BUFLEN` bytes of `input`, in order. The last chunk may be shorter. The chunks joined
/// together are the bytes of `input`.
///
/// The bytes are those before the iterator's first `None`, after which `next` is not called again. The iterator is
/// dropped after the last call of `func`. If `BUFLEN` is 0, there is no chunk, and neither `func` nor `next` is called.
/// `BUFLEN` must be below 2^63, and the length of every array of bytes is.
///
/// ```
/// let mut lengths = vec![];
/// p3_util_proved::apply_to_chunks::<4, _, _>(*b"chunks", |chunk| lengths.push(chunk.len()));
/// assert_eq!(lengths, [4, 2]);
/// ```
pub fn apply_to_chunks<const BUFLEN: usize, I, H>(input: I, mut func: H)
where
    I: IntoIterator<Item = u8>,
    H: FnMut(&[u8]),
    requires fits { BUFLEN < 2 ^ 63 }
    requires finite { 0 < BUFLEN
        → IsFiniteIterable I.into_iter_gives I.IntoIter.can_next I.IntoIter.remaining input }
    requires callable { 0 < BUFLEN → H.IsAlwaysCallable func }
    ensures runs { 0 < BUFLEN → (it : I.IntoIter) × I.into_iter_gives input it
        × WholeRun I.IntoIter.next_gives it (λ p. CallsOnPieces H.FnMut BUFLEN func p.items) }
    ensures joined { 0 < BUFLEN → (items : List ℕ) → flat (pieces BUFLEN items) ≡ items }
{
    let mut iter = input.into_iter();
    if BUFLEN == 0 {
        return;
    }
    let mut buf = [0; BUFLEN];
    loop {
        let len = fill(&mut iter, &mut buf);
        if len == 0 {
            break;
        }
        func(&buf.as_slice()[..len]);
        if len < BUFLEN {
            break;
        }
    }
}

/// Fills `buf` from its start with bytes of `iter`, and returns how many came. If there are fewer than `N`, `iter` has
/// returned `None` after them.
fn fill<const N: usize, I: Iterator<Item = u8>>(iter: &mut I, buf: &mut [u8; N]) -> usize
    requires can { I.can_next iter.old }
    requires finite { IsFinite (I.remaining iter.old) }
    ensures long { length buf.new ≡ N }
    ensures within { result ≤ N }
    ensures full { result ≡ N → Yields I.next_gives iter.old (take result buf.new) iter.new }
    ensures can { result ≡ N → 0 < N → I.can_next iter.new }
    ensures fewer { result ≡ N → IsFinite (I.remaining iter.new)
        × (size (I.remaining iter.new) + N ≤ size (I.remaining iter.old)) }
    ensures short { result < N
        → YieldsThen I.next_gives iter.old (take result buf.new) None iter.new }
{
    let mut len = 0;
    while len < N {
        let Some(byte) = iter.next() else {
            break;
        };
        buf[len] = byte;
        len += 1;
    }
    len
}

/// Cuts the items of `iter` up to its first `None` into arrays of `N` items.
///
/// If `N` does not divide their number, the last array is filled with `default`.
///
/// After that `None`, `next` is not called again. If `N` is 0, there is no array, and `next` is never called.
pub fn iter_array_chunks_padded<T: Copy, const N: usize, I: IntoIterator<Item = T>>(
    iter: I,
    default: T,
) -> ArrayChunksPadded<I::IntoIter, T, N>
    ensures source { I.into_iter_gives iter (padded_source result) }
    ensures fresh { padded_done result ≡ false }
    ensures fill { padded_fill result ≡ default }
    ensures runs { PadsRuns I.IntoIter.next_gives default result }
    ensures ends { EndsForGood (padded_steps {A = T} {n = N} I.IntoIter.next_gives) }
{
    ArrayChunksPadded {
        iter: iter.into_iter(),
        default,
        done: false,
    }
}

/// The iterator that [`iter_array_chunks_padded`] returns.
#[derive(Clone, Debug, Drop)]
#[must_use = "iterators are lazy and do nothing unless consumed"]
pub struct ArrayChunksPadded<I, T, const N: usize> {
    iter: I,
    default: T,
    done: bool,
}

impl<T: Copy, const N: usize, I: Iterator<Item = T>> Iterator for ArrayChunksPadded<I, T, N> {
    ghost use Rattle.p3_util.specs.PaddedPieces.{padded_can, padded_steps, padded_left};

    type Item = [T; N];

    ghost can_next = { padded_can I.can_next };

    ghost next_gives = { padded_steps I.next_gives };

    ghost remaining = { padded_left I.remaining };

    #[inline]
    fn next(&mut self) -> Option<[T; N]> {
        if self.done {
            return None;
        }
        let mut chunk = [self.default; N];
        let mut len = 0;
        while len < N {
            let Some(item) = self.iter.next() else {
                self.done = true;
                break;
            };
            chunk[len] = item;
            len += 1;
        }
        if len == 0 { None } else { Some(chunk) }
    }

    fn size_hint(&self) -> (usize, Option<usize>) {
        (0, None)
    }
}

impl<T: Copy, const N: usize, I: Iterator<Item = T>> FusedIterator for ArrayChunksPadded<I, T, N> {}
