//! The row and column of item `i` of all rows, and the number of items.

ghost use Rattle.std.specs.Prelude.{◌≡◌, ◌+◌, ◌*◌, ◌/◌, ◌%◌, ◌^◌, ◌<◌, IsTrue, length, take};
ghost use Rattle.p3_util.specs.Flat.{IsFlat, countable_items, flat};
ghost use Rattle.p3_util.specs.Pieces.{pieces};

/// The items of all rows, or no items if a `usize` cannot count them.
pub(super) fn countable<T, const N: usize>(rows: &[[T; N]]) -> &[T]
    ensures items { result.now ≡ countable_items rows.now }
    ensures fits { 0 < length result.now → length rows.now * N < 2 ^ 64 }
    ensures len { 0 < length result.now → length result.now ≡ length rows.now * N }
{
    let most = usize::MAX / N.max(1);
    if rows.len() <= most {
        return rows.as_flattened();
    }
    // More than `most` rows of `N` items have more items than a `usize` can count.
    prove!(each_in_its_row(rows));
    rows[..0].as_flattened()
}

/// The number of items of a row.
#[inline(always)]
pub(super) fn width_of<T, const N: usize>(row: &[T; N]) -> usize
    ensures width { result ≡ N }
    ensures row { length row.now ≡ N }
{
    row.len()
}

/// Shows the checker that item `i` of all rows is item `i % N` of row `i / N`. It knows that a row has `N` items only
/// once the code names that row, which the loop does. Only a `prove!` calls this, and the compiler removes it.
#[inline(always)]
pub(super) fn each_in_its_row<T, const N: usize>(rows: &[[T; N]]) -> bool
    ensures yes { IsTrue result }
    ensures places { IsFlat N rows.now (flat rows.now) }
    ensures rows { 0 < N → pieces N (flat rows.now) ≡ rows.now }
{
    for r in 0..rows.len() {
        let _ = width_of(&rows[r]);
    }
    true
}

/// The row that has item `i` of all rows, and the item's index in that row.
#[tactic(auto, using(std::proofs::lemmas::Grind::common_steps))]
#[inline(always)]
pub(super) fn place_of<T, const N: usize>(rows: &[[T; N]], i: usize) -> (usize, usize)
    requires { i < length (countable_items rows.now) }
    ensures row { result.0 < length rows.now }
    ensures place { result.1 < N }
    ensures before { length (flat (take result.0 rows.now)) ≡ result.0 * N }
    ensures item { i ≡ result.0 * N + result.1 }
    ensures is { result ≡ (i / N, i % N) }
{
    prove!(i < countable(rows).len());
    let (row, place) = (i / N, i % N);
    prove!(rows[..row].as_flattened().len() <= i);
    (row, place)
}
