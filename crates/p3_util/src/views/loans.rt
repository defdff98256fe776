//! Mutable references to one item of the rows, and what the rows become when such a reference ends.
//!
//! The checker follows neither a loan from an array to one of its items nor a loan of a loan. So two functions here are
//! proved by hand, and so is `item_mut`, which lends an item from behind a view.

ghost use Rattle.std.specs.Prelude.{◌≡◌, ◌<◌, [], length, slice_get, slice_index_or};
ghost use Rattle.std.specs.Borrow.{sem};
ghost use Rattle.std.specs.Option.{option_copied_mut};
ghost use Rattle.p3_util.specs.Flat.{countable_items};
ghost use Rattle.p3_util.specs.RowLends.{lends_item_of_row, lends_item_of_rows, lends_place, lends_row};

use super::places::{countable, place_of};

/// A mutable reference to item `i` of all rows, or `None` if `i` is out of bounds.
pub(super) fn item_of_rows<T, const N: usize>(rows: &mut [[T; N]], i: usize) -> Option<&mut T>
    ensures* writes_back { sem 𝓛 (lends_item_of_rows T.row N rows.entry i result) }
    ensures item { option_copied_mut result ≡ slice_get (countable_items rows.old) i }
{
    if i < countable(rows).len() {
        let (r, c) = place_of(rows, i);
        Some(item_at(rows, r, c))
    } else {
        None
    }
}

/// A mutable reference to item `c` of row `r`.
fn item_at<T, const N: usize>(rows: &mut [[T; N]], r: usize, c: usize) -> &mut T
    requires row { r < length rows.old }
    requires place { c < N }
    ensures* writes_back { sem 𝓛 (lends_place T.row N rows.entry r c result) }
    ensures item { result.now ≡ slice_index_or (slice_index_or rows.old r []) c result.now }
    ensures len { length (slice_index_or rows.old r []) ≡ N }
{
    item_of_row(row_of(rows, r), c)
}

/// A mutable reference to row `r`.
fn row_of<R>(rows: &mut [R], r: usize) -> &mut R
    requires { r < length rows.old }
    ensures* writes_back { sem 𝓛 (lends_row R.row rows.entry r result) }
    ensures row { result.now ≡ slice_index_or rows.old r result.now }
{
    &mut rows[r]
}

/// A mutable reference to item `c` of a row.
fn item_of_row<T, const N: usize>(row: &mut [T; N], c: usize) -> &mut T
    requires { c < N }
    ensures* writes_back { sem 𝓛 (lends_item_of_row T.row N row.entry c result) }
    ensures item { result.now ≡ slice_index_or row.old c result.now }
    ensures len { length row.old ≡ N }
{
    &mut row[c]
}
