//! Arrays as the rows of one list of items.

ghost use Rattle.std.specs.Prelude.{◌≡◌, ℕ, ◌+◌, ◌*◌, ◌^◌, ◌<◌, List, Some, length, slice_get, slice_set, swap, take};
ghost use Rattle.std.proofs.Common.{refl, ◌∙◌};
ghost use Rattle.std.specs.Borrow.{sem};
ghost use Rattle.std.specs.Option.{option_copied_mut};
ghost use Rattle.p3_util.specs.Flat.{countable_items, flat};

use super::loans::item_of_rows;
use super::places::{countable, place_of, width_of};
use std::mem;

/// A reference to rows of equal length, whose items can be exchanged or written.
///
/// A contract sees it as the list of the items, row after row, if a `usize` can count them. `same_rows a b` says that b
/// is a after some steps: it is the same reference, with the same number of items behind it.
pub trait Rows {
    ghost use Rattle.p3_util.specs.ViewLends.{lends_item};

    /// The type of the items.
    type Item;

    ghost items: { Self → List Self.Item };

    ghost same_rows: { Self → Self → Type 0 };

    /// The items of all rows, row after row.
    fn row_items(&self) -> &[Self::Item]
        ensures { result.now ≡ items self.now };

    /// A mutable reference to item `i` of all rows, or `None` if `i` is out of bounds.
    fn item_mut(&mut self, i: usize) -> Option<&mut Self::Item>
        ensures* writes_back { sem 𝓛 (lends_item Self.row Self.Item.row items same_rows
            self.entry i result) }
        ensures item { option_copied_mut result ≡ slice_get (items self.old) i };

    /// Exchanges items `i` and `j` of all rows.
    fn exchange(&mut self, i: usize, j: usize)
        requires first { i < length (items self.old) }
        requires second { j < length (items self.old) }
        ensures exchanged { items self.new ≡ swap (items self.old) i j }
        ensures rows { same_rows self.old self.new };

    /// Writes `v` to item `i` of all rows.
    fn put(&mut self, i: usize, v: Self::Item)
    where
        Self::Item: Drop,
        requires { i < length (items self.old) }
        ensures written { items self.new ≡ slice_set (items self.old) i v }
        ensures rows { same_rows self.old self.new };

    ghost same_rows_refl: { (a : Self) → same_rows a a };

    ghost same_rows_trans: { (a b c : Self) → same_rows a b → same_rows b c → same_rows a c };
}

impl<'a, T, const N: usize> Rows for &'a mut [[T; N]] {
    type Item = T;

    ghost items = { λ rows. countable_items rows.now };

    ghost same_rows = { λ a b. (a.ghost_name ≡ b.ghost_name)
        × (length (flat a.now) ≡ length (flat b.now)) };

    fn row_items(&self) -> &[T] {
        countable(self)
    }

    fn item_mut(&mut self, i: usize) -> Option<&mut T> {
        item_of_rows(self, i)
    }

    #[inline(always)]
    fn exchange(&mut self, i: usize, j: usize) {
        exchange_items(self, i, j);
    }

    #[inline(always)]
    fn put(&mut self, i: usize, v: T)
    where
        T: Drop,
    {
        put_item(self, i, v);
    }

    ghost same_rows_refl = { λ a. (refl, refl) };

    ghost same_rows_trans = { λ a b c p q. (p.0 ∙ q.0, p.1 ∙ q.1) };
}

/// Exchanges items `i` and `j` of all rows.
#[inline(always)]
fn exchange_items<T, const N: usize>(rows: &mut [[T; N]], i: usize, j: usize)
    requires first { i < length (countable_items rows.old) }
    requires second { j < length (countable_items rows.old) }
    ensures { flat rows.new ≡ swap (flat rows.old) i j }
{
    let (r, c) = place_of(rows, i);
    let (s, d) = place_of(rows, j);
    if r < s {
        exchange_in_two_rows(rows, r, c, s, d);
    } else if s < r {
        exchange_in_two_rows(rows, s, d, r, c);
    } else {
        prove!(width_of(&rows[r]) == N);
        rows[r].swap(c, d);
    }
}

/// Writes `v` to item `i` of all rows.
#[inline(always)]
fn put_item<T: Drop, const N: usize>(rows: &mut [[T; N]], i: usize, v: T)
    requires { i < length (countable_items rows.old) }
    ensures { flat rows.new ≡ slice_set (flat rows.old) i v }
{
    let (r, c) = place_of(rows, i);
    prove!(width_of(&rows[r]) == N);
    rows[r][c] = v;
}

/// Exchanges item `c` of row `r` with item `d` of the later row `s`.
#[inline(always)]
fn exchange_in_two_rows<T, const N: usize>(
    rows: &mut [[T; N]],
    r: usize,
    c: usize,
    s: usize,
    d: usize,
)
    requires rows { r < s }
    requires last_row { s < length rows.old }
    requires first { c < N }
    requires second { d < N }
    ensures { flat rows.new ≡ swap (flat rows.old)
        (length (flat (take r rows.old)) + c) (length (flat (take s rows.old)) + d) }
{
    let (front, back) = rows.split_at_mut(s);
    prove!(width_of(&front[r]) == N);
    prove!(width_of(&back[0]) == N);
    mem::swap(&mut front[r][c], &mut back[0][d]);
}
