//! Vectors of arrays that are moved to vectors of their items, and back.

ghost use Rattle.std.specs.Prelude.{◌≡◌, ◌+◌, ◌*◌, ◌%◌, ◌/◌, ◌^◌, ◌<◌, ◌≤◌, ◌++◌, IsOk, IfOk, IfErr, length, vec_len, vec_capacity};
ghost use Rattle.std.specs.Vec.Iter.{into_iter_items};
ghost use Rattle.p3_util.specs.Flat.{IsFlat, flat};
ghost use Rattle.p3_util.specs.Pieces.{pieces};

use super::places::each_in_its_row;
use crate::NoRoom;
use std::alloc::Global;
use std::vec::IntoIter;
use std::{array, mem};

/// Moves the items of the arrays in `vec` to one vector, array after array. Each item is moved once.
///
/// The number of items must fit in a `usize`, which [`flat_len`](super::flat_len) checks.
///
/// # Errors
///
/// `vec` unchanged, if there is no memory for the items. If there are no items, no memory is needed.
pub fn flatten_to_base<Base: Default + Drop, const N: usize>(
    alloc: Global,
    mut vec: Vec<[Base; N]>,
) -> Result<Vec<Base>, NoRoom<Vec<[Base; N]>>>
    requires { vec_len vec * N < 2 ^ 64 }
    ensures items { IfOk result (λ items. items.items ≡ flat vec.items) }
    ensures places { IfOk result (λ items. IsFlat N vec.items items.items) }

    // If the items are cut into rows again, the rows are the same as before.
    ensures rows { 0 < N → IfOk result (λ items. pieces N items.items ≡ vec.items) }
    ensures len { IfOk result (λ items. vec_len items ≡ vec_len vec * N) }
    ensures divides { IfOk result (λ items. vec_len items % N ≡ 0) }
    ensures given { IfErr result (λ refused. refused.given ≡ vec) }
    ensures needs_none { vec_len vec * N ≡ 0 → IsOk result }
{
    prove!(each_in_its_row(&vec));
    let Ok(mut items) = Vec::with_capacity(alloc, vec.len() * N) else {
        return Err(NoRoom { given: vec });
    };
    for row in vec.iter_mut() {
        push_row(&mut items, row);
    }
    Ok(items)
}

/// Moves the items of `row` to the end of `items`, which has room for them.
fn push_row<T: Default + Drop, const N: usize>(items: &mut Vec<T>, row: &mut [T; N])
    requires { vec_len items.old + N ≤ vec_capacity items.old }
    ensures items { items.new.items ≡ items.old.items ++ row.old }
    ensures width { length row.old ≡ N }
    ensures capacity { vec_capacity items.new ≡ vec_capacity items.old }
    ensures len { vec_len items.new ≡ vec_len items.old + N }
{
    for item in row.iter_mut() {
        items.push_reserved(mem::take(item));
    }
}

/// Moves the items of `vec` to arrays of `N` items, in order. Each item is moved once.
///
/// `N` must be at least 1 and divide the length.
///
/// # Errors
///
/// `vec` unchanged, if there is no memory for the arrays. If there are no items, no memory is needed.
pub fn reconstitute_from_base<Base: Default + Drop, const N: usize>(
    alloc: Global,
    vec: Vec<Base>,
) -> Result<Vec<[Base; N]>, NoRoom<Vec<Base>>>
    requires width { 1 ≤ N }
    requires divides { vec_len vec % N ≡ 0 }
    ensures rows { IfOk result (λ rows. rows.items ≡ pieces N vec.items) }
    ensures items { IfOk result (λ rows. flat rows.items ≡ vec.items) }
    ensures places { IfOk result (λ rows. IsFlat N rows.items vec.items) }
    ensures count { IfOk result (λ rows. vec_len rows ≡ vec_len vec / N) }
    ensures len { IfOk result (λ rows. vec_len rows * N ≡ vec_len vec) }
    ensures given { IfErr result (λ refused. refused.given ≡ vec) }
    ensures needs_none { vec_len vec ≡ 0 → IsOk result }
{
    let count = vec.len() / N;
    let Ok(mut rows) = Vec::with_capacity(alloc, count) else {
        return Err(NoRoom { given: vec });
    };
    let mut items = vec.into_iter();
    for _ in 0..count {
        rows.push_reserved(next_row(&mut items));
    }
    prove!(each_in_its_row(&rows));
    Ok(rows)
}

/// The next `N` items, as an array.
#[tactic(auto, using(std::proofs::lemmas::Grind::common_steps))]
fn next_row<T: Default + Drop, const N: usize>(items: &mut IntoIter<T>) -> [T; N]
    requires { N ≤ length (into_iter_items items.old) }
    ensures items { into_iter_items items.old ≡ result ++ into_iter_items items.new }
    ensures width { length result ≡ N }
{
    let mut row = array::from_fn(|_| T::default());
    for i in 0..N {
        row[i] = items.next().unwrap();
    }
    row
}
