//! Reversals of numbers, texts and values that cannot be cloned, checked at each place, and back.

use crate::tests::calls::{Call, count_swaps, reverse_slice};
use crate::tests::checks::{equal, found, numbers, same};
use p3_util::places::SlicePlaces;
use std::alloc::{AllocError, Global};
use std::cell::Cell;
use std::process::Abort;

/// `place` with its `digits` low binary digits in reversed order, and with no others.
pub(crate) fn reversed(place: usize, digits: u32) -> usize {
    let (mut rest, mut answer) = (place, 0usize);
    for _ in 0..digits {
        answer = answer.wrapping_mul(2).wrapping_add(rest % 2);
        rest /= 2;
    }
    answer
}

/// Asserts that a reversal of the items numbered from 0 puts the item whose number is the place
/// with reversed digits at each place, and that a second one restores the list. Returns the number
/// of swaps.
fn check_reversals<T, F: Fn(&T) -> usize>(rt: &impl Abort, list: &mut [T], number_of: F) -> u128
    requires { F.IsAlwaysCallable number_of }
{
    let digits = list.len().checked_ilog2().unwrap_or(0);
    reverse_slice(rt, list, 1);
    for (place, item) in list.iter().enumerate() {
        same(rt, place, &number_of(item), &reversed(place, digits));
    }
    let swaps = count_swaps(rt, &mut SlicePlaces::new(list), Call::Reversal);
    for (place, item) in list.iter().enumerate() {
        same(rt, place, &number_of(item), &place);
    }
    swaps
}

/// The decimal texts of the numbers from 0 to below `count`.
fn texts(alloc: Global, count: usize) -> Result<Vec<String>, AllocError> {
    let mut list = Vec::new(alloc);
    for number in 0..count {
        list.push(number.to_string(alloc)?)?;
    }
    Ok(list)
}

#[test]
fn numbers_and_texts(rt: HostRuntime) {
    let mut list = numbers(&rt, rt.alloc(), 256);
    let swaps = check_reversals(&rt, &mut list, |number| *number as usize);
    equal(&rt, &swaps, &120);
    for digits in 0..=14u32 {
        let mut list = found(&rt, texts(rt.alloc(), 1usize << digits));
        let _ = check_reversals(&rt, &mut list, |text| text.parse().unwrap_or(usize::MAX));
    }
}

/// A number that cannot be cloned, and that counts its drops.
struct Owner<'a> {
    number: usize,
    drops: &'a Cell<usize>,
}

impl Drop for Owner<'_> {
    fn drop(self) {
        let Owner { number: _, drops } = self;
        drops.set(drops.get().wrapping_add(1));
    }
}

/// The owners of the numbers from 0 to below `count`.
fn owners(alloc: Global, count: usize, drops: &Cell<usize>) -> Result<Vec<Owner<'_>>, AllocError> {
    let mut list = Vec::new(alloc);
    for number in 0..count {
        list.push(Owner { number, drops })?;
    }
    Ok(list)
}

/// No item is dropped before its list is, and then each is dropped once. The longest lists take the
/// long path, with an even and with an odd number of digits.
#[test]
fn owners_without_clone(rt: HostRuntime) {
    let mut swaps = 0;
    for digits in 0..=15u32 {
        let drops = Cell::new(0);
        let count = 1usize << digits;
        let mut list = found(&rt, owners(rt.alloc(), count, &drops));
        swaps = check_reversals(&rt, &mut list, |owner| owner.number);
        equal(&rt, &drops.get(), &0);
        drop(list);
        equal(&rt, &drops.get(), &count);
    }
    equal(&rt, &swaps, &44928);
}
