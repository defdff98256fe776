//! Items of several sizes.

use std::alloc::{AllocError, Global};

/// An item that is made of its number.
pub(crate) trait Item: Copy {
    fn of(number: usize) -> Self;

    /// Whether this is the item with that number. In a build with checks, comparing an array part
    /// by part is faster than comparing it as a whole.
    fn is(self, number: usize) -> bool;
}

impl Item for u8 {
    fn of(number: usize) -> u8 {
        (number % 251) as u8
    }

    fn is(self, number: usize) -> bool {
        self == u8::of(number)
    }
}

impl Item for u32 {
    fn of(number: usize) -> u32 {
        (number % 4_294_967_296) as u32
    }

    fn is(self, number: usize) -> bool {
        self == u32::of(number)
    }
}

impl Item for u64 {
    fn of(number: usize) -> u64 {
        number as u64
    }

    fn is(self, number: usize) -> bool {
        self == number as u64
    }
}

impl Item for u128 {
    fn of(number: usize) -> u128 {
        (number as u128).wrapping_mul(0x1_0000_0000_0000_0001)
    }

    fn is(self, number: usize) -> bool {
        self == u128::of(number)
    }
}

impl Item for [u8; 3] {
    fn of(number: usize) -> [u8; 3] {
        [
            (number % 251) as u8,
            (number % 241) as u8,
            (number % 239) as u8,
        ]
    }

    fn is(self, number: usize) -> bool {
        let [a, b, c] = self;
        let [x, y, z] = <[u8; 3]>::of(number);
        a == x && b == y && c == z
    }
}

impl Item for [u8; 8] {
    fn of(number: usize) -> [u8; 8] {
        (number as u64).to_le_bytes()
    }

    fn is(self, number: usize) -> bool {
        u64::from_le_bytes(self) == number as u64
    }
}

impl Item for [u64; 4] {
    fn of(number: usize) -> [u64; 4] {
        let number = number as u64;
        [number, number ^ 1, number ^ 2, number ^ 3]
    }

    fn is(self, number: usize) -> bool {
        let [a, b, c, d] = self;
        let [x, y, z, w] = <[u64; 4]>::of(number);
        a == x && b == y && c == z && d == w
    }
}

/// The items with the numbers of a list.
pub(crate) fn items_of<T: Item>(alloc: Global, numbers: &[u64]) -> Result<Vec<T>, AllocError> {
    let mut list = Vec::with_capacity(alloc, numbers.len())?;
    for number in numbers {
        list.push(T::of(*number as usize))?;
    }
    Ok(list)
}

/// The items with the numbers from 0 to below `count`.
pub(crate) fn numbered<T: Item>(alloc: Global, count: usize) -> Result<Vec<T>, AllocError> {
    let mut list = Vec::with_capacity(alloc, count)?;
    for number in 0..count {
        list.push(T::of(number))?;
    }
    Ok(list)
}
