//! Arrays as JSON lists: worked examples with values that are read from JSON text.

use crate::elements::{NoTwo, Two};
use crate::tests::checks::{equal, found};
use p3_util::array_serialization::ArrayError::{Element, Length, NotArray};
use p3_util::array_serialization::ElementError::{Float, Kind, Memory, Range};
use p3_util::array_serialization::{
    ArrayElement, ArrayError, ElementError, deserialize, serialize,
};
use serde_json::Value;
use std::alloc::Global;
use std::fmt::Debug;
use std::process::Abort;

type Read<T, const N: usize> = Result<[T; N], ArrayError>;

/// The result if the item at `index` is refused.
fn refused<T, const N: usize>(index: usize, cause: ElementError) -> Read<T, N> {
    Err(Element { index, cause })
}

/// Asserts what is read from a JSON text.
fn check_read<T: ArrayElement + PartialEq + Debug + Drop, const N: usize>(
    rt: &impl Abort,
    alloc: Global,
    text: &str,
    wanted: Read<T, N>,
) {
    match Value::from_str(alloc, text) {
        Ok(value) => equal(rt, &deserialize::<T, N>(alloc, &value), &wanted),
        Err(_) => panic!(rt; "{text} is no JSON"),
    }
}

/// Asserts that an array is written as `text`.
fn check_written<T: ArrayElement, const N: usize>(
    rt: &impl Abort,
    alloc: Global,
    items: &[T; N],
    text: &str,
) {
    let value = found(rt, serialize(alloc, items));
    equal(rt, &found(rt, value.to_string(alloc)).as_str(), &text);
}

/// The same, and that it is read back.
fn check_both_ways<T: ArrayElement + PartialEq + Copy + Debug, const N: usize>(
    rt: &impl Abort,
    alloc: Global,
    items: [T; N],
    text: &str,
) {
    check_written(rt, alloc, &items, text);
    check_read(rt, alloc, text, Ok(items));
}

#[test]
fn lists_and_arrays(rt: HostRuntime) {
    let alloc = rt.alloc();
    check_read::<u32, 3>(&rt, alloc, "[1,2]", Err(Length { got: 2 }));
    check_read::<u32, 3>(&rt, alloc, "[1,\"x\"]", refused(1, Kind));
    check_read::<u32, 3>(&rt, alloc, "[1,2,3,\"x\"]", Err(Length { got: 4 }));
    check_read::<u32, 3>(&rt, alloc, "[1.5,2,3]", refused(0, Float));
    check_read::<u32, 3>(&rt, alloc, "[4294967296,0,0]", refused(0, Range));
    check_read::<u32, 3>(&rt, alloc, "{}", Err(NotArray));
    check_read::<u32, 3>(&rt, alloc, "[10,20,30]", Ok([10, 20, 30]));
    check_read::<u32, 0>(&rt, alloc, "[]", Ok([]));
    check_read::<u32, 0>(&rt, alloc, "[1]", Err(Length { got: 1 }));
    check_read::<u32, 2>(&rt, alloc, "[]", Err(Length { got: 0 }));
    check_read::<NoTwo, 3>(&rt, alloc, "[1,2,3]", refused(1, Memory));
    check_read::<u64, 1>(&rt, alloc, "[-1]", refused(0, Range));
    check_read::<i64, 1>(&rt, alloc, "[-1]", Ok([-1]));
    check_read::<i64, 1>(&rt, alloc, "[9223372036854775808]", refused(0, Range));
    check_read::<bool, 1>(&rt, alloc, "[1.0]", refused(0, Float));
    check_read::<bool, 2>(&rt, alloc, "[true,1]", refused(1, Kind));
    check_both_ways(&rt, alloc, [10u32, 20, 30], "[10,20,30]");
    check_both_ways::<u32, 0>(&rt, alloc, [], "[]");
    check_both_ways(&rt, alloc, [0, u64::MAX], "[0,18446744073709551615]");
    check_both_ways(&rt, alloc, [i64::MIN, 7], "[-9223372036854775808,7]");
    check_both_ways(&rt, alloc, [true, false], "[true,false]");
    check_written(&rt, alloc, &[Two(1, 2), Two(3, 4)], "[[1,2],[3,4]]");
}
