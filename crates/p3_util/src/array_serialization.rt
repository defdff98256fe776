//! Arrays as JSON lists. Each element is written as one JSON value and read back from one.
ghost use Rattle.std.specs.Prelude.{◌≡◌, Bool, false, List, map, Result, Ok, IsOk, IsTrue, IfOk, OnErr};
ghost use Rattle.serde_json.specs.Data.{Data, boolean, number, array, unsigned};
ghost use Rattle.serde_json.specs.Find.{of_integer};
ghost use Rattle.serde_json.specs.View.{view, items_of};
ghost use Rattle.p3_util.specs.declared.array_serialization.ArrayError.{ArrayError};
ghost use Rattle.p3_util.specs.JsonArray.{Refusal, IsElementAnswer, IsArrayAnswer, IsSameOrMemory};
ghost use Rattle.p3_util.specs.JsonElements.{whole_number, u32_reading, u64_reading, i64_reading, bool_reading};

use serde_json::{Number, Value};
use std::alloc::{AllocError, Global};

/// Why an item of a list cannot be read as an element.
#[derive(Debug, PartialEq, Eq, Drop)]
pub enum ElementError {
    /// The value is of another kind: not a number, or not a boolean.
    Kind,
    /// The value is an integer of 64 bits that is out of the type's range.
    Range,
    /// The value is a number that is neither a `u64` nor an `i64`.
    Float,
    /// Memory ran out.
    Memory,
}

/// Why a value cannot be read as an array.
#[derive(Debug, PartialEq, Eq, Drop)]
pub enum ArrayError {
    /// The value is not a list.
    NotArray,
    /// The item at `index`, counted from 0, is refused, for the reason `cause`. No item before it is refused.
    Element { index: usize, cause: ElementError },
    /// The list has `got` items, which is not the length of the array.
    Length { got: usize },
}

/// An element of an array that is written to JSON and read back.
pub trait ArrayElement: Default {
    // The JSON value that an element is written as.
    ghost written: { Self → Data };

    // The element that a JSON value is read as, or why it cannot be read.
    ghost reading: { Data → Result Self Refusal };

    // Whether the calls below may fail because memory runs out.
    ghost wants_memory: { Bool };

    /// Writes the element as a JSON value.
    ///
    /// # Errors
    ///
    /// `AllocError` if the type needs memory and there is none.
    fn to_value(&self, alloc: Global) -> Result<Value, AllocError>
        ensures ok { IfOk result (λ v. view v ≡ written self.now) }
        ensures memory { OnErr result (IsTrue wants_memory) }

        // The law of the trait: a written element is read back as the same element.
        ensures reads_back { reading (written self.now) ≡ Ok self.now };

    /// Reads an element from a JSON value.
    ///
    /// # Errors
    ///
    /// `Kind`, `Range` or `Float` if the value is not an element of the type. `Memory` if the type needs memory and
    /// there is none.
    fn from_value(alloc: Global, v: &Value) -> Result<Self, ElementError>
        ensures { IsElementAnswer wants_memory (reading (view v.now)) result };
}

/// Writes an array as a JSON list: each element in order, written by `to_value`.
///
/// # Errors
///
/// `AllocError` if there is no memory for the list or for an element. An array without items needs no memory.
#[tactic(auto, using(std::proofs::lemmas::Grind::common_steps))]
pub fn serialize<T: ArrayElement, const N: usize>(
    alloc: Global,
    items: &[T; N],
) -> Result<Value, AllocError>
    ensures ok { IfOk result (λ v. view v ≡ array (items_of (map T.written items.now))) }

    // If `deserialize` reads the result, it can only return the array or run out of memory.
    ensures reads_back { IfOk result (λ v. (r : Result (List T) ArrayError)
        → IsArrayAnswer T.reading T.wants_memory N (view v) r
        → IsSameOrMemory T.wants_memory items.now r) }
    ensures needs_none { N ≡ 0 → IsOk result }
{
    let mut list = Vec::with_capacity(alloc, N)?;
    for item in items {
        list.push(item.to_value(alloc)?)?;
    }
    Ok(Value::from(list))
}

/// Reads an array of `N` elements from a JSON list.
///
/// The call itself allocates nothing.
///
/// # Errors
///
/// In this order: `NotArray` if the value is not a list; `Element`, with its cause, for the first refused item among
/// the first `N`; `Length` if the list does not have `N` items. The cause `Memory` occurs only if the element's type
/// may need memory.
pub fn deserialize<T: ArrayElement + Drop, const N: usize>(
    alloc: Global,
    v: &Value,
) -> Result<[T; N], ArrayError>
    ensures answer { IsArrayAnswer T.reading T.wants_memory N (view v.now) result }

    // If the element's type never needs memory, no other answer is possible.
    ensures only { ¬ IsTrue T.wants_memory → (r : Result (List T) ArrayError)
        → IsArrayAnswer T.reading T.wants_memory N (view v.now) r → r ≡ result }
{
    let Some(list) = v.as_array() else {
        return Err(ArrayError::NotArray);
    };
    let mut items: [T; N] = Default::default();
    for index in 0..N.min(list.len()) {
        match T::from_value(alloc, &list[index]) {
            Ok(item) => items[index] = item,
            Err(cause) => return Err(ArrayError::Element { index, cause }),
        }
    }
    if list.len() != N {
        return Err(ArrayError::Length { got: list.len() });
    }
    Ok(items)
}

/// The value as an integer, if it is a `u64` or an `i64`.
fn whole(v: &Value) -> Result<i128, ElementError>
    ensures { IsElementAnswer false (whole_number (view v.now)) result }
{
    match v.as_number() {
        None => Err(ElementError::Kind),
        Some(number) => number.as_i128().ok_or(ElementError::Float),
    }
}

impl ArrayElement for u32 {
    ghost written = { λ n. number (unsigned n) };

    ghost reading = { u32_reading };

    ghost wants_memory = { false };

    fn to_value(&self, _alloc: Global) -> Result<Value, AllocError> {
        Ok(Value::from(u64::from(*self)))
    }

    fn from_value(_alloc: Global, v: &Value) -> Result<u32, ElementError> {
        u32::try_from(whole(v)?).map_err(|_| ElementError::Range)
    }
}

impl ArrayElement for u64 {
    ghost written = { λ n. number (unsigned n) };

    ghost reading = { u64_reading };

    ghost wants_memory = { false };

    fn to_value(&self, _alloc: Global) -> Result<Value, AllocError> {
        Ok(Value::from(*self))
    }

    fn from_value(_alloc: Global, v: &Value) -> Result<u64, ElementError> {
        u64::try_from(whole(v)?).map_err(|_| ElementError::Range)
    }
}

impl ArrayElement for i64 {
    ghost written = { λ z. number (of_integer z) };

    ghost reading = { i64_reading };

    ghost wants_memory = { false };

    fn to_value(&self, _alloc: Global) -> Result<Value, AllocError> {
        Ok(Value::Number(Number::from(*self)))
    }

    fn from_value(_alloc: Global, v: &Value) -> Result<i64, ElementError> {
        i64::try_from(whole(v)?).map_err(|_| ElementError::Range)
    }
}

impl ArrayElement for bool {
    ghost written = { boolean };

    ghost reading = { bool_reading };

    ghost wants_memory = { false };

    fn to_value(&self, _alloc: Global) -> Result<Value, AllocError> {
        Ok(Value::Bool(*self))
    }

    fn from_value(_alloc: Global, v: &Value) -> Result<bool, ElementError> {
        match v {
            Value::Bool(b) => Ok(*b),
            Value::Number(number) if number.is_f64() => Err(ElementError::Float),
            _ => Err(ElementError::Kind),
        }
    }
}
