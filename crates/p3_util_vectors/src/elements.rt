//! Elements of arrays for which memory may run out.

ghost use Rattle.serde_json.specs.Data.{array, item, no_items, number, unsigned};
ghost use Rattle.std.specs.Prelude.{true};
ghost use Rattle.p3_util.specs.JsonElements.{u32_reading};
ghost use Rattle.p3_util_vectors.specs.Pairs.{map_ok, pair_reading};

use p3_util::array_serialization::{ArrayElement, ElementError, serialize};
use serde_json::Value;
use std::alloc::{AllocError, Global};

/// Two numbers, written as a JSON list of two, which needs memory. It is only written: a call that
/// reads one reports that memory ran out.
#[derive(Default, Drop)]
pub struct Two(pub u32, pub u32);

impl ArrayElement for Two {
    ghost written = { λ t. array (item (number (unsigned t.0))
        (item (number (unsigned t.1)) no_items)) };

    ghost reading = { pair_reading (λ a b. record { 0 = a; 1 = b }) };

    ghost wants_memory = { true };

    fn to_value(&self, alloc: Global) -> Result<Value, AllocError> {
        serialize(alloc, &[self.0, self.1])
    }

    fn from_value(_alloc: Global, _v: &Value) -> Result<Two, ElementError> {
        Err(ElementError::Memory)
    }
}

/// A number that cannot be 2: a call that reads 2 reports that memory ran out.
#[derive(Debug, Default, PartialEq, Drop)]
pub struct NoTwo(pub u32);

impl ArrayElement for NoTwo {
    ghost written = { λ n. number (unsigned n.0) };

    ghost reading = { λ d. map_ok (λ n. record { 0 = n }) (u32_reading d) };

    ghost wants_memory = { true };

    fn to_value(&self, alloc: Global) -> Result<Value, AllocError> {
        self.0.to_value(alloc)
    }

    fn from_value(alloc: Global, v: &Value) -> Result<NoTwo, ElementError> {
        match u32::from_value(alloc, v)? {
            2 => Err(ElementError::Memory),
            n => Ok(NoTwo(n)),
        }
    }
}
