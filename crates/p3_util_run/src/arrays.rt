//! Lists of numbers as JSON text.

ghost use Rattle.std.specs.Prelude.{◌≡◌, ℕ, ◌++◌, ◌⊎◌, List, map, IfOk, IfErr, string_bytes};
ghost use Rattle.serde_json.specs.View.{view};
ghost use Rattle.serde_json.specs.Written.{compact_text};
ghost use Rattle.p3_util_run.specs.Arrays.{IsArrayOf, array_of, number_of, line_of};

use crate::fault::RunFault;
use serde_json::Value;
use std::alloc::{AllocError, Global};

/// The numbers of a JSON array. The bytes are dropped before the list of the numbers is made.
///
/// Returns `RunFault::NotAnArray` if the bytes are not a JSON array of unsigned integers of 64
/// bits, and `RunFault::Memory` if memory runs out.
pub fn read_array(alloc: Global, bytes: Vec<u8>) -> Result<Vec<u64>, RunFault>
    ensures read { IfOk result (λ v. IsArrayOf bytes.items v.items) }
    ensures kind { IfErr result (λ e. (e ≡ RunFault.NotAnArray) ⊎ (e ≡ RunFault.Memory)) }
    ensures refused { result ≡ Err RunFault.NotAnArray → (xs : List ℕ)
        → ¬ IsArrayOf bytes.items xs }
{
    let value = match Value::from_slice(alloc, bytes.as_slice()) {
        Ok(value) => value,
        Err(e) if e.is_memory() => return Err(RunFault::Memory),
        Err(_) => return Err(RunFault::NotAnArray),
    };
    drop(bytes);
    match value.as_array() {
        Some(items) => read_numbers(alloc, items.as_slice()),
        None => Err(RunFault::NotAnArray),
    }
}

fn read_numbers(alloc: Global, items: &[Value]) -> Result<Vec<u64>, RunFault>
    ensures read { IfOk result (λ v. map view items.now ≡ map number_of v.items) }
    ensures kind { IfErr result (λ e. (e ≡ RunFault.NotAnArray) ⊎ (e ≡ RunFault.Memory)) }
    ensures refused { result ≡ Err RunFault.NotAnArray → (xs : List ℕ)
        → ¬ (map view items.now ≡ map number_of xs) }
{
    let Ok(mut numbers) = Vec::with_capacity(alloc, items.len()) else {
        return Err(RunFault::Memory);
    };
    for item in items {
        let Some(number) = item.as_u64() else {
            return Err(RunFault::NotAnArray);
        };
        if numbers.push(number).is_err() {
            return Err(RunFault::Memory);
        }
    }
    Ok(numbers)
}

/// The numbers as the text of a JSON array without spaces, followed by a line feed. The list is
/// dropped before the text is made.
pub fn line(alloc: Global, numbers: Vec<u64>) -> Result<String, AllocError>
    ensures { IfOk result (λ text. string_bytes text ≡ line_of numbers.items) }
{
    let mut text = array_text(alloc, numbers)?;
    text.push_str("\n")?;
    Ok(text)
}

/// The numbers as the text of a JSON array without spaces.
fn array_text(alloc: Global, numbers: Vec<u64>) -> Result<String, AllocError>
    ensures { IfOk result (λ text. string_bytes text ≡ compact_text (array_of numbers.items)) }
{
    let mut items = Vec::with_capacity(alloc, numbers.len())?;
    for number in &numbers {
        items.push(Value::from(*number))?;
    }
    drop(numbers);
    Value::from(items).to_string(alloc)
}
