//! Any list of calls on a map, proved from the map's public contracts.

ghost use Rattle.std.specs.Prelude.{◌≡◌, [], IfOk, OnOk, OnErr};
ghost use Rattle.p3_util_examples.specs.MapCalls.{after, answer_of, answers_of, pairs_after};

use p3_util::linear_map::LinearMap;
use std::alloc::{AllocError, Global};
use std::mem::replace;

/// A call on a map.
#[derive(Drop)]
pub enum Call<K, V> {
    Insert(K, V),
    Get(K),
    /// Writes to the value that `get_mut` lends, if the key is in the map.
    Write(K, V),
    /// `get_or_insert_with` with a closure that returns the value.
    GetOrInsert(K, V),
}

/// Makes one call and returns its answer.
pub fn run_call<K: Eq + Copy, V: Copy>(
    map: &mut LinearMap<K, V>,
    call: &Call<K, V>,
) -> Result<Option<V>, AllocError>
    ensures map { OnOk result (map.new ≡ after K.eq map.old call.now) }
    ensures answer { IfOk result (λ a. a ≡ answer_of K.eq map.old call.now) }
    ensures refused { OnErr result (map.new ≡ map.old) }
{
    match call {
        Call::Insert(k, v) => match map.insert(*k, *v) {
            Ok(old) => Ok(old),
            Err(_) => Err(AllocError),
        },
        Call::Get(k) => Ok(map.get(k).copied()),
        Call::Write(k, v) => match map.get_mut(k) {
            Some(value) => Ok(Some(replace(value, *v))),
            None => Ok(None),
        },
        Call::GetOrInsert(k, v) => match map.get_or_insert_with(*k, || *v) {
            Ok(value) => Ok(Some(*value)),
            Err(_) => Err(AllocError),
        },
    }
}

/// Makes `calls` on a new map. Returns the map and the answer of each call.
pub fn run_calls<K: Eq + Copy, V: Copy>(
    alloc: Global,
    calls: &[Call<K, V>],
) -> Result<(LinearMap<K, V>, Vec<Option<V>>), AllocError>
    ensures map { IfOk result (λ r. r.0 ≡ pairs_after K.eq [] calls.now) }
    ensures answers { IfOk result (λ r. r.1.items ≡ answers_of K.eq [] calls.now) }
{
    let mut map = LinearMap::new(alloc);
    let mut answers = Vec::new(alloc);
    for call in calls {
        let answer = run_call(&mut map, call)?;
        answers.push(answer)?;
    }
    Ok((map, answers))
}
