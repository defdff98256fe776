//! Worked examples and test vectors for `LinearMap`.

use crate::keys::Spelling;
use crate::tests::checks::{equal, found, same};
use Call::{Get, GetOrInsert, Insert, Write};
use p3_util::linear_map::LinearMap;
use p3_util_examples::linear_map::{Call, run_call};
use std::alloc::Global;
use std::cell::Cell;
use std::fmt::Debug;
use std::process::Abort;

/// Asserts what the calls of a script on a new map return, and its pairs at the end.
///
/// A body of `insert` or `get_or_insert_with` that returns `NoRoom` for each new key, however much
/// memory there is, meets its contract, and fails here.
fn replay<K: Eq + Copy + Debug, V: PartialEq + Copy + Debug>(
    rt: &impl Abort,
    alloc: Global,
    script: &[(Call<K, V>, Option<V>)],
    pairs: &[(K, V)],
) {
    let mut map = LinearMap::new(alloc);
    for (place, (call, wanted)) in script.iter().enumerate() {
        same(rt, place, &found(rt, run_call(&mut map, call)), wanted);
    }
    check_pairs(rt, &map, pairs);
}

/// Asserts what the iterators, `get` and the index operator return for a map with these pairs.
fn check_pairs<K: Eq + Debug, V: PartialEq + Debug>(
    rt: &impl Abort,
    map: &LinearMap<K, V>,
    pairs: &[(K, V)],
) {
    equal(rt, &map.len(), &pairs.len());
    equal(rt, &map.is_empty(), &pairs.is_empty());
    assert!(rt; map.iter().eq(pairs.iter()) && map.into_iter().eq(pairs.iter()));
    assert!(rt; map.iter().rev().eq(pairs.iter().rev()));
    let (mut keys, mut values) = (map.keys(), map.values());
    for (place, (key, value)) in pairs.iter().enumerate() {
        same(rt, place, &keys.next(), &Some(key));
        same(rt, place, &values.next(), &Some(value));
        assert!(rt; map.get(key).is_some());
        same(rt, place, &map[key], value);
    }
    equal(rt, &(keys.next(), values.next()), &(None, None));
}

/// Asserts that the map made from some pairs has the pairs `wanted`, and yields them by value.
fn check_made<K: Eq + Copy + Debug, V: PartialEq + Copy + Debug>(
    rt: &impl Abort,
    alloc: Global,
    pairs: &[(K, V)],
    wanted: &[(K, V)],
) {
    let map = found(rt, LinearMap::try_from_iter(alloc, pairs.iter().copied()));
    check_pairs(rt, &map, wanted);
    assert!(rt; map.into_iter().eq(wanted.iter().copied()));
}

#[test]
fn scripts_of_calls(rt: HostRuntime) {
    let alloc = rt.alloc();
    let calls = [
        (Write(42, 0), None),
        (Insert(42u32, 100u32), None),
        (Write(42, 101), Some(100)),
        (GetOrInsert(42, 7), Some(101)),
        (Get(42), Some(101)),
        (Write(999, 0), None),
    ];
    replay(&rt, alloc, &calls, &[(42, 101)]);
    replay::<u32, u32>(&rt, alloc, &[(Get(1), None)], &[]);
    let calls = [(Insert(1u32, "a"), None), (Insert(1, "b"), Some("a"))];
    replay(&rt, alloc, &calls, &[(1, "b")]);
    let calls = [
        (Insert(1u32, "a"), None),
        (Insert(2, "b"), None),
        (Insert(1, "c"), Some("a")),
        (Get(3), None),
    ];
    replay(&rt, alloc, &calls, &[(1, "c"), (2, "b")]);
    let calls = [
        (Insert("x", 10u32), None),
        (Insert("z", 30), None),
        (Insert("y", 20), None),
    ];
    replay(&rt, alloc, &calls, &[("x", 10), ("z", 30), ("y", 20)]);
}

/// A body of `try_from_iter` or `with_capacity` that always returns `AllocError` meets its
/// contract, and fails here.
#[test]
fn maps_of_pairs(rt: HostRuntime) {
    let twice = [(1u32, "a"), (2, "b"), (1, "c")];
    check_made(&rt, rt.alloc(), &twice, &[(1, "c"), (2, "b")]);
    let names = [("x", 10u32), ("z", 30), ("y", 20)];
    check_made(&rt, rt.alloc(), &names, &names);
    let letters = [("a", 1u32), ("b", 2), ("c", 3)];
    check_made(&rt, rt.alloc(), &letters, &letters);
    let with_room = found(&rt, LinearMap::<u32, u32>::with_capacity(rt.alloc(), 3));
    equal(&rt, &with_room.len(), &0);
    // More room than any memory has.
    let too_large = LinearMap::<u32, u32>::with_capacity(rt.alloc(), usize::MAX);
    assert!(rt; too_large.is_err());
}

/// The closure of `get_or_insert_with` is called once for a new key, and not for a known one. A known
/// key in another spelling finds its pair, which keeps the first spelling.
#[test]
fn new_and_known_keys(rt: HostRuntime) {
    let mut map = LinearMap::new(rt.alloc());
    for (key, given, wanted, calls) in [
        (10u32, 123u32, 123, 1u32),
        (10, 456, 123, 0),
        (20, 777, 777, 1),
    ] {
        let called = Cell::new(0u32);
        let give = || {
            called.set(called.get().wrapping_add(1));
            given
        };
        let value = found(&rt, map.get_or_insert_with(key, give));
        equal(&rt, value, &wanted);
        equal(&rt, &called.get(), &calls);
    }
    let mut map = LinearMap::new(rt.alloc());
    for (name, value, old) in [("Key", 1u32, None), ("KEY", 2, Some(1))] {
        equal(&rt, &found(&rt, map.insert(Spelling(name), value)), &old);
    }
    equal(&rt, &map.get(&Spelling("kEy")).copied(), &Some(2));
    equal(&rt, &map.keys().next().map(|key| key.0), &Some("Key"));
    equal(&rt, &map.len(), &1);
}
