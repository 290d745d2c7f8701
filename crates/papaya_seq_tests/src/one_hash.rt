//! Keys that all have one hash, the lowest or the highest there is: those that were stored are found in a map and in a set, and no others.

use papaya_seq::{Fault, HashMap, HashSet};
use std::alloc::Global;
use std::hash::{BuildHasher, Hasher};

/// Gives each key this hash.
#[derive(Clone, Copy)]
struct Always {
    hash: u64,
}

impl Hasher for Always {
    ghost write = { λ hasher _. hasher };

    ghost finish = { λ hasher. hasher.hash };

    fn finish(&self) -> u64 {
        self.hash
    }

    fn write(&mut self, _bytes: &[u8]) {}
}

impl BuildHasher for Always {
    type Hasher = Always;

    ghost build_hasher = { λ hasher. hasher };

    fn build_hasher(&self) -> Always {
        *self
    }
}

type Map = HashMap<i32, i32, Always>;

type Set = HashSet<i32, Always>;

/// Stores each of the keys from 0 to 99 in both, and tells whether that was done.
fn fills(map: &mut Map, set: &mut Set) -> bool {
    for key in 0..100 {
        if map.insert(key, key).is_err() || set.insert(key).is_err() {
            return false;
        }
    }
    true
}

/// Whether both have this key.
fn both_have(map: &Map, set: &Set, key: i32) -> bool {
    map.get(&key) == Some(&key) && set.get(&key) == Some(&key)
}

/// Whether one of them has this key.
fn one_has(map: &Map, set: &Set, key: i32) -> bool {
    let (in_map, in_set) = (map.contains_key(&key), set.contains(&key));
    in_map || in_set
}

/// Whether both have each of these keys, and none of four others.
fn has_them(map: &Map, set: &Set) -> bool {
    for key in 0..100 {
        if !both_have(map, set, key) {
            return false;
        }
    }
    for key in [i32::MIN, -1, 100, i32::MAX] {
        if one_has(map, set, key) {
            return false;
        }
    }
    map.len() == 100 && set.len() == 100
}

/// Whether they are stored and found, where each has this hash.
fn finds_all(alloc: Global, hash: u64) -> Result<bool, Fault> {
    let mut map = HashMap::with_hasher(alloc, Always { hash })?;
    let mut set = HashSet::with_hasher(alloc, Always { hash })?;
    Ok(fills(&mut map, &mut set) && has_them(&map, &set))
}

#[test]
fn keys_of_one_hash_are_found(rt: HostRuntime) {
    for hash in [0, u64::MAX] {
        assert!(rt; finds_all(rt.alloc(), hash) == Ok(true), "{hash}");
    }
}
