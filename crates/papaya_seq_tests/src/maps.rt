//! Maps of numbers are made, and changed, and changed again where that was refused.

use crate::rows::Row;
use papaya_seq::{Fault, HashMap, Operation};
use std::alloc::Global;
use std::hash::{BuildHasherDefault, FoldHasher};

/// The hasher of std's maps.
pub(crate) type Hashing = BuildHasherDefault<FoldHasher>;

type Numbers = HashMap<u64, u64, Hashing>;

/// What a name that no call has is answered by.
pub(crate) const NO_CALL: Fault = Fault::RemoveNothing;

/// Ten times the key for each of the keys from 0 to 7.
const PAIRS: [(u64, u64); 8] = [
    (0, 0),
    (1, 10),
    (2, 20),
    (3, 30),
    (4, 40),
    (5, 50),
    (6, 60),
    (7, 70),
];

/// Whether a map has ten times the key for each of the keys from 0 to 7.
fn is_filled(map: &Numbers) -> bool {
    for key in 0..8 {
        if map.get(&key).copied() != Some(key.wrapping_mul(10)) {
            return false;
        }
    }
    map.len() == 8
}

/// Whether it is as a row says.
fn is_as(map: &Numbers, row: Row) -> bool {
    map.len() == row.len && map.get(&3).copied() == row.three && map.get(&8).copied() == row.eight
}

fn made(alloc: Global, call: &str, original: &Numbers) -> Result<Numbers, Fault> {
    match call {
        "new" => Numbers::new(alloc),
        "with_capacity" => Numbers::with_capacity(alloc, 100),
        "with_hasher" => Numbers::with_hasher(alloc, Hashing::default()),
        "with_capacity_and_hasher" => {
            Numbers::with_capacity_and_hasher(alloc, 100, Hashing::default())
        }
        "try_collect" => Numbers::try_collect(alloc, PAIRS.iter().copied()),
        "from_array" => Numbers::from_array(alloc, PAIRS.as_slice()),
        "clone" => original.clone(alloc),
        _ => Err(NO_CALL),
    }
}

/// Whether a map that is made is as its row says.
fn is_made(alloc: Global, original: &Numbers, row: Row) -> Result<bool, Fault> {
    let map = made(alloc, row.call, original)?;
    Ok(is_as(&map, row))
}

fn one_more(value: &u64) -> u64 {
    value.wrapping_add(1)
}

fn five() -> u64 {
    5
}

/// A call that removes the pair of a key, or decides what is done with it.
fn removed(map: &mut Numbers, call: &str, key: u64) -> Result<(), Fault> {
    match call {
        "remove" => {
            map.remove(&key)?;
        }
        "remove_entry" => {
            map.remove_entry(&key)?;
        }
        "remove_if" => {
            let _ = map.remove_if(&key, |_, value| *value == 30)?;
        }
        "compute" => {
            map.compute(key, |_| Operation::<u64, ()>::Insert(5))?;
        }
        "compute_a_removal" => {
            map.compute(key, |_| Operation::<u64, ()>::Remove)?;
        }
        _ => return changed(map, call),
    }
    Ok(())
}

/// A call on all pairs.
fn changed(map: &mut Numbers, call: &str) -> Result<(), Fault> {
    match call {
        "reserve" => map.reserve(1000),
        "extend" => Ok(map.extend([(8, 5)].iter().copied())?),
        "retain" => map.retain(|key, _| *key % 2 == 0),
        "clear" => map.clear(),
        _ => Err(NO_CALL),
    }
}

/// Puts the value that a key has in its place, more often than a batch has blocks, so that numbers of blocks are used again. Where that is refused, key and value
/// come back.
fn inserted_again(map: &mut Numbers, key: u64) -> Result<(), Fault> {
    let value = key.wrapping_mul(10);
    for _ in 0..40 {
        if let Err(refused) = map.insert(key, value) {
            if (refused.key, refused.value) != (key, value) {
                return Err(NO_CALL);
            }
            return Err(refused.fault);
        }
    }
    Ok(())
}

/// A call that may store a value.
fn stored(map: &mut Numbers, call: &str, key: u64) -> Result<(), Fault> {
    match call {
        "insert" => {
            map.insert(key, 5)?;
        }
        "try_insert" => {
            let _ = map.try_insert(key, 5)?;
        }
        "insert_again" => inserted_again(map, key)?,
        "get_or_insert" => {
            map.get_or_insert(key, 5)?;
        }
        "get_or_insert_with" => {
            map.get_or_insert_with(key, five)?;
        }
        "try_insert_with" => {
            let _ = map.try_insert_with(key, five)?;
        }
        _ => return updated(map, call, key),
    }
    Ok(())
}

/// A call that may replace a value by one that is made of it.
fn updated(map: &mut Numbers, call: &str, key: u64) -> Result<(), Fault> {
    match call {
        "update" => {
            map.update(key, one_more)?;
        }
        "update_or_insert" => {
            map.update_or_insert(key, one_more, 5)?;
        }
        "update_or_insert_with" => {
            map.update_or_insert_with(key, one_more, five)?;
        }
        _ => return removed(map, call, key),
    }
    Ok(())
}

/// Whether a change is made at once, or was refused for want of memory, with all pairs as before, and is made then; and the map is then as its row says.
fn is_changed(map: &mut Numbers, row: Row) -> bool {
    let done = match stored(map, row.call, row.key) {
        Ok(()) => true,
        Err(Fault::Memory) => is_filled(map) && stored(map, row.call, row.key).is_ok(),
        Err(_) => false,
    };
    done && is_as(map, row)
}

/// The call of a row, beside or on a map whose table has no place left: a further pair needs a table.
fn on_filled(alloc: Global, map: &mut Numbers, row: Row) -> Result<bool, Fault> {
    map.extend(PAIRS.iter().copied())?;
    if row.on == "map" {
        Ok(is_changed(map, row))
    } else {
        is_made(alloc, map, row)
    }
}

/// Whether the call of a row goes so, or why the map is not filled.
pub(crate) fn goes_so(alloc: Global, row: Row) -> Result<bool, Fault> {
    let mut map = Numbers::with_capacity(alloc, 6)?;
    on_filled(alloc, &mut map, row)
}
