//! Maps and sets with texts are read of JSON, cloned, and written as it, and looked at by texts that are lent.

use crate::maps::Hashing;
use papaya_seq::{Fault, FromJson, HashMap, HashSet, JsonFault, Text, ToJson};
use serde_json::Value;
use std::alloc::Global;

type Map = HashMap<Text, u64, Hashing>;

type Set = HashSet<Text, Hashing>;

/// A map as it is written.
const MAP: &str = r#"{"a":1,"b":2,"c":3}"#;
/// A set as it is written.
const SET: &str = r#"["a","b","c"]"#;

/// The value of a text of JSON.
fn value_of(alloc: Global, text: &str) -> Result<Value, JsonFault> {
    match Value::from_str(alloc, text) {
        Ok(value) => Ok(value),
        Err(_) => Err(JsonFault::Refused(Fault::Memory)),
    }
}

/// Whether a map has just the pairs that are written.
fn has_pairs(map: &Map) -> bool {
    for (key, value) in [("a", 1), ("b", 2), ("c", 3)] {
        if map.get(&key).copied() != Some(value) {
            return false;
        }
    }
    map.len() == 3
}

/// Whether a set has just the elements that are written.
fn has_elements(set: &Set) -> bool {
    for element in ["a", "b", "c"] {
        if !set.contains(&element) {
            return false;
        }
    }
    set.len() == 3
}

/// Whether a map that was read, its clone or what it is written as is what it should be.
fn is_map_of(alloc: Global, call: &str, map: &Map, value: &Value) -> Result<bool, JsonFault> {
    match call {
        "clone" => {
            let again = map.clone(alloc)?;
            Ok(has_pairs(&again))
        }
        "to_value" => Ok(map.to_value(alloc)? == *value),
        "from_value" => Ok(has_pairs(map)),
        _ => Ok(false),
    }
}

pub(crate) fn map_goes_so(alloc: Global, call: &str) -> Result<bool, JsonFault> {
    let value = value_of(alloc, MAP)?;
    let map = Map::from_value(alloc, &value)?;
    is_map_of(alloc, call, &map, &value)
}

/// So of a set.
fn is_set_of(alloc: Global, call: &str, set: &Set, value: &Value) -> Result<bool, JsonFault> {
    match call {
        "clone" => {
            let again = set.clone(alloc)?;
            Ok(has_elements(&again))
        }
        "to_value" => Ok(set.to_value(alloc)? == *value),
        "from_value" => Ok(has_elements(set)),
        _ => Ok(false),
    }
}

pub(crate) fn set_goes_so(alloc: Global, call: &str) -> Result<bool, JsonFault> {
    let value = value_of(alloc, SET)?;
    let set = Set::from_value(alloc, &value)?;
    is_set_of(alloc, call, &set, &value)
}
