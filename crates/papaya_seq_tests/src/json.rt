//! Worked examples of the JSON of maps, of sets, and of lists of elements that have no hash.

use map_forms::{Listed, array_of, elements_of};
use papaya_seq::{Fault, FromJson, HashMap, HashSet, JsonFault, ToJson};
use serde_json::Value;
use std::alloc::Global;
use std::hash::{BuildHasherDefault, DefaultHasher};

type Map = HashMap<u8, u8, BuildHasherDefault<DefaultHasher>>;

type Set = HashSet<u8, BuildHasherDefault<DefaultHasher>>;

/// The worked map.
fn worked_map(alloc: Global) -> Result<Map, Fault> {
    Map::from_array(alloc, &[(0, 4), (1, 3), (2, 2), (3, 1), (4, 0)])
}

/// Whether a map is the worked one.
fn is_worked_map(alloc: Global, map: &Map) -> bool {
    match worked_map(alloc) {
        Ok(worked) => *map == worked,
        Err(_) => false,
    }
}

/// Whether the worked map is read of the value of a text, and written as it; or why none is read.
fn map_of(alloc: Global, value: &Value, text: &str) -> Result<bool, JsonFault> {
    let map = Map::from_value(alloc, value)?;
    let written = map.to_value(alloc)?.to_string(alloc)?;
    Ok(is_worked_map(alloc, &map) && written.as_str() == text)
}

/// The worked set.
fn worked_set(alloc: Global) -> Result<Set, Fault> {
    Set::from_array(alloc, &[0, 1, 2, 3, 4])
}

/// Whether a set is the worked one.
fn is_worked_set(alloc: Global, set: &Set) -> bool {
    match worked_set(alloc) {
        Ok(worked) => *set == worked,
        Err(_) => false,
    }
}

/// So of the worked set.
fn set_of(alloc: Global, value: &Value, text: &str) -> Result<bool, JsonFault> {
    let set = Set::from_value(alloc, value)?;
    let written = set.to_value(alloc)?.to_string(alloc)?;
    Ok(is_worked_set(alloc, &set) && written.as_str() == text)
}

/// Whether the elements that are read of a value are written as it.
fn list_of(alloc: Global, value: &Value) -> Result<bool, JsonFault> {
    let list: Listed<u16> = elements_of(alloc, value)?;
    Ok(array_of(alloc, list.iter())? == *value)
}

/// What is answered for a text of JSON.
fn of_text(alloc: Global, what: &str, text: &str) -> Result<bool, JsonFault> {
    let Ok(value) = Value::from_str(alloc, text) else {
        return Ok(false);
    };
    match what {
        "map" => map_of(alloc, &value, text),
        "set" => set_of(alloc, &value, text),
        _ => list_of(alloc, &value),
    }
}

fn are_read_so(alloc: Global) -> bool {
    of_text(alloc, "map", r#"{"0":4,"1":3,"2":2,"3":1,"4":0}"#) == Ok(true)
        && of_text(alloc, "map", r#"{"0":1.5}"#) == Err(JsonFault::BadElement)
        && of_text(alloc, "map", r#"{"00":1}"#) == Err(JsonFault::BadKey)
        && of_text(alloc, "map", "[]") == Err(JsonFault::NotAnObject)
        && of_text(alloc, "set", "[0,1,2,3,4]") == Ok(true)
        && of_text(alloc, "set", "[1.5]") == Err(JsonFault::BadElement)
        && of_text(alloc, "set", "{}") == Err(JsonFault::NotAnArray)
        && of_text(alloc, "list", "[1,10,100,9]") == Ok(true)
}

#[test]
fn maps_are_objects_and_sets_arrays(rt: HostRuntime) {
    assert!(rt; are_read_so(rt.alloc()));
}
