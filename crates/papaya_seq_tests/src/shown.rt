//! How faults, texts, maps and sets are shown, which no clause says. A map and a set are shown in the order of their walks, which may be any.

use papaya_seq::{Fault, HashMap, HashSet, JsonFault, Text};
use std::alloc::{AllocError, Global};
use std::fmt::Debug;
use std::hash::{BuildHasherDefault, DefaultHasher};

type Map = HashMap<u64, u64, BuildHasherDefault<DefaultHasher>>;

type Set = HashSet<u64, BuildHasherDefault<DefaultHasher>>;

/// The faults, and the name that each is shown by.
const FAULTS: [(JsonFault, &str); 5] = [
    (JsonFault::NotAnObject, "NotAnObject"),
    (JsonFault::NotAnArray, "NotAnArray"),
    (JsonFault::BadKey, "BadKey"),
    (JsonFault::BadElement, "BadElement"),
    (JsonFault::Refused(Fault::Memory), "Refused"),
];

fn faults_have_names(alloc: Global) -> Result<bool, AllocError> {
    for (fault, name) in FAULTS {
        if fault.to_string(alloc)?.as_str() != name {
            return Ok(false);
        }
    }
    Ok(true)
}

/// Whether `Debug` shows one of two texts.
fn shows<D: Debug>(alloc: Global, shown: &D, one: &str, other: &str) -> Result<bool, AllocError> {
    let text = format!(in alloc; "{shown:?}")?;
    Ok(text.as_str() == one || text.as_str() == other)
}

fn shows_text(alloc: Global) -> Result<bool, AllocError> {
    let text = Text::new(alloc, "k\u{e9}y")?.clone()?;
    shows(alloc, &text, "\"k\u{e9}y\"", "")
}

fn shows_map(alloc: Global) -> Result<bool, Fault> {
    let map = Map::from_array(alloc, &[(42, 0), (16, 8)])?;
    Ok(shows(alloc, &map, "{42: 0, 16: 8}", "{16: 8, 42: 0}")?)
}

/// Of pairs with one key a map that collects them has the last.
fn shows_collected(alloc: Global) -> Result<bool, Fault> {
    let map = Map::try_collect(alloc, [(0, 1), (0, 2), (0, 3)])?;
    Ok(map.len() == 1 && shows(alloc, &map, "{0: 3}", "")?)
}

fn shows_set(alloc: Global) -> Result<bool, Fault> {
    let set = Set::from_array(alloc, &[42, 16])?;
    Ok(shows(alloc, &set, "{42, 16}", "{16, 42}")?)
}

#[test]
fn faults_have_names_and_debug_shows_texts_maps_and_sets(rt: HostRuntime) {
    assert!(rt; faults_have_names(rt.alloc()) == Ok(true));
    assert!(rt; shows_text(rt.alloc()) == Ok(true));
    assert!(rt; shows_map(rt.alloc()) == Ok(true));
    assert!(rt; shows_collected(rt.alloc()) == Ok(true));
    assert!(rt; shows_set(rt.alloc()) == Ok(true));
}
