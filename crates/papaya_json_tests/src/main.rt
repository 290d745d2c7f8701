//! Says of shared maps and sets what they were seen to do, a line each. First come calls that ask for memory: where it is refused, they are made again. This program is to be run
//! once for each request for memory of those, with that one refused and no input: each time it prints the same. Then come the lines of the input: `map` and `set` with a text of
//! JSON, of which one is read, and written as JSON, or it is said why not; and sentences on copies, texts as keys, values that are dropped, and what is of another map.
#![tactic(auto)]

mod counting;
mod foreign;
mod forms;
mod refused;

use papaya_json::{Fault, FromJson, HashMap, HashSet, IdSource, JsonFault, ToJson};
use serde_json::Value;
use std::alloc::Global;
use std::hash::{BuildHasherDefault, DefaultHasher};
use std::io;
use std::sync::Wait;
use std::thread::Threads;

type Hashing = BuildHasherDefault<DefaultHasher>;

type Map = HashMap<u64, u64, Hashing>;

type Set = HashSet<u64, Hashing>;

type Told<T> = Result<T, Fault>;

/// What a map becomes that is read of this value.
fn map_of<R: Wait>(
    rt: &R,
    alloc: Global,
    ids: &mut IdSource,
    value: &Value,
) -> Result<String, JsonFault> {
    let map: Map = HashMap::from_value(rt, alloc, ids, Hashing::default(), value)?;
    let mut session = map.session()?;
    Ok(session.to_value(rt, alloc)?.to_string(alloc)?)
}

/// What a set becomes that is read of this value.
fn set_of<R: Wait>(
    rt: &R,
    alloc: Global,
    ids: &mut IdSource,
    value: &Value,
) -> Result<String, JsonFault> {
    let set: Set = HashSet::from_value(rt, alloc, ids, Hashing::default(), value)?;
    let mut session = set.session()?;
    Ok(session.to_value(rt, alloc)?.to_string(alloc)?)
}

/// Whether a copy of a set is the same, until one more element comes to it.
fn is_copied<R: Wait>(rt: &R, alloc: Global, ids: &mut IdSource) -> Told<bool> {
    let set: Set = HashSet::with_hasher(alloc, ids, Hashing::default())?;
    let mut own = set.session()?;
    own.insert(rt, 1)?;
    let copy = set.clone(rt, alloc, ids)?;
    let mut other = copy.session()?;
    let same = own.same(rt, &mut other)?;
    other.insert(rt, 2)?;
    let more = own.same(rt, &mut other)?;
    let fewer = other.same(rt, &mut own)?;
    Ok(same && !more && !fewer)
}

/// Prints what a text of JSON comes to, as a map or as a set.
fn reads<R: Wait + Print>(
    rt: &R,
    alloc: Global,
    ids: &mut IdSource,
    line: &str,
    text: &str,
) -> io::Result<()> {
    let value = Value::from_str(alloc, text).map_err(|_| io::Error::other("this is no JSON"))?;
    let told = if line.starts_with("map") {
        map_of(rt, alloc, ids, &value)
    } else {
        set_of(rt, alloc, ids, &value)
    };
    match told {
        Ok(text) => println!(rt; "{line}: {text}"),
        Err(fault) => println!(rt; "{line}: {fault}"),
    }
}

/// Tells whether a sentence is so.
fn is_so<R: Threads + Wait + Sync>(
    rt: &R,
    alloc: Global,
    ids: &mut IdSource,
    sentence: &str,
) -> io::Result<bool> {
    let is_so = match sentence {
        "a copy of a set is the same until one more comes" => is_copied(rt, alloc, ids),
        "what was stored at texts is found by lent ones" => forms::are_found(rt, alloc),
        "each value that was stored is dropped once" => counting::are_dropped_once(rt, alloc),
        "what waits is dropped as a map is emptied of it" => counting::is_emptied(rt, alloc),
        "lookups refuse what is of another map" => foreign::looks(rt, alloc),
        "changes refuse what is of another map" => foreign::stores(rt, alloc),
        _ => return Err(io::Error::other("map TEXT, set TEXT, or a sentence")),
    };
    Ok(is_so?)
}

/// Prints what a line comes to.
fn row<R: Threads + Wait + Sync + Print>(
    rt: &R,
    alloc: Global,
    ids: &mut IdSource,
    line: &str,
) -> io::Result<()> {
    match line.split_once(' ') {
        Some(("map" | "set", text)) => reads(rt, alloc, ids, line, text),
        _ => println!(rt; "{line}: {}", is_so(rt, alloc, ids, line)?),
    }
}

fn main(rt: HostRuntime) -> io::Result<()> {
    let alloc = rt.alloc();
    refused::calls(&rt, alloc)?;
    let mut ids = IdSource::new();
    for line in rt.lines(alloc) {
        row(&rt, alloc, &mut ids, line?.as_str())?;
    }
    Ok(())
}
