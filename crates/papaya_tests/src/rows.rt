//! Rows of calls and what they answer, on a new map of each mode, or a new set: `NAME: CALL = ANSWER; CALL = ANSWER`, and a set's name begins so. A call is a word and up to
//! two numbers. Where it is refused the name of the fault is its answer, and where it asked a closure for a value `asked` follows.
use crate::sets::{self, Own as Set};
use crate::{MODES, Own, Told, made, more, whole};
use papaya::{Attempt, ComputedPair, Operation, ResizeMode};
use std::alloc::Global;
use std::io;
use std::sync::Wait;
use std::sync::atomic::AtomicU64;
use std::sync::atomic::Ordering::SeqCst;

/// A session on which the calls of a row are made.
#[derive(Drop)]
enum On<'m> {
    Map(Own<'m>),
    Set(Set<'m>),
}

/// A call of a row.
#[derive(Clone, Copy)]
struct Call<'c> {
    name: &'c str,
    key: u64,
    value: u64,
}

/// A value, or that there is none.
fn one(alloc: Global, value: Option<&u64>) -> Told<String> {
    match value {
        Some(value) => Ok(format!(in alloc; "{value}")?),
        None => Ok(format!(in alloc; "none")?),
    }
}

/// A pair, or that there is none.
fn pair(alloc: Global, found: Option<(&u64, &u64)>) -> Told<String> {
    match found {
        Some((key, value)) => Ok(format!(in alloc; "{key} {value}")?),
        None => Ok(format!(in alloc; "none")?),
    }
}

/// Whether something is so.
fn so(alloc: Global, is_so: bool) -> Told<String> {
    Ok(format!(in alloc; "{is_so}")?)
}

/// A list, in order.
fn list(alloc: Global, mut keys: Vec<u64>) -> Told<String> {
    keys.sort()?;
    Ok(format!(in alloc; "{keys:?}")?)
}

/// What a map answers to a call on one key.
fn of_key<R: Wait>(rt: &R, alloc: Global, map: &mut Own<'_>, call: &Call<'_>) -> Told<String> {
    let (key, value) = (call.key, call.value);
    match call.name {
        "get" => one(alloc, map.get(rt, &key)),
        "get_key_value" => pair(alloc, map.pin().get_key_value(rt, &key)),
        "contains_key" => so(alloc, map.contains_key(rt, &key)),
        "insert" => match map.insert(rt, key, value)? {
            Some(old) => one(alloc, Some(map.value(old))),
            None => one(alloc, None),
        },
        "try_insert" => tried(rt, alloc, map, call),
        "remove" => one(alloc, map.remove(rt, &key)?),
        "remove_entry" => pair(alloc, map.remove_entry(rt, &key)?),
        "remove_if" => match map.remove_if(rt, &key, |_, there| *there == value)? {
            Some(old) => one(alloc, Some(map.value(old))),
            None => one(alloc, None),
        },
        _ => of_making(rt, alloc, map, call),
    }
}

/// The pair that is there where one is to be stored if the key is missing, and which has come back.
fn tried<R: Wait>(rt: &R, alloc: Global, map: &mut Own<'_>, call: &Call<'_>) -> Told<String> {
    let (there, tried) = map.try_insert(rt, call.key, call.value)?;
    let (own, there) = map.pair(there);
    match tried {
        Attempt::Stored => Ok(format!(in alloc; "{own} {there}")?),
        Attempt::Present(key, value) => Ok(format!(in alloc; "{own} {there} not {key} {value}")?),
    }
}

/// A count of 1 where there is none, 2 in its place, and none in that of 2; another count stays, and is answered.
fn turns(pair: Option<(&u64, &u64)>) -> Operation<u64, u64> {
    match pair {
        None => Operation::Insert(1),
        Some((_, 1)) => Operation::Insert(2),
        Some((_, 2)) => Operation::Remove,
        Some((_, count)) => Operation::Abort(*count),
    }
}

/// What a key was computed to by what was there, and the pairs that this names.
fn computed<R: Wait>(rt: &R, alloc: Global, map: &mut Own<'_>, key: u64) -> Told<String> {
    match map.compute(rt, &key, turns)? {
        ComputedPair::Inserted(new) => Ok(format!(in alloc; "inserted {}", map.value(new))?),
        ComputedPair::Updated { old, new } => pair(alloc, Some((map.value(old), map.value(new)))),
        ComputedPair::Removed(old) => Ok(format!(in alloc; "removed {}", map.value(old))?),
        ComputedPair::Aborted(count) => Ok(format!(in alloc; "aborted {count}")?),
    }
}

/// What a map answers to a call that makes a value of the one that is there, or where none is; and whether it asked for that.
fn of_making<R: Wait>(rt: &R, alloc: Global, map: &mut Own<'_>, call: &Call<'_>) -> Told<String> {
    let (key, value) = (call.key, call.value);
    let asked = AtomicU64::new(0);
    let new = || {
        asked.store(1, SeqCst);
        value
    };
    let said = match call.name {
        "try_insert_with" => {
            let (there, _) = map.try_insert_with(rt, key, new)?;
            one(alloc, Some(map.value(there)))?
        }
        "get_or_insert" => one(alloc, Some(map.get_or_insert(rt, key, value)?))?,
        "get_or_insert_with" => one(alloc, Some(map.get_or_insert_with(rt, key, new)?))?,
        "update" => match map.update(rt, &key, more)? {
            Some(new) => one(alloc, Some(map.value(new)))?,
            None => one(alloc, None)?,
        },
        "update_or_insert" => {
            let there = map.update_or_insert(rt, &key, more, &value)?;
            one(alloc, Some(map.value(there)))?
        }
        "update_or_insert_with" => {
            let there = map.update_or_insert_with(rt, &key, more, new)?;
            one(alloc, Some(map.value(there)))?
        }
        "compute" => computed(rt, alloc, map, key)?,
        "compute_none" => {
            let removed = map.compute(rt, &key, |_| Operation::Remove::<u64, ()>)?;
            so(alloc, matches!(removed, ComputedPair::Removed(_)))?
        }
        _ => of_all(rt, alloc, map, call)?,
    };
    if asked.load(SeqCst) == 0 {
        return Ok(said);
    }
    Ok(format!(in alloc; "{said} asked")?)
}

/// What a map answers to a call on all its pairs.
fn of_all<R: Wait>(rt: &R, alloc: Global, map: &mut Own<'_>, call: &Call<'_>) -> Told<String> {
    let (key, value) = (call.key, call.value);
    match call.name {
        "len" => one(alloc, Some(&map.len())),
        "is_empty" => so(alloc, map.is_empty()),
        "number" => so(alloc, map.pin().session().number() == map.number()),
        "keys" => list(alloc, map.keys(rt, alloc)?),
        "values" => list(alloc, map.values(rt, alloc)?),
        "clear" => so(alloc, map.clear(rt)? == ()),
        "reserve" => so(alloc, map.reserve(rt, key)? == ()),
        "retain" => so(alloc, map.retain(rt, |_, there| *there < key)? == ()),
        "extend" => so(
            alloc,
            map.extend(rt, [(key, 1), (value, 2), (key, 3)])? == (),
        ),
        "walk" => walked(rt, alloc, map, call),
        _ => of_many(rt, alloc, map, call),
    }
}

/// What a map answers to one call after another, on so many keys.
fn of_many<R: Wait>(rt: &R, alloc: Global, map: &mut Own<'_>, call: &Call<'_>) -> Told<String> {
    let many = call.key;
    match call.name {
        "fill" => one(alloc, Some(&whole::fills(rt, map, many)?)),
        "find" => one(alloc, Some(&whole::finds(rt, map, many, call.value))),
        "lower" => one(alloc, Some(&whole::lowers(rt, map, many, false)?)),
        "take" => one(alloc, Some(&whole::lowers(rt, map, many, true)?)),
        "show" => one(alloc, Some(&whole::shown(rt, map, many)?.0)),
        _ => Ok(format!(in alloc; "no call")?),
    }
}

/// The first two pairs of three keys that a walk lends.
fn walked<R: Wait>(rt: &R, alloc: Global, map: &mut Own<'_>, call: &Call<'_>) -> Told<String> {
    let mut walk = map.walk(vec![in alloc; 99, call.key, call.value]?);
    let (first, second) = (walk.next(rt), walk.next(rt));
    let (first, second) = (pair(alloc, first)?, pair(alloc, second)?);
    Ok(format!(in alloc; "{first}, {second}")?)
}

/// What a set answers to a call.
fn of_set<R: Wait>(rt: &R, alloc: Global, set: &mut Set<'_>, call: &Call<'_>) -> Told<String> {
    let key = call.key;
    match call.name {
        "get" => one(alloc, set.pin().get(rt, &key)),
        "contains" => so(alloc, set.contains(rt, &key)),
        "insert" => so(alloc, set.insert(rt, key)?),
        "remove" => so(alloc, set.remove(rt, &key)?),
        "number" => so(alloc, set.pin().session().number() == set.number()),
        "len" => one(alloc, Some(&set.len())),
        "is_empty" => so(alloc, set.is_empty()),
        _ => of_elements(rt, alloc, set, call),
    }
}

/// What it answers to a call on all its elements.
fn of_elements<R: Wait>(rt: &R, alloc: Global, set: &mut Set<'_>, call: &Call<'_>) -> Told<String> {
    let key = call.key;
    match call.name {
        "elements" => list(alloc, set.elements(rt, alloc)?),
        "clear" => so(alloc, set.clear(rt)? == ()),
        "reserve" => so(alloc, set.reserve(rt, key)? == ()),
        "retain" => so(alloc, set.retain(rt, |element| *element < key)? == ()),
        "extend" => so(alloc, set.extend(rt, [key, call.value, key])? == ()),
        "walk" => one(alloc, set.walk(vec![in alloc; 99, key]?).next(rt)),
        _ => Ok(format!(in alloc; "no call")?),
    }
}

/// The number that a word says.
fn number(word: Option<&str>) -> u64 {
    word.unwrap_or("").parse().unwrap_or(0)
}

/// What a call of a row answers.
fn says<R: Wait>(rt: &R, alloc: Global, on: &mut On<'_>, call: &str) -> Told<String> {
    let mut words = call.split_whitespace();
    let name = words.next().unwrap_or("");
    let (key, value) = (number(words.next()), number(words.next()));
    let call = Call { name, key, value };
    match on {
        On::Map(map) => of_key(rt, alloc, map, &call),
        On::Set(set) => of_set(rt, alloc, set, &call),
    }
}

/// The first of these calls that answers otherwise than the row says, and what it answers; or none.
fn wrong<R: Wait>(rt: &R, alloc: Global, on: &mut On<'_>, calls: &str) -> Told<Option<String>> {
    let mut rest = calls;
    for _ in 0..calls.len() {
        let (first, more) = rest.split_once(';').unwrap_or((rest, ""));
        let (call, answer) = first.split_once('=').unwrap_or((first, ""));
        let said = match says(rt, alloc, on, call) {
            Ok(said) => said,
            Err(fault) => format!(in alloc; "{}", fault.name())?,
        };
        if said.as_str() != answer.trim() {
            return Ok(Some(format!(in alloc; "{} = {said}", call.trim())?));
        }
        if more.is_empty() {
            return Ok(None);
        }
        rest = more;
    }
    Ok(None)
}

/// Makes the calls of a row on a new map or set of this mode.
fn of_new<R: Wait>(rt: &R, alloc: Global, mode: ResizeMode, row: &str) -> Told<Option<String>> {
    let (name, calls) = row.split_once(':').unwrap_or((row, ""));
    if name.starts_with("set") {
        let set = sets::built(alloc, mode)?;
        return wrong(rt, alloc, &mut On::Set(set.session()?), calls);
    }
    let map = made(alloc, mode)?;
    wrong(rt, alloc, &mut On::Map(map.session()?), calls)
}

/// Prints a row's name and whether it is so in each mode, or the first call that answers otherwise.
pub(crate) fn holds<R: Wait + Print>(rt: &R, alloc: Global, row: &str) -> io::Result<bool> {
    let (name, _) = row.split_once(':').unwrap_or((row, ""));
    for mode in MODES {
        if let Some(wrong) = of_new(rt, alloc, mode, row)? {
            println!(rt; "{name}: {mode:?}: {wrong}")?;
            return Ok(false);
        }
    }
    println!(rt; "{name}: true")?;
    Ok(true)
}
