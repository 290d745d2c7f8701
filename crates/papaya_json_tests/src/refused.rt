//! Each call on a map and a set that threads share that asks for memory, also of JSON: where it is refused, nothing has changed, and it is made again, and done then.
use crate::{Hashing, Map, Set, Told};
use papaya_json::{
    Attempt, Fault, FromJson, HashMap, HashSet, IdSource, JsonFault, Operation, ResizeMode,
    Session, SetSession, ToJson,
};
use serde_json::Value;
use std::alloc::Global;
use std::io;
use std::sync::Wait;

/// How many keys are stored: more than the memory has numbers for blocks at first, and than the first tables have places.
const KEYS: u64 = 200;

/// How many sessions there are at once: more than the first bucket has slots.
const SESSIONS: u64 = 40;

type Own<'m> = Session<'m, u64, u64, Hashing>;

/// A map.
fn made(alloc: Global) -> Told<Map> {
    let mut ids = IdSource::new();
    match HashMap::with_hasher(alloc, &mut ids, Hashing::default()) {
        Err(Fault::Memory) => HashMap::with_hasher(alloc, &mut ids, Hashing::default()),
        answer => answer,
    }
}

/// The first session on a map.
fn begun<'m>(map: &'m Map) -> Told<Own<'m>> {
    match map.session() {
        Err(Fault::Memory) => map.session(),
        answer => answer,
    }
}

/// The first section of a registration.
fn entered<'m>(map: &'m Map) -> Told<Own<'m>> {
    let registration = match map.register() {
        Err(Fault::Memory) => map.register()?,
        answer => answer?,
    };
    Ok(registration.enter())
}

/// One session more.
fn another<'m>(session: &Own<'m>) -> Told<Own<'m>> {
    match session.another() {
        Err(Fault::Memory) => session.another(),
        answer => answer,
    }
}

/// Stores a key with this value, where it had that one before, or none; tells whether it is there then. Where it came back, what was there was there still.
fn stores<R: Wait>(
    rt: &R,
    session: &mut Own<'_>,
    key: u64,
    before: Option<u64>,
    value: u64,
) -> bool {
    let same = match session.insert(rt, key, value) {
        Ok(old) => old.is_some() == before.is_some(),
        Err(back) => {
            let came = matches!(back.fault, Fault::Memory)
                && back.key == key
                && back.value == value;
            came && session.get(rt, &key).copied() == before
                && session.insert(rt, back.key, back.value).is_ok()
        }
    };
    same && session.get(rt, &key).copied() == Some(value)
}

/// Stores a key, which is there already, where it is missing; tells whether it comes back, and what was there is there still.
fn tries<R: Wait>(rt: &R, session: &mut Own<'_>, key: u64, there: u64) -> bool {
    let came = match session.try_insert(rt, key, 0) {
        Ok((_, Attempt::Stored)) => false,
        Ok((_, Attempt::Present(back, value))) => back == key && value == 0,
        Err(back) => {
            let came = matches!(back.fault, Fault::Memory) && back.key == key && back.value == 0;
            came && matches!(
                session.try_insert(rt, key, 0),
                Ok((_, Attempt::Present(_, _)))
            )
        }
    };
    came && session.get(rt, &key).copied() == Some(there)
}

/// Removes a key, which is there, and tells whether it is gone then. Where that was refused, it was there still.
fn removes<R: Wait>(rt: &R, session: &mut Own<'_>, key: u64) -> bool {
    let removed = match session.remove(rt, &key) {
        Ok(removed) => removed.is_some(),
        Err(fault) => {
            let still = matches!(fault, Fault::Memory) && session.contains_key(rt, &key);
            still && matches!(session.remove(rt, &key), Ok(Some(_)))
        }
    };
    removed && !session.contains_key(rt, &key)
}

/// Stores all keys, each with its double, and then each with itself, tries to store each once more, and removes each; tells whether each time all was as it should be.
fn all<R: Wait>(rt: &R, alloc: Global) -> Told<bool> {
    let map = made(alloc)?;
    let mut session = begun(&map)?;
    let mut are_there = true;
    for key in 0..KEYS {
        are_there = stores(rt, &mut session, key, None, key.wrapping_mul(2)) && are_there;
    }
    for key in 0..KEYS {
        are_there = stores(rt, &mut session, key, Some(key.wrapping_mul(2)), key) && are_there;
        session.refresh();
    }
    for key in 0..KEYS {
        let tried = tries(rt, &mut session, key, key);
        are_there = removes(rt, &mut session, key) && tried && are_there;
        session.refresh();
    }
    Ok(are_there)
}

/// A map that was built, with room for some pairs.
fn built(alloc: Global) -> Told<Map> {
    let mut ids = IdSource::new();
    let first = HashMap::builder(Hashing::default())
        .capacity(100)
        .resize_mode(ResizeMode::Incremental(8))
        .build(alloc, &mut ids);
    match first {
        Err(Fault::Memory) => HashMap::with_capacity_and_hasher(
            alloc,
            &mut ids,
            100,
            Hashing::default(),
        ),
        answer => answer,
    }
}

/// Stores a value that is made at a key that is missing; tells whether it is there then. Where that was refused, none was there.
fn makes<R: Wait>(rt: &R, session: &mut Own<'_>, key: u64, value: u64) -> bool {
    let stored = match session.try_insert_with(rt, key, || value) {
        Ok((_, stored)) => stored,
        Err(fault) => {
            let none = matches!(fault, Fault::Memory) && !session.contains_key(rt, &key);
            none && matches!(session.try_insert_with(rt, key, || value), Ok((_, true)))
        }
    };
    stored && session.get(rt, &key).copied() == Some(value)
}

/// Removes the pair of a key, which has this value, by a test; tells whether it is gone then. Where that was refused, it was there still.
fn tests<R: Wait>(rt: &R, session: &mut Own<'_>, key: u64, value: u64) -> bool {
    let removed = match session.remove_if(rt, &key, |_, there| *there == value) {
        Ok(taken) => taken.is_some(),
        Err(fault) => {
            let still = matches!(fault, Fault::Memory) && session.contains_key(rt, &key);
            still
                && matches!(
                    session.remove_if(rt, &key, |_, there| *there == value),
                    Ok(Some(_))
                )
        }
    };
    removed && !session.contains_key(rt, &key)
}

/// Lists the keys and the values, and tells whether as many were listed as there are.
fn lists<R: Wait>(rt: &R, alloc: Global, session: &mut Own<'_>) -> Told<bool> {
    let keys = match session.keys(rt, alloc) {
        Err(Fault::Memory) => session.keys(rt, alloc)?,
        answer => answer?,
    };
    let values = match session.values(rt, alloc) {
        Err(Fault::Memory) => session.values(rt, alloc)?,
        answer => answer?,
    };
    Ok(u64::try_from(keys.len()) == Ok(session.len()) && values.len() == keys.len())
}

/// Makes the values of all keys in a map that was built, and removes each; tells whether each time all was as it should be.
fn asks<R: Wait>(rt: &R, alloc: Global) -> Told<bool> {
    let map = built(alloc)?;
    let mut session = begun(&map)?;
    let mut are_there = true;
    for key in 0..KEYS {
        are_there = makes(rt, &mut session, key, key) && are_there;
        session.refresh();
    }
    are_there = lists(rt, alloc, &mut session)? && are_there;
    for key in 0..KEYS {
        are_there = tests(rt, &mut session, key, key) && are_there;
        session.refresh();
    }
    Ok(are_there)
}

/// So many sessions more, each of which is there as long as the later ones are; tells whether each finds what the first one has stored.
fn follow<R: Wait>(rt: &R, session: &Own<'_>, left: u64) -> Told<bool> {
    if left == 0 {
        return Ok(true);
    }
    let mut next = another(session)?;
    let found = next.get(rt, &1).copied() == Some(2);
    Ok(follow(rt, &next, left - 1)? && found)
}

/// Begins sessions, all of which are there at once, and tells whether each finds what the first one has stored.
fn sessions<R: Wait>(rt: &R, alloc: Global) -> Told<bool> {
    let map = made(alloc)?;
    let mut first = begun(&map)?;
    let stored = stores(rt, &mut first, 1, None, 2);
    Ok(follow(rt, &first, SESSIONS - 1)? && stored)
}

/// One more than a count.
fn more(count: &u64) -> u64 {
    count.wrapping_add(1)
}

/// A count that is raised, or begins.
fn raises(pair: Option<(&u64, &u64)>) -> Operation<u64, ()> {
    match pair {
        None => Operation::Insert(1),
        Some((_, count)) => Operation::Insert(more(count)),
    }
}

/// How many of these were done.
fn many(done: [bool; 4]) -> u64 {
    let mut many = 0u64;
    for is in done {
        many = many.wrapping_add(u64::from(is));
    }
    many
}

/// Adds one to the count of a key, by each call that stores what is made of what is there; tells whether it has come to as many as were not refused, which are all but one at least.
fn counts<R: Wait>(rt: &R, session: &mut Own<'_>, key: u64) -> bool {
    let put = session.update_or_insert(rt, &key, more, &1).is_ok();
    let with = session.update_or_insert_with(rt, &key, more, || 1).is_ok();
    let updated = matches!(session.update(rt, &key, more), Ok(Some(_)));
    let computed = session.compute(rt, &key, raises).is_ok();
    let done = many([put, with, updated, computed]);
    done >= 3 && session.get(rt, &key).copied() == Some(done)
}

/// Lets a key settle on a value, twice, and takes its pair out, twice; tells whether it was done each time but once.
fn settles<R: Wait>(rt: &R, session: &mut Own<'_>, key: u64) -> bool {
    let first = session.get_or_insert(rt, key, 7).is_ok();
    let again = session.get_or_insert_with(rt, key, || 7).is_ok();
    let there = session.get(rt, &key).copied() == Some(7);
    let taken = session.remove_entry(rt, &key).is_ok();
    let gone = session.remove_entry(rt, &key).is_ok();
    (first || again) && there && (taken || gone) && !session.contains_key(rt, &key)
}

/// Makes each call on the whole map twice; tells whether it was done one time at least, and what there is then.
fn goes_over<R: Wait>(rt: &R, session: &mut Own<'_>) -> bool {
    let (room, more) = (
        session.reserve(rt, 2_000).is_ok(),
        session.reserve(rt, 2_000).is_ok(),
    );
    let all = [(1, 5), (2, 5)];
    let (put, again) = (
        session.extend(rt, all).is_ok(),
        session.extend(rt, all).is_ok(),
    );
    let (shown, twice) = (
        session.each(rt, |_, _| {}).is_ok(),
        session.each(rt, |_, _| {}).is_ok(),
    );
    let kept = session.retain(rt, |key, _| *key == 1).is_ok();
    let still = session.retain(rt, |key, _| *key == 1).is_ok();
    let one = session.len() == 1;
    let (cleared, gone) = (session.clear(rt).is_ok(), session.clear(rt).is_ok());
    let done = (room || more) && (put || again) && (shown || twice) && (kept || still);
    done && one && (cleared || gone) && session.is_empty()
}

/// Counts each key up, lets each settle, and goes over all then; tells whether each time all was as it should be.
fn changes<R: Wait>(rt: &R, alloc: Global) -> Told<bool> {
    let map = made(alloc)?;
    let mut session = begun(&map)?;
    let mut are_there = true;
    for key in 0..KEYS {
        let counted = counts(rt, &mut session, key);
        are_there = settles(rt, &mut session, key.wrapping_add(KEYS)) && counted && are_there;
        session.refresh();
    }
    Ok(goes_over(rt, &mut session) && are_there)
}

/// Puts a key into a set, which has it not; tells whether it is there then. Where it came back, it was not there.
fn puts<R: Wait>(rt: &R, session: &mut SetSession<'_, u64, Hashing>, key: u64) -> bool {
    let new = match session.insert(rt, key) {
        Ok(new) => new,
        Err(back) => {
            let none = matches!(back.fault, Fault::Memory) && !session.contains(rt, &key);
            none && matches!(session.insert(rt, back.key), Ok(true))
        }
    };
    new && session.contains(rt, &key)
}

/// Puts all keys into a set.
fn fills<R: Wait>(rt: &R, set: &Set) -> Told<bool> {
    let session = match set.session() {
        Err(Fault::Memory) => set.session(),
        answer => answer,
    };
    let mut session = session?;
    let mut are_there = true;
    for key in 0..KEYS {
        are_there = puts(rt, &mut session, key) && are_there;
    }
    Ok(are_there)
}

/// A clone of a map.
fn cloned<R: Wait>(rt: &R, alloc: Global, map: &Map) -> Told<Map> {
    let mut ids = IdSource::new();
    match map.clone(rt, alloc, &mut ids) {
        Err(Fault::Memory) => map.clone(rt, alloc, &mut ids),
        answer => answer,
    }
}

/// Tells whether two maps are the same.
fn are_same<R: Wait>(rt: &R, one: &mut Own<'_>, other: &mut Own<'_>) -> Told<bool> {
    match one.same(rt, other) {
        Err(Fault::Memory) => one.same(rt, other),
        answer => answer,
    }
}

/// Clones a map of all keys, and tells whether the clone is the same until one more is stored there.
fn copies<R: Wait>(rt: &R, alloc: Global) -> Told<bool> {
    let map = made(alloc)?;
    let mut session = entered(&map)?;
    let mut are_there = true;
    for key in 0..KEYS {
        are_there = stores(rt, &mut session, key, None, key) && are_there;
    }
    let copy = cloned(rt, alloc, &map)?;
    let mut other = begun(&copy)?;
    let same = are_same(rt, &mut session, &mut other)?;
    are_there = stores(rt, &mut other, KEYS, None, 0) && are_there;
    Ok(same && !are_same(rt, &mut session, &mut other)? && are_there)
}

/// A map, as JSON.
fn written<R: Wait>(rt: &R, alloc: Global, session: &mut Own<'_>) -> Told<Value> {
    match session.to_value(rt, alloc) {
        Err(Fault::Memory) => session.to_value(rt, alloc),
        answer => answer,
    }
}

/// The map of a value of JSON.
fn read<R: Wait>(rt: &R, alloc: Global, value: &Value) -> Result<Map, JsonFault> {
    let mut ids = IdSource::new();
    match Map::from_value(rt, alloc, &mut ids, Hashing::default(), value) {
        Err(JsonFault::Refused(_)) => Map::from_value(
            rt,
            alloc,
            &mut ids,
            Hashing::default(),
            value,
        ),
        answer => answer,
    }
}

/// Writes a map of one pair as JSON, and reads one of that; tells whether the pair is there then.
fn reads<R: Wait>(rt: &R, alloc: Global) -> Result<bool, JsonFault> {
    let map = made(alloc)?;
    let mut session = begun(&map)?;
    let stored = stores(rt, &mut session, 1, None, 2);
    let value = written(rt, alloc, &mut session)?;
    let other = read(rt, alloc, &value)?;
    let mut session = begun(&other)?;
    Ok(session.get(rt, &1).copied() == Some(2) && stored)
}

/// Makes a set, and puts all keys into it.
fn elements<R: Wait>(rt: &R, alloc: Global) -> Told<bool> {
    let mut ids = IdSource::new();
    let set = match HashSet::with_hasher(alloc, &mut ids, Hashing::default()) {
        Err(Fault::Memory) => HashSet::with_hasher(alloc, &mut ids, Hashing::default()),
        answer => answer,
    };
    fills(rt, &set?)
}

/// Prints whether each is so, a line for calls of one kind.
pub(crate) fn calls<R: Wait + Print>(rt: &R, alloc: Global) -> io::Result<()> {
    println!(rt; "all keys: {}", all(rt, alloc)?)?;
    println!(rt; "all that is asked for: {}", asks(rt, alloc)?)?;
    println!(rt; "all sessions: {}", sessions(rt, alloc)?)?;
    println!(rt;
        "all that is made of what is there: {}",
        changes(rt, alloc)?
    )?;
    println!(rt; "all copies: {}", copies(rt, alloc)?)?;
    println!(rt; "all elements: {}", elements(rt, alloc)?)?;
    let read = reads(rt, alloc).map_err(|_| io::Error::other("no map was read"))?;
    println!(rt; "all JSON: {read}")
}
