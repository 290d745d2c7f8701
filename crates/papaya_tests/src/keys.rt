//! Two threads at a time, each at a work of its own; and what they do to the same keys: of two calls on a key one comes first, whoever is faster. A body that served one thread
//! after the other would pass there, too.
use crate::{Map, Own, Told, more, whole, with};
use papaya::Attempt;
use std::sync::Wait;
use std::thread::{self, Threads};
use std::time::Clock;

/// How many keys there are: a bit of a number for each.
const KEYS: u64 = 64;

/// How often each of two threads counts.
const TURNS: u64 = 1_000;

/// What a thread does, and what it tells of that.
#[derive(Clone, Copy)]
pub(crate) enum Work {
    /// At each key, a bit for each: whether a pair was replaced, was missing and is stored, was there and is gone, was there and is more.
    Stores(u64),
    Tries(u64),
    Removes,
    Adds,
    /// In turn, so often; or what the function of this name does.
    Counts(u64),
    Settles(u64),
    Reserves,
    Reads,
    Meets(u64),
    Fills,
    Clears,
}

/// Does it, in a section of this session, which ends then.
fn works<R: Wait + Clock>(rt: &R, mut session: Own<'_>, work: Work) -> Told<u64> {
    match work {
        Work::Counts(bits) => counts(rt, &mut session, bits),
        Work::Settles(value) => whole::settles(rt, &mut session, value),
        Work::Reserves => whole::reserves(rt, &mut session),
        Work::Reads => Ok(whole::reads(rt, &mut session)),
        Work::Meets(key) => whole::meets(rt, &mut session, key),
        Work::Fills => whole::fills(rt, &mut session, whole::FEW),
        Work::Clears => whole::clears_often(rt, &mut session),
        _ => each(rt, &mut session, work),
    }
}

/// Has two threads do so, and answers what each of them tells.
pub(crate) fn both<R: Threads + Wait + Clock + Sync>(
    rt: &R,
    map: &Map,
    one: Work,
    other: Work,
) -> Told<(u64, u64)> {
    let first = map.session()?;
    let second = first.another()?;
    let (one, other) = thread::join(rt, || works(rt, first, one), || works(rt, second, other));
    Ok((one?, other?))
}

/// Works at a key, and tells whether it did what the bit of that key stands for.
fn at<R: Wait>(rt: &R, session: &mut Own<'_>, work: Work, key: u64) -> Told<bool> {
    match work {
        Work::Stores(value) => Ok(session.insert(rt, key, value)?.is_some()),
        Work::Tries(value) => Ok(matches!(session.try_insert(rt, key, value)?.1, Attempt::Stored)),
        Work::Removes => Ok(session.take(rt, &key)?.is_some()),
        Work::Adds => Ok(session.update(rt, &key, more)?.is_some()),
        _ => Ok(false),
    }
}

/// Works at each key in turn.
fn each<R: Wait>(rt: &R, session: &mut Own<'_>, work: Work) -> Told<u64> {
    let mut bits = 0u64;
    for key in 0..KEYS {
        bits = with(bits, at(rt, session, work, key)?);
        session.refresh();
    }
    Ok(bits)
}

/// Which of the keys have a value from this one on, and below that one.
fn has<R: Wait>(rt: &R, mut session: Own<'_>, from: u64, to: u64) -> u64 {
    let mut there = 0u64;
    for key in 0..KEYS {
        let value = session.get(rt, &key).copied().unwrap_or(to);
        there = with(there, from <= value && value < to);
    }
    there
}

/// Two threads store all keys, each with a value of its own, add one to each, remove them, and store what is missing. Answers for which keys one of the two has replaced a
/// pair, and the values are theirs; for which both have added one, which shows; for which one of the two has removed a pair, and for which one has stored one; and which of
/// these are there then.
fn changed<R: Threads + Wait + Clock + Sync>(rt: &R, map: &Map) -> Told<[u64; 7]> {
    let replaced = both(rt, map, Work::Stores(0), Work::Stores(1))?;
    let stored = has(rt, map.session()?, 0, 2);
    let added = both(rt, map, Work::Adds, Work::Adds)?;
    let more = has(rt, map.session()?, 2, 4);
    let removed = both(rt, map, Work::Removes, Work::Removes)?;
    let tried = both(rt, map, Work::Tries(1), Work::Tries(2))?;
    Ok([
        replaced.0 ^ replaced.1,
        stored,
        added.0 & added.1,
        more,
        removed.0 ^ removed.1,
        tried.0 ^ tried.1,
        has(rt, map.session()?, 1, 3),
    ])
}

/// Tells whether all that is so of each key.
pub(crate) fn meet<R: Threads + Wait + Clock + Sync>(rt: &R, made: Told<Map>) -> Told<bool> {
    let map = made?;
    Ok(changed(rt, &map)? == [u64::MAX; 7])
}

/// Counts one up at each of the keys whose bits are among these, in turn.
fn counts<R: Wait>(rt: &R, session: &mut Own<'_>, bits: u64) -> Told<u64> {
    for turn in 0..TURNS {
        session.update_or_insert(rt, &(turn & bits), more, &1)?;
        session.refresh();
    }
    Ok(TURNS)
}

/// Two threads do so. Answers the sum of what is counted then.
fn counted<R: Threads + Wait + Clock + Sync>(rt: &R, map: &Map, bits: u64) -> Told<u64> {
    let _ = both(rt, map, Work::Counts(bits), Work::Counts(bits))?;
    let mut session = map.session()?;
    let mut sum = 0u64;
    session.each(rt, |_, count| sum = u64::wrapping_add(sum, *count))?;
    Ok(sum)
}

/// Tells whether no count is lost where two threads count, at one key, and then at sixteen.
pub(crate) fn count<R: Threads + Wait + Clock + Sync>(rt: &R, made: Told<Map>) -> Told<bool> {
    let map = made?;
    let sums = [counted(rt, &map, 0)?, counted(rt, &map, 15)?];
    Ok(sums == [2 * TURNS, 4 * TURNS])
}
