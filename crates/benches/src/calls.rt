//! The kinds of calls on maps, their turns, and how long these take.

use crate::maps::{Numbers, Owned, Std};
use std::alloc::Global;
use std::io;
use std::time::{Clock, Duration, Instant};

/// Keys are scattered over all numbers of 64 bits.
fn key(index: u64) -> u64 {
    index.wrapping_mul(0xd134_2543_de82_ef95)
}

/// Stores the index of each of so many keys.
fn fill<M: Numbers>(map: &mut M, keys: u64) {
    for index in 0..keys {
        map.store(key(index), index);
    }
}

/// Indices below a number of keys, one after another, in leaps: no two that follow each other are near, and each comes once before one comes again.
#[derive(Clone, Copy)]
struct Leaps {
    at: u64,
    by: u64,
    keys: u64,
}

impl Leaps {
    fn below(keys: u64) -> Leaps {
        let by = 7919 % keys.max(1);
        Leaps { at: 0, by, keys }
    }

    fn leap(&mut self) -> u64 {
        let at = self.at;
        let next = at.wrapping_add(self.by);
        self.at = if next < self.keys {
            next
        } else {
            next.wrapping_sub(self.keys)
        };
        at
    }
}

/// The sum of the values that are found of keys, from an index on.
fn look<M: Numbers>(map: &M, first: u64, keys: u64, turns: u64) -> u64 {
    let mut leaps = Leaps::below(keys);
    let mut sum: u64 = 0;
    for _ in 0..turns {
        let index = first.wrapping_add(leaps.leap());
        sum = sum.wrapping_add(map.value(key(index)).unwrap_or(0));
    }
    sum
}

/// Adds one to the index that each key has.
fn replace<M: Numbers>(map: &mut M, keys: u64, turns: u64) -> u64 {
    let mut leaps = Leaps::below(keys);
    for _ in 0..turns {
        let index = leaps.leap();
        map.store(key(index), index.wrapping_add(1));
    }
    map.total()
}

/// Removes keys, and stores each again before the next.
fn remove_and_store<M: Numbers>(map: &mut M, keys: u64, turns: u64) -> u64 {
    let mut leaps = Leaps::below(keys);
    for _ in 0..turns {
        let index = leaps.leap();
        map.lose(key(index));
        map.store(key(index), index);
    }
    map.total()
}

/// Moves a window of keys on, one a turn: the next key is stored, and the oldest removed.
fn slide<M: Numbers>(map: &mut M, keys: u64, turns: u64) -> u64 {
    for oldest in 0..turns {
        let next = oldest.wrapping_add(keys);
        map.store(key(next), next);
        map.lose(key(oldest));
    }
    map.total()
}

/// The sum of all values, read again and again until so many were read.
fn walk<M: Numbers>(map: &M, keys: u64, turns: u64) -> u64 {
    let mut sum: u64 = 0;
    for _ in 0..turns / keys.max(1) {
        sum = sum.wrapping_add(map.total());
    }
    sum
}

/// Takes so many turns on a map that was filled, and answers the sum of what was found, or of what there is then: a key is looked for that is there, or that is
/// not; its value is replaced; it is removed and stored again; the next one is stored and the oldest removed; or a pair of a walk over all is read.
fn take<M: Numbers>(map: &mut M, kind: &str, keys: u64, turns: u64) -> u64 {
    match kind {
        "hit" => look(map, 0, keys, turns),
        "miss" => look(map, keys, keys, turns),
        "replace" => replace(map, keys, turns),
        "in_turn" => remove_and_store(map, keys, turns),
        "window" => slide(map, keys, turns),
        "iterate" => walk(map, keys, turns),
        _ => 0,
    }
}

/// How long the turns take on a map with so many keys, and the sum of what they find. The turns of `insert` are its keys.
fn timed<M: Numbers, C: Clock>(
    clock: &C,
    map: &mut M,
    kind: &str,
    keys: u64,
    turns: u64,
) -> io::Result<(Duration, u64)> {
    let start = Instant::now(clock)?;
    fill(map, keys);
    let filling = start.elapsed(clock)?;
    if kind == "insert" {
        return Ok((filling, map.total()));
    }
    let start = Instant::now(clock)?;
    let sum = take(map, kind, keys, turns);
    Ok((start.elapsed(clock)?, sum))
}

/// So it does on the map of this name, `owned` or std's.
pub(crate) fn timed_on<C: Clock>(
    clock: &C,
    alloc: Global,
    map: &str,
    kind: &str,
    keys: u64,
    turns: u64,
) -> io::Result<(Duration, u64)> {
    if map == "owned" {
        let mut map = Owned::new(alloc)?;
        return timed(clock, &mut map, kind, keys, turns);
    }
    let mut map = Std::new(alloc);
    timed(clock, &mut map, kind, keys, turns)
}
