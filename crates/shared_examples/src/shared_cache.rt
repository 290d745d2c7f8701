//! Four threads share a cache of squares. Who finds a square there has a hit, and who does not works it out, and keeps it there for the others. What is long past is let go.
use crate::{Hashing, LOOKS};
use papaya_json::{Fault, HashMap, IdSource, Session};
use std::alloc::Global;
use std::io;
use std::sync::Wait;
use std::thread::{self, Threads};
use std::time::{Clock, Duration};

/// For how many numbers each of them asks.
const NUMBERS: u64 = 1_000;

/// How many of the last numbers stay in the cache.
const KEPT: u64 = 100;

/// The cache, as one thread has it.
type Cache<'m> = Session<'m, u64, u64, Hashing>;

/// The square of a number, which is worked out where the cache has none, and whether that was a hit.
fn square<R: Wait>(rt: &R, cache: &mut Cache<'_>, number: u64) -> Result<(u64, bool), Fault> {
    let (square, stored) = cache.try_insert_with(rt, number, || number.wrapping_mul(number))?;
    Ok((*cache.value(square), !stored))
}

/// Asks for each number, and lets go what is long past. Answers how many squares were right, and how many were hits.
fn asks<R: Wait>(rt: &R, cache: &mut Cache<'_>) -> Result<(u64, u64), Fault> {
    let (mut right, mut hits) = (0u64, 0u64);
    for number in 0..NUMBERS {
        let (square, hit) = square(rt, cache, number)?;
        right = right.wrapping_add(u64::from(square == number.wrapping_mul(number)));
        hits = hits.wrapping_add(u64::from(hit));
        if number >= KEPT {
            cache.remove(rt, &(number - KEPT))?;
        }
        cache.refresh();
    }
    Ok((right, hits))
}

/// Leaves a key of its own there, and looks whether that of the next thread comes to be there.
fn meets<R: Wait + Clock>(rt: &R, cache: &mut Cache<'_>, own: u64) -> Result<bool, Fault> {
    cache.insert(rt, NUMBERS.wrapping_add(own), own)?;
    let next = NUMBERS.wrapping_add(own.wrapping_add(1) % 4);
    for _ in 0..LOOKS {
        if cache.contains_key(rt, &next) {
            return Ok(true);
        }
        cache.refresh();
        thread::sleep(rt, Duration::from_millis(1));
    }
    Ok(false)
}

/// What one thread has come to: how many squares were right, how many were hits, and whether it has met what another thread had left.
fn works<R: Wait + Clock>(rt: &R, own: u64, cache: Cache<'_>) -> Result<(u64, u64, bool), Fault> {
    let mut cache = cache;
    let met = meets(rt, &mut cache, own)?;
    let (right, hits) = asks(rt, &mut cache)?;
    Ok((right, hits, met))
}

/// Four threads share a cache, and it is told what they have come to.
pub(crate) fn run<R: Threads + Wait + Clock + Sync + Print>(
    rt: &R,
    alloc: Global,
) -> io::Result<()> {
    let mut ids = IdSource::new();
    let map = HashMap::with_hasher(alloc, &mut ids, Hashing::default())?;
    let first = map.session()?;
    let (second, third, fourth) = (first.another()?, first.another()?, first.another()?);
    let ((a, b), (c, d)) = thread::join(
        rt,
        || { thread::join(rt, || works(rt, 0, first), || works(rt, 1, second)) },
        || { thread::join(rt, || works(rt, 2, third), || works(rt, 3, fourth)) },
    );
    let (a, b, c, d) = (a?, b?, c?, d?);
    let right = a.0.wrapping_add(b.0).wrapping_add(c.0).wrapping_add(d.0);
    let hits = a.1.wrapping_add(b.1).wrapping_add(c.1).wrapping_add(d.1);
    println!(rt; "{right} squares were right")?;
    println!(rt;
        "those that stay were worked out once: {}",
        hits >= 3 * KEPT
    )?;
    println!(rt;
        "each thread has met what another one had left: {}",
        a.2 && b.2 && c.2 && d.2
    )
}
