//! Says of the map and the set that threads share what they were seen to do, a line each: of both modes, by one session and by several threads at a time. Each line of the
//! input is a row of calls on a new map, or a new set, and what they answer. Ends with an error where one line is not so.
#![tactic(auto)]

mod building;
mod keys;
mod rows;
mod sets;
mod whole;

use papaya::{Fault, HashMap, IdSource, ResizeMode, Session, SharedMap};
use std::alloc::Global;
use std::hash::{BuildHasherDefault, DefaultHasher, RandomState};
use std::io;
use std::random::RandomSource;
use std::sync::Wait;
use std::thread::Threads;
use std::time::Clock;

type Hashing = BuildHasherDefault<DefaultHasher>;

type Map = HashMap<u64, u64, Hashing>;

type Lent<'m> = SharedMap<'m, u64, u64, Hashing>;

type Own<'m> = Session<'m, u64, u64, Hashing>;

type Told<T> = Result<T, Fault>;

/// How a map comes to its next tables.
const MODES: [ResizeMode; 2] = [ResizeMode::Incremental(1), ResizeMode::Blocking];

/// How often one thread looks for what another one leaves, a millisecond apart.
const LOOKS: u64 = 5_000;

/// A map of this mode.
fn made(alloc: Global, mode: ResizeMode) -> Told<Map> {
    let builder = HashMap::builder(Hashing::default()).resize_mode(mode);
    builder.build(alloc, &mut IdSource::new())
}

/// One more than a count.
fn more(count: &u64) -> u64 {
    u64::wrapping_add(*count, 1)
}

/// Prints whether this is so, or why that can't be said.
fn tells<R: Print>(rt: &R, what: &str, is_so: Told<bool>) -> io::Result<bool> {
    match is_so {
        Ok(is_so) => println!(rt; "{what}: {is_so}")?,
        Err(fault) => println!(rt; "{what}: {fault}")?,
    }
    Ok(matches!(is_so, Ok(true)))
}

/// The bits of the keys so far, and one for the next key.
fn with(bits: u64, next: bool) -> u64 {
    u64::wrapping_add(u64::wrapping_mul(bits, 2), u64::from(next))
}

/// Prints what is so of maps and sets of this mode, and answers whether all is.
fn of_mode<R: Threads + Wait + Clock + Sync + Print>(
    rt: &R,
    alloc: Global,
    mode: ResizeMode,
) -> io::Result<bool> {
    println!(rt; "{mode:?}")?;
    let is_so = keys::meet(rt, made(alloc, mode));
    let mut all = tells(rt, "of two calls on a key one comes first", is_so)?;
    let is_so = keys::count(rt, made(alloc, mode));
    all = tells(rt, "no count is lost where two count", is_so)? && all;
    let is_so = building::meet(rt, building::built(alloc, mode));
    all = tells(rt, "two calls ask their closures at a time", is_so)? && all;
    let is_so = whole::grows(rt, made(alloc, mode));
    all = tells(rt, "keys are found while room is made", is_so)? && all;
    let is_so = whole::meet(rt, made(alloc, mode));
    all = tells(rt, "two walks show what stays, and meet", is_so)? && all;
    let is_so = whole::clears(rt, made(alloc, mode));
    all = tells(rt, "pairs are counted and cleared while others come", is_so)? && all;
    let is_so = whole::follow(rt, made(alloc, mode));
    all = tells(rt, "two passes meet while values are replaced", is_so)? && all;
    let is_so = whole::settle(rt, made(alloc, mode));
    all = tells(rt, "two are lent the value on which they settle", is_so)? && all;
    let is_so = sets::change(rt, sets::built(alloc, mode));
    all = tells(rt, "of two calls on an element one comes first", is_so)? && all;
    let is_so = sets::meet(rt, sets::built(alloc, mode));
    all = tells(rt, "two passes and two walks of a set meet", is_so)? && all;
    let is_so = sets::empties(rt, sets::built(alloc, mode));
    Ok(tells(rt, "a set is emptied of what waits", is_so)? && all)
}

/// Prints what is so of maps and sets whatever their mode is, and answers whether all is.
fn of_any<R: Threads + Wait + RandomSource + Sync + Print>(
    rt: &R,
    alloc: Global,
) -> io::Result<bool> {
    let is_so = building::reasons(alloc, RandomState::new(rt)?, RandomState::new(rt)?);
    let mut all = tells(rt, "the first reason refuses a map", is_so)?;
    let is_so = sets::made(alloc, RandomState::new(rt)?, RandomState::new(rt)?);
    all = tells(rt, "a set has the last number", is_so)? && all;
    let is_so = building::stays(rt, alloc);
    all = tells(rt, "what sessions have stored stays", is_so)? && all;
    let is_so = building::copies(rt, alloc);
    all = tells(rt, "a clone is the same until one changes", is_so)? && all;
    let is_so = sets::foreign(rt, alloc);
    Ok(tells(rt, "a set refuses what is of another one", is_so)? && all)
}

fn main(rt: HostRuntime) -> io::Result<()> {
    let alloc = rt.alloc();
    let mut is_so = of_any(&rt, alloc)?;
    for mode in MODES {
        is_so = of_mode(&rt, alloc, mode)? && is_so;
    }
    for line in rt.lines(alloc) {
        is_so = rows::holds(&rt, alloc, line?.as_str())? && is_so;
    }
    if is_so {
        return Ok(());
    }
    Err(io::Error::other("a line is not so"))
}
