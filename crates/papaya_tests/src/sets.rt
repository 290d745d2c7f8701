//! What two threads do to a set; how one is built, and emptied of what waits; and what refuses one, or a guard and a pass of another set.
ghost use Rattle.std.specs.Prelude.{◌≡◌, ◌≢◌};

use crate::{Hashing, LOOKS, Told, with};
use papaya::{
    Collector, Fault, HashSet, IdSource, Pass, RefusedKey, ResizeMode, SetSession, SharedSet,
};
use std::alloc::Global;
use std::hash::RandomState;
use std::sync::Wait;
use std::thread::{self, Threads};
use std::time::{Clock, Duration};

pub(crate) type Set = HashSet<u64, Hashing>;

pub(crate) type Own<'m> = SetSession<'m, u64, Hashing>;

type Lent<'m> = SharedSet<'m, u64, Hashing>;

/// Tells whether a source of one number gives that to a set, and none to another one.
pub(crate) fn made(alloc: Global, one: RandomState, other: RandomState) -> Told<bool> {
    let mut ids = IdSource::starting_at(u64::MAX - 1);
    let last = HashSet::<u64>::with_capacity(alloc, &mut ids, 100, one);
    let none = HashSet::<u64>::new(alloc, &mut ids, other);
    Ok(last.is_ok() && matches!(none, Err(Fault::CollectorsUsedUp)))
}

/// A set of this mode, which was built with all that can be chosen.
pub(crate) fn built(alloc: Global, mode: ResizeMode) -> Told<Set> {
    let mut ids = IdSource::new();
    let collector = Collector::new(&mut ids, 1, 4)?.batch_size(1);
    let builder = HashSet::builder(Hashing::default())
        .hasher(Hashing::default())
        .capacity(10);
    let builder = builder.collector(collector).shards(2).resize_mode(mode);
    builder.build(alloc, &mut ids)
}

/// Puts 64 keys into the set, or takes them out: which of them were new, or were there, a bit for each.
fn changes<R: Wait>(rt: &R, mut set: Own<'_>, takes: bool) -> Told<u64> {
    let mut bits = 0u64;
    for key in 0..64u64 {
        let done = if takes {
            set.remove(rt, &key)?
        } else {
            set.insert(rt, key)?
        };
        bits = with(bits, done);
        set.refresh();
    }
    Ok(bits)
}

/// Two threads do so. Answers for which keys just one of them has.
fn both<R: Threads + Wait + Sync>(rt: &R, set: &Set, takes: bool) -> Told<u64> {
    let (first, second) = (set.session()?, set.session()?);
    let (one, other) = thread::join(
        rt,
        || changes(rt, first, takes),
        || changes(rt, second, takes),
    );
    Ok(one? ^ other?)
}

/// Tells whether just one of two threads that put the same keys has put each, and one of two that take them out has taken it.
pub(crate) fn change<R: Threads + Wait + Sync>(rt: &R, made: Told<Set>) -> Told<bool> {
    let set = made?;
    let (new, taken) = (both(rt, &set, false)?, both(rt, &set, true)?);
    Ok(new == u64::MAX && taken == u64::MAX && set.session()?.len() == 0)
}

/// Puts one of two keys by a session of its own, and waits until a walk shows both, and a pass under the guard finds the other one.
fn leaves<R: Wait + Clock>(rt: &R, set: &Lent<'_>, guard: &Own<'_>, key: u64) -> Told<bool> {
    let mut session = set.session()?;
    let _ = session.insert(rt, key)?;
    let mut pass = guard.pass();
    for turn in 0..LOOKS {
        let mut sum = 0u64;
        session.each(rt, |key| sum = u64::wrapping_add(sum, *key))?;
        if guard.contains_by(rt, &(key ^ 1), &mut pass)? && sum == 13 {
            return Ok(true);
        }
        thread::sleep(rt, Duration::from_millis(1));
    }
    Ok(false)
}

/// Tells whether two threads do so under one guard.
pub(crate) fn meet<R: Threads + Wait + Clock + Sync>(rt: &R, made: Told<Set>) -> Told<bool> {
    let made = made?;
    let set = made.shared();
    let guard = set.session()?;
    let (one, other) = thread::join(
        rt,
        || leaves(rt, &set, &guard, 6),
        || leaves(rt, &set, &guard, 7),
    );
    Ok(one? && other?)
}

/// Tells whether a set has what it had once it is emptied, and goes on.
pub(crate) fn empties<R: Wait>(rt: &R, made: Told<Set>) -> Told<bool> {
    let mut set = made?;
    let mut session = set.session()?;
    let stored = session.insert(rt, 1)? && session.insert(rt, 2)? && session.remove(rt, &1)?;
    drop(session);
    let owned = set.reclaim_all();
    let mut next = set.session()?;
    Ok(stored && owned && next.insert(rt, 1)? && next.contains(rt, &2) && next.len() == 2)
}

/// Whether calls on a set refuse a guard and a pass that are of another one.
fn refuses<R: Wait>(
    rt: &R,
    set: &Lent<'_>,
    guard: &Own<'_>,
    other: &mut Own<'_>,
    pass: &mut Pass<u64, (), Hashing>,
) -> [bool; 5]
    requires other { other.old.session.number ≢ set.now.map.number }
    requires pass { pass.old.number ≢ set.now.map.number }
    requires number { guard.now.session.number ≡ set.now.map.number }
    requires memory { guard.now.session.base.caller.blocks.now ≡ set.now.map.blocks.now }
    requires map { guard.now.session.base.caller.seat.view.map ≡ set.now.map.seat.now.view.map }
{
    [
        matches!(set.get(rt, &1, other, pass), Err(Fault::ForeignGuard)),
        matches!(set.contains(rt, &1, guard, pass), Err(Fault::ForeignGuard)),
        matches!(guard.contains_by(rt, &1, pass), Err(Fault::ForeignGuard)),
        matches!(set.remove(rt, &1, other), Err(Fault::ForeignGuard)),
        matches!(set.insert(rt, 1, other), Err(RefusedKey { key: 1, .. })),
    ]
}

/// Tells whether they do, and go with their own.
pub(crate) fn foreign<R: Wait>(rt: &R, alloc: Global) -> Told<bool> {
    let mut ids = IdSource::new();
    let own = Set::with_hasher(alloc, &mut ids, Hashing::default())?;
    let other = Set::with_hasher(alloc, &mut ids, Hashing::default())?;
    let set = own.shared();
    let mut guard = own.session()?;
    let mut strange = other.session()?;
    let mut pass = set.pass();
    let mut unknown = strange.pass();
    let refused = refuses(rt, &set, &guard, &mut strange, &mut unknown);
    let gone = [
        matches!(set.insert(rt, 1, &mut guard), Ok(true)),
        matches!(set.contains(rt, &1, &guard, &mut pass), Ok(true)),
        matches!(set.get(rt, &1, &guard, &mut pass), Ok(Some(1))),
        matches!(set.remove(rt, &1, &mut guard), Ok(true)),
    ];
    Ok(refused == [true; 5] && gone == [true; 4])
}
