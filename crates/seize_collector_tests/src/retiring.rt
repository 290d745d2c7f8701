//! Two threads under one guard, each by a pass of its own, put values at the root, and retire what was there by the pass: nothing is dropped before the guard
//! ends.
ghost use Rattle.std.specs.Prelude.{◌<◌, ◌≡◌};

use crate::{Counted, DropCounts, Told, all_are, table};
use seize::Fault;
use seize_collector::{Collector, IdSource, OwnedGuard, Pass, Shared};
use std::alloc::Global;
use std::thread;
use std::thread::Threads;

/// How often each of them goes about.
const TIMES: usize = 2_000;

/// Puts a block of this value at the root, and retires what was there by the pass. Tells whether it did.
fn replaces(guard: &OwnedGuard<'_, Counted>, pass: &mut Pass<Counted>, value: Counted) -> bool
    requires rooted { 0 < guard.now.stay.caller.blocks.now.words.fixed.roots }
    requires source { pass.old.pass.seat.base ≡ guard.now.stay.caller.blocks.now.words.id.views_name }
    ensures source { pass.new.pass.seat.base ≡ pass.old.pass.seat.base }
{
    let mut near = 0;
    let Ok(owned) = guard.make(&mut near, value) else {
        return false;
    };
    match owned.swap(guard, 0, 0) {
        Ok(before) => match before.block() {
            Some(old) => match old.retire_by(pass) {
                Ok(()) => true,
                Err((_, old)) => {
                    old.kept();
                    false
                }
            },
            None => true,
        },
        Err((_, owned)) => {
            drop(owned.into_value());
            false
        }
    }
}

/// So many turns, with the values of so many places from one on. Tells whether each went well.
fn turns(
    guard: &OwnedGuard<'_, Counted>,
    pass: &mut Pass<Counted>,
    drops: &DropCounts,
    from: usize,
) -> bool
    requires rooted { 0 < guard.now.stay.caller.blocks.now.words.fixed.roots }
    requires source { pass.old.pass.seat.base ≡ guard.now.stay.caller.blocks.now.words.id.views_name }
{
    for turn in 0..TIMES {
        let Some(value) = Counted::of(drops, usize::wrapping_add(from, turn)) else {
            return false;
        };
        if !replaces(guard, pass, value) {
            return false;
        }
    }
    true
}

/// Two of them under one guard. Tells whether all went well, and whether no value had been dropped before the guard ended.
fn two_go<R: Threads + Sync>(
    rt: &R,
    collector: &Shared<'_, Counted>,
    drops: &DropCounts,
) -> Result<(bool, bool), Fault>
    requires rooted { 0 < collector.now.blocks.now.words.fixed.roots }
{
    let guard = collector.enter_owned()?;
    let mut one = collector.pass();
    let mut other = collector.pass();
    let (first, second) = thread::join(
        rt,
        || turns(&guard, &mut one, drops, 0),
        || turns(&guard, &mut other, drops, TIMES),
    );
    Ok((first && second, all_are(drops, 2 * TIMES, 0)))
}

/// The same over one collector, which ends then.
fn two_alone<R: Threads + Sync>(
    rt: &R,
    alloc: Global,
    drops: &DropCounts,
) -> Result<(bool, bool), Fault> {
    let mut ids = IdSource::new();
    let collector = Collector::new(alloc, &mut ids, 2, 1)?;
    two_go(rt, &collector.shared(), drops)
}

/// Tells whether what passes retire under a guard is there until it ends.
pub(crate) fn retire<R: Threads + Sync>(rt: &R, alloc: Global) -> Told {
    let drops = table(alloc, 2 * TIMES)?;
    let (went, kept) = two_alone(rt, alloc, &drops)?;
    Ok([went, kept, all_are(&drops, 2 * TIMES, 1)] == [true; 3])
}
