//! Two threads under one guard, each by a pass of its own, mark the word at a root: who has marked it first is alone to replace it, so no other word is there
//! then.
ghost use Rattle.std.specs.Prelude.{◌<◌, ◌≡◌};

use crate::{Counted, DropCounts, Told, all_are, dropped, table};
use seize::Fault;
use seize_collector::{
    Collector, IdSource, OwnedGuard, Pass, Registration, RootGuard, Shared, Tagged,
};
use std::alloc::Global;
use std::thread;
use std::thread::Threads;

/// How often each of them goes about.
const TIMES: usize = 5_000;

/// Puts a block of this value in the place of this word, and retires what was there. Tells whether that word was there still.
fn replaces(
    guard: &OwnedGuard<'_, Counted>,
    registration: &mut Registration<'_, Counted>,
    known: Tagged,
    value: Counted,
) -> bool
    requires rooted { 0 < guard.now.stay.caller.blocks.now.words.fixed.roots }
    requires home { registration.old.stay.caller.blocks.now ≡ guard.now.stay.caller.blocks.now }
    ensures home { registration.new.stay.caller.blocks ≡ registration.old.stay.caller.blocks }
{
    let mut near = 0;
    let Ok(owned) = guard.make(&mut near, value) else {
        return false;
    };
    match owned.compare_exchange(guard, 0, known, 0) {
        Ok(Ok(before)) => match before.block() {
            Some(old) => match registration.retire(old) {
                Ok(()) => true,
                Err((_, old)) => {
                    old.kept();
                    false
                }
            },
            None => true,
        },
        Ok(Err((_, owned))) => {
            drop(owned.into_value());
            false
        }
        Err((_, owned)) => {
            drop(owned.into_value());
            false
        }
    }
}

/// Marks the word at the root, and replaces it where nobody has marked it before, and tells whether it has. There is no answer where the value that it has seen
/// had been dropped, or another word was there as it replaced it.
fn marks(
    guard: &OwnedGuard<'_, Counted>,
    pass: &mut Pass<Counted>,
    registration: &mut Registration<'_, Counted>,
    value: Counted,
) -> Option<bool>
    requires rooted { 0 < guard.now.stay.caller.blocks.now.words.fixed.roots }
    requires source { pass.old.pass.seat.base ≡ guard.now.stay.caller.blocks.now.words.id.views_name }
    requires home { registration.old.stay.caller.blocks.now ≡ guard.now.stay.caller.blocks.now }
    ensures source { pass.new.pass.seat.base ≡ pass.old.pass.seat.base }
    ensures home { registration.new.stay.caller.blocks ≡ registration.old.stay.caller.blocks }
{
    let Ok(Some(before)) = guard.mark_by(0, 1, pass) else {
        return None;
    };
    if let Some(seen) = before.get() {
        if dropped(&seen.drops, seen.place) != 0 {
            return None;
        }
    }
    if before.tagged().tag() & 1 != 0 {
        return Some(false);
    }
    let Ok(Some(now)) = guard.protect_by(0, pass) else {
        return None;
    };
    if replaces(guard, registration, now.tagged(), value) {
        Some(true)
    } else {
        None
    }
}

/// So many turns, with the values of so many places from one on. Answers how often it has replaced the word.
fn turns(
    guard: &OwnedGuard<'_, Counted>,
    pass: &mut Pass<Counted>,
    registration: &mut Registration<'_, Counted>,
    drops: &DropCounts,
    from: usize,
) -> Option<usize>
    requires rooted { 0 < guard.now.stay.caller.blocks.now.words.fixed.roots }
    requires source { pass.old.pass.seat.base ≡ guard.now.stay.caller.blocks.now.words.id.views_name }
    requires home { registration.old.stay.caller.blocks.now ≡ guard.now.stay.caller.blocks.now }
{
    let mut replaced = 0;
    for turn in 0..TIMES {
        let value = Counted::of(drops, usize::wrapping_add(from, turn))?;
        if marks(guard, pass, registration, value)? {
            replaced = usize::wrapping_add(replaced, 1);
        }
    }
    Some(replaced)
}

/// The same by one who retires under a slot of its own.
fn goes(
    guard: &OwnedGuard<'_, Counted>,
    pass: &mut Pass<Counted>,
    collector: &Shared<'_, Counted>,
    drops: &DropCounts,
    from: usize,
) -> Option<usize>
    requires rooted { 0 < guard.now.stay.caller.blocks.now.words.fixed.roots }
    requires source { pass.old.pass.seat.base ≡ guard.now.stay.caller.blocks.now.words.id.views_name }
    requires home { collector.now.blocks.now ≡ guard.now.stay.caller.blocks.now }
{
    match collector.register() {
        Ok(registration) => {
            let mut registration = registration;
            turns(guard, pass, &mut registration, drops, from)
        }
        Err(_) => None,
    }
}

/// Two of them under one guard. Answers how often they have replaced the word.
fn two_go<R: Threads + Sync>(
    rt: &R,
    collector: &Shared<'_, Counted>,
    drops: &DropCounts,
) -> Result<Option<usize>, Fault>
    requires rooted { 0 < collector.now.blocks.now.words.fixed.roots }
{
    let guard = collector.enter_owned()?;
    let mut one = guard.collector().pass();
    let mut other = collector.pass();
    match thread::join(
        rt,
        || goes(&guard, &mut one, collector, drops, 0),
        || goes(&guard, &mut other, collector, drops, TIMES),
    ) {
        (Some(first), Some(second)) => Ok(Some(usize::wrapping_add(first, second))),
        _ => Ok(None),
    }
}

/// The same over one collector, which ends then.
fn two_alone<R: Threads + Sync>(
    rt: &R,
    alloc: Global,
    drops: &DropCounts,
) -> Result<Option<usize>, Fault> {
    let mut ids = IdSource::new();
    let collector = Collector::new(alloc, &mut ids, 2, 1)?;
    two_go(rt, &collector.shared(), drops)
}

/// Tells whether who has marked a word first is alone to replace it.
pub(crate) fn mark<R: Threads + Sync>(rt: &R, alloc: Global) -> Told {
    let drops = table(alloc, 2 * TIMES)?;
    let replaced = two_alone(rt, alloc, &drops)?;
    Ok(all_are(&drops, 2 * TIMES, 1) && matches!(replaced, Some(times) if times > 0))
}
