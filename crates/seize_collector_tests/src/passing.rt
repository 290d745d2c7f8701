//! Two threads look at a root under one guard, each by a pass of its own, as a third one puts values there: what they have seen is there as long as the guard is.
ghost use Rattle.std.specs.Prelude.{◌<◌, ◌≡◌};

use crate::{Counted, DropCounts, Told, all_are, dropped, table};
use seize::Fault;
use seize_collector::{Collector, Guard, IdSource, OwnedGuard, Pass, RootGuard, Shared};
use std::alloc::Global;
use std::thread;
use std::thread::Threads;

/// How often each of them goes about.
const TIMES: usize = 5_000;

/// How many values one has seen under the guard, and whether each was there still as the next one was seen.
fn looks(
    guard: &OwnedGuard<'_, Counted>,
    pass: &mut Pass<Counted>,
    drops: &DropCounts,
) -> (usize, bool)
    requires source { pass.old.pass.seat.base ≡ guard.now.stay.caller.blocks.now.words.id.views_name }
{
    let mut seen = 0;
    let mut good = true;
    let mut last: Option<&Counted> = None;
    for turn in 0..TIMES {
        let Ok(Some(found)) = guard.protect_by(0, pass) else {
            return (seen, false);
        };
        if let Some(value) = found.get() {
            seen = usize::wrapping_add(seen, 1);
            if let Some(before) = last {
                good = good && dropped(drops, before.place) == 0;
            }
            last = Some(value);
        }
    }
    (seen, good)
}

/// Puts a value for each place at the root, one after the other.
fn puts(collector: &Shared<'_, Counted>, drops: &DropCounts) -> Result<bool, Fault> {
    let mut guard = collector.enter_owned()?;
    for place in 0..TIMES {
        let Some(value) = Counted::of(drops, place) else {
            return Ok(false);
        };
        guard.refresh();
        if guard.put(0, value).is_err() {
            return Ok(false);
        }
    }
    Ok(true)
}

/// Two of them under one guard.
fn two_look<R: Threads + Sync>(
    rt: &R,
    collector: &Shared<'_, Counted>,
    drops: &DropCounts,
) -> Result<bool, Fault> {
    let guard = collector.enter_owned()?;
    let mut one = guard.collector().pass();
    let mut other = collector.pass();
    let (first, second) = thread::join(
        rt,
        || looks(&guard, &mut one, drops),
        || looks(&guard, &mut other, drops),
    );
    Ok(first.1 && second.1)
}

/// Two that look, and one that puts.
fn all_go<R: Threads + Sync>(rt: &R, alloc: Global, drops: &DropCounts) -> Result<bool, Fault> {
    let mut ids = IdSource::new();
    let collector = Collector::new(alloc, &mut ids, 2, 1)?;
    let shared = collector.shared();
    let (looked, put) = thread::join(rt, || two_look(rt, &shared, drops), || puts(&shared, drops));
    Ok(looked? && put?)
}

/// Tells whether what passes have seen stays as long as their guard.
pub(crate) fn look<R: Threads + Sync>(rt: &R, alloc: Global) -> Told {
    let drops = table(alloc, TIMES)?;
    let went = all_go(rt, alloc, &drops)?;
    Ok([went, all_are(&drops, TIMES, 1)] == [true; 2])
}

/// Tells whether a guard refuses a pass of another collector.
pub(crate) fn is_foreign(alloc: Global) -> Told {
    let mut ids = IdSource::new();
    let one = Collector::<Counted>::new(alloc, &mut ids, 1, 1)?;
    let other = Collector::<Counted>::new(alloc, &mut ids, 1, 1)?;
    let guard = one.enter_owned()?;
    let mut pass = other.shared().pass();
    Ok(matches!(guard.protect_by(0, &mut pass), Err(Fault::ForeignGuard)))
}
