//! More slots at once than the first bucket has.
use crate::{Counted, DropCounts, Told, all_are, dropped, opened, table};
use seize_collector::{Guard, OwnedGuard, Registration, RootGuard, Shared};
use std::alloc::Global;
use std::sync::atomic::Ordering::SeqCst;
use std::thread;
use std::thread::Threads;

/// How many guards each of two threads enters. The first bucket has 32 slots.
const EACH: usize = 20;

/// How many values are put while all of them are there.
const PUT: usize = 100;

/// Guards with slots of their own.
type Guards<'a> = Vec<OwnedGuard<'a, Counted>>;

/// Enters a guard, which looks at the root, beside those that are there.
fn enters<'a>(collector: &Shared<'a, Counted>, guards: &mut Guards<'a>) {
    let Ok(mut guard) = collector.enter_owned() else {
        return;
    };
    guard.see(0);
    drop(guards.push(guard));
}

/// So many guards, each of which has seen the value at the root, if there was a slot for each.
fn enters_all<'a>(alloc: Global, collector: &Shared<'a, Counted>) -> Guards<'a> {
    let mut guards = Vec::new(alloc);
    for _ in 0..EACH {
        enters(collector, &mut guards);
    }
    guards
}

/// Counts the slots of guards at their places of a table, and tells whether each of them lends a value that was not dropped.
fn all_lend(guards: &Guards<'_>, slots: &DropCounts) -> bool {
    let mut all = true;
    for guard in guards {
        if let Some(count) = slots.get(guard.thread_id() as usize) {
            count.fetch_add(1, SeqCst);
        }
        let lends = match guard.value() {
            Some(value) => dropped(&value.drops, value.place) == 0,
            None => false,
        };
        all = all && lends;
    }
    all
}

/// Puts values at the root, each in the place of the one before; tells whether each is there.
fn puts(
    registration: &mut Registration<'_, Counted>,
    drops: &DropCounts,
    from: usize,
    end: usize,
) -> bool {
    let mut there = true;
    for place in from..end {
        there = match Counted::of(drops, place) {
            Some(value) => registration.enter().put(0, value).is_ok() && there,
            None => false,
        };
    }
    there
}

/// Two threads enter guards, all of which see the first value; it is replaced then, and so are those after it. The guards end on two threads. It tells whether
/// no value was dropped while all guards were there, and each of them lends one that was not; nor while half of them were; and whether all that were replaced
/// were then.
fn holds<R: Threads + Sync>(
    rt: &R,
    alloc: Global,
    collector: &Shared<'_, Counted>,
    drops: &DropCounts,
    slots: &DropCounts,
) -> Option<(bool, bool, bool)> {
    let mut registration = collector.register().ok()?;
    let put = puts(&mut registration, drops, 0, 1);
    let (first, second) = thread::join(
        rt,
        || enters_all(alloc, collector),
        || enters_all(alloc, collector),
    );
    let replaced = puts(&mut registration, drops, 1, PUT + 1);
    registration.flush();
    let lend = all_lend(&first, slots) && all_lend(&second, slots);
    let all = put && replaced && lend && all_are(drops, PUT + 1, 0);
    thread::join(rt, move || drop(first), || ());
    let half = all_are(drops, PUT + 1, 0);
    thread::join(rt, move || drop(second), || ());
    registration.flush();
    Some((all, half, all_are(drops, PUT, 1)))
}

/// Tells whether forty guards at once have slots of their own, and hold what they see.
pub(crate) fn hold<R: Threads + Sync>(rt: &R, alloc: Global) -> Told {
    let (drops, slots) = (table(alloc, PUT + 1)?, table(alloc, 2 * EACH + 1)?);
    let collector = opened(alloc)?;
    let held = holds(rt, alloc, &collector.shared(), &drops, &slots);
    drop(collector);
    let mut all = all_are(&drops, PUT + 1, 1) && dropped(&slots, 0) == 0;
    for slot in 1..2 * EACH + 1 {
        let once = dropped(&slots, slot) == 1;
        all = all && once;
    }
    Ok(all && held == Some((true, true, true)))
}
