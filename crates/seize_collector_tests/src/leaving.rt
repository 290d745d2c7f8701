//! One thread replaces a value while another one, which has seen it, stays within its section: who leaves last drops what was retired.
use crate::{Counted, DropCounts, Told, all_are, dropped, opened, table};
use seize::Fault;
use seize_collector::{Registration, RootGuard, Shared};
use std::alloc::Global;
use std::sync::atomic::AtomicU64;
use std::sync::atomic::Ordering::SeqCst;
use std::thread;
use std::thread::Threads;

/// Rings, and waits for the next ring of the other one, which is this one of all; tells whether it came within so many turns.
fn rings(bell: &AtomicU64, next: u64) -> bool {
    bell.fetch_add(1, SeqCst);
    hears(bell, next)
}

/// Waits for this ring; tells whether it came within so many turns.
fn hears(bell: &AtomicU64, ring: u64) -> bool {
    for _ in 0..100_000_000u64 {
        if bell.load(SeqCst) == ring {
            return true;
        }
        thread::yield_now();
    }
    false
}

/// Puts the values of these places at the root, each within a section of its own.
fn puts(
    registration: &mut Registration<'_, Counted>,
    drops: &DropCounts,
    from: usize,
    end: usize,
) -> bool {
    let mut there = true;
    for place in from..end {
        there = match Counted::of(drops, place) {
            Some(value) => registration.enter().put(0, value).is_ok() && there,
            None => false,
        };
    }
    there
}

/// Puts a value at the root, and five more once the other one has seen it; answers how often the first one was dropped while the other one is within its
/// section.
fn replaces(collector: &Shared<'_, Counted>, bell: &AtomicU64, drops: &DropCounts) -> Option<u64> {
    let mut registration = collector.register().ok()?;
    let first = puts(&mut registration, drops, 0, 1);
    let seen = rings(bell, 2);
    let further = puts(&mut registration, drops, 1, 6);
    let early = dropped(drops, 0);
    let left = rings(bell, 4);
    if first && seen && further && left {
        Some(early)
    } else {
        None
    }
}

/// Whether this is the first value, and none of the first five had been dropped.
fn is_kept(seen: Option<&Counted>) -> bool {
    match seen {
        Some(value) => value.place == 0 && all_are(&value.drops, 5, 0),
        None => false,
    }
}

/// Sees the first value, and is within its section until five more were put; tells whether the value was there all the time, and the five that were retired
/// meanwhile were dropped as it left.
fn stays(collector: &Shared<'_, Counted>, bell: &AtomicU64, drops: &DropCounts) -> Option<bool> {
    let first = hears(bell, 1);
    let mut guard = collector.enter_owned().ok()?;
    guard.see(0);
    let replaced = rings(bell, 3);
    let kept = is_kept(guard.value());
    drop(guard);
    let gone = all_are(drops, 5, 1);
    bell.fetch_add(1, SeqCst);
    Some(first && replaced && kept && gone)
}

/// One who replaces a value and one who stays with it, over one collector, which ends then.
fn both<R: Threads + Sync>(
    rt: &R,
    alloc: Global,
    drops: &DropCounts,
) -> Result<(Option<u64>, Option<bool>), Fault> {
    let bell = AtomicU64::new(0);
    let collector = opened(alloc)?;
    let shared = collector.shared();
    Ok(thread::join(
        rt,
        || replaces(&shared, &bell, drops),
        || stays(&shared, &bell, drops),
    ))
}

/// Tells whether the last to leave drops what was retired. Were one thread served after the other, they would wait for each other in vain.
pub(crate) fn leave<R: Threads + Sync>(rt: &R, alloc: Global) -> Told {
    let drops = table(alloc, 6)?;
    let went = both(rt, alloc, &drops)?;
    Ok(all_are(&drops, 6, 1) && went == (Some(0), Some(true)))
}
