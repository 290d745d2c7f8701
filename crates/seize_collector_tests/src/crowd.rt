//! Four threads over one collector: each looks at the values of the others, puts its own at the root, and so retires those that were there.
use crate::{Counted, DropCounts, Told, all_are, dropped, opened, table};
use seize_collector::{Registration, RootGuard, Shared};
use std::alloc::Global;
use std::thread;
use std::thread::Threads;

/// How often each of them goes about.
pub(crate) const TIMES: usize = 20_000;

/// What one of them has met: how many values it has seen, how many of those had been dropped, and how many it has put.
#[derive(Drop)]
struct Met {
    seen: u64,
    stale: u64,
    put: u64,
}

/// Whether a value was seen, and whether that had been dropped, at once or after others had their turn.
fn looks(seen: Option<&Counted>) -> (bool, bool) {
    let Some(value) = seen else {
        return (false, false);
    };
    let before = dropped(&value.drops, value.place);
    if value.place % 16 == 0 {
        thread::yield_now();
    }
    (true, before != 0 || dropped(&value.drops, value.place) != 0)
}

/// Looks at the root and puts the value of a place there, within one section.
fn goes_once(
    registration: &mut Registration<'_, Counted>,
    drops: &DropCounts,
    place: usize,
    met: &mut Met,
) {
    let mut guard = registration.enter();
    guard.see(0);
    let (seen, stale) = looks(guard.value());
    let put = match Counted::of(drops, place) {
        Some(value) => guard.put(0, value).is_ok(),
        None => false,
    };
    met.seen = u64::wrapping_add(met.seen, seen as u64);
    met.stale = u64::wrapping_add(met.stale, stale as u64);
    met.put = u64::wrapping_add(met.put, put as u64);
}

/// Does so for so many places from one on, and takes then away what is there. It tells whether it has seen values, none of which had been dropped, and has put
/// each of its own.
pub(crate) fn goes(collector: &Shared<'_, Counted>, drops: &DropCounts, from: usize) -> bool {
    let Ok(mut registration) = collector.register() else {
        return false;
    };
    let mut met = Met {
        seen: 0,
        stale: 0,
        put: 0,
    };
    for turn in 0..TIMES {
        goes_once(
            &mut registration,
            drops,
            usize::wrapping_add(from, turn),
            &mut met,
        );
    }
    registration.enter().clear(0);
    met.seen > 0 && met.stale == 0 && met.put == TIMES as u64
}

/// Two of them, of these places and those behind.
fn pair<R: Threads + Sync>(
    rt: &R,
    collector: &Shared<'_, Counted>,
    drops: &DropCounts,
    from: usize,
) -> bool {
    let (first, second) = thread::join(
        rt,
        || goes(collector, drops, from),
        || goes(collector, drops, usize::wrapping_add(from, TIMES)),
    );
    first && second
}

/// Four of them.
fn four<R: Threads + Sync>(rt: &R, collector: &Shared<'_, Counted>, drops: &DropCounts) -> bool {
    let (first, second) = thread::join(
        rt,
        || pair(rt, collector, drops, 0),
        || pair(rt, collector, drops, 2 * TIMES),
    );
    first && second
}

/// Tells whether four threads see nothing that was dropped, and each value is dropped once.
pub(crate) fn see<R: Threads + Sync>(rt: &R, alloc: Global) -> Told {
    let drops = table(alloc, 4 * TIMES)?;
    let collector = opened(alloc)?;
    let went = four(rt, &collector.shared(), &drops);
    drop(collector);
    Ok([went, all_are(&drops, 4 * TIMES, 1)] == [true; 2])
}
