//! What guards answer, call by call: one that stays on its thread, and one that may be sent.
use crate::{Counted, DropCounts, Told, all_are, dropped, opened, table};
use seize_collector::{Guard, RootGuard, Shared};
use std::alloc::Global;

/// A call of a guard: at a root, some with the value of a place.
#[derive(Clone, Copy)]
enum Call {
    See(u64),
    Put(u64, usize),
    Clear(u64),
    Flush,
    Refresh,
}

/// What is called, whether it answers yes, the place of the value that was seen then, and how often the first value was dropped by then.
type Row = (Call, bool, Option<usize>, u64);

/// A guard's calls, one after another.
const CALLS: [Row; 10] = [
    (Call::See(0), false, None, 0),
    (Call::Put(0, 0), true, None, 0),
    (Call::See(0), true, Some(0), 0),
    (Call::Refresh, true, None, 0),
    (Call::Put(1, 1), false, None, 0),
    (Call::See(0), true, Some(0), 0),
    (Call::See(1), false, None, 0),
    (Call::Clear(0), true, None, 0),
    (Call::Clear(0), false, None, 0),
    (Call::Flush, true, None, 0),
];

/// Puts the value of a place at a root; where it comes back, it is the same.
fn puts<G: RootGuard<Counted>>(guard: &mut G, drops: &DropCounts, root: u64, place: usize) -> bool {
    match Counted::of(drops, place) {
        Some(value) => match guard.put(root, value) {
            Ok(()) => true,
            Err(value) => value.place != place,
        },
        None => false,
    }
}

/// Calls a guard, and tells whether it answers yes.
fn calls<G: RootGuard<Counted>>(guard: &mut G, drops: &DropCounts, call: Call) -> bool {
    match call {
        Call::See(root) => guard.see(root),
        Call::Put(root, place) => puts(guard, drops, root, place),
        Call::Clear(root) => guard.clear(root),
        Call::Flush => {
            guard.flush();
            true
        }
        Call::Refresh => {
            guard.refresh();
            true
        }
    }
}

/// The place of the value that a guard has seen.
fn seen<G: RootGuard<Counted>>(guard: &G) -> Option<usize> {
    match guard.value() {
        Some(value) => Some(value.place),
        None => None,
    }
}

/// How many of the calls answer as they should, any guard.
fn answers<G: RootGuard<Counted>>(guard: &mut G, drops: &DropCounts) -> u64 {
    let mut right = 0;
    for (call, yes, place, times) in CALLS {
        let is = calls(guard, drops, call) == yes;
        let sees = seen(guard) == place;
        let kept = dropped(drops, 0) == times;
        right = u64::wrapping_add(right, (is && sees && kept) as u64);
    }
    right
}

/// The same by a guard that stays on its thread.
fn stays(collector: &Shared<'_, Counted>, drops: &DropCounts) -> Option<u64> {
    let mut registration = collector.register().ok()?;
    let right = answers(&mut registration.enter(), drops);
    Some(right)
}

/// The same by one that may be sent.
fn goes(collector: &Shared<'_, Counted>, drops: &DropCounts) -> Option<u64> {
    let mut guard = collector.enter_owned().ok()?;
    let right = answers(&mut guard, drops);
    guard.refresh();
    if dropped(drops, 0) == 1 {
        Some(right)
    } else {
        None
    }
}

/// Tells whether a guard sees what it has put, and drops what it has taken.
pub(crate) fn answer(alloc: Global) -> Told {
    let (drops, own) = (table(alloc, 2)?, table(alloc, 2)?);
    let collector = opened(alloc)?;
    let shared = collector.shared();
    let right = [stays(&shared, &drops), goes(&shared, &own)];
    drop(collector);
    let gone = [all_are(&drops, 2, 1), all_are(&own, 2, 1)];
    Ok(right == [Some(10); 2] && gone == [true; 2])
}
