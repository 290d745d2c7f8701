//! What is retired while no section of the slot is open, or under another guard: what it waits for, and where a registration ends whose guards were forgotten.
use crate::{Counted, DropCounts, Told, all_are, dropped, opened, table};
use seize_collector::{Guard, Registration, RootGuard, Shared};
use std::alloc::Global;
use std::mem;

/// Puts a value under a guard and takes it away without one, while another guard sees it; answers how often it was dropped once it was retired, once its
/// batch was tried, and once the other guard had ended.
fn beside(collector: &Shared<'_, Counted>, drops: &DropCounts) -> Option<(u64, u64, u64)> {
    let value = Counted::of(drops, 0)?;
    let mut registration = collector.register().ok()?;
    let mut other = collector.enter_owned().ok()?;
    drop(registration.enter().put(0, value));
    other.see(0);
    registration.clear(0);
    let retired = dropped(drops, 0);
    registration.flush();
    let tried = dropped(drops, 0);
    drop(other);
    Some((retired, tried, dropped(drops, 0)))
}

/// Puts a value under a guard and takes it away without one, twice; tells whether it did so, and answers how often it was dropped once it was retired, and once
/// its batch was tried.
fn alone(collector: &Shared<'_, Counted>, drops: &DropCounts) -> Option<(bool, bool, u64, u64)> {
    let value = Counted::of(drops, 1)?;
    let mut registration = collector.register().ok()?;
    drop(registration.enter().put(0, value));
    let first = registration.clear(0);
    let second = registration.clear(0);
    let retired = dropped(drops, 1);
    registration.flush();
    Some((first, second, retired, dropped(drops, 1)))
}

/// Tells whether a batch that is tried without a section waits for open ones.
pub(crate) fn wait(alloc: Global) -> Told {
    let drops = table(alloc, 2)?;
    let collector = opened(alloc)?;
    let shared = collector.shared();
    let (other, none) = (beside(&shared, &drops), alone(&shared, &drops));
    Ok(other == Some((0, 0, 1)) && none == Some((true, false, 0, 1)))
}

/// Puts a value at the root, and a block of another one without a section; under a guard retires what was there. Answers how often that was dropped before the
/// guard ended, and then.
fn retires(
    collector: &Shared<'_, Counted>,
    drops: &DropCounts,
    first: Counted,
    second: Counted,
) -> Option<(u64, u64)> {
    let mut guard = collector.enter_owned().ok()?;
    drop(guard.put(0, first));
    let mut near = 0;
    let owned = collector.make(&mut near, second).ok()?;
    match owned.publish(0) {
        Ok(before) => {
            if let Some(old) = before.block() {
                if let Err((_, old)) = old.retire(&mut guard) {
                    old.kept();
                }
            }
        }
        Err(owned) => drop(owned.into_value()),
    }
    guard.flush();
    let before = dropped(drops, 0);
    drop(guard);
    Some((before, dropped(drops, 0)))
}

/// Tells whether a block that was unlinked is retired by a guard.
pub(crate) fn are_retired(alloc: Global) -> Told {
    let drops = table(alloc, 2)?;
    let (Some(first), Some(second)) = (Counted::of(&drops, 0), Counted::of(&drops, 1)) else {
        return Ok(false);
    };
    let collector = opened(alloc)?;
    let times = retires(&collector.shared(), &drops, first, second);
    drop(collector);
    Ok(all_are(&drops, 2, 1) && times == Some((0, 1)))
}

/// Puts the value of a place at the root, under a guard that is forgotten.
fn forgets(registration: &mut Registration<'_, Counted>, drops: &DropCounts, place: usize) -> bool {
    let mut guard = registration.enter();
    let there = match Counted::of(drops, place) {
        Some(value) => guard.put(0, value).is_ok(),
        None => false,
    };
    mem::forget(guard);
    there
}

/// Six of them; tells whether each is there, and answers the slot.
fn forgets_all(collector: &Shared<'_, Counted>, drops: &DropCounts) -> Option<(bool, u64)> {
    let mut registration = collector.register().ok()?;
    let mut there = true;
    for place in 0..6 {
        there = forgets(&mut registration, drops, place) && there;
    }
    let slot = registration.enter().thread_id();
    Some((there, slot))
}

/// The slot of a registration that ends at once.
fn visits(collector: &Shared<'_, Counted>) -> Option<u64> {
    let mut registration = collector.register().ok()?;
    let slot = registration.enter().thread_id();
    Some(slot)
}

/// Tells whether what was retired under forgotten guards is dropped as their registration ends, and its slot is free.
pub(crate) fn are_forgotten(alloc: Global) -> Told {
    let drops = table(alloc, 6)?;
    let collector = opened(alloc)?;
    let shared = collector.shared();
    let went = forgets_all(&shared, &drops) == Some((true, 0));
    let gone = all_are(&drops, 5, 1) && dropped(&drops, 5) == 0;
    let free = visits(&shared) == Some(0);
    drop(collector);
    Ok([went, gone, free, all_are(&drops, 6, 1)] == [true; 4])
}
