//! In which order values come back: the drop of each stores the next number of a count.
ghost use Rattle.std.specs.Prelude.{None};

use crate::{DropCounts, SIZE, Told, dropped as at, opened, table};
use seize::rows::Defers;
use seize_collector::{Guard, LocalGuard, RootGuard, Shared};
use std::alloc::Global;
use std::sync::Arc;
use std::sync::atomic::Ordering::SeqCst;
use std::thread;
use std::thread::Threads;

/// How many values are retired.
const MANY: usize = 30;

/// A value whose drop stores the next number at its place of a table; the table's first place has the count.
struct Numbered {
    place: usize,
    numbers: DropCounts,
}

impl Drop for Numbered {
    fn drop(self) {
        let Numbered { place, numbers } = self;
        if let (Some(count), Some(word)) = (numbers.first(), numbers.get(place)) {
            word.store(u64::wrapping_add(count.fetch_add(1, SeqCst), 1), SeqCst);
        }
    }
}

impl Defers for Numbered {
    ghost defers = { λ _. None };

    fn deferred(&self) -> Option<u64> {
        None
    }
}

/// Puts the value of a place at the root, which retires the one that was there, and tries the batch then if that is asked; tells whether it is there.
fn puts(
    guard: &mut LocalGuard<'_, '_, Numbered>,
    numbers: &DropCounts,
    place: usize,
    tries: bool,
) -> bool {
    let there = match Arc::try_clone(numbers) {
        Ok(numbers) => guard.put(0, Numbered { place, numbers }).is_ok(),
        Err(_) => false,
    };
    if tries {
        guard.flush();
    }
    there
}

/// Within one section puts so many values at the root, each of which retires the one before it, with a try after each or none; answers how many came back
/// before the section ended, and by then.
fn retires(
    collector: &Shared<'_, Numbered>,
    numbers: &DropCounts,
    put: usize,
    tries: bool,
) -> Option<(u64, u64)> {
    let mut registration = collector.register().ok()?;
    let mut guard = registration.enter();
    let mut there = true;
    for turn in 0..put {
        there = puts(&mut guard, numbers, turn + 1, tries) && there;
    }
    let early = at(numbers, 0);
    drop(guard);
    if there {
        Some((early, at(numbers, 0)))
    } else {
        None
    }
}

/// Has a guard open while another one retires a batch, which is then sent to another thread, where it ends; answers how many came back by the other one's
/// end, and by its own.
fn sends<R: Threads + Sync>(
    rt: &R,
    collector: &Shared<'_, Numbered>,
    numbers: &DropCounts,
) -> Option<(u64, u64)> {
    let guard = collector.enter_owned().ok()?;
    let retired = retires(collector, numbers, SIZE as usize + 1, false);
    thread::join(rt, move || drop(guard), || ());
    let (_, early) = retired?;
    Some((early, at(numbers, 0)))
}

/// Has a guard open while another one retires a batch, and begins its section anew then; answers how many came back by the other one's end, and by then.
fn refreshes(collector: &Shared<'_, Numbered>, numbers: &DropCounts) -> Option<(u64, u64)> {
    let mut guard = collector.enter_owned().ok()?;
    let retired = retires(collector, numbers, SIZE as usize + 1, false);
    guard.refresh();
    let then = at(numbers, 0);
    drop(guard);
    let (_, early) = retired?;
    Some((early, then))
}

/// Each place from 1 on has the number of those that were retired after it, and one.
fn is_last_first(numbers: &DropCounts) -> bool {
    for turn in 0..MANY {
        if at(numbers, turn + 1) != (MANY - turn) as u64 {
            return false;
        }
    }
    true
}

/// Tells whether thirty values come back as their guard ends, and the last first.
pub(crate) fn come_back(alloc: Global) -> Told {
    let numbers = table(alloc, MANY + 2)?;
    let collector = opened(alloc)?;
    let counts = retires(&collector.shared(), &numbers, MANY + 1, true);
    drop(collector);
    Ok(is_last_first(&numbers) && counts == Some((0, MANY as u64)))
}

/// Each place from 1 on has its own number.
fn is_in_order(numbers: &DropCounts) -> bool {
    for turn in 0..SIZE as usize {
        if at(numbers, turn + 1) != turn as u64 + 1 {
            return false;
        }
    }
    true
}

/// Tells whether a batch comes back in order where a guard ends on another thread.
pub(crate) fn are_sent<R: Threads + Sync>(rt: &R, alloc: Global) -> Told {
    let numbers = table(alloc, SIZE as usize + 2)?;
    let collector = opened(alloc)?;
    let counts = sends(rt, &collector.shared(), &numbers);
    drop(collector);
    Ok(is_in_order(&numbers) && counts == Some((0, SIZE)))
}

/// Tells whether a batch comes back in order where a guard is refreshed.
pub(crate) fn are_refreshed(alloc: Global) -> Told {
    let numbers = table(alloc, SIZE as usize + 2)?;
    let collector = opened(alloc)?;
    let counts = refreshes(&collector.shared(), &numbers);
    drop(collector);
    Ok(is_in_order(&numbers) && counts == Some((0, SIZE)))
}
