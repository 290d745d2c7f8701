//! Values that are put in place of what was seen: two threads count at a root, each turn by a value that is made of the one that was seen there.
ghost use Rattle.std.specs.Prelude.{None};

use crate::{DropCounts, Told, dropped, opened, table};
use seize::rows::Defers;
use seize_collector::{Registration, RootGuard, Shared};
use std::alloc::Global;
use std::sync::Arc;
use std::sync::atomic::Ordering::SeqCst;
use std::thread;
use std::thread::Threads;

/// How often each of them tries to count on.
const TIMES: usize = 20_000;

/// The places of a table that counts what was made, and what was dropped.
const MADE: usize = 0;

const DROPPED: usize = 1;

/// A number, which is counted as it is made, and as it is dropped.
struct Tally {
    number: u64,
    counts: DropCounts,
}

/// Counts at a place.
fn count(counts: &DropCounts, place: usize) {
    if let Some(word) = counts.get(place) {
        word.fetch_add(1, SeqCst);
    }
}

impl Tally {
    /// This number. There is none where the table has too many owners.
    fn of(counts: &DropCounts, number: u64) -> Option<Tally> {
        let counts = Arc::try_clone(counts).ok()?;
        count(&counts, MADE);
        Some(Tally { number, counts })
    }
}

impl Drop for Tally {
    fn drop(self) {
        let Tally { number: _, counts } = self;
        count(&counts, DROPPED);
    }
}

impl Defers for Tally {
    ghost defers = { λ _. None };

    fn deferred(&self) -> Option<u64> {
        None
    }
}

/// The number of a value that was seen, and 0 where none was.
fn number(seen: Option<&Tally>) -> u64 {
    match seen {
        Some(tally) => tally.number,
        None => 0,
    }
}

/// Sees the number at the root, and puts the next one in its place if it is there still, after others had their turn or at once; tells whether it was.
fn counts_on(registration: &mut Registration<'_, Tally>, counts: &DropCounts, waits: bool) -> bool {
    let mut guard = registration.enter();
    guard.see(0);
    let next = u64::wrapping_add(number(guard.value()), 1);
    if waits {
        thread::yield_now();
    }
    match Tally::of(counts, next) {
        Some(tally) => guard.exchange(0, tally).is_ok(),
        None => false,
    }
}

/// Does so again and again; answers how often the number was there still.
fn goes(collector: &Shared<'_, Tally>, counts: &DropCounts) -> Option<u64> {
    let mut registration = collector.register().ok()?;
    let mut done = 0;
    for turn in 0..TIMES {
        let counted = counts_on(&mut registration, counts, turn % 16 == 0);
        done = u64::wrapping_add(done, counted as u64);
    }
    Some(done)
}

/// The number at the root.
fn last(collector: &Shared<'_, Tally>) -> Option<u64> {
    let mut guard = collector.enter_owned().ok()?;
    guard.see(0);
    Some(number(guard.value()))
}

/// Two of them; answers how often both counted on, and the last number.
fn both<R: Threads + Sync>(
    rt: &R,
    collector: &Shared<'_, Tally>,
    counts: &DropCounts,
) -> (Option<u64>, Option<u64>) {
    let (first, second) = thread::join(rt, || goes(collector, counts), || goes(collector, counts));
    let sum = match (first, second) {
        (Some(first), Some(second)) => Some(u64::wrapping_add(first, second)),
        _ => None,
    };
    (sum, last(collector))
}

/// Tells whether no count is lost, and each number is dropped once.
pub(crate) fn count_on<R: Threads + Sync>(rt: &R, alloc: Global) -> Told {
    let counts = table(alloc, 2)?;
    let collector = opened(alloc)?;
    let (sum, number) = both(rt, &collector.shared(), &counts);
    drop(collector);
    let same = dropped(&counts, MADE) == dropped(&counts, DROPPED);
    Ok(sum.is_some() && sum == number && same)
}

/// Puts a number in place of what a guard has seen; tells whether it is there, and answers which number it has seen then.
fn puts<G: RootGuard<Tally>>(guard: &mut G, counts: &DropCounts, next: u64) -> (bool, u64) {
    let put = match Tally::of(counts, next) {
        Some(tally) => guard.exchange(0, tally).is_ok(),
        None => false,
    };
    (put, number(guard.value()))
}

/// Whether two guards come to what they should, of which each puts a number where it has seen nothing, and the second one then where it has seen the first
/// one's.
fn takes_turns<G: RootGuard<Tally>>(first: &mut G, second: &mut G, counts: &DropCounts) -> bool {
    let one = puts(first, counts, 1) == (true, 0);
    let two = puts(second, counts, 2) == (false, 1);
    let three = puts(second, counts, 3) == (true, 0);
    one && two && three
}

/// They do so; answers the number that is there then.
fn two_take_turns(collector: &Shared<'_, Tally>, counts: &DropCounts) -> Option<u64> {
    let mut first = collector.enter_owned().ok()?;
    let mut second = collector.enter_owned().ok()?;
    let right = takes_turns(&mut first, &mut second, counts);
    let last = last(collector);
    if right { last } else { None }
}

/// Tells whether a number comes back where another one is there, which was seen then.
pub(crate) fn take_turns(alloc: Global) -> Told {
    let counts = table(alloc, 2)?;
    let collector = opened(alloc)?;
    Ok(two_take_turns(&collector.shared(), &counts) == Some(3))
}
