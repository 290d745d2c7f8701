//! Collectors that threads share: numbers, values that are put and dropped once, and what is reclaimed at the end.
ghost use Rattle.std.specs.Prelude.{◌≡◌, None, IfErr};

use crate::{Collector, IdSource, Shared};
use seize::Fault;
use seize::rows::Defers;
use seize_shared::{Registration, RootGuard, Unlinked};
use std::alloc::Global;
use std::sync::Arc;
use std::sync::atomic::AtomicU64;
use std::sync::atomic::Ordering::SeqCst;
use std::test::Fail;
use std::thread::Threads;
use std::{mem, thread};

/// How many values each of two threads puts.
const EACH: u64 = 1_000;

/// A value that adds one to a count as it is dropped.
struct Counted {
    drops: Arc<AtomicU64>,
}

impl Counted {
    /// One more of them. There is none where the count has too many owners.
    fn of(drops: &Arc<AtomicU64>) -> Option<Counted> {
        let drops = Arc::try_clone(drops).ok()?;
        Some(Counted { drops })
    }
}

impl Drop for Counted {
    fn drop(self) {
        let Counted { drops } = self;
        drops.fetch_add(1, SeqCst);
    }
}

impl Defers for Counted {
    ghost defers = { λ _. None };

    fn deferred(&self) -> Option<u64> {
        None
    }
}

/// Puts values at the root, each within a section of its own, and forgets the last guard. Answers how many were put.
fn puts(collector: &Shared<'_, Counted>, drops: &Arc<AtomicU64>) -> Option<u64> {
    let mut registration = collector.register().ok()?;
    let mut put = 0;
    for _ in 0..EACH {
        let value = Counted::of(drops)?;
        if registration.enter().put(0, value).is_ok() {
            put = u64::wrapping_add(put, 1);
        }
    }
    mem::forget(registration.enter());
    mem::forget(registration);
    Some(put)
}

/// Two threads that do so.
fn puts_twice<R: Threads + Sync>(
    rt: &R,
    collector: &Shared<'_, Counted>,
    drops: &Arc<AtomicU64>,
) -> (Option<u64>, Option<u64>) {
    thread::join(rt, || puts(collector, drops), || puts(collector, drops))
}

/// The same over one collector; and how many values were dropped once all that waited was reclaimed.
fn reclaims<R: Threads + Sync>(
    rt: &R,
    alloc: Global,
    drops: &Arc<AtomicU64>,
) -> Result<(Option<u64>, Option<u64>, u64), Fault> {
    let mut ids = IdSource::new();
    let mut collector = Collector::new(alloc, &mut ids, 2, 1)?.batch_size(alloc, 5)?;
    let (first, second) = puts_twice(rt, &collector.shared(), drops);
    collector.reclaim_all();
    Ok((first, second, drops.load(SeqCst)))
}

#[test]
fn what_threads_have_forgotten_is_reclaimed_and_each_value_is_dropped_once(
    rt: HostRuntime,
) -> Result<(), Fail> {
    let drops = Arc::new(rt.alloc(), AtomicU64::new(0))?;
    let (first, second, reclaimed) = reclaims(&rt, rt.alloc(), &drops)?;
    assert_eq!(rt; first, Some(EACH));
    assert_eq!(rt; second, Some(EACH));
    assert_eq!(rt; reclaimed, 2 * EACH - 1);
    assert_eq!(rt; drops.load(SeqCst), 2 * EACH);
    Ok(())
}

/// The numbers of two collectors of a source, and whether each is itself, and the other one.
fn numbers(alloc: Global) -> Result<(u64, u64, bool, bool), Fault> {
    let mut ids = IdSource::new();
    let one = Collector::<Counted>::new(alloc, &mut ids, 1, 1)?;
    let other = Collector::<Counted>::new(alloc, &mut ids, 1, 1)?;
    Ok((one.number(), other.number(), one == one, one == other))
}

#[test]
fn two_collectors_of_a_source_have_numbers_of_their_own(rt: HostRuntime) -> Result<(), Fail> {
    assert_eq!(rt; numbers(rt.alloc())?, (1, 2, true, false));
    Ok(())
}

#[test]
fn a_source_that_is_used_up_gives_no_collector(rt: HostRuntime) -> Result<(), Fail> {
    let mut ids = IdSource::starting_at(18_446_744_073_709_551_614);
    let last = Collector::<Counted>::new(rt.alloc(), &mut ids, 1, 1)?;
    assert_eq!(rt; last.number(), 18_446_744_073_709_551_614);
    let none = Collector::<Counted>::new(rt.alloc(), &mut ids, 1, 1);
    assert!(rt; matches!(none, Err(Fault::CollectorsUsedUp)));
    Ok(())
}

/// Whether a block was retired; else whether it came back as one of another collector, to be retired by a registration of its own.
fn goes_home(
    retired: Result<(), (Fault, Unlinked<'_, Counted>)>,
    own: &mut Registration<'_, Counted>,
) -> (bool, bool)
    requires home { IfErr retired (λ refused. refused.1.caller.blocks.now.words.id.views_name ≡ own.old.stay.caller.blocks.now.words.id.views_name) }
    requires number { IfErr retired (λ refused. refused.1.number ≡ own.old.number) }
{
    match retired {
        Ok(()) => (true, false),
        Err((fault, old)) => match own.retire(old) {
            Ok(()) => (false, fault == Fault::ForeignGuard),
            Err(_) => unreachable!(),
        },
    }
}

/// Puts a value at the root, within a section of a slot that is given up again.
fn puts_one(one: &Shared<'_, Counted>, drops: &Arc<AtomicU64>) -> Option<()> {
    let mut registration = one.register().ok()?;
    drop(registration.enter().put(0, Counted::of(drops)?));
    Some(())
}

/// Puts two values at the root of one collector, and hands what was there to a registration of another one, and then to one of its own. There is no answer where
/// the collectors have one number.
fn hands_abroad(
    one: &Shared<'_, Counted>,
    other: &Shared<'_, Counted>,
    drops: &Arc<AtomicU64>,
) -> Option<(bool, bool)> {
    if one.number() == other.number() {
        return None;
    }
    puts_one(one, drops)?;
    let mut foreign = other.register().ok()?;
    let mut own = one.register().ok()?;
    let mut near = 0;
    let second = one.make(&mut near, Counted::of(drops)?).ok()?;
    match second.publish(0) {
        Ok(before) => {
            let old = before.block()?;
            Some(goes_home(foreign.retire(old), &mut own))
        }
        Err(owned) => {
            drop(owned.into_value());
            None
        }
    }
}

/// The same with two collectors of a source.
fn goes_abroad(alloc: Global, drops: &Arc<AtomicU64>) -> Result<Option<(bool, bool)>, Fault> {
    let mut ids = IdSource::new();
    let one = Collector::new(alloc, &mut ids, 1, 1)?;
    let other = Collector::new(alloc, &mut ids, 1, 1)?;
    Ok(hands_abroad(&one.shared(), &other.shared(), drops))
}

#[test]
fn a_block_of_another_collector_comes_back(rt: HostRuntime) -> Result<(), Fail> {
    let drops = Arc::new(rt.alloc(), AtomicU64::new(0))?;
    assert_eq!(rt; goes_abroad(rt.alloc(), &drops)?, Some((false, true)));
    assert_eq!(rt; drops.load(SeqCst), 2);
    Ok(())
}
