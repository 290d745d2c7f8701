//! Four threads, two at a time, put values at a root, and retire those that were there. Two of them forget a guard, within whose section they stay, and one its
//! registration.
ghost use Rattle.std.specs.Prelude.{◌≡◌};

use crate::{CHOSEN, Counted, DropCounts, Told, dropped, table};
use seize_blocks::{Blocks, Home};
use seize_collector::reclaim_all;
use seize_shared::{Guard, OfRows, OwnedGuard, Registration, RootGuard};
use std::alloc::{AllocError, Global};
use std::thread::Threads;
use std::{mem, thread};

/// How many values each of them puts.
const EACH: usize = 50;

/// How many values of all four were dropped, or none where one was dropped twice.
fn sum(drops: &DropCounts) -> Option<u64> {
    let mut sum = 0u64;
    for place in 0..4 * EACH {
        let count = dropped(drops, place);
        if count > 1 {
            return None;
        }
        sum = u64::wrapping_add(sum, count);
    }
    Some(sum)
}

/// Puts its values under guards of a registration, which is forgotten.
fn lingers(blocks: &Blocks<Counted, OfRows>, drops: &DropCounts, from: usize) -> Option<()>
    requires { blocks.now.words.fixed ≡ record { batch_size = 5; roots = 1; chains = 0 } }
{
    let mut registration = Registration::new(blocks, &CHOSEN).ok()?;
    for place in 0..EACH {
        let value = Counted::of(drops, usize::wrapping_add(from, place))?;
        drop(registration.enter().put(0, value));
    }
    mem::forget(registration);
    Some(())
}

/// Puts its values under one guard of a registration. Both are forgotten.
fn stays(blocks: &Blocks<Counted, OfRows>, drops: &DropCounts, from: usize) -> Option<()>
    requires { blocks.now.words.fixed ≡ record { batch_size = 5; roots = 1; chains = 0 } }
{
    let mut registration = Registration::new(blocks, &CHOSEN).ok()?;
    let mut guard = registration.enter();
    for place in 0..EACH {
        let value = Counted::of(drops, usize::wrapping_add(from, place))?;
        drop(guard.put(0, value));
    }
    mem::forget(guard);
    mem::forget(registration);
    Some(())
}

/// Puts its values under a guard with a slot of its own, which is forgotten.
fn owns(blocks: &Blocks<Counted, OfRows>, drops: &DropCounts, from: usize) -> Option<()>
    requires { blocks.now.words.fixed ≡ record { batch_size = 5; roots = 1; chains = 0 } }
{
    let mut guard = OwnedGuard::enter(blocks, &CHOSEN).ok()?;
    for place in 0..EACH {
        let value = Counted::of(drops, usize::wrapping_add(from, place))?;
        drop(guard.put(0, value));
    }
    mem::forget(guard);
    Some(())
}

/// Puts its values, and forgets nothing.
fn goes(blocks: &Blocks<Counted, OfRows>, drops: &DropCounts, from: usize) -> Option<()>
    requires { blocks.now.words.fixed ≡ record { batch_size = 5; roots = 1; chains = 0 } }
{
    let mut registration = Registration::new(blocks, &CHOSEN).ok()?;
    for place in 0..EACH {
        let value = Counted::of(drops, usize::wrapping_add(from, place))?;
        drop(registration.enter().put(0, value));
    }
    Some(())
}

/// The slot that a registration takes then.
fn visits(blocks: &Blocks<Counted, OfRows>) -> Option<u64>
    requires { blocks.now.words.fixed ≡ record { batch_size = 5; roots = 1; chains = 0 } }
{
    let mut registration = Registration::new(blocks, &CHOSEN).ok()?;
    let slot = registration.enter().thread_id();
    Some(slot)
}

/// Two of the threads, each of which forgets a guard.
fn guards<R: Threads + Sync>(rt: &R, blocks: &Blocks<Counted, OfRows>, drops: &DropCounts) -> bool
    requires { blocks.now.words.fixed ≡ record { batch_size = 5; roots = 1; chains = 0 } }
{
    let (first, second) = thread::join(
        rt,
        || stays(blocks, drops, 0),
        || owns(blocks, drops, EACH),
    );
    first.is_some() && second.is_some()
}

/// And two, one of which forgets its registration.
fn registrations<R: Threads + Sync>(
    rt: &R,
    blocks: &Blocks<Counted, OfRows>,
    drops: &DropCounts,
) -> bool
    requires { blocks.now.words.fixed ≡ record { batch_size = 5; roots = 1; chains = 0 } }
{
    let (first, second) = thread::join(
        rt,
        || lingers(blocks, drops, 2 * EACH),
        || goes(blocks, drops, 3 * EACH),
    );
    first.is_some() && second.is_some()
}

/// What was dropped before everything was reclaimed, after it, and after it was reclaimed once more; and the slot that is taken then.
fn reclaims<R: Threads + Sync>(
    rt: &R,
    alloc: Global,
    drops: &DropCounts,
) -> Result<(bool, Option<u64>, Option<u64>, Option<u64>, Option<u64>), AllocError> {
    let mut home = Home::<Counted, OfRows>::open(alloc, 1, 64, &CHOSEN)?;
    let forgot = guards(rt, &home.blocks, drops);
    let went = registrations(rt, &home.blocks, drops);
    let before = sum(drops);
    reclaim_all(&mut home, &CHOSEN);
    let after = sum(drops);
    reclaim_all(&mut home, &CHOSEN);
    let again = sum(drops);
    let slot = visits(&home.blocks);
    Ok((forgot && went, before, after, again, slot))
}

/// Tells whether what waits behind forgotten guards is given back once. Each of the two guards has put its values within one section, so none of those that it has retired was given back before.
pub(crate) fn are_reclaimed<R: Threads + Sync>(rt: &R, alloc: Global) -> Told {
    let drops = table(alloc, 4 * EACH)?;
    let (went, before, after, again, slot) = reclaims(rt, alloc, &drops)?;
    let (all, but_one) = (Some(4 * EACH as u64), Some(4 * EACH as u64 - 1));
    let few = matches!(before, Some(n) if n < 4 * EACH as u64 - 1);
    let last = sum(&drops);
    Ok(went && few && [after, again, last] == [but_one, but_one, all] && slot == Some(0))
}

/// Tells whether a memory that was never used is emptied.
pub(crate) fn is_emptied(alloc: Global) -> Told {
    let mut home = Home::<Counted, OfRows>::open(alloc, 1, 0, &CHOSEN)?;
    reclaim_all(&mut home, &CHOSEN);
    Ok(visits(&home.blocks) == Some(0))
}
