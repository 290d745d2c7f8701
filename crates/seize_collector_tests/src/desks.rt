//! Several guards of one slot: its section begins with the first of them, and ends with the last, whichever that is.
ghost use Rattle.std.specs.Prelude.{◌≡◌, IfSome};

use crate::{CHOSEN, Counted, DropCounts, Told, dropped, opened, table};
use seize::Fault;
use seize_blocks::{Blocks, Home};
use seize_collector::Shared;
use seize_guards::{Desk, DeskGuard, MOST_GUARDS};
use seize_shared::{OfRows, Owned, Registration, RootGuard, Unlinked};
use std::alloc::{AllocError, Global};
use std::mem;

/// How often a value was dropped: while two guards have seen it and it was retired; after one of them has ended; and after both.
#[derive(Drop)]
struct Drops {
    seen: bool,
    both: u64,
    one: u64,
    none: u64,
}

/// Two guards see a value, which is taken away and retired by another slot then; one of them ends, and then the other one: the inner one first, or the outer
/// one.
fn ends(blocks: &Blocks<Counted, OfRows>, drops: &DropCounts, inner_first: bool) -> Option<Drops>
    requires fixed { blocks.now.words.fixed ≡ record { batch_size = 5; roots = 1; chains = 0 } }
{
    let mut writer = Registration::new(blocks, &CHOSEN).ok()?;
    let mut guard = writer.enter();
    guard.put(0, Counted::of(drops, 0)?).ok()?;
    drop(guard);
    let desk = Desk::new(blocks, &CHOSEN).ok()?;
    let Ok(mut outer) = desk.enter() else {
        return None;
    };
    let Ok(mut inner) = desk.enter() else {
        return None;
    };
    outer.see(0);
    inner.see(0);
    writer.clear(0);
    writer.flush();
    let both = dropped(drops, 0);
    let (first, second) = if inner_first {
        (inner, outer)
    } else {
        (outer, inner)
    };
    drop(first);
    writer.flush();
    let one = dropped(drops, 0);
    let seen = second.value().is_some();
    drop(second);
    Some(Drops {
        seen,
        both,
        one,
        none: dropped(drops, 0),
    })
}

/// The same over one memory, which ends then.
fn both_end(
    alloc: Global,
    drops: &DropCounts,
    inner_first: bool,
) -> Result<Option<Drops>, AllocError> {
    let home = Home::<Counted, OfRows>::open(alloc, 1, 64, &CHOSEN)?;
    Ok(ends(&home.blocks, drops, inner_first))
}

/// Tells whether what a guard has seen is there until the last one of its desk ends.
pub(crate) fn end(alloc: Global) -> Told {
    let mut all = true;
    for inner_first in [true, false] {
        let drops = table(alloc, 1)?;
        let ends = match both_end(alloc, &drops, inner_first)? {
            Some(times) => times.seen && (times.both, times.one, times.none) == (0, 0, 1),
            None => false,
        };
        all = all && ends;
    }
    Ok(all)
}

/// Enters as many guards as a desk may have; tells whether they are there.
fn enters_all<'d, 'a>(
    desk: &'d Desk<'a, Counted>,
    guards: &mut Vec<DeskGuard<'d, 'a, Counted>>,
) -> bool {
    for _ in 0..MOST_GUARDS {
        let Ok(guard) = desk.enter() else {
            return false;
        };
        if guards.push(guard).is_err() {
            return false;
        }
    }
    true
}

/// As many guards as there may be, one of which ends; whether a further one is refused before, as one too many, and there is one then.
fn fills(alloc: Global, blocks: &Blocks<Counted, OfRows>) -> Option<(bool, bool)>
    requires fixed { blocks.now.words.fixed ≡ record { batch_size = 5; roots = 1; chains = 0 } }
{
    let desk = Desk::new(blocks, &CHOSEN).ok()?;
    let mut guards = Vec::new(alloc);
    let all = enters_all(&desk, &mut guards);
    let before = matches!(desk.enter(), Err(Fault::GuardsFull));
    drop(guards.pop());
    let then = desk.enter().is_ok();
    if all { Some((before, then)) } else { None }
}

/// Tells whether a desk refuses a guard where it has the most.
pub(crate) fn are_full(alloc: Global) -> Told {
    let home = Home::<Counted, OfRows>::open(alloc, 1, 8, &CHOSEN)?;
    Ok(fills(alloc, &home.blocks) == Some((true, true)))
}

/// A guard that has seen a value is forgotten, and another slot takes the value away and retires it; answers how often it was dropped, once the desk has ended.
fn forgets(blocks: &Blocks<Counted, OfRows>, drops: &DropCounts) -> Option<u64>
    requires fixed { blocks.now.words.fixed ≡ record { batch_size = 5; roots = 1; chains = 0 } }
{
    let mut writer = Registration::new(blocks, &CHOSEN).ok()?;
    drop(writer.enter().put(0, Counted::of(drops, 0)?));
    let desk = Desk::new(blocks, &CHOSEN).ok()?;
    let Ok(mut guard) = desk.enter() else {
        return None;
    };
    let sees = guard.see(0);
    mem::forget(guard);
    drop(desk);
    let takes = writer.clear(0);
    writer.flush();
    if sees && takes {
        Some(dropped(drops, 0))
    } else {
        None
    }
}

/// The same over one memory, which ends then.
fn forgets_one(alloc: Global, drops: &DropCounts) -> Result<Option<u64>, AllocError> {
    let home = Home::<Counted, OfRows>::open(alloc, 1, 8, &CHOSEN)?;
    Ok(forgets(&home.blocks, drops))
}

/// Tells whether what a forgotten guard of a desk has seen is there until the memory ends.
pub(crate) fn are_forgotten(alloc: Global) -> Told {
    let drops = table(alloc, 1)?;
    let before = forgets_one(alloc, &drops)?;
    Ok(dropped(&drops, 0) == 1 && before == Some(0))
}

/// What was there is retired under a guard of a collector's desk that lends its value still, and another guard is there: how often it was dropped while it was
/// lent, once the first guard had ended, and once both had.
fn retires(collector: &Shared<'_, Counted>, drops: &DropCounts) -> Option<(u64, u64, u64)> {
    let mut near = 0;
    if let Some(old) = puts(collector.make(&mut near, Counted::of(drops, 0)?).ok()?) {
        old.kept();
    }
    let desk = Desk::of(collector).ok()?;
    let Ok(mut outer) = desk.enter() else {
        return None;
    };
    let Ok(inner) = desk.enter() else {
        return None;
    };
    outer.see(0);
    let lent = outer.value()?;
    let second = desk
        .collector()
        .make(&mut near, Counted::of(drops, 1)?)
        .ok()?;
    if let Some(old) = puts(second) {
        if let Err((_, old)) = outer.retire(old) {
            old.kept();
        }
    }
    outer.flush();
    let before = dropped(&lent.drops, lent.place);
    let same = desk.number() == collector.number() && outer.thread_id() == inner.thread_id();
    drop(outer);
    let one = dropped(drops, 0);
    drop(inner);
    if same {
        Some((before, one, dropped(drops, 0)))
    } else {
        None
    }
}

/// Puts a block at the root, and answers which one was there.
fn puts<'a>(owned: Owned<'a, Counted>) -> Option<Unlinked<'a, Counted>>
    ensures home { IfSome result (λ old. old.caller.blocks.now ≡ owned.entry.caller.blocks.now) }
{
    match owned.publish(0) {
        Ok(before) => before.block(),
        Err(owned) => {
            drop(owned.into_value());
            None
        }
    }
}

/// Tells whether what is retired under guards that are lent is there until the last one ends.
pub(crate) fn retire(alloc: Global) -> Told {
    let drops = table(alloc, 2)?;
    let collector = opened(alloc)?;
    let times = retires(&collector.shared(), &drops);
    drop(collector);
    Ok(dropped(&drops, 1) == 1 && times == Some((0, 0, 1)))
}
