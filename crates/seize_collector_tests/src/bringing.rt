//! Blocks that are made and put at a root without a section, and values that are taken from there without one, on threads of their own beside one who sees and
//! puts values under guards.
ghost use Rattle.std.specs.Prelude.{◌≡◌};

use crate::crowd::{TIMES, goes};
use crate::{Counted, DropCounts, Told, all_are, dropped, opened, table};
use seize_collector::{Owned, Registration, Shared};
use std::alloc::Global;
use std::thread;
use std::thread::Threads;

/// Puts a block at the root; looks at the value that was there, and retires it, without a section. Tells whether it was put, and what was there had not been
/// dropped, and was retired.
pub fn publishes(registration: &mut Registration<'_, Counted>, owned: Owned<'_, Counted>) -> bool
    requires { registration.old.stay.caller.blocks.now ≡ owned.caller.blocks.now }
    ensures { registration.new.stay.caller.blocks ≡ registration.old.stay.caller.blocks }
{
    match owned.publish(0) {
        Ok(before) => match before.block() {
            Some(old) => {
                let was = old.value();
                let fresh = dropped(&was.drops, was.place) == 0;
                match registration.retire(old) {
                    Ok(()) => fresh,
                    Err((_, old)) => {
                        old.kept();
                        false
                    }
                }
            }
            None => true,
        },
        Err(owned) => {
            drop(owned.into_value());
            false
        }
    }
}

/// Makes a block of a value, and puts it at the root so.
fn brings(
    registration: &mut Registration<'_, Counted>,
    collector: &Shared<'_, Counted>,
    near: &mut u64,
    value: Counted,
) -> bool
    requires { registration.old.stay.caller.blocks.now ≡ collector.now.blocks.now }
    ensures { registration.new.stay.caller.blocks ≡ registration.old.stay.caller.blocks }
{
    match collector.make(near, value) {
        Ok(owned) => publishes(registration, owned),
        Err(_) => false,
    }
}

/// Does so for each of so many places from one on. Tells whether each was put.
fn brings_all(collector: &Shared<'_, Counted>, drops: &DropCounts, from: usize) -> bool {
    let Ok(mut registration) = collector.register() else {
        return false;
    };
    let mut near = 0;
    let mut put = true;
    for turn in 0..TIMES {
        put = match Counted::of(drops, usize::wrapping_add(from, turn)) {
            Some(value) => brings(&mut registration, collector, &mut near, value) && put,
            None => false,
        };
    }
    put
}

/// Takes the value from the root again and again, and retires it, without a section; tries the batch at each eighth turn. Tells whether there was a slot for
/// it.
pub fn sweeps(collector: &Shared<'_, Counted>) -> bool {
    let Ok(mut registration) = collector.register() else {
        return false;
    };
    for turn in 0..TIMES {
        registration.clear(0);
        if turn % 8 == 0 {
            registration.flush();
        }
    }
    true
}

/// One who brings values, and one who takes away what is there.
fn pair<R: Threads + Sync>(
    rt: &R,
    collector: &Shared<'_, Counted>,
    drops: &DropCounts,
    from: usize,
) -> bool {
    let (first, second) = thread::join(
        rt,
        || brings_all(collector, drops, from),
        || sweeps(collector),
    );
    first && second
}

/// And one who sees and puts values under guards.
fn three<R: Threads + Sync>(rt: &R, collector: &Shared<'_, Counted>, drops: &DropCounts) -> bool {
    let (first, second) = thread::join(
        rt,
        || goes(collector, drops, 0),
        || pair(rt, collector, drops, TIMES),
    );
    first && second
}

/// Tells whether what is put and taken away without a section is seen, and dropped once.
pub(crate) fn go<R: Threads + Sync>(rt: &R, alloc: Global) -> Told {
    let drops = table(alloc, 2 * TIMES)?;
    let collector = opened(alloc)?;
    let went = three(rt, &collector.shared(), &drops);
    drop(collector);
    Ok([went, all_are(&drops, 2 * TIMES, 1)] == [true; 2])
}

/// Puts a value of its own at the root if none is there, and tells whether it has; else its value has come back.
fn places(collector: &Shared<'_, Counted>, drops: &DropCounts, place: usize) -> Option<bool> {
    let mut near = 0;
    let Ok(owned) = collector.make(&mut near, Counted::of(drops, place)?) else {
        return None;
    };
    match owned.place(0) {
        Ok(before) => {
            before.none();
            Some(true)
        }
        Err(owned) => {
            if owned.into_value().place == place {
                Some(false)
            } else {
                None
            }
        }
    }
}

/// Two of them; tells whether one of them alone has put its value, and the other one's came back.
fn one_places<R: Threads + Sync>(
    rt: &R,
    collector: &Shared<'_, Counted>,
    drops: &DropCounts,
) -> bool {
    match thread::join(
        rt,
        || places(collector, drops, 0),
        || places(collector, drops, 1),
    ) {
        (Some(first), Some(second)) => first != second,
        _ => false,
    }
}

/// Tells whether one of two puts its value where none is.
pub(crate) fn place<R: Threads + Sync>(rt: &R, alloc: Global) -> Told {
    let drops = table(alloc, 2)?;
    let collector = opened(alloc)?;
    let went = one_places(rt, &collector.shared(), &drops);
    drop(collector);
    Ok([went, all_are(&drops, 2, 1)] == [true; 2])
}

/// Takes the block out, and answers the place of its value.
fn takes(given: &mut Option<Owned<'_, Counted>>) -> Option<usize> {
    let owned = given.take()?;
    Some(owned.into_value().place)
}

/// Makes a block of a value, which another thread takes away; answers the place of the value.
fn sends<R: Threads + Sync>(
    rt: &R,
    collector: &Shared<'_, Counted>,
    value: Counted,
) -> Option<usize> {
    let mut near = 0;
    let mut given = collector.make(&mut near, value).ok();
    let (place, ()) = thread::join(rt, || takes(&mut given), || ());
    if let Some(owned) = given {
        drop(owned.into_value());
    }
    place
}

/// Tells whether a block is taken away by another thread.
pub(crate) fn send<R: Threads + Sync>(rt: &R, alloc: Global) -> Told {
    let drops = table(alloc, 2)?;
    let Some(value) = Counted::of(&drops, 1) else {
        return Ok(false);
    };
    let collector = opened(alloc)?;
    let place = sends(rt, &collector.shared(), value);
    drop(collector);
    Ok(dropped(&drops, 1) == 1 && place == Some(1))
}
