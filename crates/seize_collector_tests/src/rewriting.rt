//! Two threads give a block that each has made one value after the other, and then put it at the root, beside one who takes away what is there: each value that
//! is replaced comes back, and each one is dropped once.
ghost use Rattle.std.specs.Prelude.{◌≡◌};

use crate::bringing::{publishes, sweeps};
use crate::crowd::TIMES;
use crate::{Counted, DropCounts, Told, all_are, dropped, opened, table};
use seize::Fault;
use seize_collector::{Owned, Shared};
use std::alloc::Global;
use std::thread;
use std::thread::Threads;

/// Gives a block the values of so many places, one after the other, from the one on that comes next. Tells whether each value that came back was the one that
/// was given before, and had not been dropped, and the new one was there then.
fn rewrites(owned: &mut Owned<'_, Counted>, drops: &DropCounts, from: usize) -> bool
    ensures { owned.new.caller.blocks ≡ owned.old.caller.blocks }
{
    let mut good = true;
    let mut last = from;
    for turn in 1..TIMES {
        let next = usize::wrapping_add(from, turn);
        match Counted::of(drops, next) {
            Some(value) => {
                let before = owned.rewrite(value);
                good = good
                    && before.place == last
                    && dropped(drops, last) == 0
                    && owned.value().place == next;
                last = next;
            }
            None => good = false,
        }
    }
    good
}

/// Makes a block of the value of a place, gives it so many further ones, and puts it at the root.
fn brings_the_last(collector: &Shared<'_, Counted>, drops: &DropCounts, from: usize) -> bool {
    let Ok(mut registration) = collector.register() else {
        return false;
    };
    let Some(first) = Counted::of(drops, from) else {
        return false;
    };
    let mut near = 0;
    match collector.make(&mut near, first) {
        Ok(owned) => {
            let mut owned = owned;
            let good = rewrites(&mut owned, drops, from);
            publishes(&mut registration, owned) && good
        }
        Err(_) => false,
    }
}

/// Two of them.
fn pair<R: Threads + Sync>(rt: &R, collector: &Shared<'_, Counted>, drops: &DropCounts) -> bool {
    let (first, second) = thread::join(
        rt,
        || brings_the_last(collector, drops, 0),
        || brings_the_last(collector, drops, TIMES),
    );
    first && second
}

/// And one who takes away what is there, over one collector, which ends then.
fn three<R: Threads + Sync>(rt: &R, alloc: Global, drops: &DropCounts) -> Result<bool, Fault> {
    let collector = opened(alloc)?;
    let shared = collector.shared();
    let (first, second) = thread::join(rt, || pair(rt, &shared, drops), || sweeps(&shared));
    Ok(first && second)
}

/// Tells whether each value that a block was given comes back, or is dropped once.
pub(crate) fn rewrite<R: Threads + Sync>(rt: &R, alloc: Global) -> Told {
    let drops = table(alloc, 2 * TIMES)?;
    let went = three(rt, alloc, &drops)?;
    Ok([went, all_are(&drops, 2 * TIMES, 1)] == [true; 2])
}
