//! Values that wait behind another one come back after it.
ghost use Rattle.std.specs.Prelude.{◌≡◌, IfOk};

use crate::{DropCounts, Told, dropped as at, table};
use seize::rows::Defers;
use seize_blocks::{Blocks, Home};
use seize_guards::DeferringGuard;
use seize_shared::{Fixed, OfRows, OwnedGuard, Registration};
use std::alloc::{AllocError, Global};
use std::sync::atomic::Ordering::SeqCst;
use std::sync::{Arc, Wait};

/// Batches of one block, and two roots.
const TWO: Fixed = Fixed {
    batch_size: 1,
    roots: 2,
    chains: 0,
};

/// A value that keeps a list at this word of its block, or none, and whose drop stores the next number at its place of a table; the table's first place has the
/// count.
struct Numbered {
    list: Option<u64>,
    place: usize,
    numbers: DropCounts,
}

impl Drop for Numbered {
    fn drop(self) {
        let Numbered {
            list: _,
            place,
            numbers,
        } = self;
        if let (Some(count), Some(word)) = (numbers.first(), numbers.get(place)) {
            word.store(u64::wrapping_add(count.fetch_add(1, SeqCst), 1), SeqCst);
        }
    }
}

impl Defers for Numbered {
    ghost defers = { λ x. x.list };

    fn deferred(&self) -> Option<u64> {
        self.list
    }
}

/// The value of a place.
fn of_place(numbers: &DropCounts, place: usize, list: Option<u64>) -> Option<Numbered> {
    let numbers = Arc::try_clone(numbers).ok()?;
    Some(Numbered {
        list,
        place,
        numbers,
    })
}

/// Puts a value at the second root; tells whether the one before waits.
fn puts_behind<W: Wait, G: DeferringGuard<Numbered>>(
    guard: &mut G,
    rt: &W,
    numbers: &DropCounts,
    place: usize,
) -> bool {
    match of_place(numbers, place, None) {
        Some(value) => match guard.put_behind(rt, 1, value) {
            Ok(waits) => waits,
            Err(_) => false,
        },
        None => false,
    }
}

/// Puts the value of a place at a root; tells whether it is there.
fn puts<G: DeferringGuard<Numbered>>(
    guard: &mut G,
    numbers: &DropCounts,
    root: u64,
    place: usize,
    list: Option<u64>,
) -> bool {
    match of_place(numbers, place, list) {
        Some(value) => guard.put(root, value).is_ok(),
        None => false,
    }
}

/// Sees the first value, which keeps a list, and takes three ones out behind it; tells whether each of them waits. Then the first one is taken out, too; answers
/// how many have come back by then.
fn waits<W: Wait, G: DeferringGuard<Numbered>>(
    guard: &mut G,
    rt: &W,
    numbers: &DropCounts,
) -> (bool, u64) {
    let there = puts(guard, numbers, 1, 2, None) && puts(guard, numbers, 0, 1, Some(0));
    guard.see(0);
    let two = puts_behind(guard, rt, numbers, 3) && puts_behind(guard, rt, numbers, 4);
    let wait = two && guard.clear_behind(rt, 1);
    guard.clear(0);
    guard.flush();
    (there && wait, at(numbers, 0))
}

/// The same by a guard of a registration, or by one with a slot of its own.
fn comes_back<W: Wait>(
    rt: &W,
    blocks: &Blocks<Numbered, OfRows>,
    numbers: &DropCounts,
    own: bool,
) -> (bool, u64)
    requires fixed { blocks.now.words.fixed ≡ record { batch_size = 1; roots = 2; chains = 0 } }
{
    if own {
        let Ok(mut guard) = OwnedGuard::enter(blocks, &TWO) else {
            return (false, 0);
        };
        return waits(&mut guard, rt, numbers);
    }
    let Ok(mut registration) = Registration::new(blocks, &TWO) else {
        return (false, 0);
    };
    let mut guard = registration.enter();
    waits(&mut guard, rt, numbers)
}

/// The same over one memory, which ends then.
fn comes_back_alone<W: Wait>(
    rt: &W,
    alloc: Global,
    numbers: &DropCounts,
    own: bool,
) -> Result<(bool, u64), AllocError> {
    let home = Home::<Numbered, OfRows>::open(alloc, 2, 64, &TWO)?;
    Ok(comes_back(rt, &home.blocks, numbers, own))
}

/// Tells whether values wait behind another one, and come back after it, the last first.
pub(crate) fn come_back<R: Wait>(rt: &R, alloc: Global) -> Told {
    let mut all = true;
    for own in [false, true] {
        let numbers = table(alloc, 5)?;
        let came = comes_back_alone(rt, alloc, &numbers, own)? == (true, 0);
        let order = [
            at(&numbers, 1),
            at(&numbers, 4),
            at(&numbers, 3),
            at(&numbers, 2),
        ];
        all = all && came && order == [1, 2, 3, 4];
    }
    Ok(all)
}
