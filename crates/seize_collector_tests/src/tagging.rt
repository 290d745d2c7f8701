//! Words of a root with their tags, on two threads: what one has marked is found by whoever replaces it, and an exchange that knows the word before a mark is
//! refused.
ghost use Rattle.std.specs.Prelude.{◌<◌};

use crate::{Counted, DropCounts, Told, all_are, table};
use seize::Fault;
use seize_collector::{Collector, IdSource, OwnedGuard, RootGuard, Shared, Tagged};
use std::alloc::Global;
use std::thread;
use std::thread::Threads;

/// How often each of them goes about.
const TIMES: usize = 5_000;

/// Whether an exchange is refused that knows this word. The value comes back then, and is dropped.
fn is_refused(guard: &OwnedGuard<'_, Counted>, known: Tagged, value: Counted) -> bool
    requires rooted { 0 < guard.now.stay.caller.blocks.now.words.fixed.roots }
{
    let mut near = 0;
    let Ok(owned) = guard.make(&mut near, value) else {
        return false;
    };
    match owned.compare_exchange(guard, 0, known, 0) {
        Ok(Ok(before)) => {
            if let Some(old) = before.block() {
                old.kept();
            }
            false
        }
        Ok(Err((_, owned))) => {
            drop(owned.into_value());
            true
        }
        Err((_, owned)) => {
            drop(owned.into_value());
            false
        }
    }
}

/// Puts a block of this value in the place of this word, retires what was there, and ends the guard. Answers the tag of what was there; none where another word
/// is there by now.
fn replaces(guard: OwnedGuard<'_, Counted>, was: Tagged, value: Counted) -> Option<u64>
    requires rooted { 0 < guard.stay.caller.blocks.now.words.fixed.roots }
{
    let mut guard = guard;
    let mut near = 0;
    let owned = guard.make(&mut near, value).ok()?;
    match owned.compare_exchange(&guard, 0, was, 0) {
        Ok(Ok(before)) => {
            let tag = before.tagged().tag();
            match before.block() {
                Some(old) => match old.retire(&mut guard) {
                    Ok(()) => Some(tag),
                    Err((_, old)) => {
                        old.kept();
                        None
                    }
                },
                None => Some(tag),
            }
        }
        Ok(Err((_, owned))) => {
            drop(owned.into_value());
            None
        }
        Err((_, owned)) => {
            drop(owned.into_value());
            None
        }
    }
}

/// What one of them has counted: words that it marked first, and words with the mark of the one and of the other that it has replaced.
#[derive(Drop)]
struct Tally {
    marked: u64,
    first: u64,
    second: u64,
}

/// Marks the word at the root, 1 for the first of them and 2 for the second one, and replaces what it finds then. There is no answer where an exchange was not
/// refused that knew the word before the mark.
fn turns(
    collector: &Shared<'_, Counted>,
    mark: u64,
    idle: Counted,
    value: Counted,
    tally: &mut Tally,
) -> Option<()>
    requires rooted { 0 < collector.now.blocks.now.words.fixed.roots }
{
    let mut guard = collector.enter_owned().ok()?;
    let before = guard.mark(0, mark)?;
    if before.tag() & mark == 0 {
        tally.marked = u64::wrapping_add(tally.marked, 1);
        if !is_refused(&guard, before, idle) {
            return None;
        }
    }
    let now = guard.protect(0)?;
    if let Some(tag) = replaces(guard, now, value) {
        tally.first = u64::wrapping_add(tally.first, tag & 1);
        tally.second = u64::wrapping_add(tally.second, (tag & 2) / 2);
    }
    Some(())
}

/// So many turns with the values of so many places from one on.
fn goes(
    collector: &Shared<'_, Counted>,
    drops: &DropCounts,
    mark: u64,
    from: usize,
) -> Option<Tally>
    requires rooted { 0 < collector.now.blocks.now.words.fixed.roots }
{
    let mut tally = Tally {
        marked: 0,
        first: 0,
        second: 0,
    };
    for turn in 0..TIMES {
        let place = usize::wrapping_add(from, usize::wrapping_mul(turn, 2));
        let idle = Counted::of(drops, place)?;
        let value = Counted::of(drops, usize::wrapping_add(place, 1))?;
        turns(collector, mark, idle, value, &mut tally)?;
    }
    Some(tally)
}

/// The tag of the word at the root.
fn last(collector: &Shared<'_, Counted>) -> Option<u64>
    requires rooted { 0 < collector.now.blocks.now.words.fixed.roots }
{
    let mut guard = collector.enter_owned().ok()?;
    let word = guard.protect(0)?;
    Some(word.tag())
}

/// Whether each mark was found by who replaced the word, or is there still.
fn agree(first: Option<Tally>, second: Option<Tally>, last: Option<u64>) -> bool {
    let (Some(first), Some(second), Some(last)) = (first, second, last) else {
        return false;
    };
    let of_first = u64::wrapping_add(u64::wrapping_add(first.first, second.first), last & 1);
    let of_second = u64::wrapping_add(
        u64::wrapping_add(first.second, second.second),
        (last & 2) / 2,
    );
    first.marked == of_first && second.marked == of_second && of_first > 0 && of_second > 0
}

/// Two of them over one collector.
fn both<R: Threads + Sync>(rt: &R, alloc: Global, drops: &DropCounts) -> Result<bool, Fault> {
    let mut ids = IdSource::new();
    let collector = Collector::new(alloc, &mut ids, 2, 1)?;
    let shared = collector.shared();
    let (first, second) = thread::join(
        rt,
        || goes(&shared, drops, 1, 0),
        || goes(&shared, drops, 2, 2 * TIMES),
    );
    Ok(agree(first, second, last(&shared)))
}

/// Tells whether each mark is found once, and each value is dropped once.
pub(crate) fn find<R: Threads + Sync>(rt: &R, alloc: Global) -> Told {
    let drops = table(alloc, 4 * TIMES)?;
    let went = both(rt, alloc, &drops)?;
    Ok([went, all_are(&drops, 4 * TIMES, 1)] == [true; 2])
}
