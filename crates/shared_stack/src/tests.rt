//! Values that are pushed and popped, by one thread and by four.
ghost use Rattle.std.specs.Prelude.{◌≡◌};

use crate::pile::Pile;
use crate::stack::{Popped, pop, push};
use seize_blocks::{Blocks, Home};
use seize_shared::{Fixed, Guard, OfRows, Registration, RootGuard};
use std::alloc::{AllocError, Global};
use std::sync::Arc;
use std::sync::atomic::AtomicU64;
use std::sync::atomic::Ordering::SeqCst;
use std::test::Fail;
use std::thread;
use std::thread::Threads;

/// How many values each of four threads pushes.
const TIMES: u64 = 5_000;

/// How often it tries to push one, or to pop one.
const TRIES: usize = 10_000;

/// What is chosen for the memory.
const CHOSEN: Fixed = Fixed {
    batch_size: 32,
    roots: 1,
    chains: 0,
};

/// What was counted: values that were made, and that were dropped; and sums of those that were pushed, and that were popped.
#[derive(Drop)]
struct Counts {
    made: AtomicU64,
    dropped: AtomicU64,
    pushed: AtomicU64,
    popped: AtomicU64,
}

/// A number, which is counted as it is made, and as it is dropped.
struct Tally {
    number: u64,
    counts: Arc<Counts>,
}

/// Numbers one above the other.
type Numbers = Pile<Tally>;

/// A memory that was opened so.
#[derive(Drop)]
struct Ground<'a> {
    blocks: &'a Blocks<Numbers, OfRows>,
    ghost chosen: { blocks.now.words.fixed ≡ record { batch_size = 32; roots = 1; chains = 0 } },
}

impl Drop for Tally {
    fn drop(self) {
        let Tally { number: _, counts } = self;
        counts.dropped.fetch_add(1, SeqCst);
    }
}

/// No counts yet.
fn no_counts(alloc: Global) -> Result<Arc<Counts>, AllocError> {
    Ok(Arc::new(
        alloc,
        Counts {
            made: AtomicU64::new(0),
            dropped: AtomicU64::new(0),
            pushed: AtomicU64::new(0),
            popped: AtomicU64::new(0),
        },
    )?)
}

/// This number, as a value.
fn counted(alloc: Global, counts: &Arc<Counts>, number: u64) -> Result<Arc<Tally>, AllocError> {
    let counts = Arc::try_clone(counts)?;
    counts.made.fetch_add(1, SeqCst);
    Ok(Arc::new(alloc, Tally { number, counts })?)
}

/// Pushes a number, and tells whether it did so at last.
fn pushes<G: RootGuard<Numbers>>(
    guard: &mut G,
    alloc: Global,
    counts: &Arc<Counts>,
    number: u64,
) -> Result<bool, AllocError> {
    let value = counted(alloc, counts, number)?;
    for _ in 0..TRIES {
        guard.refresh();
        if push(guard, 0, alloc, &value)? {
            counts.pushed.fetch_add(number, SeqCst);
            return Ok(true);
        }
        thread::yield_now();
    }
    Ok(false)
}

/// The number that was popped at last, if one was.
fn pops<G: RootGuard<Numbers>>(
    guard: &mut G,
    counts: &Arc<Counts>,
) -> Result<Option<u64>, AllocError> {
    for _ in 0..TRIES {
        guard.refresh();
        match pop(guard, 0)? {
            Popped::Value(value) => {
                counts.popped.fetch_add(value.number, SeqCst);
                return Ok(Some(value.number));
            }
            Popped::Empty => return Ok(None),
            Popped::Missed => thread::yield_now(),
        }
    }
    Ok(None)
}

/// What three pops answer after three pushes, and one more.
fn by_one(
    ground: &Ground,
    alloc: Global,
    counts: &Arc<Counts>,
) -> Result<[Option<u64>; 4], AllocError> {
    let Ok(mut registration) = Registration::new(ground.blocks, &CHOSEN) else {
        return Err(AllocError);
    };
    let mut guard = registration.enter();
    pushes(&mut guard, alloc, counts, 1)?;
    pushes(&mut guard, alloc, counts, 2)?;
    pushes(&mut guard, alloc, counts, 3)?;
    Ok([
        pops(&mut guard, counts)?,
        pops(&mut guard, counts)?,
        pops(&mut guard, counts)?,
        pops(&mut guard, counts)?,
    ])
}

#[test]
fn what_was_pushed_last_is_popped_first(rt: HostRuntime) -> Result<(), Fail> {
    let counts = no_counts(rt.alloc())?;
    let home = Home::<Numbers, OfRows>::open(rt.alloc(), 1, 8, &CHOSEN)?;
    let ground = Ground {
        blocks: &home.blocks,
    };
    let popped = by_one(&ground, rt.alloc(), &counts)?;
    assert_eq!(rt; popped, [Some(3), Some(2), Some(1), None]);
    Ok(())
}

/// Pushes numbers, and pops one after each other one; answers how many were pushed, and how many popped.
fn goes(ground: &Ground, alloc: Global, counts: &Arc<Counts>) -> Result<(u64, u64), AllocError> {
    let Ok(mut registration) = Registration::new(ground.blocks, &CHOSEN) else {
        return Err(AllocError);
    };
    let mut guard = registration.enter();
    let (mut pushed, mut popped) = (0u64, 0u64);
    for n in 0..TIMES {
        if pushes(&mut guard, alloc, counts, n)? {
            pushed = u64::wrapping_add(pushed, 1);
        }
        if n % 2 == 1 && pops(&mut guard, counts)?.is_some() {
            popped = u64::wrapping_add(popped, 1);
        }
    }
    Ok((pushed, popped))
}

/// Pops what is left, and answers how many values there were.
fn drains(ground: &Ground, counts: &Arc<Counts>) -> Result<u64, AllocError> {
    let Ok(mut registration) = Registration::new(ground.blocks, &CHOSEN) else {
        return Err(AllocError);
    };
    let mut guard = registration.enter();
    let mut popped = 0u64;
    for _ in 0..TIMES * 4 {
        if pops(&mut guard, counts)?.is_none() {
            break;
        }
        popped = u64::wrapping_add(popped, 1);
    }
    Ok(popped)
}

/// Two threads at a time.
fn by_two<R: Threads + Sync>(
    rt: &R,
    ground: &Ground,
    alloc: Global,
    counts: &Arc<Counts>,
) -> (
    Result<(u64, u64), AllocError>,
    Result<(u64, u64), AllocError>,
) {
    thread::join(
        rt,
        || goes(ground, alloc, counts),
        || goes(ground, alloc, counts),
    )
}

/// And twice two; answers how many values each of them has pushed and popped, and how many were left.
fn by_each<R: Threads + Sync>(
    rt: &R,
    ground: &Ground,
    alloc: Global,
    counts: &Arc<Counts>,
) -> Result<([(u64, u64); 4], u64), AllocError> {
    let ((a, b), (c, d)) = thread::join(
        rt,
        || by_two(rt, ground, alloc, counts),
        || by_two(rt, ground, alloc, counts),
    );
    Ok(([a?, b?, c?, d?], drains(ground, counts)?))
}

/// The same over one memory, which ends then.
fn by_four<R: Threads + Sync>(
    rt: &R,
    alloc: Global,
    counts: &Arc<Counts>,
) -> Result<([(u64, u64); 4], u64), AllocError> {
    let home = Home::<Numbers, OfRows>::open(alloc, 1, 64, &CHOSEN)?;
    let ground = Ground {
        blocks: &home.blocks,
    };
    by_each(rt, &ground, alloc, counts)
}

#[test]
fn each_value_that_is_pushed_is_popped_once_and_dropped_once(rt: HostRuntime) -> Result<(), Fail> {
    let counts = no_counts(rt.alloc())?;
    let (by_each, left) = by_four(&rt, rt.alloc(), &counts)?;
    let (mut pushed, mut popped) = (0u64, left);
    for (one, other) in by_each {
        pushed = u64::wrapping_add(pushed, one);
        popped = u64::wrapping_add(popped, other);
    }
    assert_eq!(rt; pushed, TIMES * 4);
    assert_eq!(rt; popped, pushed);
    assert_eq!(rt; counts.popped.load(SeqCst), counts.pushed.load(SeqCst));
    assert_eq!(rt; counts.made.load(SeqCst), TIMES * 4);
    assert_eq!(rt; counts.dropped.load(SeqCst), TIMES * 4);
    Ok(())
}
