//! Values that are put above one another in a chain, and taken from there, by one thread and by four: each stands in a block of its own, whose link names the
//! one below.
ghost use Rattle.std.specs.Prelude.{◌≡◌, None};

use seize::rows::Defers;
use seize_blocks::{Blocks, Home};
use seize_guards::{ChainGuard, Joined, Unstacked};
use seize_shared::{Fixed, OfRows, Registration, Tagged};
use std::alloc::{AllocError, Global};
use std::sync::Arc;
use std::sync::atomic::AtomicU64;
use std::sync::atomic::Ordering::SeqCst;
use std::test::Fail;
use std::thread;
use std::thread::Threads;

/// How many values each of four threads puts there.
const TIMES: u64 = 5_000;

/// How often it tries to put one there, or to take one.
const TRIES: usize = 10_000;

/// What is chosen for the memory.
const CHOSEN: Fixed = Fixed {
    batch_size: 32,
    roots: 1,
    chains: 1,
};

/// The root of the chain.
const CHAIN: u64 = 1;

/// What was counted: values that were dropped; and sums of those that were put there, and that were taken.
#[derive(Drop)]
struct Counts {
    dropped: AtomicU64,
    put: AtomicU64,
    taken: AtomicU64,
}

/// A number, which is counted as it is dropped.
struct Number {
    number: u64,
    counts: Arc<Counts>,
}

impl Drop for Number {
    fn drop(self) {
        let Number { number: _, counts } = self;
        counts.dropped.fetch_add(1, SeqCst);
    }
}

impl Defers for Number {
    ghost defers = { λ _. None };

    fn deferred(&self) -> Option<u64> {
        None
    }
}

/// A memory that was opened so.
#[derive(Drop)]
struct Ground<'a> {
    blocks: &'a Blocks<Number, OfRows>,
    ghost chosen: { blocks.now.words.fixed ≡ record { batch_size = 32; roots = 1; chains = 1 } },
}

/// No counts yet.
fn no_counts(alloc: Global) -> Result<Arc<Counts>, AllocError> {
    Ok(Arc::new(
        alloc,
        Counts {
            dropped: AtomicU64::new(0),
            put: AtomicU64::new(0),
            taken: AtomicU64::new(0),
        },
    )?)
}

/// Puts a number above all others, and tells whether it did so at last.
fn puts(
    ground: &Ground,
    near: &mut u64,
    counts: &Arc<Counts>,
    number: u64,
) -> Result<bool, AllocError> {
    let value = Number {
        number,
        counts: Arc::try_clone(counts)?,
    };
    let Ok(mut joined) = Joined::new(ground.blocks, &CHOSEN, near, value) else {
        return Err(AllocError);
    };
    let mut old = Tagged::of(0);
    for _ in 0..TRIES {
        match joined.stack(CHAIN, old) {
            Ok(()) => {
                counts.put.fetch_add(number, SeqCst);
                return Ok(true);
            }
            Err((now, back)) => {
                old = now.unwrap_or(old);
                joined = back;
            }
        }
    }
    drop(joined.into_value());
    Ok(false)
}

/// The number that was taken at last, if one was.
fn takes(registration: &mut Registration<'_, Number>, counts: &Arc<Counts>) -> Option<u64> {
    let mut guard = registration.enter();
    for _ in 0..TRIES {
        match guard.unstack(CHAIN, |value: &Number| value.number) {
            Unstacked::Took(number) => {
                counts.taken.fetch_add(number, SeqCst);
                return Some(number);
            }
            Unstacked::Empty => return None,
            Unstacked::Missed => thread::yield_now(),
        }
    }
    None
}

/// The number below the first one, what is taken four times after three values were put there.
fn by_one(ground: &Ground, counts: &Arc<Counts>) -> Result<[Option<u64>; 5], AllocError> {
    let Ok(mut registration) = Registration::new(ground.blocks, &CHOSEN) else {
        return Err(AllocError);
    };
    let mut near = 0;
    puts(ground, &mut near, counts, 1)?;
    puts(ground, &mut near, counts, 2)?;
    puts(ground, &mut near, counts, 3)?;
    let below = registration
        .enter()
        .below(CHAIN, |value: &Number| value.number);
    Ok([
        below,
        takes(&mut registration, counts),
        takes(&mut registration, counts),
        takes(&mut registration, counts),
        takes(&mut registration, counts),
    ])
}

/// The same over a memory of its own, which ends then.
fn alone(alloc: Global, counts: &Arc<Counts>) -> Result<[Option<u64>; 5], AllocError> {
    let home = Home::<Number, OfRows>::open(alloc, 2, 8, &CHOSEN)?;
    let ground = Ground {
        blocks: &home.blocks,
    };
    by_one(&ground, counts)
}

#[test]
fn what_was_put_last_stands_first(rt: HostRuntime) -> Result<(), Fail> {
    let counts = no_counts(rt.alloc())?;
    let taken = alone(rt.alloc(), &counts)?;
    assert_eq!(rt; taken, [Some(2), Some(3), Some(2), Some(1), None]);
    assert_eq!(rt; counts.dropped.load(SeqCst), 3);
    Ok(())
}

/// Puts numbers there, and takes one after each other one; answers how many were put, and how many taken.
fn goes(ground: &Ground, counts: &Arc<Counts>) -> Result<(u64, u64), AllocError> {
    let Ok(mut registration) = Registration::new(ground.blocks, &CHOSEN) else {
        return Err(AllocError);
    };
    let mut near = 0;
    let (mut put, mut taken) = (0u64, 0u64);
    for n in 0..TIMES {
        if puts(ground, &mut near, counts, n)? {
            put = u64::wrapping_add(put, 1);
        }
        if n % 2 == 1 && takes(&mut registration, counts).is_some() {
            taken = u64::wrapping_add(taken, 1);
        }
    }
    Ok((put, taken))
}

/// Takes what is left, and answers how many values there were.
fn drains(ground: &Ground, counts: &Arc<Counts>) -> Result<u64, AllocError> {
    let Ok(mut registration) = Registration::new(ground.blocks, &CHOSEN) else {
        return Err(AllocError);
    };
    let mut taken = 0u64;
    for _ in 0..TIMES * 4 {
        if takes(&mut registration, counts).is_none() {
            break;
        }
        taken = u64::wrapping_add(taken, 1);
    }
    Ok(taken)
}

/// Two threads at a time.
fn by_two<R: Threads + Sync>(
    rt: &R,
    ground: &Ground,
    counts: &Arc<Counts>,
) -> (
    Result<(u64, u64), AllocError>,
    Result<(u64, u64), AllocError>,
) {
    thread::join(rt, || goes(ground, counts), || goes(ground, counts))
}

/// And twice two; answers how many values each of them has put there and taken, and how many were left.
fn by_each<R: Threads + Sync>(
    rt: &R,
    ground: &Ground,
    counts: &Arc<Counts>,
) -> Result<([(u64, u64); 4], u64), AllocError> {
    let ((a, b), (c, d)) = thread::join(
        rt,
        || by_two(rt, ground, counts),
        || by_two(rt, ground, counts),
    );
    Ok(([a?, b?, c?, d?], drains(ground, counts)?))
}

/// The same over one memory, which ends then.
fn by_four<R: Threads + Sync>(
    rt: &R,
    alloc: Global,
    counts: &Arc<Counts>,
) -> Result<([(u64, u64); 4], u64), AllocError> {
    let home = Home::<Number, OfRows>::open(alloc, 2, 64, &CHOSEN)?;
    let ground = Ground {
        blocks: &home.blocks,
    };
    by_each(rt, &ground, counts)
}

#[test]
fn each_value_that_is_put_there_is_taken_once_and_dropped_once(
    rt: HostRuntime,
) -> Result<(), Fail> {
    let counts = no_counts(rt.alloc())?;
    let (by_each, left) = by_four(&rt, rt.alloc(), &counts)?;
    let (mut put, mut taken) = (0u64, left);
    for (one, other) in by_each {
        put = u64::wrapping_add(put, one);
        taken = u64::wrapping_add(taken, other);
    }
    assert_eq!(rt; put, TIMES * 4);
    assert_eq!(rt; taken, put);
    assert_eq!(rt; counts.taken.load(SeqCst), counts.put.load(SeqCst));
    assert_eq!(rt; counts.dropped.load(SeqCst), TIMES * 4);
    Ok(())
}
