//! The kinds of turns with guards of sections, and how long they take on threads.
ghost use Rattle.std.specs.Prelude.{◌≡◌, None};

use seize::Fault;
use seize::rows::Defers;
use seize_blocks::{Blocks, Home};
use seize_shared::{Fixed, Guard, LocalGuard, OfRows, Registration, RootGuard};
use std::alloc::Global;
use std::thread::Threads;
use std::time::{Clock, Duration, Instant};
use std::{io, thread};

/// How many roots there are.
const ROOTS: u64 = 4;

/// How many slots there are.
const SLOTS: u64 = 65_536;

/// What is chosen for the memory.
const CHOSEN: Fixed = Fixed {
    batch_size: 32,
    roots: ROOTS,
    chains: 0,
};

/// A value at a root. It keeps no list of further values.
#[derive(Drop)]
struct Number(u64);

impl Defers for Number {
    ghost defers = { λ _. None };

    fn deferred(&self) -> Option<u64> {
        None
    }
}

/// Opens a section and ends it.
fn visits(registration: &mut Registration<'_, Number>, turns: u64) -> u64 {
    for _ in 0..turns {
        drop(registration.enter());
    }
    turns
}

/// Looks at a root within one section, and adds up the values that are seen there.
fn sees(guard: &mut LocalGuard<'_, '_, Number>, root: u64, turns: u64) -> u64 {
    let mut sum = 0;
    for _ in 0..turns {
        guard.see(root);
        if let Some(value) = guard.value() {
            sum = u64::wrapping_add(sum, value.0);
        }
    }
    sum
}

/// Begins the section anew, puts a value at a root, and retires the one that was there; answers how many were put.
fn puts(guard: &mut LocalGuard<'_, '_, Number>, root: u64, turns: u64) -> u64 {
    let mut put = 0;
    for _ in 0..turns {
        guard.refresh();
        if guard.put(root, Number(1)).is_ok() {
            put = u64::wrapping_add(put, 1);
        }
    }
    put
}

/// Gives the slot up that was taken last, and takes it again, also by its number.
fn regains<'a>(blocks: &'a Blocks<Number, OfRows>, all: &mut Vec<Registration<'a, Number>>) -> bool
    requires { blocks.now.words.fixed ≡ record { batch_size = 32; roots = 4; chains = 0 } }
{
    let Some(mut last) = all.pop() else {
        return false;
    };
    let slot = last.enter().thread_id();
    drop(last);
    let Ok(mut again) = Registration::new(blocks, &CHOSEN) else {
        return false;
    };
    let found = again.enter().thread_id() == slot;
    all.push(again).is_ok() && found
}

/// Takes a slot more, the one with this number. Where there is none it is refused as used up, and a slot that is given up then is had again.
fn takes_one<'a>(
    blocks: &'a Blocks<Number, OfRows>,
    all: &mut Vec<Registration<'a, Number>>,
    number: u64,
) -> bool
    requires { blocks.now.words.fixed ≡ record { batch_size = 32; roots = 4; chains = 0 } }
{
    match Registration::new(blocks, &CHOSEN) {
        Ok(mut registration) => {
            let found = registration.enter().thread_id() == number;
            all.push(registration).is_ok() && found
        }
        Err(Fault::SlotsUsedUp) => number >= SLOTS && regains(blocks, all),
        Err(_) => false,
    }
}

/// Takes so many slots, one after another, all at once as long as there are any, and answers how often it came to what it should.
fn slots(alloc: Global, blocks: &Blocks<Number, OfRows>, turns: u64) -> u64
    requires { blocks.now.words.fixed ≡ record { batch_size = 32; roots = 4; chains = 0 } }
{
    let mut all = Vec::new(alloc);
    let mut well = 0;
    for number in 0..turns {
        if takes_one(blocks, &mut all, number) {
            well = u64::wrapping_add(well, 1);
        }
    }
    well
}

/// Takes so many turns with a slot of its own, and answers how many came to what they should: a section is opened and ended; or, all within one section, a root
/// is looked at, where a value is; or a value is put at a root, the same one for all threads, or one of the thread's own. Or each turn takes a slot more.
fn takes(alloc: Global, blocks: &Blocks<Number, OfRows>, kind: &str, thread: u64, turns: u64) -> u64
    requires { blocks.now.words.fixed ≡ record { batch_size = 32; roots = 4; chains = 0 } }
{
    if kind == "slots" {
        return slots(alloc, blocks, turns);
    }
    let Ok(mut registration) = Registration::new(blocks, &CHOSEN) else {
        return 0;
    };
    if kind == "enter" {
        return visits(&mut registration, turns);
    }
    let mut guard = registration.enter();
    match kind {
        "see" => {
            drop(guard.put(0, Number(1)));
            sees(&mut guard, 0, turns)
        }
        "put" => puts(&mut guard, 0, turns),
        "put_apart" => puts(&mut guard, thread % ROOTS, turns),
        _ => 0,
    }
}

/// How long so many turns take on each of so many threads, over one memory, and how many came to what they should.
pub(crate) fn timed<R: Clock + Threads + Sync>(
    rt: &R,
    alloc: Global,
    kind: &str,
    threads: usize,
    turns: u64,
    numbers: u64,
) -> io::Result<(Duration, u64)> {
    let home = Home::<Number, OfRows>::open(alloc, ROOTS, numbers.min(1_000_000_000), &CHOSEN)?;
    let blocks = &home.blocks;
    let start = Instant::now(rt)?;
    let counts = thread::map_indices(
        rt,
        alloc,
        threads,
        &|thread: usize| { takes(alloc, blocks, kind, thread as u64, turns) },
    )?;
    let took = start.elapsed(rt)?;
    let mut sum = 0;
    for count in counts {
        sum = u64::wrapping_add(sum, count);
    }
    Ok((took, sum))
}
