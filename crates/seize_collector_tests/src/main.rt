//! Says of the collector that threads share what it was seen to do, a line each. First come calls that ask for memory: where it is refused, they are made again. This program is to be
//! run once for each request for memory of those, with that one refused and no input: each time it prints the same; and there are fewer requests than sections. Where there is a line
//! of input come threads, two, three or four at a time, and guards one after another, with values that count their drops; memories that are emptied, and guards and slots in number.
#![tactic(auto)]

mod behind;
mod bringing;
mod calls;
mod crowd;
mod desks;
mod exchanging;
mod forgotten;
mod holding;
mod idle;
mod leaving;
mod lists;
mod many;
mod marking;
mod order;
mod passing;
mod refused;
mod retiring;
mod rewriting;
mod tagging;

ghost use Rattle.std.specs.Prelude.{None};

use seize::Fault;
use seize::rows::Defers;
use seize_collector::{Collector, IdSource};
use seize_shared::Fixed;
use std::alloc::{AllocError, Global};
use std::io;
use std::sync::atomic::AtomicU64;
use std::sync::atomic::Ordering::SeqCst;
use std::sync::{Arc, Wait};
use std::thread::Threads;

/// Whether something is so, or why that can't be said.
type Told = Result<bool, Fault>;

/// What is chosen for a memory: batches of five blocks, and one root.
const CHOSEN: Fixed = Fixed {
    batch_size: 5,
    roots: 1,
    chains: 0,
};

/// The size of its batches.
pub(crate) const SIZE: u64 = 5;

/// Makes a collector that has batches of five and a root. It ends with whoever has it, so a test that has more than one way out takes it in a function of its
/// own.
pub(crate) fn opened<T: Defers + Drop>(alloc: Global) -> Result<Collector<T>, Fault> {
    let mut ids = IdSource::new();
    Collector::new(alloc, &mut ids, 1, 1)?.batch_size(alloc, SIZE)
}

/// A count for each place.
pub(crate) type DropCounts = Arc<Vec<AtomicU64>>;

/// Returns a table of so many places, all at 0.
pub(crate) fn table(alloc: Global, places: usize) -> Result<DropCounts, AllocError> {
    let mut drops = Vec::new(alloc);
    for _ in 0..places {
        drops.push(AtomicU64::new(0))?;
    }
    Ok(Arc::new(alloc, drops)?)
}

/// Returns how often the value of a place was dropped. It is 0 where there is no such place.
pub(crate) fn dropped(drops: &DropCounts, place: usize) -> u64 {
    match drops.get(place) {
        Some(count) => count.load(SeqCst),
        None => 0,
    }
}

/// Returns whether each of the first places of the table was counted so often.
pub(crate) fn all_are(drops: &DropCounts, places: usize, times: u64) -> bool {
    for place in 0..places {
        if dropped(drops, place) != times {
            return false;
        }
    }
    true
}

/// A value that counts its drops at its place of a table.
pub(crate) struct Counted {
    pub(crate) place: usize,
    pub(crate) drops: DropCounts,
}

impl Counted {
    /// Returns the value of a place. There is none where the table has too many owners.
    pub(crate) fn of(drops: &DropCounts, place: usize) -> Option<Counted> {
        let drops = Arc::try_clone(drops).ok()?;
        Some(Counted { place, drops })
    }
}

impl Drop for Counted {
    fn drop(self) {
        let Counted { place, drops } = self;
        if let Some(count) = drops.get(place) {
            count.fetch_add(1, SeqCst);
        }
    }
}

impl Defers for Counted {
    ghost defers = { λ _. None };

    fn deferred(&self) -> Option<u64> {
        None
    }
}

/// Prints whether each of these is so, or why that can't be said.
fn tells<R: Print>(rt: &R, what: &[&str], so: &[Told]) -> io::Result<()> {
    for (what, is_so) in what.iter().zip(so) {
        match is_so {
            Ok(is_so) => println!(rt; "{what}: {is_so}")?,
            Err(fault) => println!(rt; "{what}: {}", fault.name())?,
        }
    }
    Ok(())
}

/// What is said of guards, call by call, and the order in which values come back.
const GUARDS: [&str; 8] = [
    "a guard sees what it has put, and drops what it has taken",
    "thirty values come back as their guard ends, and the last first",
    "a batch comes back in order where a guard ends on another thread",
    "a batch comes back in order where a guard is refreshed",
    "a batch that is tried without a section waits for open ones",
    "a block that was unlinked is retired by a guard",
    "what forgotten guards retired goes with their registration, whose slot is free",
    "a value that keeps a list is put if its words can be counted",
];

/// Says of them what was seen to be so.
fn of_guards<R: Threads + Sync + Print>(rt: &R, alloc: Global) -> io::Result<()> {
    let so = [
        calls::answer(alloc),
        order::come_back(alloc),
        order::are_sent(rt, alloc),
        order::are_refreshed(alloc),
        idle::wait(alloc),
        idle::are_retired(alloc),
        idle::are_forgotten(alloc),
        lists::are_put(alloc),
    ];
    tells(rt, &GUARDS, &so)
}

/// What is said of threads that see, put and take away values.
const THREADS: [&str; 13] = [
    "no count is lost, and each number is dropped once",
    "a number comes back where another one is there, which was seen then",
    "four threads see nothing that was dropped, and each value is dropped once",
    "the last to leave drops what was retired",
    "what is put and taken away without a section is seen, and dropped once",
    "one of two puts its value where none is",
    "a block is taken away by another thread",
    "each value that a block was given comes back, or is dropped once",
    "each mark is found once, and each value is dropped once",
    "who has marked a word first is alone to replace it",
    "what passes have seen stays as long as their guard",
    "a pass of another collector is refused",
    "what passes retire under a guard is there until it ends",
];

/// Says of them what was seen to be so.
fn of_threads<R: Threads + Sync + Print>(rt: &R, alloc: Global) -> io::Result<()> {
    let so = [
        exchanging::count_on(rt, alloc),
        exchanging::take_turns(alloc),
        crowd::see(rt, alloc),
        leaving::leave(rt, alloc),
        bringing::go(rt, alloc),
        bringing::place(rt, alloc),
        bringing::send(rt, alloc),
        rewriting::rewrite(rt, alloc),
        tagging::find(rt, alloc),
        marking::mark(rt, alloc),
        passing::look(rt, alloc),
        passing::is_foreign(alloc),
        retiring::retire(rt, alloc),
    ];
    tells(rt, &THREADS, &so)
}

/// What is said of slots, values behind others, desks, and a memory that is emptied.
const SLOTS: [&str; 9] = [
    "who holds a registration puts values, and drops what they replace",
    "forty guards at once have slots of their own, and hold what they see",
    "values wait behind another one, and come back after it, the last first",
    "what a guard has seen is there until the last one of its desk ends",
    "a desk refuses a guard where it has the most",
    "what a desk's forgotten guard has seen is there until the memory ends",
    "what is retired under a desk's guards is there until the last one ends",
    "what waits behind forgotten guards is given back once",
    "a memory that was never used is emptied",
];

/// Says of them what was seen to be so.
fn of_slots<R: Threads + Wait + Sync + Print>(rt: &R, alloc: Global) -> io::Result<()> {
    let so = [
        holding::hold(alloc),
        many::hold(rt, alloc),
        behind::come_back(rt, alloc),
        desks::end(alloc),
        desks::are_full(alloc),
        desks::are_forgotten(alloc),
        desks::retire(alloc),
        forgotten::are_reclaimed(rt, alloc),
        forgotten::is_emptied(alloc),
    ];
    tells(rt, &SLOTS, &so)
}

fn main(rt: HostRuntime) -> io::Result<()> {
    let alloc = rt.alloc();
    refused::calls(&rt, alloc)?;
    if rt.lines(alloc).next().is_none() {
        return Ok(());
    }
    of_guards(&rt, alloc)?;
    of_threads(&rt, alloc)?;
    of_slots(&rt, alloc)
}
