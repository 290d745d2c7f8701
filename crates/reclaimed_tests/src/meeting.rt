//! Two workers that look for one another, which one after the other never finds.
use reclaimed_load::{Fault, Gate, ResizeMode, count};
use std::alloc::Global;
use std::sync::Wait;
use std::sync::atomic::AtomicU64;
use std::sync::atomic::Ordering::SeqCst;
use std::thread::{self, Threads};

/// How the map comes to its next tables.
const MODES: [ResizeMode; 2] = [ResizeMode::Incremental(64), ResizeMode::Blocking];

/// How often a worker looks.
const LOOKS: u64 = 1_000_000;

/// A gate at which each of two workers looks, as it arrives there for the second time, whether the other has, too.
#[derive(Drop)]
struct Meeting {
    one: AtomicU64,
    other: AtomicU64,
    met: AtomicU64,
}

/// Whether somebody has arrived for the second time, or does in a while.
fn comes(arrived: &AtomicU64) -> bool {
    for _ in 0..LOOKS {
        if arrived.load(SeqCst) >= 2 {
            return true;
        }
        thread::yield_now();
    }
    false
}

impl Meeting {
    /// A gate where nobody has arrived.
    fn new() -> Self {
        Meeting {
            one: AtomicU64::new(0),
            other: AtomicU64::new(0),
            met: AtomicU64::new(0),
        }
    }

    /// Counts an arrival, and notes at the second one whether the two have met.
    fn count(&self, own: &AtomicU64, next: &AtomicU64) {
        let before = own.fetch_add(1, SeqCst);
        if before == 1 && comes(next) {
            self.met.fetch_add(1, SeqCst);
        }
    }
}

impl Gate for Meeting {
    fn arrive(&self, who: usize) -> bool {
        if who == 0 {
            self.count(&self.one, &self.other);
        } else {
            self.count(&self.other, &self.one);
        }
        true
    }
}

/// Whether two workers meet at a gate on a map of this mode, and all that they have done shows.
fn meet<R: Threads + Wait + Sync>(rt: &R, alloc: Global, mode: ResizeMode) -> Result<bool, Fault> {
    let gate = Meeting::new();
    let counted = count(rt, alloc, &gate, mode, 2, 1_000)?;
    let met = gate.met.load(SeqCst);
    Ok(met == 2 && counted.keys == 16 && counted.sum == 2_000)
}

/// Whether two workers meet on a map of each mode.
pub fn two_meet<R: Threads + Wait + Sync>(rt: &R, alloc: Global) -> Result<bool, Fault> {
    let [incremental, blocking] = MODES;
    Ok(meet(rt, alloc, incremental)? && meet(rt, alloc, blocking)?)
}
