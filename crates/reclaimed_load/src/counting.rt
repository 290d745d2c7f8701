//! Threads that update the same few keys of one shared map, and what it has in the end.
use papaya_map::{Fault, HashMap, IdSource, ResizeMode, Session, SharedMap};
use std::alloc::Global;
use std::hash::{BuildHasherDefault, DefaultHasher};
use std::sync::Wait;
use std::thread::{self, Threads};

/// How many keys they update.
const KEYS: u64 = 16;

type Hashing = BuildHasherDefault<DefaultHasher>;

type Own<'m> = Session<'m, u64, u64, Hashing>;

type Shared<'m> = SharedMap<'m, u64, u64, Hashing>;

/// Lets workers go on, or ends them.
pub trait Gate {
    /// Is asked by a worker, of this number, before each of its updates. Where it answers no, the worker ends.
    fn arrive(&self, who: usize) -> bool;
}

/// Lets each worker go on.
pub struct Open;

impl Gate for Open {
    fn arrive(&self, _who: usize) -> bool {
        true
    }
}

/// What a map has in the end.
#[derive(Clone, Copy)]
pub struct Counted {
    /// How many pairs.
    pub keys: u64,
    /// The sum of their values.
    pub sum: u64,
}

/// What comes in the place of a value.
fn more(value: &u64) -> u64 {
    u64::wrapping_add(*value, 1)
}

/// The updates of a worker, each in a section of its own.
fn updates_by<R: Wait, G: Gate>(
    rt: &R,
    gate: &G,
    who: usize,
    session: &mut Own<'_>,
    updates: u64,
) -> Result<(), Fault> {
    for number in 0..updates {
        if !gate.arrive(who) {
            return Ok(());
        }
        session.update_or_insert(rt, &(number % KEYS), more, &1)?;
        session.refresh();
    }
    Ok(())
}

/// A worker: it makes its updates by a session of its own.
fn works<R: Wait, G: Gate>(
    rt: &R,
    gate: &G,
    who: usize,
    shared: &Shared<'_>,
    updates: u64,
) -> Result<(), Fault> {
    let mut session = shared.session()?;
    updates_by(rt, gate, who, &mut session, updates)
}

/// How many pairs a session finds, and the sum of their values.
fn sums<R: Wait>(rt: &R, session: &mut Own<'_>) -> Result<Counted, Fault> {
    let mut sum = 0u64;
    session.each(rt, |_, value| sum = u64::wrapping_add(sum, *value))?;
    let keys = session.len();
    Ok(Counted { keys, sum })
}

/// The first fault of some.
fn first_of(ended: &[Result<(), Fault>]) -> Result<(), Fault> {
    for one in ended {
        if let Err(fault) = one {
            return Err(*fault);
        }
    }
    Ok(())
}

/// Starts workers on one map that is new and comes to its next tables in this mode, each in a thread of its own where one can be made. Each makes so many updates, as long as the gate
/// lets it: the keys 0 to 15 in turn get one more than their value, or 1 where they are missing. Answers what the map has once all have ended. The faults are those of its calls:
/// of a worker, too.
pub fn count<R: Threads + Wait + Sync, G: Gate + Sync>(
    rt: &R,
    alloc: Global,
    gate: &G,
    mode: ResizeMode,
    workers: usize,
    updates: u64,
) -> Result<Counted, Fault> {
    let mut ids = IdSource::new();
    let builder = HashMap::builder(Hashing::default()).resize_mode(mode);
    let map = builder.build(alloc, &mut ids)?;
    let shared = map.shared();
    let works = |who: usize| works(rt, gate, who, &shared, updates);
    let ended = thread::map_indices(rt, alloc, workers, &works)?;
    first_of(&ended)?;
    let mut session = map.session()?;
    sums(rt, &mut session)
}
