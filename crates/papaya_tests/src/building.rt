//! How maps are built, and why one is refused: the first reason that there is; what stays in one between sessions; clones; and two threads that meet within closures.
use crate::{Hashing, LOOKS, Map, Own, Told, made};
use papaya::{Collector, Fault, HashMap, IdSource, Operation, Registration, ResizeMode};
use std::alloc::Global;
use std::hash::RandomState;
use std::sync::Wait;
use std::sync::atomic::AtomicU64;
use std::sync::atomic::Ordering::SeqCst;
use std::thread::{self, Threads};
use std::time::{Clock, Duration};

/// Tells whether each reason comes before those that follow it, a source of two numbers still has both afterwards, and a builder shows what was chosen.
pub(crate) fn reasons(alloc: Global, one: RandomState, other: RandomState) -> Told<bool> {
    let mut ids = IdSource::starting_at(u64::MAX - 2);
    let builder = Map::builder(Hashing::default()).capacity(u64::MAX);
    let is_shown = format!(in alloc; "{builder:?}")?.as_str()
        == "HashMapBuilder { capacity: 18446744073709551615, collector: None, resize_mode: Incremental(64) }";
    let many = builder.build(alloc, &mut ids);
    let is_many = matches!(many, Err(Fault::Capacity));
    let builder = Map::builder(Hashing::default()).resize_mode(ResizeMode::Incremental(0));
    let zero = builder.capacity(u64::MAX).build(alloc, &mut ids);
    let with = Map::with_capacity_and_hasher(alloc, &mut ids, u64::MAX / 8 + 1, Hashing::default());
    let so = [
        is_shown && is_many,
        matches!(zero, Err(Fault::ZeroChunk)),
        matches!(with, Err(Fault::Capacity)),
        HashMap::<u64, u64>::with_capacity(alloc, &mut ids, 100, one).is_ok(),
        Map::with_capacity_and_hasher(alloc, &mut ids, 100, Hashing::default()).is_ok(),
        matches!(
            Map::with_hasher(alloc, &mut ids, Hashing::default()),
            Err(Fault::CollectorsUsedUp)
        ),
        matches!(
            HashMap::<u64, u64>::new(alloc, &mut ids, other),
            Err(Fault::CollectorsUsedUp)
        ),
    ];
    Ok(so == [true; 7])
}

/// A map of this mode, which was built with all that can be chosen: also of batches of one block, and two shards.
pub(crate) fn built(alloc: Global, mode: ResizeMode) -> Told<Map> {
    let mut ids = IdSource::new();
    let collector = Collector::new(&mut ids, 1, 4)?.batch_size(1);
    let builder = HashMap::builder(Hashing::default())
        .hasher(Hashing::default())
        .capacity(10);
    let builder = builder.collector(collector).shards(2).resize_mode(mode);
    builder.build(alloc, &mut ids)
}

/// Says that it is there, and whether the other one comes.
fn arrives<R: Wait + Clock>(rt: &R, own: &AtomicU64, other: &AtomicU64) -> u64 {
    own.store(1, SeqCst);
    for _ in 0..LOOKS {
        if other.load(SeqCst) == 1 {
            return 1;
        }
        thread::sleep(rt, Duration::from_millis(1));
    }
    0
}

/// Stores at a key, by a call that computes it, whether the other thread was seen from within the closure.
fn computes<R: Wait + Clock>(
    rt: &R,
    mut map: Own<'_>,
    key: u64,
    own: &AtomicU64,
    other: &AtomicU64,
) -> Told<Option<u64>> {
    let _ = map.compute(
        rt,
        &key,
        |_| Operation::Insert::<u64, ()>(arrives(rt, own, other)),
    )?;
    Ok(map.get(rt, &key).copied())
}

/// Tells whether two threads do so, each at a key of its own, and meet. Were one call served after another, the closure of the first would never see the flag of the second.
pub(crate) fn meet<R: Threads + Wait + Clock + Sync>(rt: &R, made: Told<Map>) -> Told<bool> {
    let map = made?;
    let (first, second) = (map.session()?, map.session()?);
    let (one, other) = (AtomicU64::new(0), AtomicU64::new(0));
    let (a, b) = thread::join(
        rt,
        || computes(rt, first, 1, &one, &other),
        || computes(rt, second, 2, &other, &one),
    );
    Ok([a?, b?] == [Some(1); 2])
}

/// Stores a pair in a section of this session, which then is open once more, and ends.
fn stores<R: Wait>(rt: &R, mut session: Own<'_>, key: u64, value: u64) -> Told<()> {
    let _ = session.insert(rt, key, value)?;
    session.refresh();
    Ok(())
}

/// Stores a key in a section of a registration that it was sent, which it answers back.
fn enters<'m, R: Wait>(
    rt: &R,
    registration: Registration<'m, u64, u64, Hashing>,
) -> Told<Registration<'m, u64, u64, Hashing>> {
    let mut session = registration.enter();
    let _ = session.insert(rt, 1, 2)?;
    Ok(session.leave())
}

/// Tells whether the next section of a registration finds what a session has stored, another thread in a section of that registration, and a further session meanwhile; and not
/// what none has stored.
pub(crate) fn stays<R: Threads + Wait + Sync>(rt: &R, alloc: Global) -> Told<bool> {
    let made = made(alloc, ResizeMode::default())?;
    let map = made.shared();
    stores(rt, map.session()?, 5, 6)?;
    let registration = map.register()?;
    let (registration, ()) = thread::join(rt, || enters(rt, registration), || ());
    let registration = registration?;
    stores(rt, map.session()?, 3, 4)?;
    let mut next = registration.enter();
    let found = [
        next.get(rt, &5).copied(),
        next.get(rt, &1).copied(),
        next.get(rt, &3).copied(),
        next.get(rt, &7).copied(),
    ];
    Ok(found == [Some(6), Some(2), Some(4), None])
}

/// Whether each of two maps says that the other one is the same, or is not.
fn alike<R: Wait>(rt: &R, one: &Map, other: &Map) -> Told<[bool; 2]> {
    let (mut one, mut other) = (one.session()?, other.session()?);
    Ok([one.same(rt, &mut other)?, other.same(rt, &mut one)?])
}

/// Tells whether a map and its clone are the same until this key is stored there, and still not once the map has it with another value.
fn differ<R: Wait>(rt: &R, map: &Map, copy: &Map, key: u64) -> Told<bool> {
    let cloned = alike(rt, map, copy)?;
    stores(rt, copy.session()?, key, 1)?;
    let more = alike(rt, map, copy)?;
    stores(rt, map.session()?, key, 2)?;
    Ok([cloned, more, alike(rt, map, copy)?] == [[true; 2], [false; 2], [false; 2]])
}

/// Tells whether a map and its clones are so: an empty one, and one of two pairs.
pub(crate) fn copies<R: Wait>(rt: &R, alloc: Global) -> Told<bool> {
    let mut ids = IdSource::new();
    let map = Map::with_hasher(alloc, &mut ids, Hashing::default())?;
    let none = differ(rt, &map, &map.clone(rt, alloc, &mut ids)?, 10)?;
    stores(rt, map.session()?, 0, 10)?;
    Ok(none && differ(rt, &map, &map.clone(rt, alloc, &mut ids)?, 100)?)
}
