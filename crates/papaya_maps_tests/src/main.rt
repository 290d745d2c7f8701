//! Says of maps that share a collector what they were seen to do, a line each. Ends with an error where one line is not so.
#![tactic(auto)]

ghost use Rattle.std.specs.Prelude.{◌≡◌, ◌≤◌, ◌≢◌};

use papaya_maps::{
    CollectorGuard, CollectorMap, CollectorSession, Fault, IdSource, SharedCollector,
};
use std::alloc::Global;
use std::hash::{BuildHasherDefault, DefaultHasher};
use std::io;
use std::sync::atomic::AtomicU64;
use std::sync::atomic::Ordering::SeqCst;
use std::sync::{Arc, Wait};
use std::thread::{self, Threads};

type Hashing = BuildHasherDefault<DefaultHasher>;

type Shared = SharedCollector<u64, u64, Hashing>;

type Map<'c> = CollectorMap<'c, u64, u64, Hashing>;

type Guard<'c> = CollectorGuard<'c, u64, u64, Hashing>;

type Own<'g, 'c> = CollectorSession<'g, 'c, u64, u64, Hashing>;

type Held<'g, 'c> = CollectorSession<'g, 'c, u64, Counted, Hashing>;

type Told<T> = Result<T, Fault>;

/// Prints whether this is so, or why that can't be said.
fn tells<R: Print>(rt: &R, what: &str, is_so: Told<bool>) -> io::Result<bool> {
    match is_so {
        Ok(is_so) => println!(rt; "{what}: {is_so}")?,
        Err(fault) => println!(rt; "{what}: {fault}")?,
    }
    Ok(matches!(is_so, Ok(true)))
}

/// Makes a collector for so many maps.
fn made(alloc: Global, roots: u64) -> Told<Shared>
    requires some { 1 ≤ roots }
    requires few { roots ≤ 65536 }
{
    let mut ids = IdSource::new();
    Shared::new(alloc, &mut ids, 1, roots)
}

/// Tells whether one guard serves two maps of its collector, and what it was lent of the one is still there once the other one has ended.
fn one_guard<R: Wait>(rt: &R, alloc: Global) -> Told<bool> {
    let shared = made(alloc, 2)?;
    let a = shared.builder(Hashing::default()).build()?;
    let b = shared.builder(Hashing::default()).build()?;
    let guard = shared.guard()?;
    let mut pass = shared.pass();
    let none = a.insert(rt, 1, 10, &guard, &mut pass)?.is_none();
    let other = b.insert(rt, 1, 20, &guard, &mut pass)?.is_none();
    let lent = a.get(rt, &1, &guard, &mut pass)?;
    let its = b.get(rt, &1, &guard, &mut pass)?.copied();
    drop(b);
    let replaced = a.insert(rt, 1, 11, &guard, &mut pass)?;
    let taken = a.remove(rt, &1, &guard, &mut pass)?;
    let found = [lent.copied(), its, replaced.copied(), taken.copied()];
    Ok(none && other && found == [Some(10), Some(20), Some(10), Some(11)])
}

/// How many values were dropped.
type Count = Arc<AtomicU64>;

/// A value that is counted as it is dropped.
struct Counted(Count);

impl Drop for Counted {
    fn drop(self) {
        let Counted(count) = self;
        count.fetch_add(1, SeqCst);
    }
}

/// Stores so many keys, each with a value that this counts as it is dropped: whether that could be.
fn fills<R: Wait>(rt: &R, session: &mut Held<'_, '_>, keys: u64, count: &Count) -> Told<bool> {
    for key in 0..keys {
        let Ok(counts) = Arc::try_clone(count) else {
            return Ok(false);
        };
        let _ = session.insert(rt, key, Counted(counts))?;
    }
    Ok(true)
}

/// Fills two maps, of which one ends, and then the other one: whether just all values of the first were dropped by then.
fn ends<R: Wait>(
    rt: &R,
    shared: &SharedCollector<u64, Counted, Hashing>,
    one: &Count,
    other: &Count,
) -> Told<bool> {
    let stays = shared.builder(Hashing::default()).build()?;
    let gone = shared.builder(Hashing::default()).build()?;
    let guard = shared.guard()?;
    let mut here = stays.session(&guard)?;
    let mut there = gone.session(&guard)?;
    let filled = fills(rt, &mut here, 3, one)? && fills(rt, &mut there, 3, other)?;
    let replaced = fills(rt, &mut here, 1, one)?;
    drop(there);
    drop(gone);
    Ok(filled && replaced && one.load(SeqCst) == 0 && other.load(SeqCst) == 3)
}

/// Tells whether a map that ends drops its values, and no other one's; and whether those of both were dropped once all is reclaimed.
fn dropped<R: Wait>(rt: &R, alloc: Global) -> Told<bool> {
    let Ok(one) = Arc::new(alloc, AtomicU64::new(0)) else {
        return Err(Fault::Memory);
    };
    let Ok(other) = Arc::new(alloc, AtomicU64::new(0)) else {
        return Err(Fault::Memory);
    };
    let mut ids = IdSource::new();
    let mut shared = SharedCollector::new(alloc, &mut ids, 1, 2)?;
    let first = ends(rt, &shared, &one, &other)?;
    shared.reclaim_all();
    Ok(first && one.load(SeqCst) == 4 && other.load(SeqCst) == 3)
}

/// Tells whether two sets of one collector have elements of their own, and what was lent of the one is still there once the other one has ended.
fn sets<R: Wait>(rt: &R, alloc: Global) -> Told<bool> {
    let mut ids = IdSource::new();
    let shared: SharedCollector<u64, (), Hashing> = SharedCollector::new(alloc, &mut ids, 1, 2)?;
    let a = shared.builder(Hashing::default()).build_set()?;
    let b = shared.builder(Hashing::default()).build_set()?;
    let guard = shared.guard()?;
    let mut pass = shared.pass();
    let new = [
        a.insert(rt, 1, &guard, &mut pass)?,
        a.insert(rt, 1, &guard, &mut pass)?,
        b.insert(rt, 2, &guard, &mut pass)?,
    ];
    let lent = a.get(rt, &1, &guard, &mut pass)?;
    let there = [
        a.contains(rt, &1, &guard, &mut pass)?,
        a.contains(rt, &2, &guard, &mut pass)?,
    ];
    let count = a.len(&guard, &mut pass)?;
    drop(b);
    let taken = [
        a.remove(rt, &1, &guard, &mut pass)?,
        a.remove(rt, &1, &guard, &mut pass)?,
    ];
    let so = new == [true, false, true] && there == [true, false] && taken == [true, false];
    Ok(so && count == 1 && lent.copied() == Some(1))
}

/// Stores these keys, each with itself as its value.
fn stores<R: Wait>(rt: &R, session: &mut Own<'_, '_>, first: u64, last: u64) -> Told<()> {
    for key in first..last {
        let _ = session.insert(rt, key, key)?;
    }
    Ok(())
}

/// Counts which of these keys are found, each with itself as its value.
fn finds<R: Wait>(rt: &R, session: &mut Own<'_, '_>, first: u64, last: u64) -> u64 {
    let mut count = 0u64;
    for key in first..last {
        if session.get(rt, &key).copied() == Some(key) {
            count = count.wrapping_add(1);
        }
    }
    count
}

/// Stores so many keys in this map, under this guard, and counts which are found.
fn uses<'c, R: Wait>(rt: &R, guard: &Guard<'c>, map: &Map<'c>, keys: u64) -> Told<u64>
    requires one { guard.now.caller.blocks.now ≡ map.now.owner.blocks.now }
{
    let mut session = map.session(guard)?;
    stores(rt, &mut session, 0, keys)?;
    Ok(finds(rt, &mut session, 0, keys))
}

/// Makes a map, fills it, and ends it.
fn lives<R: Wait>(rt: &R, shared: &Shared) -> Told<u64> {
    let map = shared.builder(Hashing::default()).copies(1).build()?;
    let guard = shared.guard()?;
    uses(rt, &guard, &map, 200)
}

/// Tells whether one map goes on, on another thread, while another one comes and ends here. It would be so, too, if one of them waited for the other one.
fn go_on<R: Threads + Wait + Sync>(rt: &R, shared: &Shared) -> Told<bool> {
    let map = shared.builder(Hashing::default()).copies(1).build()?;
    let slot = shared.register()?;
    let (there, here) = thread::join(
        rt,
        || -> Told<u64>
            requires one { slot.caller.blocks.now ≡ map.owner.blocks.now }
        {
            let guard = slot.enter();
            uses(rt, &guard, &map, 300)
        },
        || lives(rt, shared),
    );
    Ok(there? == 300 && here? == 200)
}

/// Tells whether a guard and a pass of another collector are refused.
fn refuses<'c, R: Wait>(rt: &R, shared: &'c Shared, other: &'c Shared) -> Told<bool>
    requires apart { other.now.collector.number ≢ shared.now.collector.number }
{
    let map = shared.builder(Hashing::default()).build()?;
    let (guard, far) = (shared.guard()?, other.guard()?);
    let (mut pass, mut strange) = (shared.pass(), other.pass());
    let none = map.get(rt, &1, &guard, &mut pass)?.is_none();
    let by_pass = map.get(rt, &1, &guard, &mut strange);
    let by_guard = map.get(rt, &1, &far, &mut pass);
    let stored = map.insert(rt, 1, 2, &guard, &mut strange);
    Ok(
        none && matches!(by_pass, Err(Fault::ForeignGuard))
            && matches!(by_guard, Err(Fault::ForeignGuard))
            && matches!(stored, Err(refused) if refused.key == 1 && refused.value == 2),
    )
}

/// Tells whether they are.
fn foreign<R: Wait>(rt: &R, alloc: Global) -> Told<bool> {
    let mut ids = IdSource::new();
    let shared = Shared::new(alloc, &mut ids, 1, 1)?;
    let other = Shared::new(alloc, &mut ids, 1, 1)?;
    refuses(rt, &shared, &other)
}

/// Leaves a map of this collector that grows, as its first table has 32 places, and from which keys were removed that had been copied by then.
fn leaves<R: Wait>(rt: &R, shared: &Shared) -> Told<()> {
    let map = shared.builder(Hashing::default()).copies(1).build()?;
    let guard = shared.guard()?;
    let mut session = map.session(&guard)?;
    stores(rt, &mut session, 0, 42)?;
    for key in 0..16 {
        let _ = session.remove(rt, &key)?;
    }
    Ok(())
}

/// Tells whether the only root is in use as long as a map stands there, and until what waits of it is reclaimed.
fn roots<R: Wait>(rt: &R, alloc: Global) -> Told<bool> {
    let mut shared = made(alloc, 1)?;
    let map = shared.builder(Hashing::default()).build()?;
    let none = shared.builder(Hashing::default()).build();
    let used = matches!(none, Err(Fault::RootsUsedUp));
    drop(none);
    drop(map);
    let again = shared.builder(Hashing::default()).build().is_ok();
    leaves(rt, &shared)?;
    let none = shared.builder(Hashing::default()).build();
    let waits = matches!(none, Err(Fault::RootsUsedUp));
    drop(none);
    shared.reclaim_all();
    let free = shared.builder(Hashing::default()).build().is_ok();
    Ok(used && again && waits && free)
}

/// Two threads.
fn threads<R: Threads + Wait + Sync>(rt: &R, alloc: Global) -> Told<bool> {
    let shared = made(alloc, 2)?;
    go_on(rt, &shared)
}

/// All of it.
fn all<R: Threads + Wait + Sync + Print>(rt: &R, alloc: Global) -> io::Result<bool> {
    let so = one_guard(rt, alloc);
    let mut is_so = tells(rt, "one guard serves two maps, and one ends meanwhile", so)?;
    let so = threads(rt, alloc);
    is_so = tells(rt, "a map goes on while another one ends on a thread", so)? && is_so;
    let so = dropped(rt, alloc);
    is_so = tells(
        rt,
        "an ended map drops its values, each once, and no other ones",
        so,
    )? && is_so;
    let so = sets(rt, alloc);
    is_so = tells(rt, "sets of one collector have elements of their own", so)? && is_so;
    let so = foreign(rt, alloc);
    is_so = tells(
        rt,
        "a guard and a pass of another collector are refused",
        so,
    )? && is_so;
    let so = roots(rt, alloc);
    is_so = tells(
        rt,
        "a root is in use until what waits there is reclaimed",
        so,
    )? && is_so;
    Ok(is_so)
}

fn main(rt: HostRuntime) -> io::Result<()> {
    let alloc = rt.alloc();
    if all(&rt, alloc)? {
        Ok(())
    } else {
        Err(io::Error::other("a line is not so"))
    }
}
