//! A call that waits for another one's copying sleeps, and is woken.
use crate::resting::{CHOSEN, KEYS, Resting};
use seize_words::Fault;
use std::hash::{BuildHasher, DefaultHasher};
use std::sync::Wait;
use std::sync::atomic::AtomicU64;
use std::sync::atomic::Ordering::SeqCst;
use std::test::Fail;
use std::thread;
use threads_calls::{ResizeMode, SessionBase, Sleepers, memory_for};

/// For how many further pairs room is made: their table is too short for them.
const MORE: u64 = 4_000;

/// How often one looks for another.
const LOOKS: u64 = 3_000_000;

/// Where the gate stands: the first who comes is to be stopped; it was; it was until another one slept.
const CLOSED: u64 = 1;

const STOPPED: u64 = 2;

const PASSED: u64 = 3;

/// A hasher that can be told to stop the first one who hashes a key, until another one sleeps.
#[derive(Drop)]
struct Gate<'s> {
    sleepers: &'s Sleepers,
    stands: AtomicU64,
    initial: DefaultHasher,
}

impl Gate<'_> {
    /// Stops who comes, if that is to be.
    fn stop(&self) {
        let first = self
            .stands
            .compare_exchange(CLOSED, STOPPED, SeqCst, SeqCst);
        for _ in 0..LOOKS {
            if first.is_err() {
                return;
            }
            if self.sleepers.count() != 0 {
                self.stands.store(PASSED, SeqCst);
                return;
            }
            thread::yield_now();
        }
    }
}

impl BuildHasher for Gate<'_> {
    type Hasher = DefaultHasher;

    ghost build_hasher = { λ gate. gate.initial };

    fn build_hasher(&self) -> DefaultHasher {
        self.stop();
        self.initial
    }
}

/// Stores so many keys, makes room for so many further ones, and answers how many pairs the map has then.
fn works<R: Wait>(
    rt: &R,
    resting: Resting<'_, Gate<'_>>,
    keys: u64,
    more: u64,
) -> Result<u64, Fault> {
    let mut session = resting.session();
    session.register()?;
    session.enter();
    for key in 0..keys {
        let _ = session.insert(rt, key, key);
    }
    let made = session.reserve(rt, more);
    let count = session.len();
    session.leave();
    session.unregister();
    made?;
    Ok(count)
}

/// Makes room once another one was stopped.
fn follows<R: Wait>(rt: &R, gate: &Gate<'_>, resting: Resting<'_, Gate<'_>>) -> Result<u64, Fault> {
    for _ in 0..LOOKS {
        if gate.stands.load(SeqCst) != CLOSED {
            break;
        }
        thread::yield_now();
    }
    works(rt, resting, 0, MORE)
}

// Who copies the table stops at its first pair until another one sleeps, and that one goes on only where it is woken: the table has one chunk, which is claimed. A
// body that takes its step again and again, or serves one call after another, lets the first one look in vain; one that wakes nobody does not come back.
#[test]
fn a_call_sleeps_while_another_one_copies(rt: HostRuntime) -> Result<(), Fail> {
    let sleepers = Sleepers::new();
    let gate = Gate {
        sleepers: &sleepers,
        stands: AtomicU64::new(0),
        initial: DefaultHasher::new(),
    };
    let home = memory_for::<u64, u64, Gate<'_>>(rt.alloc(), 64, &CHOSEN)?;
    let session = SessionBase::open(
        &home.blocks,
        &sleepers,
        &gate,
        &CHOSEN,
        ResizeMode::Blocking,
        4,
    )?;
    let first = Resting::of(session.session());
    let second = Resting::of(session.session());
    assert_eq!(rt; works(&rt, Resting::of(session), KEYS, 0)?, KEYS);
    gate.stands.store(CLOSED, SeqCst);
    let (one, other) = thread::join(
        &rt,
        || works(&rt, first, 0, MORE),
        || follows(&rt, &gate, second),
    );
    assert_eq!(rt; gate.stands.load(SeqCst), PASSED);
    assert_eq!(rt; (one?, other?), (KEYS, KEYS));
    assert_eq!(rt; sleepers.count(), 0);
    Ok(())
}
