//! How a call waits for another one's step: it takes its own step again, and sleeps where that lasts. Who has taken a step that others may wait for wakes them.
ghost use Rattle.std.specs.Prelude.{◌≡◌};
ghost use Rattle.threads_steps.specs.Waiting.{call_has_let_on, copying_has_let_on};

use papaya_raw::machines::{Calling, Copier, Copying, Machine, Progress, Reserving, Sweeping};
use std::hint::spin_loop;
use std::sync::atomic::AtomicU64;
use std::sync::atomic::Ordering::SeqCst;
use std::sync::{Condvar, Mutex, MutexGuard, Wait};

/// How often a call that waits takes its step again at once. Most waits are over by then.
const TURNS: u64 = 128;

/// Those who sleep until another call on their map has taken a step.
#[derive(Drop)]
pub struct Sleepers {
    /// How many sleep, or are about to.
    count: AtomicU64,
    lock: Mutex<()>,
    woken: Condvar,
}

impl Sleepers {
    /// Returns those of a map on which nobody sleeps.
    pub fn new() -> Self {
        Sleepers {
            count: AtomicU64::new(0),
            lock: Mutex::new(()),
            woken: Condvar::new(),
        }
    }

    /// Returns how many there are. Who is about to sleep counts, too.
    #[inline(always)]
    pub fn count(&self) -> u64 {
        self.count.load(SeqCst)
    }
}

/// How a call goes on that may wait: it takes its step again some times, then is counted among those who sleep, takes it once more with their lock, and sleeps.
#[derive(Drop)]
pub struct Waiter<'s> {
    sleepers: &'s Sleepers,
    turns: u64,
    lock: Option<MutexGuard<'s, ()>>,
}

impl<'s> Waiter<'s> {
    /// Returns that of a call that has not waited yet.
    pub fn new(sleepers: &'s Sleepers) -> Self {
        Waiter {
            sleepers,
            turns: 0,
            lock: None,
        }
    }

    /// Goes by what a step of this call has told. Where that waits, it is to be taken again once this returns; else the others are woken, if they may have waited
    /// for it.
    #[inline(always)]
    pub fn heeds<R: Wait, T, K, V, Q>(
        &mut self,
        rt: &R,
        told: &Progress<T>,
        machine: &Machine<K, V, Q>,
    ) {
        if matches!(told, Progress::Waits) {
            self.waits(rt);
        } else if self.sleepers.count() != 0 {
            self.lets_on(rt, machine);
        }
    }

    #[cold]
    #[inline(never)]
    fn waits<R: Wait>(&mut self, rt: &R) {
        if self.turns < TURNS {
            self.turns += 1;
            spin_loop();
            return;
        }
        let lock = match self.lock.take() {
            Some(lock) => self.sleepers.woken.wait(rt, lock),
            None => {
                self.sleepers.count.fetch_add(1, SeqCst);
                self.sleepers.lock.lock(rt)
            }
        };
        self.lock = Some(lock);
    }

    /// This call was about to sleep, or others are: they are woken where it has let them on. Who is about to takes its step once more with the lock, so once that was
    /// free here it has seen what was done, or sleeps.
    #[cold]
    #[inline(never)]
    fn lets_on<R: Wait, K, V, Q>(&mut self, rt: &R, machine: &Machine<K, V, Q>) {
        if let Some(lock) = self.lock.take() {
            drop(lock);
            self.sleepers.count.fetch_sub(1, SeqCst);
        }
        if has_let_on(machine) {
            drop(self.sleepers.lock.lock(rt));
            self.sleepers.woken.notify_all();
        }
    }
}

/// Tells whether others may have waited for what a copying has done last.
fn copying_has(copier: &Copier) -> bool
    ensures { result ≡ copying_has_let_on copier.now }
{
    match &copier.stands {
        Copying::Marks | Copying::Counts => copier.setting.mode.is_incremental(),
        Copying::Replaces | Copying::Succeeds { .. } | Copying::Refused(_) => true,
        _ => false,
    }
}

/// Tells whether others may have waited for what a call has done last.
fn has_let_on<K, V, Q>(machine: &Machine<K, V, Q>) -> bool
    ensures { result ≡ call_has_let_on machine.now }
{
    match machine {
        Machine::Key(call) => match &call.stands {
            Calling::Helps { copier, .. } => copying_has(copier),
            Calling::Copies(copier) => copying_has(copier),
            _ => false,
        },
        Machine::Reserve(reserve) => match &reserve.stands {
            Reserving::Copies(copier) => copying_has(copier),
            _ => false,
        },
        Machine::Sweep(sweep) => match &sweep.stands {
            Sweeping::Copies(copier) => copying_has(copier),
            _ => false,
        },
        Machine::Count(_) => false,
    }
}
