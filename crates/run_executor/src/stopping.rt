//! A walk is given up.
ghost use Rattle.std.specs.Prelude.{◌≡◌, ℕ, Bool};
ghost use Rattle.papaya_raw.specs.Machine.{machine_asked};
ghost use Rattle.run_executor.specs.Executing.IsThere.{IsThere, PreservesSettings, worker_with};
ghost use Rattle.run_executor.specs.Executing.Replying.{StopsThere};
ghost use Rattle.run_places.specs.Given.ScenesReplying.{unless_stopped};
ghost use Rattle.run_places.specs.Given.ScenesScene.{HasCall, Scene};

use crate::executor::Executor;
use crate::taking::{TakenCall, put_at, take_call};
use crate::worker::{Work, Worker};
use papaya_raw::machines::{Machine, Sweeping};
use run_places::callers::SLOTS;

/// Whether it is a walk that is ready.
fn is_ready<K, V>(machine: &Machine<K, V>) -> bool
    ensures { result ≡ (machine_asked machine.now).1 }
{
    match machine {
        Machine::Sweep(sweep) => matches!(sweep.stands, Sweeping::Ready),
        Machine::Key(_) | Machine::Reserve(_) | Machine::Count(_) => false,
    }
}

/// The call of a map, unless it is given up.
fn unless_stopped<K: Drop, V: Drop>(
    slot: u64,
    map: u64,
    machine: Machine<K, V>,
    stopped: bool,
) -> Option<Worker<K, V>>
    ensures { result ≡ worker_with slot map (unless_stopped stopped machine) }
{
    if stopped {
        return None;
    }
    let work = Work::Call { map, machine };
    Some(Worker { slot, work })
}

impl<K: Drop, V: Drop, S> Executor<K, V, S> {
    /// Gives the walk of a caller up, and answers whether it was ready. Any other call goes on as it was.
    pub fn stop(&mut self, caller: u64) -> bool
        requires { (same : K → K → Bool) × (hash : K → ℕ) × (s : Scene K V) × IsThere same hash self.old s × HasCall s caller }
        ensures leads { (same : K → K → Bool) (hash : K → ℕ) (s : Scene K V) → IsThere same hash self.old s → StopsThere same hash caller result s self.old self.new }
        ensures given { PreservesSettings self.old self.new }
    {
        let place = (caller / SLOTS) as usize;
        let TakenCall { slot, map, machine } = take_call(&mut self.workers, place);
        let ready = is_ready(&machine);
        let next = unless_stopped(slot, map, machine, ready);
        put_at(&mut self.workers, place, next);
        ready
    }
}
