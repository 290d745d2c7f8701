//! Calls begin, take steps, and are told what they ask.
ghost use Rattle.std.specs.Prelude.{◌≡◌, ◌<◌, ◌+◌, ◌*◌, ℕ, Bool, List, length, IfOk, IfErr};
ghost use Rattle.run_schedules.specs.Schedules.Moment.{Moment};
ghost use Rattle.run_shows.specs.declared.callers.TheConstants.{SLOTS};
ghost use Rattle.run_logged.specs.Log.Calling.{CallBegins, CallContinues, CallSteps, CallTakes, MakesNoMore, WalkContinues, WalkStops};
ghost use Rattle.run_logged.specs.Log.Shown.{IsShown};
ghost use Rattle.run_executor.specs.Executing.Beginning.{BeginsThere, IsRefused};
ghost use Rattle.run_executor.specs.Executing.IsThere.{IsThere, PreservesSettings};
ghost use Rattle.run_executor.specs.Executing.Replying.{AsksThere, RepliesThere, StopsThere};
ghost use Rattle.run_shows.specs.Scenes.Scene.{HasCall, Scene};

use crate::logged::Logged;
use papaya_raw::machines::{Machine, MachineReply, Progress};
use papaya_raw::{Hashes, Node};
use run_effects::acting::Acting;
use run_schedules::effect::Effect;
use run_shows::callers::SLOTS;
use std::alloc::AllocError;
use std::hash::Hash;

impl<K: Drop, V: Drop, S> Logged<K, V, S> {
    /// Begins a call on the map of this number, for a caller in this slot, and answers with the number of the caller. On an error nothing has changed, and the
    /// call is dropped.
    pub fn begin(&mut self, slot: u64, map: u64, machine: Machine<K, V>) -> Result<u64, AllocError>
        requires { slot < SLOTS }
        ensures number { IfOk result (λ caller. caller ≡ length self.old.executor.workers.items * SLOTS + slot) }
        ensures leads { IfOk result (λ caller. (same : K → K → Bool) (hash : K → ℕ) (name : ℕ → List ℕ) (m : Moment K V) (s : Scene K V) → IsShown same hash name m self.old s
            → CallBegins same hash name m s caller map machine self.old self.new) }
        ensures begun { IfOk result (λ caller. (same : K → K → Bool) (hash : K → ℕ) (s : Scene K V) → IsThere same hash self.old.executor s
            → BeginsThere same hash map machine caller s self.old.executor self.new.executor) }
        ensures given { PreservesSettings self.old.executor self.new.executor }
        ensures notes { self.new.notes ≡ self.old.notes }
        ensures refused { IfErr result (λ error. IsRefused self.old.executor self.new.executor × (self.new.notes ≡ self.old.notes)) }
    {
        let caller = self.executor.begin(slot, map, machine)?;
        Ok(caller)
    }

    /// Tells the call of a caller what it asks for. It hands back a reply that the call does not take.
    pub fn reply(&mut self, caller: u64, reply: MachineReply<V>) -> Result<(), MachineReply<V>>
        requires { (same : K → K → Bool) × (hash : K → ℕ) × (s : Scene K V) × IsThere same hash self.old.executor s × HasCall s caller }
        ensures leads { (same : K → K → Bool) (hash : K → ℕ) (name : ℕ → List ℕ) (m : Moment K V) (s : Scene K V) → IsShown same hash name m self.old s
            → CallTakes same hash name m s caller reply result self.old self.new }
        ensures taken { (same : K → K → Bool) (hash : K → ℕ) (s : Scene K V) → IsThere same hash self.old.executor s
            → RepliesThere same hash caller reply result s self.old.executor self.new.executor }
        ensures given { PreservesSettings self.old.executor self.new.executor }
        ensures notes { self.new.notes ≡ self.old.notes }
    {
        self.executor.reply(caller, reply)
    }

    /// Asks the walk of a caller for its next pair, and answers whether it was ready.
    pub fn next(&mut self, caller: u64) -> bool
        requires { (same : K → K → Bool) × (hash : K → ℕ) × (s : Scene K V) × IsThere same hash self.old.executor s × HasCall s caller }
        ensures leads { (same : K → K → Bool) (hash : K → ℕ) (name : ℕ → List ℕ) (m : Moment K V) (s : Scene K V) → IsShown same hash name m self.old s
            → WalkContinues same hash name m s caller result self.old self.new }
        ensures asked { (same : K → K → Bool) (hash : K → ℕ) (s : Scene K V) → IsThere same hash self.old.executor s
            → AsksThere same hash caller result s self.old.executor self.new.executor }
        ensures given { PreservesSettings self.old.executor self.new.executor }
        ensures notes { self.new.notes ≡ self.old.notes }
    {
        self.executor.next(caller)
    }

    /// Gives the walk of a caller up, and answers whether it was ready. Any other call goes on as it was.
    pub fn stop(&mut self, caller: u64) -> bool
        requires { (same : K → K → Bool) × (hash : K → ℕ) × (s : Scene K V) × IsThere same hash self.old.executor s × HasCall s caller }
        ensures leads { (same : K → K → Bool) (hash : K → ℕ) (name : ℕ → List ℕ) (m : Moment K V) (s : Scene K V) → IsShown same hash name m self.old s
            → WalkStops same hash name m s caller result self.old self.new }
        ensures stopped { (same : K → K → Bool) (hash : K → ℕ) (s : Scene K V) → IsThere same hash self.old.executor s
            → StopsThere same hash caller result s self.old.executor self.new.executor }
        ensures given { PreservesSettings self.old.executor self.new.executor }
        ensures notes { self.new.notes ≡ self.old.notes }
    {
        self.executor.stop(caller)
    }
}

impl<K: Eq + Hash + Drop, V: Drop, S: Hashes<K>> Logged<K, V, S> {
    /// Takes the next step of the call that a caller has under way on a map: at most one operation. A growth that it asks for may be refused. What it does is added
    /// to the list. It is refused where the list, or the notes, find no more room: then the executor has gone on, and it is written down no more.
    pub fn step(
        &mut self,
        caller: u64,
        map: u64,
        refuse: bool,
        effects: &mut Vec<Effect>,
    ) -> Result<Progress<Node<K, V>>, AllocError>
        requires { (s : Scene K V) × IsThere K.eq (S.hash self.old.executor.hasher) self.old.executor s × HasCall s caller }
        ensures leads { IfOk result (λ progress. (name : ℕ → List ℕ) (m : Moment K V) (s : Scene K V) → IsShown K.eq (S.hash self.old.executor.hasher) name m self.old s
            → CallContinues K.eq (S.hash self.old.executor.hasher) name m s caller map progress effects.old.items effects.new.items self.old self.new) }
        ensures steps { IfOk result (λ progress. CallSteps K.eq (S.hash self.old.executor.hasher) caller map progress effects.old.items effects.new.items self.old self.new) }
        ensures refused { IfOk result (λ progress. MakesNoMore refuse effects.old.items effects.new.items) }
        ensures given { PreservesSettings self.old.executor self.new.executor }
    {
        let progress = self.executor.step(caller, refuse);
        self.note(Acting::Call { caller, map }, effects)?;
        Ok(progress)
    }
}
