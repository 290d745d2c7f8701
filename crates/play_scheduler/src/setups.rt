//! Events of the setup.
ghost use Rattle.std.specs.Prelude.{[], ◌≡◌, ℕ, Bool, IfOk, if◌then◌else◌};
ghost use Rattle.run_schedules.specs.declared.event.Event.TheVariants as event;
ghost use Rattle.seize_words.specs.declared.fault.Fault.TheVariants.{Busy};
ghost use Rattle.play_scheduler.specs.Played.{MayPlay, PlaysAt, PlaysFirst};
ghost use Rattle.play_scheduler.specs.Quiet.{BusyIsSilent};
ghost use Rattle.play_scheduler.specs.Works.{WorksOnSetup};
ghost use Rattle.run_executor.specs.Executing.IsThere.{PreservesSettings};

use crate::played::Played;
use crate::scheduler::Scheduler;
use run_schedules::key_hash::KeyHash;
use run_schedules::outcome::Outcome;
use run_schedules::setup::Setup;
use std::alloc::AllocError;

impl<K: Drop, V: Drop, S> Scheduler<K, V, S> {
    /// What an event comes to that does nothing, if it is in turn.
    fn if_so(&self, in_turn: bool) -> Played<V>
        ensures outcome { result.outcome ≡ if in_turn then Outcome.Done else Outcome.Refused Busy }
        ensures steps { result.steps ≡ 0 }
        ensures effects { result.effects.items ≡ [] }
    {
        if in_turn {
            self.quietly(Outcome::Done)
        } else {
            self.busy()
        }
    }

    /// Takes the collector's setup, which is in turn as the first event alone.
    pub fn collector(&self, setup: Setup, is_first: bool) -> Played<V>
        requires { (same : K → K → Bool) × (hash : K → ℕ) × MayPlay same hash (event.Collector setup) self.now }
        ensures steps { result.steps ≡ 0 }
        ensures quiet { BusyIsSilent result.outcome result.effects.items }
        ensures plays { (same : K → K → Bool) (hash : K → ℕ) → PlaysFirst same hash is_first (event.Collector setup) result self.now self.now }
        ensures works { WorksOnSetup result self.now self.now (event.Collector setup) }
    {
        self.if_so(is_first)
    }

    /// Sets how keys get their hashes, which is in turn while no event was to make a map. It changes nothing in a run, which takes its hasher from its caller.
    pub fn hash(&self, by: KeyHash) -> Played<V>
        requires { (same : K → K → Bool) × (hash : K → ℕ) × MayPlay same hash (event.Hash by) self.now }
        ensures steps { result.steps ≡ 0 }
        ensures quiet { BusyIsSilent result.outcome result.effects.items }
        ensures plays { (same : K → K → Bool) (hash : K → ℕ) → PlaysAt same hash (event.Hash by) result self.now self.now }
        ensures works { WorksOnSetup result self.now self.now (event.Hash by) }
    {
        self.if_so(!self.is_mapped)
    }

    /// Adds a choice of a free block number. On an error nothing is said: the list of choices found no memory.
    pub fn choose(&mut self, choice: u64) -> Result<Played<V>, AllocError>
        requires { (same : K → K → Bool) × (hash : K → ℕ) × MayPlay same hash (event.Choose choice) self.old }
        ensures steps { IfOk result (λ played. played.steps ≡ 0) }
        ensures quiet { IfOk result (λ played. BusyIsSilent played.outcome played.effects.items) }
        ensures plays { IfOk result (λ played. (same : K → K → Bool) (hash : K → ℕ) → PlaysAt same hash (event.Choose choice) played self.old self.new) }
        ensures works { IfOk result (λ played. WorksOnSetup played self.old self.new (event.Choose choice)) }
        ensures given { PreservesSettings self.old.logged.executor self.new.logged.executor }
    {
        self.logged.choose(choice)?;
        Ok(self.quietly(Outcome::Done))
    }
}
