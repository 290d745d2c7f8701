//! Events that are kept out, once the collector has ended.
ghost use Rattle.std.specs.Prelude.{◌≡◌, ℕ, Bool, true, []};
ghost use Rattle.run_schedules.specs.Runs.Runs.{map_fault};
ghost use Rattle.run_schedules.specs.Schedules.After.{mapped_on};
ghost use Rattle.run_schedules.specs.Schedules.InTurn.{IsKeptOut};
ghost use Rattle.play_scheduler.specs.KeptOut.{PlaysKeptOut};
ghost use Rattle.play_scheduler.specs.Turns.{IsMakingOut};

use crate::played::Played;
use crate::scheduler::Scheduler;
use papaya_raw::{ResizeMode, entries_for};
use run_schedules::event::Event;
use run_schedules::outcome::Outcome;
use seize_words::Fault;

/// What is wrong in making such a map.
fn fault_of(mode: ResizeMode, capacity: u64) -> Option<Fault>
    ensures { result ≡ map_fault mode capacity }
{
    if mode == ResizeMode::Incremental(0) {
        return Some(Fault::ZeroChunk);
    }
    match entries_for(capacity) {
        Ok(_) => None,
        Err(fault) => Some(fault),
    }
}

impl<K: Drop, V: Drop, S> Scheduler<K, V, S> {
    /// A map is not made, as busy, but that what is wrong in making it is told first.
    fn refuse_map(&mut self, mode: ResizeMode, capacity: u64) -> Played<V>
        ensures outcome { IsMakingOut mode capacity result.outcome }
        ensures steps { result.steps ≡ 0 }
        ensures effects { result.effects.items ≡ [] }
        ensures mapped { self.new ≡ record self.old { is_mapped = true } }
    {
        self.is_mapped = true;
        let Some(fault) = fault_of(mode, capacity) else {
            return self.busy();
        };
        self.quietly(Outcome::Refused(fault))
    }

    /// Refuses an event that is kept out, as busy, but that what is wrong in making a map is told first.
    pub fn refuse(&mut self, event: Event<K, V>) -> Played<V>
        ensures outcome { IsKeptOut event result.outcome }
        ensures steps { result.steps ≡ 0 }
        ensures effects { result.effects.items ≡ [] }
        ensures mapped { self.new ≡ record self.old { is_mapped = mapped_on event self.old.is_mapped } }
        ensures plays { (same : K → K → Bool) (hash : K → ℕ) → PlaysKeptOut same hash event result self.old self.new }
    {
        let Event::MakeMap { mode, capacity, .. } = event else {
            return self.busy();
        };
        self.refuse_map(mode, capacity)
    }
}
