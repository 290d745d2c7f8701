//! The state of a run whose calls stay under way: the executor, and who is there by name.
ghost use Rattle.std.specs.Prelude.{◌≡◌, ◌<◌, ℕ, Bool, List, [], IfOk, OnOk};
ghost use Rattle.run_schedules.specs.Schedules.Moment.{Moment, start};
ghost use Rattle.run_logged.specs.Log.Back.{BringsBack};
ghost use Rattle.run_logged.specs.Log.Shown.{IsShown};
ghost use Rattle.run_shows.specs.declared.callers.TheConstants.{SLOTS};
ghost use Rattle.run_executor.specs.Named.Seen.{free_slot, number_named, setting_named};
ghost use Rattle.play_scheduler.specs.First.{HasJustBegun};
ghost use Rattle.play_scheduler.specs.Played.{IsPlayed, terms_given};
ghost use Rattle.run_logged.specs.Rows.Rows.{RowRan, RowRanOn};
ghost use Rattle.seize_words.specs.declared.fault.Fault.TheVariants.{Busy};
ghost use Rattle.run_executor.specs.Executing.IsThere.{PreservesSettings};
ghost use Rattle.run_executor.specs.Executing.OnSlots.{MayBegin};
ghost use Rattle.run_shows.specs.Scenes.Scene.{Scene, at_first};

use crate::played::Played;
use papaya_raw::{Node, Setting};
use run_executor::callers::Callers;
use run_executor::named_map::NamedMap;
use run_logged::Logged;
use run_names::Holders;
use run_names::crowd::Crowd;
use run_schedules::effect::Effect;
use run_schedules::ended::Pair;
use run_schedules::outcome::Outcome;
use run_schedules::setup::Setup;
use run_schedules::token::Token;
use run_shows::row::{RowTold, SlotCall};
use std::alloc::{AllocError, Global};

/// The executor with what is noted of its memory, and who is there by name.
#[derive(Drop)]
pub struct Scheduler<K, V, S> {
    /// The executor, whose steps are written down.
    pub logged: Logged<K, V, S>,
    /// What the collector is made with.
    pub setup: Setup,
    /// The registrations and the guards.
    pub there: Holders,
    /// The maps that are there, in the order in which they were made.
    pub maps: Crowd<NamedMap>,
    /// The callers that have a call under way.
    pub calls: Callers<V>,
    /// Whether an event was to make a map.
    pub is_mapped: bool,
    /// Whether the collector has ended.
    pub is_closed: bool,
}

impl<K: Drop, V: Drop, S: Drop> Scheduler<K, V, S> {
    /// Begins with nobody there, and with no map.
    pub fn new(alloc: Global, setup: Setup, hasher: S) -> Result<Self, AllocError>
        ensures played { IfOk result (λ scheduler. (same : K → K → Bool) (hash : K → ℕ) → IsPlayed same hash (terms_given setup) [] scheduler) }
        ensures begun { IfOk result (HasJustBegun setup) }
        ensures shown { IfOk result (λ scheduler. (same : K → K → Bool) (hash : K → ℕ) (name : ℕ → List ℕ) → IsShown same hash name start scheduler.logged (at_first setup.roots)) }
        ensures hasher { IfOk result (λ scheduler. scheduler.logged.executor.hasher ≡ hasher) }
    {
        Ok(Scheduler {
            logged: Logged::new(alloc, hasher, setup.batch_size, setup.roots)?,
            setup,
            there: Holders::nobody(alloc),
            maps: Crowd::new(alloc),
            calls: Callers::nobody(alloc),
            is_mapped: false,
            is_closed: false,
        })
    }
}

impl<K, V, S> Scheduler<K, V, S> {
    /// Returns no effects.
    pub fn no_effects(&self) -> Vec<Effect>
        ensures { result.items ≡ [] }
    {
        Vec::new(self.maps.alloc())
    }

    /// Returns an event that did nothing, and came to this.
    pub fn quietly(&self, outcome: Outcome<V>) -> Played<V>
        ensures outcome { result.outcome ≡ outcome }
        ensures steps { result.steps ≡ 0 }
        ensures effects { result.effects.items ≡ [] }
    {
        Played::quietly(self.maps.alloc(), outcome)
    }

    /// Returns an event that was out of turn.
    pub fn busy(&self) -> Played<V>
        ensures outcome { result.outcome ≡ Outcome.Refused Busy }
        ensures steps { result.steps ≡ 0 }
        ensures effects { result.effects.items ≡ [] }
    {
        Played::busy(self.maps.alloc())
    }

    /// Returns the number of the map of this name.
    pub fn number_of(&self, map: &Token) -> Option<u64>
        ensures { result ≡ number_named map.now self.now.maps }
    {
        match self.maps.get(map) {
            Some(there) => Some(there.number),
            None => None,
        }
    }
}

impl<K: Drop, V: Drop, S> Scheduler<K, V, S> {
    /// Returns the number of the map of this name, and with what its calls work.
    pub fn setting_of(&self, map: &Token) -> Option<(u64, Setting)>
        ensures { result ≡ setting_named map.now self.now.maps self.now.logged.executor.maps.items }
    {
        let number = self.number_of(map)?;
        match self.logged.executor.maps.get(number as usize) {
            Some(Some(setting)) => Some((number, *setting)),
            _ => None,
        }
    }

    /// Returns the slot of the guard of this name, where it lives, and no call under way uses it.
    pub fn slot_of_free(&self, guard: &Token) -> Option<u64>
        ensures { result ≡ free_slot guard.now self.now.there self.now.calls }
    {
        if self.calls.uses(guard) {
            return None;
        }
        self.there.slot_of_living(guard)
    }

    /// Runs what a caller in this slot does with it, until it ends, or waits. What it does is added to the list, and the pairs that it reclaims come back, behind those before.
    pub fn run_row(
        &mut self,
        slot: u64,
        called: SlotCall,
        effects: &mut Vec<Effect>,
        back: &mut Vec<Pair<K, V>>,
    ) -> Result<RowTold<Node<K, V>>, AllocError>
        requires fits { slot < SLOTS }
        requires may { (same : K → K → Bool) × (hash : K → ℕ) × (name : ℕ → List ℕ) × (m : Moment K V) × (s : Scene K V) × IsShown same hash name m self.old.logged s }
        requires begins { MayBegin self.old.logged.executor slot called }
        ensures ran { IfOk result (λ told. RowRan slot called told effects.old.items effects.new.items self.old.logged self.new.logged) }
        ensures back { IfOk result (λ done. BringsBack effects.old.items effects.new.items self.old.logged back.old.items back.new.items) }
        ensures rest { self.new ≡ record self.old { logged = self.new.logged } }
        ensures given { PreservesSettings self.old.logged.executor self.new.logged.executor }
    {
        let caller = self.logged.begin_on_slot(slot, called)?;
        let told = self.logged.run_on_slot(caller, effects, back)?;
        Ok(told)
    }

    /// Does a row, where nobody asks what it told.
    pub fn do_row(
        &mut self,
        slot: u64,
        called: SlotCall,
        effects: &mut Vec<Effect>,
        back: &mut Vec<Pair<K, V>>,
    ) -> Result<(), AllocError>
        requires fits { slot < SLOTS }
        requires may { (same : K → K → Bool) × (hash : K → ℕ) × (name : ℕ → List ℕ) × (m : Moment K V) × (s : Scene K V) × IsShown same hash name m self.old.logged s }
        requires begins { MayBegin self.old.logged.executor slot called }
        ensures ran { OnOk result (RowRanOn slot called effects.old.items effects.new.items self.old.logged self.new.logged) }
        ensures back { IfOk result (λ done. BringsBack effects.old.items effects.new.items self.old.logged back.old.items back.new.items) }
        ensures rest { self.new ≡ record self.old { logged = self.new.logged } }
        ensures given { PreservesSettings self.old.logged.executor self.new.logged.executor }
    {
        self.run_row(slot, called, effects, back)?;
        Ok(())
    }
}
