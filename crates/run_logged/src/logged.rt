//! An executor, with what is noted of its memory.
ghost use Rattle.std.specs.Prelude.{◌≡◌, ◌++◌, ℕ, Bool, true, List, [], IfOk, OnOk};
ghost use Rattle.run_schedules.specs.Schedules.Moment.{start};
ghost use Rattle.run_effects.specs.Effects.Effects.{effects_of, known_after, HasNumber};
ghost use Rattle.run_effects.specs.Effects.Known.{known, nothing_known};
ghost use Rattle.run_logged.specs.Log.Choosing.{ChoiceIsShown, logged_chosen};
ghost use Rattle.run_logged.specs.Log.Shown.{IsShown};
ghost use Rattle.run_executor.specs.Executing.IsThere.{PreservesSettings};
ghost use Rattle.run_shows.specs.Scenes.Scene.{at_first};

use run_effects::acting::Acting;
use run_effects::changed::Changed;
use run_effects::notes::Notes;
use run_executor::Executor;
use run_schedules::effect::Effect;
use std::alloc::{AllocError, Global};

/// An executor, with what is noted of its memory.
#[derive(Drop)]
pub struct Logged<K, V, S> {
    /// The executor.
    pub executor: Executor<K, V, S>,
    /// What each block is, how many pairs were stored, and how many buckets of slots there are.
    pub notes: Notes,
}

/// Whether there is a number for what was changed.
fn has_number(changed: Changed) -> bool
    ensures { result ≡ true → HasNumber changed }
{
    match changed {
        Changed::Roomed { bucket, .. } => bucket < u64::MAX,
        Changed::Nothing => true,
        Changed::Wrote { .. } => true,
        Changed::Made { .. } => true,
        Changed::Unmade { .. } => true,
        Changed::Took { .. } => true,
    }
}

impl<K: Drop, V: Drop, S: Drop> Logged<K, V, S> {
    /// Makes an executor with no map and no caller, and with as many roots. Nothing is noted yet.
    pub fn new(alloc: Global, hasher: S, batch_size: u64, roots: u64) -> Result<Self, AllocError>
        ensures shown { IfOk result (λ logged. (same : K → K → Bool) (hash : K → ℕ) (name : ℕ → List ℕ) → IsShown same hash name start logged (at_first roots)) }
        ensures given { IfOk result (λ logged. (logged.executor.hasher ≡ hasher) × (logged.executor.batch_size ≡ batch_size) × (logged.executor.roots ≡ roots)) }
        ensures maps { IfOk result (λ logged. logged.executor.maps.items ≡ []) }
        ensures notes { IfOk result (λ logged. known logged.notes ≡ nothing_known) }
    {
        let executor = Executor::new(alloc, hasher, batch_size, roots)?;
        let notes = Notes::nothing(alloc);
        Ok(Logged { executor, notes })
    }
}

impl<K, V, S> Logged<K, V, S> {
    /// Adds a choice of a free block number behind those that are left.
    pub fn choose(&mut self, choice: u64) -> Result<(), AllocError>
        ensures chosen { OnOk result (self.new ≡ logged_chosen choice self.old) }
        ensures shown { OnOk result (ChoiceIsShown choice self.old self.new) }
        ensures given { PreservesSettings self.old.executor self.new.executor }
    {
        self.executor.memory.memory.choose(choice)?;
        Ok(())
    }

    /// Notes what the last operation has changed, and adds to a list what it did. It is refused where the list, or the notes, find no more room.
    pub(crate) fn note(
        &mut self,
        acting: Acting,
        effects: &mut Vec<Effect>,
    ) -> Result<(), AllocError>
        ensures did { OnOk result (effects.new.items ≡ effects.old.items ++ effects_of acting (known self.old.notes) self.old.executor.memory.changed) }
        ensures known { OnOk result (known self.new.notes ≡ known_after acting self.old.executor.memory.changed (known self.old.notes)) }
        ensures executor { self.new.executor ≡ self.old.executor }
    {
        let changed = self.executor.memory.changed;
        if self.notes.stored() == u64::MAX || !has_number(changed) {
            return Err(AllocError);
        }
        self.notes.did(acting, changed).add_to(effects)?;
        self.notes.keep(acting, changed)
    }
}
