//! Guards come, begin anew, and go.
ghost use Rattle.std.specs.Prelude.{◌≡◌, ◌==◌, ℕ, Bool, Some, IfOk, IsSome};
ghost use Rattle.seize.specs.declared.states.TheConstants.{BATCH, HELD};
ghost use Rattle.seize_words.specs.OneMemory.Mem.{word_at};
ghost use Rattle.seize_words.specs.declared.at.At.TheVariants.{Slot};
ghost use Rattle.run_schedules.specs.declared.event.Event.TheVariants as event;
ghost use Rattle.play_scheduler.specs.Back.{GivesBack};
ghost use Rattle.play_scheduler.specs.Played.{MayPlay, PlaysAt};
ghost use Rattle.play_scheduler.specs.Quiet.{BusyIsSilent};
ghost use Rattle.run_logged.specs.Rows.Rows.{left_as};
ghost use Rattle.play_scheduler.specs.Works.{FlushesUnlessHeld, WorksOnSetup, WorksOnSlot};
ghost use Rattle.run_executor.specs.Executing.IsThere.{PreservesSettings};

use crate::played::Played;
use crate::scheduler::Scheduler;
use run_schedules::ended::Pair;
use run_schedules::outcome::Outcome;
use run_schedules::token::Token;
use run_shows::row::SlotCall;
use seize::states::{BATCH, HELD};
use seize_words::{At, Fault, Look};
use std::alloc::AllocError;

/// A registration has so many guards at most.
const MOST_GUARDS: usize = 65_535;

impl<K: Drop, V: Drop, S> Scheduler<K, V, S> {
    /// Makes a new guard of a registration. The first one on its slot enters the slot.
    pub fn enter(
        &mut self,
        guard: Token,
        registration: &Token,
        back: &mut Vec<Pair<K, V>>,
    ) -> Result<Played<V>, AllocError>
        requires { (same : K → K → Bool) × (hash : K → ℕ) × MayPlay same hash (event.Enter guard registration.now) self.old }
        ensures steps { IfOk result (λ played. played.steps ≡ 0) }
        ensures quiet { IfOk result (λ played. BusyIsSilent played.outcome played.effects.items) }
        ensures plays { IfOk result (λ played. (same : K → K → Bool) (hash : K → ℕ) → PlaysAt same hash (event.Enter guard registration.now) played self.old self.new) }
        ensures works { IfOk result (λ played. WorksOnSlot played self.old self.new (event.Enter guard registration.now)) }
        ensures back { IfOk result (λ played. (same : K → K → Bool) (hash : K → ℕ) → GivesBack same hash (event.Enter guard registration.now) played self.old back.old.items back.new.items) }
        ensures given { PreservesSettings self.old.logged.executor self.new.logged.executor }
    {
        if self.there.has_guard(&guard) {
            return Ok(self.busy());
        }
        let Some(slot) = self.there.slot_of_registration(registration) else {
            return Ok(self.busy());
        };
        let guards = self.there.guards_on(slot);
        if guards >= MOST_GUARDS {
            return Ok(self.quietly(Outcome::Refused(Fault::GuardsFull)));
        }
        let mut effects = self.no_effects();
        if guards == 0 {
            self.do_row(slot, SlotCall::Enter, &mut effects, back)?;
        }
        self.there.enter(guard, slot)?;
        Ok(Played {
            outcome: Outcome::Done,
            steps: 0,
            effects,
        })
    }

    /// Begins the guard's section anew, where the guard is the only one on its slot.
    pub fn refresh(
        &mut self,
        guard: &Token,
        back: &mut Vec<Pair<K, V>>,
    ) -> Result<Played<V>, AllocError>
        requires { (same : K → K → Bool) × (hash : K → ℕ) × MayPlay same hash (event.Refresh guard.now) self.old }
        ensures steps { IfOk result (λ played. played.steps ≡ 0) }
        ensures quiet { IfOk result (λ played. BusyIsSilent played.outcome played.effects.items) }
        ensures plays { IfOk result (λ played. (same : K → K → Bool) (hash : K → ℕ) → PlaysAt same hash (event.Refresh guard.now) played self.old self.new) }
        ensures works { IfOk result (λ played. WorksOnSlot played self.old self.new (event.Refresh guard.now)) }
        ensures back { IfOk result (λ played. (same : K → K → Bool) (hash : K → ℕ) → GivesBack same hash (event.Refresh guard.now) played self.old back.old.items back.new.items) }
        ensures given { PreservesSettings self.old.logged.executor self.new.logged.executor }
    {
        let Some(slot) = self.slot_of_free(guard) else {
            return Ok(self.busy());
        };
        let mut effects = self.no_effects();
        if self.there.guards_on(slot) == 1 {
            self.do_row(slot, SlotCall::Refresh, &mut effects, back)?;
        }
        Ok(Played {
            outcome: Outcome::Done,
            steps: 0,
            effects,
        })
    }

    /// Tries the open batch of the guard's slot, unless a call holds it.
    pub fn flush(
        &mut self,
        guard: &Token,
        back: &mut Vec<Pair<K, V>>,
    ) -> Result<Played<V>, AllocError>
        requires { (same : K → K → Bool) × (hash : K → ℕ) × MayPlay same hash (event.Flush guard.now) self.old }
        ensures steps { IfOk result (λ played. played.steps ≡ 0) }
        ensures quiet { IfOk result (λ played. BusyIsSilent played.outcome played.effects.items) }
        ensures plays { IfOk result (λ played. (same : K → K → Bool) (hash : K → ℕ) → PlaysAt same hash (event.Flush guard.now) played self.old self.new) }
        ensures works { IfOk result (λ played. WorksOnSlot played self.old self.new (event.Flush guard.now)) }
        ensures held { IfOk result (λ played. FlushesUnlessHeld guard.now played.outcome self.old) }
        ensures back { IfOk result (λ played. (same : K → K → Bool) (hash : K → ℕ) → GivesBack same hash (event.Flush guard.now) played self.old back.old.items back.new.items) }
        ensures given { PreservesSettings self.old.logged.executor self.new.logged.executor }
    {
        let Some(slot) = self.there.slot_of_living(guard) else {
            return Ok(self.busy());
        };
        if self.is_held(slot) {
            return Ok(self.busy());
        }
        let mut effects = self.no_effects();
        self.do_row(slot, SlotCall::Flush, &mut effects, back)?;
        Ok(Played {
            outcome: Outcome::Done,
            steps: 0,
            effects,
        })
    }

    /// Whether some row holds the batch of a slot.
    fn is_held(&self, slot: u64) -> bool
        requires { IsSome (word_at self.now.logged.executor.memory.memory (Slot slot BATCH)) }
        ensures { (word : ℕ) → word_at self.now.logged.executor.memory.memory (Slot slot BATCH) ≡ Some word → result ≡ (word == HELD) }
    {
        let memory = &self.logged.executor.memory.memory;
        memory.look().load(At::Slot(slot, BATCH)) == HELD
    }

    /// How the only guard on a slot leaves it: it gives the slot up, too, where no registration has it.
    fn leaves_as(&self, slot: u64) -> SlotCall
        ensures { result ≡ left_as slot self.now.there }
    {
        if self.there.has_registration(slot) {
            SlotCall::Leave
        } else {
            SlotCall::LeaveOwned
        }
    }

    /// Ends the guard. The only one on its slot leaves the slot, and gives it up where that is its own.
    pub fn drop_guard(
        &mut self,
        guard: &Token,
        back: &mut Vec<Pair<K, V>>,
    ) -> Result<Played<V>, AllocError>
        requires { (same : K → K → Bool) × (hash : K → ℕ) × MayPlay same hash (event.DropGuard guard.now) self.old }
        ensures steps { IfOk result (λ played. played.steps ≡ 0) }
        ensures quiet { IfOk result (λ played. BusyIsSilent played.outcome played.effects.items) }
        ensures plays { IfOk result (λ played. (same : K → K → Bool) (hash : K → ℕ) → PlaysAt same hash (event.DropGuard guard.now) played self.old self.new) }
        ensures works { IfOk result (λ played. WorksOnSlot played self.old self.new (event.DropGuard guard.now)) }
        ensures back { IfOk result (λ played. (same : K → K → Bool) (hash : K → ℕ) → GivesBack same hash (event.DropGuard guard.now) played self.old back.old.items back.new.items) }
        ensures given { PreservesSettings self.old.logged.executor self.new.logged.executor }
    {
        let Some(slot) = self.slot_of_free(guard) else {
            return Ok(self.busy());
        };
        let mut effects = self.no_effects();
        if self.there.guards_on(slot) == 1 {
            let called = self.leaves_as(slot);
            self.do_row(slot, called, &mut effects, back)?;
        }
        self.there.leave(guard);
        Ok(Played {
            outcome: Outcome::Done,
            steps: 0,
            effects,
        })
    }

    /// Forgets the guard.
    pub fn forget(&mut self, guard: &Token) -> Played<V>
        requires { (same : K → K → Bool) × (hash : K → ℕ) × MayPlay same hash (event.Forget guard.now) self.old }
        ensures steps { result.steps ≡ 0 }
        ensures quiet { BusyIsSilent result.outcome result.effects.items }
        ensures plays { (same : K → K → Bool) (hash : K → ℕ) → PlaysAt same hash (event.Forget guard.now) result self.old self.new }
        ensures works { WorksOnSetup result self.old self.new (event.Forget guard.now) }
        ensures given { PreservesSettings self.old.logged.executor self.new.logged.executor }
    {
        if self.slot_of_free(guard).is_none() {
            return self.busy();
        }
        self.there.forget(guard);
        self.quietly(Outcome::Done)
    }
}
