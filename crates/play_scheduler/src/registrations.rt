//! Slots are taken and given up: registrations, and guards that own theirs.
ghost use Rattle.std.specs.Prelude.{◌≡◌, ℕ, Bool, List, IfOk};
ghost use Rattle.run_schedules.specs.Schedules.Moment.{Moment};
ghost use Rattle.run_schedules.specs.Schedules.Terms.{Terms};
ghost use Rattle.run_schedules.specs.declared.event.Event.TheVariants as event;
ghost use Rattle.run_logged.specs.Log.Back.{BringsBack};
ghost use Rattle.play_scheduler.specs.Back.{GivesBack};
ghost use Rattle.play_scheduler.specs.Played.{MayPlay, PlaysAt, RefinesFor};
ghost use Rattle.play_scheduler.specs.Quiet.{BusyIsSilent};
ghost use Rattle.run_logged.specs.Rows.Taking.{SlotTaken};
ghost use Rattle.play_scheduler.specs.Works.{WorksOnSlot};
ghost use Rattle.run_executor.specs.Executing.IsThere.{PreservesSettings};

use crate::played::Played;
use crate::scheduler::Scheduler;
use run_schedules::effect::Effect;
use run_schedules::ended::Pair;
use run_schedules::outcome::Outcome;
use run_schedules::token::Token;
use run_shows::row::{RowTold, SlotCall};
use seize_words::Fault;
use std::alloc::AllocError;

impl<K: Drop, V: Drop, S> Scheduler<K, V, S> {
    /// Takes the least slot that is not in use, and enters it, too, if it is to. The fault is SlotsUsedUp, or Memory where there is none for the words of slots.
    pub fn take_slot(
        &mut self,
        enters: bool,
        effects: &mut Vec<Effect>,
        back: &mut Vec<Pair<K, V>>,
    ) -> Result<Result<u64, Fault>, AllocError>
        requires { (same : K → K → Bool) × (hash : K → ℕ) × (terms : Terms) × (m : Moment K V) × RefinesFor same hash terms m self.old }
        ensures taken { IfOk result (λ slot. SlotTaken enters slot effects.old.items effects.new.items self.old.logged self.new.logged) }
        ensures back { IfOk result (λ slot. BringsBack effects.old.items effects.new.items self.old.logged back.old.items back.new.items) }
        ensures rest { self.new ≡ record self.old { logged = self.new.logged } }
        ensures given { PreservesSettings self.old.logged.executor self.new.logged.executor }
    {
        let told = self.run_row(0, SlotCall::Register { enters }, effects, back)?;
        match told {
            RowTold::Registered(slot) => Ok(Ok(slot)),
            RowTold::Refused(fault) => Ok(Err(fault)),
            _ => unreachable!(),
        }
    }

    /// Makes a new registration, on the least slot that is not in use.
    pub fn register(
        &mut self,
        registration: Token,
        back: &mut Vec<Pair<K, V>>,
    ) -> Result<Played<V>, AllocError>
        requires { (same : K → K → Bool) × (hash : K → ℕ) × MayPlay same hash (event.Register registration) self.old }
        ensures steps { IfOk result (λ played. played.steps ≡ 0) }
        ensures quiet { IfOk result (λ played. BusyIsSilent played.outcome played.effects.items) }
        ensures plays { IfOk result (λ played. (same : K → K → Bool) (hash : K → ℕ) → PlaysAt same hash (event.Register registration) played self.old self.new) }
        ensures works { IfOk result (λ played. WorksOnSlot played self.old self.new (event.Register registration)) }
        ensures back { IfOk result (λ played. (same : K → K → Bool) (hash : K → ℕ) → GivesBack same hash (event.Register registration) played self.old back.old.items back.new.items) }
        ensures given { PreservesSettings self.old.logged.executor self.new.logged.executor }
    {
        if self.there.slot_of_registration(&registration).is_some() {
            return Ok(self.busy());
        }
        let mut effects = self.no_effects();
        let taken = self.take_slot(false, &mut effects, back)?;
        match taken {
            Err(fault) => Ok(Played {
                outcome: Outcome::Refused(fault),
                steps: 0,
                effects,
            }),
            Ok(slot) => {
                self.there.register(registration, slot)?;
                Ok(Played {
                    outcome: Outcome::Slot(slot),
                    steps: 0,
                    effects,
                })
            }
        }
    }

    /// Makes a new guard with a slot of its own: the least one that is not in use.
    pub fn own(&mut self, guard: Token, back: &mut Vec<Pair<K, V>>) -> Result<Played<V>, AllocError>
        requires { (same : K → K → Bool) × (hash : K → ℕ) × MayPlay same hash (event.Own guard) self.old }
        ensures steps { IfOk result (λ played. played.steps ≡ 0) }
        ensures quiet { IfOk result (λ played. BusyIsSilent played.outcome played.effects.items) }
        ensures plays { IfOk result (λ played. (same : K → K → Bool) (hash : K → ℕ) → PlaysAt same hash (event.Own guard) played self.old self.new) }
        ensures works { IfOk result (λ played. WorksOnSlot played self.old self.new (event.Own guard)) }
        ensures back { IfOk result (λ played. (same : K → K → Bool) (hash : K → ℕ) → GivesBack same hash (event.Own guard) played self.old back.old.items back.new.items) }
        ensures given { PreservesSettings self.old.logged.executor self.new.logged.executor }
    {
        if self.there.has_guard(&guard) {
            return Ok(self.busy());
        }
        let mut effects = self.no_effects();
        let taken = self.take_slot(true, &mut effects, back)?;
        match taken {
            Err(fault) => Ok(Played {
                outcome: Outcome::Refused(fault),
                steps: 0,
                effects,
            }),
            Ok(slot) => {
                self.there.enter(guard, slot)?;
                Ok(Played {
                    outcome: Outcome::Slot(slot),
                    steps: 0,
                    effects,
                })
            }
        }
    }

    /// Ends the registration, where each guard of it was forgotten. A slot on which guards are left is not given up.
    pub fn unregister(
        &mut self,
        registration: &Token,
        back: &mut Vec<Pair<K, V>>,
    ) -> Result<Played<V>, AllocError>
        requires { (same : K → K → Bool) × (hash : K → ℕ) × MayPlay same hash (event.Unregister registration.now) self.old }
        ensures steps { IfOk result (λ played. played.steps ≡ 0) }
        ensures quiet { IfOk result (λ played. BusyIsSilent played.outcome played.effects.items) }
        ensures plays { IfOk result (λ played. (same : K → K → Bool) (hash : K → ℕ) → PlaysAt same hash (event.Unregister registration.now) played self.old self.new) }
        ensures works { IfOk result (λ played. WorksOnSlot played self.old self.new (event.Unregister registration.now)) }
        ensures back { IfOk result (λ played. (same : K → K → Bool) (hash : K → ℕ) → GivesBack same hash (event.Unregister registration.now) played self.old back.old.items back.new.items) }
        ensures given { PreservesSettings self.old.logged.executor self.new.logged.executor }
    {
        let slot = match self.there.slot_of_registration(registration) {
            Some(slot) if self.there.living_on(slot) == 0 => slot,
            _ => return Ok(self.busy()),
        };
        let mut effects = self.no_effects();
        if self.there.guards_on(slot) == 0 {
            self.do_row(slot, SlotCall::Unregister, &mut effects, back)?;
        }
        self.there.unregister(registration);
        Ok(Played {
            outcome: Outcome::Done,
            steps: 0,
            effects,
        })
    }
}
