//! Who is there: registrations and guards, by their names and on their slots.
ghost use Rattle.std.specs.Prelude.{◌≡◌, ◌&&◌, ◌==◌, is_some, option_map, OnOk, length, if◌then◌else◌};
ghost use Rattle.run_schedules.specs.Runs.Present.{nobody, registration_of, guard_of, living_slot, guards_on, living_on, has_registration, all_forgotten};
ghost use Rattle.run_schedules.specs.Runs.Present.{registers, unregisters, enters_slot, drops, forgets};

use crate::crowd::Crowd;
use crate::number_counts::NumberCounts;
use run_schedules::holders::{NamedGuard, NamedRegistration};
use run_schedules::token::Token;
use std::alloc::{AllocError, Global};
use std::marker::Model;

/// The registrations and the guards that are there. How many are on a slot is counted as they come and go.
pub struct Holders {
    registrations: Crowd<NamedRegistration>,
    guards: Crowd<NamedGuard>,
    registered: NumberCounts,
    held: NumberCounts,
    /// How many guards of each slot were not forgotten.
    living: NumberCounts,
    /// How many guards of all were not forgotten.
    all_living: usize,
}

impl Model for Holders {
    ghost use Rattle.run_schedules.specs.Runs.Present.{Present};
    ghost use Rattle.run_names.specs.Presence.Counted.{AreCounted};

    ghost Value = { Present };

    ghost view = { λ p. record { registrations = p.registrations; guards = p.guards } };

    ghost invariant = { λ p. AreCounted p.registrations p.guards p.registered p.held p.living p.all_living };
}

/// By hand, so that who drops one has a single step for it.
impl Drop for Holders {
    fn drop(self) {
        let Holders {
            registrations: _,
            guards: _,
            registered: _,
            held: _,
            living: _,
            all_living: _,
        } = self;
    }
}

/// 1 where it is so, 0 where not.
fn one_if(is_so: bool) -> usize
    ensures { result ≡ if is_so then 1 else 0 }
{
    if is_so { 1 } else { 0 }
}

impl Holders {
    /// Begins with nobody there.
    pub fn nobody(alloc: Global) -> Self
        ensures { result ≡ nobody }
    {
        Holders {
            registrations: Crowd::new(alloc),
            guards: Crowd::new(alloc),
            registered: NumberCounts::new(alloc),
            held: NumberCounts::new(alloc),
            living: NumberCounts::new(alloc),
            all_living: 0,
        }
    }

    /// Returns the slot of the registration of this name.
    pub fn slot_of_registration(&self, name: &Token) -> Option<u64>
        ensures { result ≡ option_map (λ r. r.slot) (registration_of name.now self.now.registrations) }
    {
        match self.registrations.get(name) {
            Some(registration) => Some(registration.slot),
            None => None,
        }
    }

    /// Returns whether a guard of this name is there.
    pub fn has_guard(&self, name: &Token) -> bool
        ensures { result ≡ is_some (guard_of name.now self.now.guards) }
    {
        self.guards.get(name).is_some()
    }

    /// Returns the slot of the guard of this name, where it lives and was not forgotten.
    pub fn slot_of_living(&self, name: &Token) -> Option<u64>
        ensures { result ≡ living_slot (guard_of name.now self.now.guards) }
    {
        match self.guards.get(name) {
            Some(guard) if !guard.forgotten => Some(guard.slot),
            _ => None,
        }
    }

    /// Returns whether a registration has this slot.
    pub fn has_registration(&self, slot: u64) -> bool
        ensures { result ≡ has_registration slot self.now.registrations }
    {
        self.registered.of(slot) > 0
    }

    /// Returns how many guards are on a slot, forgotten ones too.
    pub fn guards_on(&self, slot: u64) -> usize
        ensures { result ≡ guards_on slot self.now.guards }
    {
        self.held.of(slot)
    }

    /// Returns how many guards on a slot were not forgotten.
    pub fn living_on(&self, slot: u64) -> usize
        ensures { result ≡ living_on slot self.now.guards }
    {
        self.living.of(slot)
    }

    /// Returns whether all registrations have ended, and each guard was forgotten.
    pub fn is_left(&self) -> bool
        ensures { result ≡ ((length self.now.registrations == 0) && all_forgotten self.now.guards) }
    {
        self.registrations.is_empty() && self.all_living == 0
    }

    /// Gives a registration this slot. On an error nobody came.
    pub fn register(&mut self, name: Token, slot: u64) -> Result<(), AllocError>
        ensures { OnOk result (self.new ≡ registers name slot self.old) }
    {
        self.registered.reach(slot)?;
        self.registrations.push(NamedRegistration { name, slot })?;
        self.registered.add(slot);
        Ok(())
    }

    /// Ends the registration of this name.
    pub fn unregister(&mut self, name: &Token)
        ensures { self.new ≡ unregisters name.now self.old }
    {
        match self.registrations.remove(name) {
            Some(registration) => self.registered.lessen(registration.slot, 1),
            None => {}
        }
    }

    /// Adds a guard on this slot. On an error nobody came.
    pub fn enter(&mut self, name: Token, slot: u64) -> Result<(), AllocError>
        ensures { OnOk result (self.new ≡ enters_slot name slot self.old) }
    {
        self.held.reach(slot)?;
        self.living.reach(slot)?;
        let guard = NamedGuard {
            name,
            slot,
            forgotten: false,
        };
        self.guards.push(guard)?;
        self.held.add(slot);
        self.living.add(slot);
        self.all_living += 1;
        Ok(())
    }

    /// Ends the guard of this name.
    pub fn leave(&mut self, name: &Token)
        ensures { self.new ≡ drops name.now self.old }
    {
        match self.guards.remove(name) {
            Some(guard) => {
                let living = one_if(!guard.forgotten);
                self.held.lessen(guard.slot, 1);
                self.living.lessen(guard.slot, living);
                self.all_living -= living;
            }
            None => {}
        }
    }

    /// Forgets the guard of this name.
    pub fn forget(&mut self, name: &Token)
        ensures { self.new ≡ forgets name.now self.old }
    {
        if let Some(slot) = self.guards.forget(name) {
            self.living.lessen(slot, 1);
            self.all_living -= 1;
        }
    }

    /// Removes all who are there.
    pub fn clear(&mut self)
        ensures { self.new ≡ nobody }
    {
        self.registrations.clear();
        self.guards.clear();
        self.registered.clear();
        self.held.clear();
        self.living.clear();
        self.all_living = 0;
    }
}
