//! Those who are there, each under a name of its own, in the order of their coming.
ghost use Rattle.std.specs.Prelude.{◌≡◌, ◌==◌, ◌∷◌, ◌++◌, ◌+◌, ◌<◌, ◌^◌, ℕ, List, [], Some, true, MatchOption, IfOk, OnOk, OnErr};
ghost use Rattle.std.specs.Prelude.{find, filter, not, length, option_copied};
ghost use Rattle.run_names.specs.Presence.Crowd.{IsAbsent, IsHome, LeadsHome, count_of, count_some, is_living, is_named, weigh};
ghost use Rattle.run_schedules.specs.Runs.Present.{forgotten_if, guard_of, guards_on, living_on, living_slot};
ghost use Rattle.run_schedules.specs.declared.holders.NamedGuard.{NamedGuard};

use crate::name_index::NameIndex;
use run_schedules::holders::{NamedGuard, NamedRegistration};
use run_schedules::token::Token;
use std::alloc::{AllocError, Global};
use std::marker::Model;

/// What has a name.
pub trait HasName: Drop {
    ghost name_of: { Self → List ℕ };

    fn name(&self) -> &Token
        ensures { result.now ≡ name_of self.now };
}

/// A place stays empty where one has left.
#[derive(Drop)]
pub struct Crowd<T: HasName> {
    comers: Vec<Option<T>>,
    places: NameIndex,
    count: usize,
}

impl<T: HasName> Model for Crowd<T> {
    ghost use Rattle.std.specs.Prelude.{◌≡◌, List, length};
    ghost use Rattle.run_names.specs.Presence.Crowd.{LeadsHome, kept};

    ghost Value = { List T };

    ghost view = { λ c. kept c.comers.items };

    ghost invariant = { λ c. LeadsHome T.name_of c.comers.items c.places × (c.count ≡ length (kept c.comers.items)) };
}

/// Returns whether the item of this name stands at this place.
pub fn is_at<T: HasName>(comers: &[Option<T>], place: usize, name: &Token) -> bool
    ensures yes { result ≡ true → IsHome T.name_of name.now comers.now place }
{
    match comers.get(place) {
        Some(Some(comer)) => comer.name().is(name),
        _ => false,
    }
}

/// Returns where the item of this name stands.
pub fn place_in<T: HasName>(comers: &[Option<T>], places: &NameIndex, name: &Token) -> Option<usize>
    requires { LeadsHome T.name_of comers.now places.now }
    ensures { MatchOption result (IsAbsent T.name_of name.now comers.now) (IsHome T.name_of name.now comers.now) }
{
    let place = places.get(name)?;
    let held = comers.get(place)?;
    let comer = held.as_ref()?;
    comer.name().is(name).then_some(place)
}

impl<T: HasName> Crowd<T> {
    /// Begins with nobody there.
    pub fn new(alloc: Global) -> Self
        ensures { result ≡ [] }
    {
        Crowd {
            comers: Vec::new(alloc),
            places: NameIndex::new(alloc),
            count: 0,
        }
    }

    /// Returns where its lists find memory.
    pub fn alloc(&self) -> Global {
        *self.comers.allocator()
    }

    /// Returns whether nobody is there.
    pub fn is_empty(&self) -> bool
        ensures { result ≡ (length self.now == 0) }
    {
        self.count == 0
    }

    /// Returns the one of this name.
    pub fn get(&self, name: &Token) -> Option<&T>
        ensures { option_copied result ≡ find (is_named T.name_of name.now) self.now }
    {
        let place = place_in(&self.comers, &self.places, name)?;
        self.comers[place].as_ref()
    }

    /// Adds one. On an error nobody came: memory found none, or one of this name is there.
    pub fn push(&mut self, comer: T) -> Result<(), AllocError>
        ensures came { OnOk result (self.new ≡ self.old ++ comer ∷ []) }
        ensures few { OnOk result (length self.new < 2 ^ 64) }
        ensures err { OnErr result (self.new ≡ self.old) }
    {
        let name = comer.name();
        if place_in(&self.comers, &self.places, name).is_some() {
            return Err(AllocError);
        }
        let alloc = *self.comers.allocator();
        self.places.put(alloc, name, self.comers.len())?;
        self.comers.push(Some(comer))?;
        self.count += 1;
        Ok(())
    }

    /// Removes the one of this name.
    pub fn remove(&mut self, name: &Token) -> Option<T>
        ensures who { result ≡ find (is_named T.name_of name.now) self.old }
        ensures others { self.new ≡ filter (λ t. not (is_named T.name_of name.now t)) self.old }
        ensures weights { MatchOption result (self.new ≡ self.old) (λ t. (weight : T → ℕ) → weight t + weigh weight self.new ≡ weigh weight self.old) }
    {
        let place = place_in(&self.comers, &self.places, name)?;
        self.places.remove(name);
        self.count -= 1;
        self.comers[place].take()
    }

    /// Returns those who are there.
    pub fn into_items(self) -> Result<Vec<T>, AllocError>
        ensures { IfOk result (λ items. items.items ≡ self) }
    {
        let mut items = Vec::new(*self.comers.allocator());
        for held in self.comers {
            if let Some(comer) = held {
                items.push(comer)?;
            }
        }
        Ok(items)
    }

    /// Removes all who are there.
    pub fn clear(&mut self)
        ensures { self.new ≡ [] }
    {
        self.comers.clear();
        self.places.clear();
        self.count = 0;
    }
}

impl HasName for NamedGuard {
    ghost name_of = { λ guard. guard.name };

    fn name(&self) -> &Token {
        &self.name
    }
}

impl HasName for NamedRegistration {
    ghost name_of = { λ registration. registration.name };

    fn name(&self) -> &Token {
        &self.name
    }
}

/// This guard is forgotten. Answers its slot, where it was not forgotten before.
fn forget_one(place: &mut Option<NamedGuard>) -> Option<u64>
    ensures { (guard : NamedGuard) → place.old ≡ Some guard → (place.new ≡ Some (record guard { forgotten = true })) × (result ≡ living_slot (Some guard)) }
{
    match place {
        Some(guard) if !guard.forgotten => {
            guard.forgotten = true;
            Some(guard.slot)
        }
        _ => None,
    }
}

impl Crowd<NamedGuard> {
    /// Forgets the guard of this name. Answers its slot, where it was not forgotten before.
    pub fn forget(&mut self, name: &Token) -> Option<u64>
        ensures slot { result ≡ living_slot (guard_of name.now self.old) }
        ensures forgotten { self.new ≡ forgotten_if name.now self.old }
        ensures on { (slot : ℕ) → guards_on slot self.new ≡ guards_on slot self.old }
        ensures living { (slot : ℕ) → count_of slot result + living_on slot self.new ≡ living_on slot self.old }
        ensures all { count_some result + weigh is_living self.new ≡ weigh is_living self.old }
    {
        let place = place_in(&self.comers, &self.places, name)?;
        forget_one(&mut self.comers[place])
    }
}
