//! Calls on a map that shares its collector: each is made by a pass, within the section of a guard, both of that collector.
ghost use Rattle.std.specs.Prelude.{◌≡◌, Option, IfErr, IfOk, option_map};
ghost use Rattle.papaya_maps.specs.Calls.{MapCameToHaveOn, MapCountedOn, MapGaveUpOn, MapHadOn, MapLackedOn, WasRefusedOn};
ghost use Rattle.papaya_maps.specs.Sources.{IsForeign, IsForeignOr, OneSource};
ghost use Rattle.seize_words.specs.declared.fault.Fault.TheVariants.{ForeignGuard};
ghost use Rattle.threads_callers.specs.Answers.{CameBack, has_stored};
ghost use Rattle.threads_callers.specs.Given.ActsActs.{Insert, Remove, TryToInsert};

use crate::guard::CollectorGuard;
use crate::map::CollectorMap;
use crate::pass::CollectorPass;
use map_tables::{Hashes, Setting};
use seize_words::{Fault, Refused};
use std::hash::Hash;
use std::sync::Wait;
use threads_callers::{Attempt, Form};

impl<'c, K: Eq + Hash + Drop, V: Drop, S: Hashes<K>> CollectorMap<'c, K, V, S> {
    /// Tells that guard and pass are of the map's collector: else one of them is foreign.
    fn serves(
        &self,
        guard: &CollectorGuard<'c, K, V, S>,
        pass: &CollectorPass<K, V, S>,
    ) -> Result<(), Fault>
        ensures own { IfOk result (λ _. (guard.now.number ≡ self.now.number) × (pass.now.number ≡ self.now.number)) }
        ensures foreign { IfErr result (λ fault. (fault ≡ ForeignGuard) × IsForeign self.now.number guard.now.number pass.now.number) }
    {
        if guard.number != self.number {
            return Err(Fault::ForeignGuard);
        }
        if pass.number != self.number {
            return Err(Fault::ForeignGuard);
        }
        Ok(())
    }

    /// Returns what a call under this guard works with.
    pub(crate) fn setting_under(&self, guard: &CollectorGuard<'c, K, V, S>) -> Setting
        ensures { result ≡ record self.now.setting { slot = guard.now.slot } }
    {
        Setting {
            slot: guard.slot,
            ..self.setting
        }
    }

    /// Looks a key up, and lends its pair, if the map has one, for as long as guard and map are borrowed, whoever replaces or removes it meanwhile, and whatever the pass does then. A
    /// guard or a pass of another collector is `Fault::ForeignGuard`, and nothing has changed.
    pub fn get_key_value<'g, R: Wait, Q: Form<K, S>>(
        &'g self,
        rt: &R,
        key: &Q,
        guard: &'g CollectorGuard<'c, K, V, S>,
        pass: &mut CollectorPass<K, V, S>,
    ) -> Result<Option<(&'g K, &'g V)>, Fault>
        requires pass { OneSource (pass.old.number, pass.old.seat.seat.base) (self.now.number, self.now.owner.seat.base) }
        requires guard { OneSource (guard.now.number, guard.now.caller.seat.base) (self.now.number, self.now.owner.seat.base) }
        ensures pass { (pass.new.seat.seat.base ≡ pass.old.seat.seat.base) × (pass.new.number ≡ pass.old.number) }
        ensures foreign { IfErr result (λ fault. (fault ≡ ForeignGuard) × IsForeign self.now.number guard.now.number pass.old.number × (pass.new ≡ pass.old)) }
        ensures had { IfOk result (λ found. MapHadOn K.eq S.hash guard.now.caller self.now.owner (Q.stands_for key.now) (option_map (λ pair. (pair.0.now, pair.1.now)) found) pass.old.seat.seat.view pass.new.seat.seat.view) }
    {
        self.serves(guard, pass)?;
        Ok(self.finds(rt, key, guard, pass))
    }

    /// Looks a key up as `get_key_value` does, and lends the value of its pair, if the map has one.
    pub fn get<'g, R: Wait, Q: Form<K, S>>(
        &'g self,
        rt: &R,
        key: &Q,
        guard: &'g CollectorGuard<'c, K, V, S>,
        pass: &mut CollectorPass<K, V, S>,
    ) -> Result<Option<&'g V>, Fault>
        requires pass { OneSource (pass.old.number, pass.old.seat.seat.base) (self.now.number, self.now.owner.seat.base) }
        requires guard { OneSource (guard.now.number, guard.now.caller.seat.base) (self.now.number, self.now.owner.seat.base) }
        ensures pass { (pass.new.seat.seat.base ≡ pass.old.seat.seat.base) × (pass.new.number ≡ pass.old.number) }
        ensures foreign { IfErr result (λ fault. (fault ≡ ForeignGuard) × IsForeign self.now.number guard.now.number pass.old.number × (pass.new ≡ pass.old)) }
        ensures had { IfOk result (λ found. (pair : Option (K × V)) × (option_map (λ value. value.now) found ≡ option_map (λ p. p.1) pair) × MapHadOn K.eq S.hash guard.now.caller self.now.owner (Q.stands_for key.now) pair pass.old.seat.seat.view pass.new.seat.seat.view) }
    {
        let found = self.get_key_value(rt, key, guard, pass)?;
        Ok(value_of(found))
    }

    /// Stores a pair, also in the place of one of an equal key, and lends the value of that one, if there was one. The faults are `Fault::ForeignGuard`, `Fault::Capacity` and
    /// `Fault::Memory`; then the pair was not stored, and comes back.
    pub fn insert<'g, R: Wait>(
        &'g self,
        rt: &R,
        key: K,
        value: V,
        guard: &'g CollectorGuard<'c, K, V, S>,
        pass: &mut CollectorPass<K, V, S>,
    ) -> Result<Option<&'g V>, Refused<K, V>>
        requires pass { OneSource (pass.old.number, pass.old.seat.seat.base) (self.now.number, self.now.owner.seat.base) }
        requires guard { OneSource (guard.now.number, guard.now.caller.seat.base) (self.now.number, self.now.owner.seat.base) }
        ensures pass { (pass.new.seat.seat.base ≡ pass.old.seat.seat.base) × (pass.new.number ≡ pass.old.number) }
        ensures stored { IfOk result (λ old. (pair : Option (K × V)) × (option_map (λ value. value.now) old ≡ option_map (λ p. p.1) pair) × MapCameToHaveOn K.eq S.hash guard.now.caller self.now.owner key value pair pass.old.seat.seat.view pass.new.seat.seat.view) }
        ensures refused { IfErr result (λ r. IsForeignOr self.now.number guard.now.number pass.old.number r.fault (pass.new ≡ pass.old) (WasRefusedOn K.eq S.hash guard.now.caller self.now.owner (Insert key value) r.fault pass.old.seat.seat.view pass.new.seat.seat.view)) }
        ensures back { IfErr result (λ r. (r.key ≡ key) × (r.value ≡ value)) }
    {
        match self.serves(guard, pass) {
            Ok(()) => self.puts(rt, key, value, guard, pass),
            Err(fault) => Err(Refused { fault, key, value }),
        }
    }

    /// Stores a pair, if the map has none of an equal key: else it comes back. The value of the pair that is there then is lent. The faults are those of `insert`.
    pub fn try_insert<'g, R: Wait>(
        &'g self,
        rt: &R,
        key: K,
        value: V,
        guard: &'g CollectorGuard<'c, K, V, S>,
        pass: &mut CollectorPass<K, V, S>,
    ) -> Result<(&'g V, Attempt<K, V>), Refused<K, V>>
        requires pass { OneSource (pass.old.number, pass.old.seat.seat.base) (self.now.number, self.now.owner.seat.base) }
        requires guard { OneSource (guard.now.number, guard.now.caller.seat.base) (self.now.number, self.now.owner.seat.base) }
        ensures pass { (pass.new.seat.seat.base ≡ pass.old.seat.seat.base) × (pass.new.number ≡ pass.old.number) }
        ensures tried { IfOk result (λ told. (found : K) × MapLackedOn K.eq S.hash guard.now.caller self.now.owner key value (has_stored told.1) (found, told.0.now) pass.old.seat.seat.view pass.new.seat.seat.view) }
        ensures present { IfOk result (λ told. CameBack key value told.1) }
        ensures refused { IfErr result (λ r. IsForeignOr self.now.number guard.now.number pass.old.number r.fault (pass.new ≡ pass.old) (WasRefusedOn K.eq S.hash guard.now.caller self.now.owner (TryToInsert key value) r.fault pass.old.seat.seat.view pass.new.seat.seat.view)) }
        ensures back { IfErr result (λ r. (r.key ≡ key) × (r.value ≡ value)) }
    {
        match self.serves(guard, pass) {
            Ok(()) => self.tries(rt, key, value, guard, pass),
            Err(fault) => Err(Refused { fault, key, value }),
        }
    }

    /// Removes the pair of a key, and lends it, if there was one. It is dropped once no section that was open before holds it. The faults are `Fault::ForeignGuard`,
    /// `Fault::Capacity` and `Fault::Memory`; then no pair was removed.
    pub fn remove_entry<'g, R: Wait, Q: Form<K, S>>(
        &'g self,
        rt: &R,
        key: &Q,
        guard: &'g CollectorGuard<'c, K, V, S>,
        pass: &mut CollectorPass<K, V, S>,
    ) -> Result<Option<(&'g K, &'g V)>, Fault>
        requires pass { OneSource (pass.old.number, pass.old.seat.seat.base) (self.now.number, self.now.owner.seat.base) }
        requires guard { OneSource (guard.now.number, guard.now.caller.seat.base) (self.now.number, self.now.owner.seat.base) }
        ensures pass { (pass.new.seat.seat.base ≡ pass.old.seat.seat.base) × (pass.new.number ≡ pass.old.number) }
        ensures removed { IfOk result (λ taken. MapGaveUpOn K.eq S.hash guard.now.caller self.now.owner (Q.stands_for key.now) (option_map (λ pair. (pair.0.now, pair.1.now)) taken) pass.old.seat.seat.view pass.new.seat.seat.view) }
        ensures refused { IfErr result (λ fault. IsForeignOr self.now.number guard.now.number pass.old.number fault (pass.new ≡ pass.old) (WasRefusedOn K.eq S.hash guard.now.caller self.now.owner (Remove (Q.stands_for key.now)) fault pass.old.seat.seat.view pass.new.seat.seat.view)) }
    {
        self.serves(guard, pass)?;
        self.takes(rt, key, guard, pass)
    }

    /// Removes the pair of a key as `remove_entry` does, and lends its value.
    pub fn remove<'g, R: Wait, Q: Form<K, S>>(
        &'g self,
        rt: &R,
        key: &Q,
        guard: &'g CollectorGuard<'c, K, V, S>,
        pass: &mut CollectorPass<K, V, S>,
    ) -> Result<Option<&'g V>, Fault>
        requires pass { OneSource (pass.old.number, pass.old.seat.seat.base) (self.now.number, self.now.owner.seat.base) }
        requires guard { OneSource (guard.now.number, guard.now.caller.seat.base) (self.now.number, self.now.owner.seat.base) }
        ensures pass { (pass.new.seat.seat.base ≡ pass.old.seat.seat.base) × (pass.new.number ≡ pass.old.number) }
        ensures removed { IfOk result (λ taken. (pair : Option (K × V)) × (option_map (λ value. value.now) taken ≡ option_map (λ p. p.1) pair) × MapGaveUpOn K.eq S.hash guard.now.caller self.now.owner (Q.stands_for key.now) pair pass.old.seat.seat.view pass.new.seat.seat.view) }
        ensures refused { IfErr result (λ fault. IsForeignOr self.now.number guard.now.number pass.old.number fault (pass.new ≡ pass.old) (WasRefusedOn K.eq S.hash guard.now.caller self.now.owner (Remove (Q.stands_for key.now)) fault pass.old.seat.seat.view pass.new.seat.seat.view)) }
    {
        let taken = self.remove_entry(rt, key, guard, pass)?;
        Ok(value_of(taken))
    }

    /// Returns how many pairs the map has, by its count: of each shard of that what it says at a moment of the call. A guard or a pass of another collector is `Fault::ForeignGuard`.
    pub fn len(
        &self,
        guard: &CollectorGuard<'c, K, V, S>,
        pass: &mut CollectorPass<K, V, S>,
    ) -> Result<u64, Fault>
        requires pass { OneSource (pass.old.number, pass.old.seat.seat.base) (self.now.number, self.now.owner.seat.base) }
        requires guard { OneSource (guard.now.number, guard.now.caller.seat.base) (self.now.number, self.now.owner.seat.base) }
        ensures pass { (pass.new.seat.seat.base ≡ pass.old.seat.seat.base) × (pass.new.number ≡ pass.old.number) }
        ensures foreign { IfErr result (λ fault. (fault ≡ ForeignGuard) × IsForeign self.now.number guard.now.number pass.old.number × (pass.new ≡ pass.old)) }
        ensures counted { IfOk result (λ count. MapCountedOn K.eq S.hash guard.now.caller self.now.owner count pass.old.seat.seat.view pass.new.seat.seat.view) }
    {
        self.serves(guard, pass)?;
        Ok(self.counts(guard, pass))
    }
}

/// Returns the value of a pair that is lent, if one is.
pub(crate) fn value_of<'g, K, V>(found: Option<(&'g K, &'g V)>) -> Option<&'g V>
    ensures { option_map (λ value. value.now) result ≡ option_map (λ pair. pair.1.now) found.entry }
{
    match found {
        Some((_, value)) => Some(value),
        None => None,
    }
}
