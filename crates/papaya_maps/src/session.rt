//! A session on a map that shares its collector: a pass for this map alone, within the section of a guard.
ghost use Rattle.std.specs.Prelude.{◌≡◌, ◌≢◌, Option, IfErr, IfOk, option_map};
ghost use Rattle.papaya_maps.specs.Calls.{MapCameToHaveOn, MapCountedOn, MapGaveUpOn, MapHadOn, MapLackedOn, WasRefusedOn};
ghost use Rattle.papaya_maps.specs.Sources.{OneSource};
ghost use Rattle.seize_words.specs.declared.fault.Fault.TheVariants.{ForeignGuard};
ghost use Rattle.threads_callers.specs.Answers.{CameBack, has_stored};
ghost use Rattle.threads_callers.specs.Given.ActsActs.{Insert, Remove, TryToInsert};

use crate::guard::CollectorGuard;
use crate::map::{CollectorMap, value_of};
use crate::pass::CollectorPass;
use map_tables::Hashes;
use seize_words::{Fault, Refused};
use std::hash::{Hash, RandomState};
use std::sync::Wait;
use threads_callers::{Attempt, Form};

/// A session on a map that shares its collector, within the section of a guard, on whose thread it stays. What it has found is lent for as long as guard and map are borrowed, whatever
/// it does then.
#[derive(Drop)]
pub struct CollectorSession<'g, 'c, K: Eq + Hash + Drop, V: Drop, S: Hashes<K> = RandomState> {
    map: &'g CollectorMap<'c, K, V, S>,
    guard: &'g CollectorGuard<'c, K, V, S>,
    pass: CollectorPass<K, V, S>,
    ghost guards: { guard.now.caller.seat.base ≡ map.now.owner.seat.base },
    ghost passes: { pass.seat.seat.base ≡ map.now.owner.seat.base },
}

impl<'c, K: Eq + Hash + Drop, V: Drop, S: Hashes<K>> CollectorMap<'c, K, V, S> {
    /// Begins a session on the map, within the section of this guard. A guard of another collector is `Fault::ForeignGuard`.
    pub fn session<'g>(
        &'g self,
        guard: &'g CollectorGuard<'c, K, V, S>,
    ) -> Result<CollectorSession<'g, 'c, K, V, S>, Fault>
        requires guard { OneSource (guard.now.number, guard.now.caller.seat.base) (self.now.number, self.now.owner.seat.base) }
        ensures sides { IfOk result (λ session. (session.map.now ≡ self.now) × (session.guard.now ≡ guard.now)) }
        ensures foreign { IfErr result (λ fault. (fault ≡ ForeignGuard) × (guard.now.number ≢ self.now.number)) }
    {
        if guard.number != self.number {
            return Err(Fault::ForeignGuard);
        }
        Ok(CollectorSession {
            map: self,
            guard,
            pass: CollectorPass::of(&self.owner, self.number),
        })
    }
}

impl<'g, 'c, K: Eq + Hash + Drop, V: Drop, S: Hashes<K>> CollectorSession<'g, 'c, K, V, S> {
    /// Looks a key up, and lends the value of its pair, if the map has one, whoever replaces or removes it meanwhile.
    pub fn get<R: Wait, Q: Form<K, S>>(&mut self, rt: &R, key: &Q) -> Option<&'g V>
        ensures sides { (self.new.map ≡ self.old.map) × (self.new.guard ≡ self.old.guard) }
        ensures got { (pair : Option (K × V)) × (option_map (λ value. value.now) result ≡ option_map (λ p. p.1) pair)
            × MapHadOn K.eq S.hash self.new.guard.now.caller self.new.map.now.owner (Q.stands_for key.now) pair self.old.pass.seat.seat.view self.new.pass.seat.seat.view }
    {
        value_of(self.map.finds(rt, key, self.guard, &mut self.pass))
    }

    /// Stores a pair, also in the place of one of an equal key, and lends the value of that one, if there was one. The faults are `Fault::Capacity` and `Fault::Memory`; then the pair
    /// was not stored, and comes back.
    pub fn insert<R: Wait>(
        &mut self,
        rt: &R,
        key: K,
        value: V,
    ) -> Result<Option<&'g V>, Refused<K, V>>
        ensures sides { (self.new.map ≡ self.old.map) × (self.new.guard ≡ self.old.guard) }
        ensures stored { IfOk result (λ old. (pair : Option (K × V)) × (option_map (λ value. value.now) old ≡ option_map (λ p. p.1) pair)
            × MapCameToHaveOn K.eq S.hash self.new.guard.now.caller self.new.map.now.owner key value pair self.old.pass.seat.seat.view self.new.pass.seat.seat.view) }
        ensures refused { IfErr result (λ r. WasRefusedOn K.eq S.hash self.new.guard.now.caller self.new.map.now.owner (Insert key value) r.fault self.old.pass.seat.seat.view self.new.pass.seat.seat.view) }
        ensures back { IfErr result (λ r. (r.key ≡ key) × (r.value ≡ value)) }
    {
        self.map.puts(rt, key, value, self.guard, &mut self.pass)
    }

    /// Stores a pair, if the map has none of an equal key: else it comes back. The value of the pair that is there then is lent. The faults are those of `insert`.
    pub fn try_insert<R: Wait>(
        &mut self,
        rt: &R,
        key: K,
        value: V,
    ) -> Result<(&'g V, Attempt<K, V>), Refused<K, V>>
        ensures sides { (self.new.map ≡ self.old.map) × (self.new.guard ≡ self.old.guard) }
        ensures tried { IfOk result (λ told. (found : K)
            × MapLackedOn K.eq S.hash self.new.guard.now.caller self.new.map.now.owner key value (has_stored told.1) (found, told.0.now) self.old.pass.seat.seat.view self.new.pass.seat.seat.view) }
        ensures present { IfOk result (λ told. CameBack key value told.1) }
        ensures refused { IfErr result (λ r. WasRefusedOn K.eq S.hash self.new.guard.now.caller self.new.map.now.owner (TryToInsert key value) r.fault self.old.pass.seat.seat.view self.new.pass.seat.seat.view) }
        ensures back { IfErr result (λ r. (r.key ≡ key) × (r.value ≡ value)) }
    {
        self.map.tries(rt, key, value, self.guard, &mut self.pass)
    }

    /// Removes the pair of a key, and lends it, if there was one. The faults are `Fault::Capacity` and `Fault::Memory`; then no pair was removed.
    pub fn remove<R: Wait, Q: Form<K, S>>(
        &mut self,
        rt: &R,
        key: &Q,
    ) -> Result<Option<(&'g K, &'g V)>, Fault>
        ensures sides { (self.new.map ≡ self.old.map) × (self.new.guard ≡ self.old.guard) }
        ensures removed { IfOk result (λ taken. MapGaveUpOn K.eq S.hash self.new.guard.now.caller self.new.map.now.owner (Q.stands_for key.now) (option_map (λ pair. (pair.0.now, pair.1.now)) taken)
            self.old.pass.seat.seat.view self.new.pass.seat.seat.view) }
        ensures refused { IfErr result (λ fault. WasRefusedOn K.eq S.hash self.new.guard.now.caller self.new.map.now.owner (Remove (Q.stands_for key.now)) fault self.old.pass.seat.seat.view self.new.pass.seat.seat.view) }
    {
        self.map.takes(rt, key, self.guard, &mut self.pass)
    }

    /// Returns how many pairs the map has, by its count.
    pub fn len(&mut self) -> u64
        ensures sides { (self.new.map ≡ self.old.map) × (self.new.guard ≡ self.old.guard) }
        ensures counted { MapCountedOn K.eq S.hash self.new.guard.now.caller self.new.map.now.owner result self.old.pass.seat.seat.view self.new.pass.seat.seat.view }
    {
        self.map.counts(self.guard, &mut self.pass)
    }
}
