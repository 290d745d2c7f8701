//! A set that shares its collector with others: the map whose keys are its elements.
ghost use Rattle.std.specs.Prelude.{◌≡◌, ◌≢◌, IfErr, IfOk, OnOk, option_map};
ghost use Rattle.map_tables.specs.declared.resize_mode.ResizeMode.TheVariants.{Incremental};
ghost use Rattle.papaya_maps.specs.Calls.{MapCountedOn, WasRefusedOn};
ghost use Rattle.papaya_maps.specs.Sets.{SetCameToHaveOn, SetGaveUpOn, SetHadOn, SetLentOn};
ghost use Rattle.papaya_maps.specs.Sources.{IsForeign, IsForeignOr, OneSource};
ghost use Rattle.seize_words.specs.declared.fault.Fault.TheVariants.{ForeignGuard};
ghost use Rattle.threads_callers.specs.Given.ActsActs.{Insert, Remove};

use crate::collector::CollectorMapBuilder;
use crate::guard::CollectorGuard;
use crate::map::CollectorMap;
use crate::pass::CollectorPass;
use map_tables::Hashes;
use seize_words::{Fault, Refused, RefusedKey};
use std::hash::{Hash, RandomState};
use std::sync::Wait;
use threads_callers::Form;

/// A set that shares its collector with others. It may be lent to threads, and ends as a map does.
#[derive(Drop)]
pub struct CollectorSet<'c, K: Eq + Hash + Drop, S: Hashes<K> + Drop = RandomState> {
    map: CollectorMap<'c, K, (), S>,
}

impl<'c, K: Eq + Hash + Drop, S: Hashes<K> + Drop> CollectorMapBuilder<'c, K, (), S> {
    /// Returns the set whose elements are the keys of such a map, as `build` returns that map, with its faults.
    pub fn build_set(self) -> Result<CollectorSet<'c, K, S>, Fault>
        ensures some { OnOk result (self.entry.copies ≢ 0) }
        ensures memory { IfOk result (λ set. set.map.owner.blocks.now ≡ self.entry.collector.now.home.blocks) }
        ensures number { IfOk result (λ set. set.map.number ≡ self.entry.collector.now.collector.number) }
        ensures hasher { IfOk result (λ set. set.map.hasher ≡ self.entry.hasher) }
        ensures mode { IfOk result (λ set. set.map.setting.mode ≡ Incremental self.entry.copies) }
    {
        let map = self.build()?;
        Ok(CollectorSet { map })
    }
}

/// Returns the key of a pair that is lent, if one is.
fn element_of<'g, K>(found: Option<(&'g K, &'g ())>) -> Option<&'g K>
    ensures { option_map (λ key. key.now) result ≡ option_map (λ pair. pair.0.now) found.entry }
{
    match found {
        Some((key, _)) => Some(key),
        None => None,
    }
}

impl<'c, K: Eq + Hash + Drop, S: Hashes<K> + Drop> CollectorSet<'c, K, S> {
    /// Looks for the element that equals this key, and lends it, if the set has one, for as long as guard and set are borrowed, whoever removes it meanwhile. A guard or a pass of
    /// another collector is `Fault::ForeignGuard`, and nothing has changed.
    pub fn get<'g, R: Wait, Q: Form<K, S>>(
        &'g self,
        rt: &R,
        key: &Q,
        guard: &'g CollectorGuard<'c, K, (), S>,
        pass: &mut CollectorPass<K, (), S>,
    ) -> Result<Option<&'g K>, Fault>
        requires pass { OneSource (pass.old.number, pass.old.seat.seat.base) (self.now.map.number, self.now.map.owner.seat.base) }
        requires guard { OneSource (guard.now.number, guard.now.caller.seat.base) (self.now.map.number, self.now.map.owner.seat.base) }
        ensures pass { (pass.new.seat.seat.base ≡ pass.old.seat.seat.base) × (pass.new.number ≡ pass.old.number) }
        ensures foreign { IfErr result (λ fault. (fault ≡ ForeignGuard) × IsForeign self.now.map.number guard.now.number pass.old.number × (pass.new ≡ pass.old)) }
        ensures had { IfOk result (λ found. SetLentOn K.eq S.hash guard.now.caller self.now.map.owner (Q.stands_for key.now) pass.old.seat.seat.view pass.new.seat.seat.view (option_map (λ key. key.now) found)) }
    {
        let found = self.map.get_key_value(rt, key, guard, pass)?;
        Ok(element_of(found))
    }

    /// Returns whether the set has an element that equals this key. The faults are those of `get`.
    pub fn contains<R: Wait, Q: Form<K, S>>(
        &self,
        rt: &R,
        key: &Q,
        guard: &CollectorGuard<'c, K, (), S>,
        pass: &mut CollectorPass<K, (), S>,
    ) -> Result<bool, Fault>
        requires pass { OneSource (pass.old.number, pass.old.seat.seat.base) (self.now.map.number, self.now.map.owner.seat.base) }
        requires guard { OneSource (guard.now.number, guard.now.caller.seat.base) (self.now.map.number, self.now.map.owner.seat.base) }
        ensures pass { (pass.new.seat.seat.base ≡ pass.old.seat.seat.base) × (pass.new.number ≡ pass.old.number) }
        ensures foreign { IfErr result (λ fault. (fault ≡ ForeignGuard) × IsForeign self.now.map.number guard.now.number pass.old.number × (pass.new ≡ pass.old)) }
        ensures had { IfOk result (λ there. SetHadOn K.eq S.hash guard.now.caller self.now.map.owner (Q.stands_for key.now) pass.old.seat.seat.view pass.new.seat.seat.view there) }
    {
        let found = self.map.get_key_value(rt, key, guard, pass)?;
        Ok(found.is_some())
    }

    /// Puts a key into the set, also in the place of an element that equals it, and answers whether none did. The faults are `Fault::ForeignGuard`, `Fault::Capacity` and
    /// `Fault::Memory`; then the set has not changed by it, and the key comes back.
    pub fn insert<R: Wait>(
        &self,
        rt: &R,
        key: K,
        guard: &CollectorGuard<'c, K, (), S>,
        pass: &mut CollectorPass<K, (), S>,
    ) -> Result<bool, RefusedKey<K>>
        requires pass { OneSource (pass.old.number, pass.old.seat.seat.base) (self.now.map.number, self.now.map.owner.seat.base) }
        requires guard { OneSource (guard.now.number, guard.now.caller.seat.base) (self.now.map.number, self.now.map.owner.seat.base) }
        ensures pass { (pass.new.seat.seat.base ≡ pass.old.seat.seat.base) × (pass.new.number ≡ pass.old.number) }
        ensures put { IfOk result (λ new. SetCameToHaveOn K.eq S.hash guard.now.caller self.now.map.owner key pass.old.seat.seat.view pass.new.seat.seat.view new) }
        ensures refused { IfErr result (λ r. IsForeignOr self.now.map.number guard.now.number pass.old.number r.fault (pass.new ≡ pass.old) (WasRefusedOn K.eq S.hash guard.now.caller self.now.map.owner (Insert key tt) r.fault pass.old.seat.seat.view pass.new.seat.seat.view)) }
        ensures back { IfErr result (λ r. r.key ≡ key) }
    {
        match self.map.insert(rt, key, (), guard, pass) {
            Ok(old) => Ok(old.is_none()),
            Err(
                Refused {
                    fault,
                    key,
                    value: (),
                },
            ) => Err(RefusedKey { fault, key }),
        }
    }

    /// Takes the element out that equals this key, and answers whether there was one. The faults are those of `insert`; then the set has not changed by it.
    pub fn remove<R: Wait, Q: Form<K, S>>(
        &self,
        rt: &R,
        key: &Q,
        guard: &CollectorGuard<'c, K, (), S>,
        pass: &mut CollectorPass<K, (), S>,
    ) -> Result<bool, Fault>
        requires pass { OneSource (pass.old.number, pass.old.seat.seat.base) (self.now.map.number, self.now.map.owner.seat.base) }
        requires guard { OneSource (guard.now.number, guard.now.caller.seat.base) (self.now.map.number, self.now.map.owner.seat.base) }
        ensures pass { (pass.new.seat.seat.base ≡ pass.old.seat.seat.base) × (pass.new.number ≡ pass.old.number) }
        ensures taken { IfOk result (λ there. SetGaveUpOn K.eq S.hash guard.now.caller self.now.map.owner (Q.stands_for key.now) pass.old.seat.seat.view pass.new.seat.seat.view there) }
        ensures refused { IfErr result (λ fault. IsForeignOr self.now.map.number guard.now.number pass.old.number fault (pass.new ≡ pass.old) (WasRefusedOn K.eq S.hash guard.now.caller self.now.map.owner (Remove (Q.stands_for key.now)) fault pass.old.seat.seat.view pass.new.seat.seat.view)) }
    {
        let taken = self.map.remove_entry(rt, key, guard, pass)?;
        Ok(taken.is_some())
    }

    /// Returns how many elements the set has, as its map's `len` does.
    pub fn len(
        &self,
        guard: &CollectorGuard<'c, K, (), S>,
        pass: &mut CollectorPass<K, (), S>,
    ) -> Result<u64, Fault>
        requires pass { OneSource (pass.old.number, pass.old.seat.seat.base) (self.now.map.number, self.now.map.owner.seat.base) }
        requires guard { OneSource (guard.now.number, guard.now.caller.seat.base) (self.now.map.number, self.now.map.owner.seat.base) }
        ensures pass { (pass.new.seat.seat.base ≡ pass.old.seat.seat.base) × (pass.new.number ≡ pass.old.number) }
        ensures foreign { IfErr result (λ fault. (fault ≡ ForeignGuard) × IsForeign self.now.map.number guard.now.number pass.old.number × (pass.new ≡ pass.old)) }
        ensures counted { IfOk result (λ count. MapCountedOn K.eq S.hash guard.now.caller self.now.map.owner count pass.old.seat.seat.view pass.new.seat.seat.view) }
    {
        self.map.len(guard, pass)
    }
}
