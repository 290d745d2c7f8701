//! What a pass does with a map within the section of a guard that is of the same collector.
ghost use Rattle.std.specs.Prelude.{◌≡◌, Option, Ok, Some, IfErr, IfOk, IfSome, is_some, option_map};
ghost use Rattle.papaya_maps.specs.Calls.{IsIf, MapCameToHaveOn, MapCountedOn, MapGaveUpOn, MapHadOn, MapLackedOn, WasRefusedOn};
ghost use Rattle.threads_callers.specs.Answers.{CameBack, has_stored, removed_by, replaced_by};
ghost use Rattle.threads_callers.specs.Given.ActsActs.{Insert, Remove, TryToInsert};
ghost use Rattle.threads_callers.specs.Given.ErrandsCalling.{HasCalled, PutsOrLeaves, wanted_of};
ghost use Rattle.threads_callers.specs.Given.StepsStoring.{making};
ghost use Rattle.threads_owners.specs.Loans.{HasLent, names_of};
ghost use Rattle.papaya_raw.specs.declared.machines.machine.Machine.TheVariants.{Key as KeyMachine};
ghost use Rattle.map_tables.specs.declared.node.Node.TheVariants.{Pair};

use crate::guard::CollectorGuard;
use crate::map::CollectorMap;
use crate::map::calls::value_of;
use crate::pass::CollectorPass;
use map_machines::Lookup;
use map_tables::{Hashes, Node};
use papaya_raw::machines::{Answer, Machine, Sum, There};
use seize_words::{Fault, Refused};
use std::hash::Hash;
use std::sync::Wait;
use threads_callers::{Attempt, Form, Ran, came_of, refused, removed, replaced};
use threads_errands::{Counts, Finds, Removes, Stores};
use threads_owners::{Done, lends};

/// Returns the pair that is gone, if it was replaced.
fn if_replaced<'g, K, V>(answer: &Answer, gone: Option<(&'g K, &'g V)>) -> Option<(&'g K, &'g V)>
    ensures { IsIf (replaced_by answer.now) gone.entry result }
{
    match replaced(answer) {
        Some(_) => gone,
        None => None,
    }
}

/// Returns it, if it was removed.
fn if_removed<'g, K, V>(answer: &Answer, gone: Option<(&'g K, &'g V)>) -> Option<(&'g K, &'g V)>
    ensures { IsIf (removed_by answer.now) gone.entry result }
{
    match removed(answer) {
        Some(_) => gone,
        None => None,
    }
}

impl<'c, K: Eq + Hash + Drop, V: Drop, S: Hashes<K>> CollectorMap<'c, K, V, S> {
    /// Looks a key up.
    pub(crate) fn finds<'g, R: Wait, Q: Form<K, S>>(
        &'g self,
        rt: &R,
        key: &Q,
        guard: &'g CollectorGuard<'c, K, V, S>,
        pass: &mut CollectorPass<K, V, S>,
    ) -> Option<(&'g K, &'g V)>
        requires pass { pass.old.seat.seat.base ≡ self.now.owner.seat.base }
        requires guard { guard.now.caller.seat.base ≡ self.now.owner.seat.base }
        ensures pass { (pass.new.seat.seat.base ≡ pass.old.seat.seat.base) × (pass.new.number ≡ pass.old.number) }
        ensures had { MapHadOn K.eq S.hash guard.now.caller self.now.owner (Q.stands_for key.now) (option_map (λ pair. (pair.0.now, pair.1.now)) result) pass.old.seat.seat.view pass.new.seat.seat.view }
    {
        let hash = key.hash_by(&self.hasher);
        let lookup = Lookup::new(self.setting.root, self.setting.mode, hash);
        let errand = Finds { rt, key, lookup };
        let done = lends(&guard.caller, &self.owner, &mut pass.seat, errand);
        done.parts().2
    }

    /// Stores a pair, of which it is said what becomes of it where its key is there.
    fn stores<'g, R: Wait>(
        &'g self,
        rt: &R,
        key: K,
        value: V,
        there: There,
        guard: &'g CollectorGuard<'c, K, V, S>,
        pass: &mut CollectorPass<K, V, S>,
    ) -> Done<'g, 'c, K, V, S, Ran<K, V>>
        requires puts { PutsOrLeaves there }
        requires pass { pass.old.seat.seat.base ≡ self.now.owner.seat.base }
        requires guard { guard.now.caller.seat.base ≡ self.now.owner.seat.base }
        ensures pass { (pass.new.seat.seat.base ≡ pass.old.seat.seat.base) × (pass.new.number ≡ pass.old.number) }
        ensures stored { HasLent K.eq S.hash guard.now.caller self.now.owner (λ v ran w. HasCalled K.eq S.hash (wanted_of (KeyMachine (making (record self.now.setting { slot = guard.now.slot }) (S.hash self.now.hasher key) there (Pair key value)))) ran.told ran.unstored v w)
            (λ ran. names_of ran.told) result.answer (option_map (λ pair. (pair.0.now, pair.1.now)) result.gone) (option_map (λ pair. (pair.0.now, pair.1.now)) result.there) pass.old.seat.seat.view pass.new.seat.seat.view }
    {
        let hash = self.hasher.hash_of(&key);
        let setting = self.setting_under(guard);
        let near = pass.near_under(guard);
        let errand = Stores {
            rt,
            sleepers: self.owner.sleepers(),
            hasher: &self.hasher,
            setting,
            hash,
            there,
            pair: Node::Pair(key, value),
            near,
        };
        let done = lends(&guard.caller, &self.owner, &mut pass.seat, errand);
        pass.near = done.answer.near;
        done
    }

    /// Stores a pair, also in the place of one of an equal key, and lends the value of that one.
    pub(crate) fn puts<'g, R: Wait>(
        &'g self,
        rt: &R,
        key: K,
        value: V,
        guard: &'g CollectorGuard<'c, K, V, S>,
        pass: &mut CollectorPass<K, V, S>,
    ) -> Result<Option<&'g V>, Refused<K, V>>
        requires pass { pass.old.seat.seat.base ≡ self.now.owner.seat.base }
        requires guard { guard.now.caller.seat.base ≡ self.now.owner.seat.base }
        ensures pass { (pass.new.seat.seat.base ≡ pass.old.seat.seat.base) × (pass.new.number ≡ pass.old.number) }
        ensures stored { IfOk result (λ old. (pair : Option (K × V)) × (option_map (λ value. value.now) old ≡ option_map (λ p. p.1) pair) × MapCameToHaveOn K.eq S.hash guard.now.caller self.now.owner key value pair pass.old.seat.seat.view pass.new.seat.seat.view) }
        ensures refused { IfErr result (λ r. WasRefusedOn K.eq S.hash guard.now.caller self.now.owner (Insert key value) r.fault pass.old.seat.seat.view pass.new.seat.seat.view) }
        ensures back { IfErr result (λ r. (r.key ≡ key) × (r.value ≡ value)) }
    {
        let done = self.stores(rt, key, value, There::Puts, guard, pass);
        let (ran, gone, _) = done.parts();
        let Ran {
            told,
            unstored,
            near: _,
        } = ran;
        match told {
            Ok(answer) => Ok(value_of(if_replaced(&answer, gone))),
            Err(fault) => Err(refused(fault, unstored)),
        }
    }

    /// Stores a pair, if the map has none of an equal key, and lends the value of the one that is there then.
    pub(crate) fn tries<'g, R: Wait>(
        &'g self,
        rt: &R,
        key: K,
        value: V,
        guard: &'g CollectorGuard<'c, K, V, S>,
        pass: &mut CollectorPass<K, V, S>,
    ) -> Result<(&'g V, Attempt<K, V>), Refused<K, V>>
        requires pass { pass.old.seat.seat.base ≡ self.now.owner.seat.base }
        requires guard { guard.now.caller.seat.base ≡ self.now.owner.seat.base }
        ensures pass { (pass.new.seat.seat.base ≡ pass.old.seat.seat.base) × (pass.new.number ≡ pass.old.number) }
        ensures tried { IfOk result (λ told. (found : K) × MapLackedOn K.eq S.hash guard.now.caller self.now.owner key value (has_stored told.1) (found, told.0.now) pass.old.seat.seat.view pass.new.seat.seat.view) }
        ensures present { IfOk result (λ told. CameBack key value told.1) }
        ensures refused { IfErr result (λ r. WasRefusedOn K.eq S.hash guard.now.caller self.now.owner (TryToInsert key value) r.fault pass.old.seat.seat.view pass.new.seat.seat.view) }
        ensures back { IfErr result (λ r. (r.key ≡ key) × (r.value ≡ value)) }
    {
        let done = self.stores(rt, key, value, There::Answers, guard, pass);
        let (ran, _, there) = done.parts();
        let Ran {
            told,
            unstored,
            near: _,
        } = ran;
        match told {
            Ok(answer) => match there {
                Some((_, lent)) => Ok((lent, came_of(&answer, unstored))),
                None => unreachable!(),
            },
            Err(fault) => Err(refused(fault, unstored)),
        }
    }

    /// Removes the pair of a key, and lends it.
    pub(crate) fn takes<'g, R: Wait, Q: Form<K, S>>(
        &'g self,
        rt: &R,
        key: &Q,
        guard: &'g CollectorGuard<'c, K, V, S>,
        pass: &mut CollectorPass<K, V, S>,
    ) -> Result<Option<(&'g K, &'g V)>, Fault>
        requires pass { pass.old.seat.seat.base ≡ self.now.owner.seat.base }
        requires guard { guard.now.caller.seat.base ≡ self.now.owner.seat.base }
        ensures pass { (pass.new.seat.seat.base ≡ pass.old.seat.seat.base) × (pass.new.number ≡ pass.old.number) }
        ensures removed { IfOk result (λ taken. MapGaveUpOn K.eq S.hash guard.now.caller self.now.owner (Q.stands_for key.now) (option_map (λ pair. (pair.0.now, pair.1.now)) taken) pass.old.seat.seat.view pass.new.seat.seat.view) }
        ensures refused { IfErr result (λ fault. WasRefusedOn K.eq S.hash guard.now.caller self.now.owner (Remove (Q.stands_for key.now)) fault pass.old.seat.seat.view pass.new.seat.seat.view) }
    {
        let hash = key.hash_by(&self.hasher);
        let setting = self.setting_under(guard);
        let errand = Removes {
            rt,
            sleepers: self.owner.sleepers(),
            hasher: &self.hasher,
            setting,
            hash,
            key,
        };
        let done = lends(&guard.caller, &self.owner, &mut pass.seat, errand);
        let (told, gone, _) = done.parts();
        match told {
            Ok(answer) => Ok(if_removed(&answer, gone)),
            Err(fault) => Err(fault),
        }
    }

    /// Counts the pairs.
    pub(crate) fn counts(
        &self,
        guard: &CollectorGuard<'c, K, V, S>,
        pass: &mut CollectorPass<K, V, S>,
    ) -> u64
        requires pass { pass.old.seat.seat.base ≡ self.now.owner.seat.base }
        requires guard { guard.now.caller.seat.base ≡ self.now.owner.seat.base }
        ensures pass { (pass.new.seat.seat.base ≡ pass.old.seat.seat.base) × (pass.new.number ≡ pass.old.number) }
        ensures counted { MapCountedOn K.eq S.hash guard.now.caller self.now.owner result pass.old.seat.seat.view pass.new.seat.seat.view }
    {
        let setting = self.setting_under(guard);
        let sum = Sum::new(setting);
        let mut machine: Machine<K, V> = Machine::Count(sum);
        let errand = Counts {
            hasher: &self.hasher,
            machine: &mut machine,
        };
        let done = lends(&guard.caller, &self.owner, &mut pass.seat, errand);
        done.parts().0
    }
}
