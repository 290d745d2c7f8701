//! Calls on a set with a guard, which is a session of it.
ghost use Rattle.std.specs.Prelude.{◌≡◌, ◌≢◌, ◌⊎◌, IfOk, IfErr, option_map};
ghost use Rattle.papaya.specs.OneSet.{SetCameToHave, SetGaveUp, SetHadUnder, SetLentUnder};
ghost use Rattle.papaya_map.specs.Given.SessionsHomes.{OneMap, OneSource, home_at, home_of};
ghost use Rattle.papaya_map.specs.Given.SessionsOneMap.{WasRefused};
ghost use Rattle.papaya_map.specs.Given.SessionsKept.{KeepsMap};
ghost use Rattle.papaya_map.specs.Given.ActsActs.{Insert, Remove};
ghost use Rattle.seize_words.specs.declared.fault.Fault.TheVariants.{ForeignGuard};

use crate::pin::element_of;
use crate::session::SetSession;
use crate::shared::SharedSet;
use map_tables::Hashes;
use papaya_map::{Form, Pass};
use seize_words::{Fault, RefusedKey};
use std::hash::Hash;
use std::sync::Wait;

impl<'m, K: Eq + Hash + Drop, S: Hashes<K>> SharedSet<'m, K, S> {
    /// Looks for the element that equals this key within the section of the guard, by a pass, and lends it, if the set has one, for as long as the guard is borrowed,
    /// whatever the pass does then. A guard or a pass of another set is `Fault::ForeignGuard`; then the pass is as it was.
    pub fn get<'g, R: Wait, Q: Form<K, S>>(
        &self,
        rt: &R,
        key: &Q,
        guard: &'g SetSession<'_, K, S>,
        pass: &mut Pass<K, (), S>,
    ) -> Result<Option<&'g K>, Fault>
        requires one_map { OneMap (home_of guard.now.session.number guard.now.session.base.caller)
            (home_at self.now.map.number self.now.map.blocks.now.words.id.views_name self.now.map.seat.now.view.map) }
        requires source { OneSource pass.old.number pass.old.base.seat.base
            (home_at self.now.map.number self.now.map.blocks.now.words.id.views_name self.now.map.seat.now.view.map) }
        ensures memory { pass.new.base.seat.base ≡ pass.old.base.seat.base }
        ensures number { pass.new.number ≡ pass.old.number }
        ensures foreign { IfErr result (λ fault. (fault ≡ ForeignGuard) × ((guard.now.session.number ≢ self.now.map.number) ⊎ (pass.old.number ≢ self.now.map.number)) × (pass.new ≡ pass.old)) }
        ensures own { IfOk result (λ _. (guard.now.session.number ≡ self.now.map.number) × (pass.old.number ≡ self.now.map.number)) }
        ensures one_set { IfOk result (λ found. SetLentUnder K.eq S.hash (Q.stands_for key.now) (option_map (λ element. element.now) found) guard.now.session.base.caller
            pass.old.base.seat.view pass.new.base.seat.view) }
    {
        let found = self.map.get_key_value(rt, key, guard.session(), pass)?;
        Ok(element_of(found))
    }

    /// Returns whether the set has an element that equals this key, looked for within the section of the guard, by a pass. A guard or a pass of another set is
    /// `Fault::ForeignGuard`; then the pass is as it was.
    pub fn contains<R: Wait, Q: Form<K, S>>(
        &self,
        rt: &R,
        key: &Q,
        guard: &SetSession<'_, K, S>,
        pass: &mut Pass<K, (), S>,
    ) -> Result<bool, Fault>
        requires one_map { OneMap (home_of guard.now.session.number guard.now.session.base.caller)
            (home_at self.now.map.number self.now.map.blocks.now.words.id.views_name self.now.map.seat.now.view.map) }
        requires source { OneSource pass.old.number pass.old.base.seat.base
            (home_at self.now.map.number self.now.map.blocks.now.words.id.views_name self.now.map.seat.now.view.map) }
        ensures memory { pass.new.base.seat.base ≡ pass.old.base.seat.base }
        ensures number { pass.new.number ≡ pass.old.number }
        ensures foreign { IfErr result (λ fault. (fault ≡ ForeignGuard) × ((guard.now.session.number ≢ self.now.map.number) ⊎ (pass.old.number ≢ self.now.map.number)) × (pass.new ≡ pass.old)) }
        ensures own { IfOk result (λ _. (guard.now.session.number ≡ self.now.map.number) × (pass.old.number ≡ self.now.map.number)) }
        ensures one_set { IfOk result (λ there. SetHadUnder K.eq S.hash (Q.stands_for key.now) there guard.now.session.base.caller pass.old.base.seat.view pass.new.base.seat.view) }
    {
        self.map.contains_key(rt, key, guard.session(), pass)
    }

    /// Puts a key into the set with this guard, also in the place of an element that equals it, and answers whether none did. The faults are `Fault::ForeignGuard`, where
    /// the guard is of another set, and then it is as it was, `Fault::Capacity` and `Fault::Memory`: the set has not changed, and the key comes back.
    pub fn insert<R: Wait>(
        &self,
        rt: &R,
        key: K,
        guard: &mut SetSession<'_, K, S>,
    ) -> Result<bool, RefusedKey<K>>
        requires one_map { OneMap (home_of guard.old.session.number guard.old.session.base.caller)
            (home_at self.now.map.number self.now.map.blocks.now.words.id.views_name self.now.map.seat.now.view.map) }
        ensures keeps { KeepsMap guard.old.session guard.new.session }
        ensures own { IfOk result (λ _. guard.old.session.number ≡ self.now.map.number) }
        ensures foreign { guard.old.session.number ≢ self.now.map.number → IfErr result (λ r. r.fault ≡ ForeignGuard) × (guard.new ≡ guard.old) }
        ensures put { IfOk result (λ new. SetCameToHave K.eq S.hash key new guard.old.session.base.caller guard.new.session.base.caller) }
        ensures refused { guard.old.session.number ≡ self.now.map.number → IfErr result (λ r. WasRefused K.eq S.hash (Insert key tt) r.fault guard.old.session.base.caller guard.new.session.base.caller) }
        ensures back { IfErr result (λ r. r.key ≡ key) }
    {
        if guard.number() != self.map.number() {
            return Err(RefusedKey {
                fault: Fault::ForeignGuard,
                key,
            });
        }
        guard.insert(rt, key)
    }

    /// Takes the element out that equals this key, with this guard, and answers whether there was one. The faults are those of `insert`; then the set has not changed.
    pub fn remove<R: Wait, Q: Form<K, S>>(
        &self,
        rt: &R,
        key: &Q,
        guard: &mut SetSession<'_, K, S>,
    ) -> Result<bool, Fault>
        requires one_map { OneMap (home_of guard.old.session.number guard.old.session.base.caller)
            (home_at self.now.map.number self.now.map.blocks.now.words.id.views_name self.now.map.seat.now.view.map) }
        ensures keeps { KeepsMap guard.old.session guard.new.session }
        ensures own { IfOk result (λ _. guard.old.session.number ≡ self.now.map.number) }
        ensures foreign { guard.old.session.number ≢ self.now.map.number → IfErr result (λ fault. fault ≡ ForeignGuard) × (guard.new ≡ guard.old) }
        ensures taken { IfOk result (λ there. SetGaveUp K.eq S.hash (Q.stands_for key.now) there guard.old.session.base.caller guard.new.session.base.caller) }
        ensures refused { guard.old.session.number ≡ self.now.map.number → IfErr result (λ fault. WasRefused K.eq S.hash (Remove (Q.stands_for key.now)) fault guard.old.session.base.caller guard.new.session.base.caller) }
    {
        if guard.number() != self.map.number() {
            return Err(Fault::ForeignGuard);
        }
        guard.remove(rt, key)
    }
}
