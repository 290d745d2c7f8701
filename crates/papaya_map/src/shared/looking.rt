//! Keys are looked up in a map with a guard, which is a session that is lent, by passes.
ghost use Rattle.std.specs.Prelude.{◌≡◌, ◌≢◌, ◌⊎◌, IfOk, IfErr, option_map};
ghost use Rattle.papaya_sessions.specs.Homes.{OneMap, OneSource, home_at, home_of};
ghost use Rattle.papaya_sessions.specs.Under.{HasGotPairUnder, HasGotUnder, HasSoughtUnder};
ghost use Rattle.seize_words.specs.declared.fault.Fault.TheVariants.{ForeignGuard};

use crate::shared::SharedMap;
use map_tables::Hashes;
use papaya_sessions::{Form, Pass, Session};
use seize_words::Fault;
use std::hash::Hash;
use std::sync::Wait;

impl<'m, K: Eq + Hash + Drop, V: Drop, S: Hashes<K>> SharedMap<'m, K, V, S> {
    /// Looks a key up within the section of the guard, by a pass, and lends its pair, if the map has one, for as long as the guard is borrowed, whatever the pass does then.
    /// A guard or a pass of another map is `Fault::ForeignGuard`; then the pass is as it was.
    pub fn get_key_value<'g, R: Wait, Q: Form<K, S>>(
        &self,
        rt: &R,
        key: &Q,
        guard: &'g Session<'_, K, V, S>,
        pass: &mut Pass<K, V, S>,
    ) -> Result<Option<(&'g K, &'g V)>, Fault>
        requires one_map { OneMap (home_of guard.now.number guard.now.base.caller)
            (home_at self.now.number self.now.blocks.now.words.id.views_name self.now.seat.now.view.map) }
        requires source { OneSource pass.old.number pass.old.base.seat.base (home_at self.now.number self.now.blocks.now.words.id.views_name self.now.seat.now.view.map) }
        ensures memory { pass.new.base.seat.base ≡ pass.old.base.seat.base }
        ensures number { pass.new.number ≡ pass.old.number }
        ensures foreign { IfErr result (λ fault. (fault ≡ ForeignGuard) × ((guard.now.number ≢ self.now.number) ⊎ (pass.old.number ≢ self.now.number)) × (pass.new ≡ pass.old)) }
        ensures own { IfOk result (λ _. (guard.now.number ≡ self.now.number) × (pass.old.number ≡ self.now.number)) }
        ensures got { IfOk result (λ found. HasGotPairUnder K.eq S.hash (Q.stands_for key.now) guard.now.base.caller (option_map (λ pair. (pair.0.now, pair.1.now)) found)
            pass.old.base.seat.view pass.new.base.seat.view) }
    {
        if guard.number() != self.number {
            return Err(Fault::ForeignGuard);
        }
        guard.get_key_value_by(rt, key, pass)
    }

    /// Looks a key up as `get_key_value` does, and lends the value of its pair, if the map has one.
    pub fn get<'g, R: Wait, Q: Form<K, S>>(
        &self,
        rt: &R,
        key: &Q,
        guard: &'g Session<'_, K, V, S>,
        pass: &mut Pass<K, V, S>,
    ) -> Result<Option<&'g V>, Fault>
        requires one_map { OneMap (home_of guard.now.number guard.now.base.caller)
            (home_at self.now.number self.now.blocks.now.words.id.views_name self.now.seat.now.view.map) }
        requires source { OneSource pass.old.number pass.old.base.seat.base (home_at self.now.number self.now.blocks.now.words.id.views_name self.now.seat.now.view.map) }
        ensures memory { pass.new.base.seat.base ≡ pass.old.base.seat.base }
        ensures number { pass.new.number ≡ pass.old.number }
        ensures foreign { IfErr result (λ fault. (fault ≡ ForeignGuard) × ((guard.now.number ≢ self.now.number) ⊎ (pass.old.number ≢ self.now.number)) × (pass.new ≡ pass.old)) }
        ensures own { IfOk result (λ _. (guard.now.number ≡ self.now.number) × (pass.old.number ≡ self.now.number)) }
        ensures got { IfOk result (λ found. HasGotUnder K.eq S.hash (Q.stands_for key.now) guard.now.base.caller (option_map (λ value. value.now) found)
            pass.old.base.seat.view pass.new.base.seat.view) }
    {
        if guard.number() != self.number {
            return Err(Fault::ForeignGuard);
        }
        guard.get_by(rt, key, pass)
    }

    /// Returns whether the map has a pair of this key, looked up as `get` does.
    pub fn contains_key<R: Wait, Q: Form<K, S>>(
        &self,
        rt: &R,
        key: &Q,
        guard: &Session<'_, K, V, S>,
        pass: &mut Pass<K, V, S>,
    ) -> Result<bool, Fault>
        requires one_map { OneMap (home_of guard.now.number guard.now.base.caller)
            (home_at self.now.number self.now.blocks.now.words.id.views_name self.now.seat.now.view.map) }
        requires source { OneSource pass.old.number pass.old.base.seat.base (home_at self.now.number self.now.blocks.now.words.id.views_name self.now.seat.now.view.map) }
        ensures memory { pass.new.base.seat.base ≡ pass.old.base.seat.base }
        ensures number { pass.new.number ≡ pass.old.number }
        ensures foreign { IfErr result (λ fault. (fault ≡ ForeignGuard) × ((guard.now.number ≢ self.now.number) ⊎ (pass.old.number ≢ self.now.number)) × (pass.new ≡ pass.old)) }
        ensures own { IfOk result (λ _. (guard.now.number ≡ self.now.number) × (pass.old.number ≡ self.now.number)) }
        ensures sought { IfOk result (λ there. HasSoughtUnder K.eq S.hash (Q.stands_for key.now) guard.now.base.caller there pass.old.base.seat.view pass.new.base.seat.view) }
    {
        if guard.number() != self.number {
            return Err(Fault::ForeignGuard);
        }
        guard.contains_key_by(rt, key, pass)
    }
}
