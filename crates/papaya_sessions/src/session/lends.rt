//! A session's calls that lend the pair that they have removed, or the value that is there then, until its next call.
ghost use Rattle.std.specs.Prelude.{IfErr, IfOk, option_map};
ghost use Rattle.std.specs.Borrow.{sem};
ghost use Rattle.std.specs.Fn.{FnOnceReturns};
ghost use Rattle.papaya_sessions.specs.Asked.{MapHasOneWith};
ghost use Rattle.papaya_sessions.specs.Kept.{KeepsMap};
ghost use Rattle.papaya_sessions.specs.Lent.{EndsSo};
ghost use Rattle.papaya_sessions.specs.OneMap.{MapGaveUpPair, MapGaveUpValue, MapHasOne, WasRefused};
ghost use Rattle.play_moves.specs.Given.ActsActs.{Remove, TryToInsert, TryToInsertWith};
ghost use Rattle.threads_updates.specs.Given.StepsAsking.{HasAsked, MakingSays};

use crate::session::Session;
use map_tables::Hashes;
use seize_words::Fault;
use std::hash::Hash;
use std::sync::Wait;
use threads_updates::Form;

impl<'m, K: Eq + Hash + Drop, V: Drop, S: Hashes<K>> Session<'m, K, V, S> {
    /// Removes the pair of a key, and lends it, if there was one, for as long as the session is borrowed. It is dropped once no section that was open before holds it. The
    /// faults are `Fault::Capacity` and `Fault::Memory`; then no pair was removed.
    pub fn remove_entry<R: Wait, Q: Form<K, S>>(
        &mut self,
        rt: &R,
        key: &Q,
    ) -> Result<Option<(&K, &V)>, Fault>
        ensures* removed { sem 𝓛 (EndsSo K.row V.row S.row K.PartialEq S.Hashes self.entry (λ now. KeepsMap self.old now
            × IfOk result (λ taken. MapGaveUpPair K.eq S.hash (Q.stands_for key.now) (option_map (λ pair. (pair.0.now, pair.1.now)) taken) self.old.base.caller now.base.caller)
            × IfErr result (λ fault. WasRefused K.eq S.hash (Remove (Q.stands_for key.now)) fault self.old.base.caller now.base.caller))) }
    {
        match self.base.remove(rt, key) {
            Ok(Some(taken)) => Ok(Some(self.base.pair(taken))),
            Ok(None) => Ok(None),
            Err(fault) => Err(fault),
        }
    }

    /// Removes the pair of a key as `remove_entry` does, and lends its value.
    pub fn remove<R: Wait, Q: Form<K, S>>(&mut self, rt: &R, key: &Q) -> Result<Option<&V>, Fault>
        ensures* removed { sem 𝓛 (EndsSo K.row V.row S.row K.PartialEq S.Hashes self.entry (λ now. KeepsMap self.old now
            × IfOk result (λ taken. MapGaveUpValue K.eq S.hash (Q.stands_for key.now) (option_map (λ value. value.now) taken) self.old.base.caller now.base.caller)
            × IfErr result (λ fault. WasRefused K.eq S.hash (Remove (Q.stands_for key.now)) fault self.old.base.caller now.base.caller))) }
    {
        match self.remove_entry(rt, key) {
            Ok(Some((_, value))) => Ok(Some(value)),
            Ok(None) => Ok(None),
            Err(fault) => Err(fault),
        }
    }

    /// Stores a pair, if the map has none of an equal key, and lends the value of the one that is there then, its own or the other one, for as long as the session is borrowed,
    /// whoever replaces or removes it meanwhile. A pair that is not stored is dropped. The faults are `Fault::Capacity` and `Fault::Memory`; then none was stored.
    pub fn get_or_insert<R: Wait>(&mut self, rt: &R, key: K, value: V) -> Result<&V, Fault>
        ensures* had { sem 𝓛 (EndsSo K.row V.row S.row K.PartialEq S.Hashes self.entry (λ now. KeepsMap self.old now
            × IfOk result (λ lent. MapHasOne K.eq S.hash key value lent.now self.old.base.caller now.base.caller)
            × IfErr result (λ fault. WasRefused K.eq S.hash (TryToInsert key value) fault self.old.base.caller now.base.caller))) }
    {
        match self.base.try_insert(rt, key, value) {
            Ok((there, _)) => Ok(self.base.pair(there).1),
            Err(refused) => Err(refused.fault),
        }
    }

    /// Stores a value that is made, if the map has no pair of this key, and lends the one that is there then, for as long as the session is borrowed, whoever replaces or removes
    /// it meanwhile. The closure is called where the key was missing; if another one has stored a pair meanwhile, what it has made is dropped. The faults are `Fault::Capacity`
    /// and `Fault::Memory`: nothing was stored then, and the key is dropped.
    pub fn get_or_insert_with<R: Wait, F: FnOnce() -> V>(
        &mut self,
        rt: &R,
        key: K,
        make: F,
    ) -> Result<&V, Fault>
        requires callable { F.pre make }
        ensures* had { sem 𝓛 (EndsSo K.row V.row S.row K.PartialEq S.Hashes self.entry (λ now. KeepsMap self.old now
            × HasAsked K.eq S.hash (MakingSays (FnOnceReturns F.FnOnce make tt)) (TryToInsertWith key) self.old.base.caller.seat.view now.base.caller.seat.view
            × IfOk result (λ lent. MapHasOneWith K.eq S.hash key lent.now self.old.base.caller now.base.caller)
            × IfErr result (λ fault. WasRefused K.eq S.hash (TryToInsertWith key) fault self.old.base.caller now.base.caller))) }
    {
        match self.base.try_insert_with(rt, key, make) {
            Ok((there, _)) => Ok(self.base.pair(there).1),
            Err(fault) => Err(fault),
        }
    }
}
