//! A session's calls on one key, beside lookups and insertions.
ghost use Rattle.std.specs.Prelude.{◌≡◌, ℕ, Option, Some, Ok, Err, IfErr, IfOk, IfSome, is_some, option_map};
ghost use Rattle.std.specs.Fn.{FnOnceReturns};
ghost use Rattle.threads_callers.specs.Given.StepsAsking.{HasAsked, MakingSays, MayTest, TestSays};
ghost use Rattle.threads_callers.specs.Given.ErrandsCalling.{is_put as puts, outcome_of, pair_there};
ghost use Rattle.threads_callers.specs.Given.ErrandsLooking.{HasRun, found_of};
ghost use Rattle.threads_calls.specs.Answers.{CameBack, HasOneThere, HasRemoved, HasTakenOut, HasTried, has_stored, removed_by};
ghost use Rattle.threads_calls.specs.Shown.{Shows};
ghost use Rattle.threads_callers.specs.Given.ActsActs.{ContainsKey, Remove, RemoveIf, TryToInsert, TryToInsertWith};
ghost use Rattle.papaya_raw.specs.declared.machines.progress.Answer.{Answer as AnAnswer};
ghost use Rattle.seize_views.specs.declared.view.Has.TheVariants.{Nothing};
ghost use Rattle.seize_views.specs.declared.view.SlotView.TheVariants.{Inside};

use crate::session::{SessionBase, setting_in};
use map_machines::Lookup;
use map_tables::{Hashes, Node};
use papaya_raw::machines::{KeyCall, Machine, There};
use seize_words::{Fault, Refused};
use std::hash::Hash;
use std::sync::Wait;
use threads_callers::{
    Attempt, Form, Found, Ran, came_of, is_put, refused, removed, there, told_of,
};

impl<'a, K: Eq + Hash, V, S: Hashes<K>> SessionBase<'a, K, V, S> {
    /// Looks a key up within the section of its slot, and answers whether the map has a pair of it.
    pub fn contains_key<R: Wait, Q: Form<K, S>>(&mut self, rt: &R, key: &Q) -> bool
        requires inside { self.old.caller.seat.view.slot ≡ Inside self.old.slot Nothing }
        ensures inside { self.new.caller.seat.view.slot ≡ Inside self.new.slot Nothing }
        ensures slot { self.new.slot ≡ self.old.slot }
        ensures ran { (found : Option ℕ) × HasRun K.eq S.hash (ContainsKey (Q.stands_for key.now)) (found_of found) self.old.caller.seat.view self.new.caller.seat.view × (result ≡ is_some found) }
        ensures map { self.new.caller.seat.view.map ≡ self.old.caller.seat.view.map }
        ensures blocks { self.new.caller.blocks ≡ self.old.caller.blocks }
    {
        let hash = key.hash_by(self.hasher);
        let lookup = Lookup::new(self.setting.root, self.setting.mode, hash);
        let found = self.caller.finds(rt, lookup, key);
        found.is_some()
    }
}

impl<'a, K: Eq + Hash + Drop, V: Drop, S: Hashes<K>> SessionBase<'a, K, V, S> {
    /// Stores a pair within the section of its slot, if its key is not there yet; it comes back where it is. It answers with the pair that is there then, too, which is there
    /// until the session takes its next step. The faults are `Memory` and `Capacity`; the pair comes back then, too.
    pub fn try_insert<R: Wait>(
        &mut self,
        rt: &R,
        key: K,
        value: V,
    ) -> Result<(Found, Attempt<K, V>), Refused<K, V>>
        requires inside { self.old.caller.seat.view.slot ≡ Inside self.old.slot Nothing }
        ensures inside { self.new.caller.seat.view.slot ≡ Inside self.new.slot Nothing }
        ensures slot { self.new.slot ≡ self.old.slot }
        ensures tried { IfOk result (λ tried. HasTried K.eq S.hash key value (has_stored tried.1) self.old.caller.seat.view self.new.caller.seat.view) }
        ensures there { IfOk result (λ tried. HasOneThere K.eq S.hash key value tried.0.word self.old.caller.seat.view self.new.caller.seat.view) }
        ensures shown { IfOk result (λ tried. Shows self.new.caller tried.0.word) }
        ensures present { IfOk result (λ tried. CameBack key value tried.1) }
        ensures refused { IfErr result (λ refused. HasRun K.eq S.hash (TryToInsert key value) (outcome_of (Err refused.fault)) self.old.caller.seat.view self.new.caller.seat.view) }
        ensures back { IfErr result (λ refused. (refused.key ≡ key) × (refused.value ≡ value)) }
        ensures map { self.new.caller.seat.view.map ≡ self.old.caller.seat.view.map }
        ensures blocks { self.new.caller.blocks ≡ self.old.caller.blocks }
    {
        let hash = self.hasher.hash_of(&key);
        let setting = setting_in(self.setting, self.slot);
        let pair = Node::Pair(key, value);
        let ran = self
            .caller
            .stores(rt, self.hasher, setting, hash, There::Answers, pair);
        let Ran {
            told,
            unstored,
            near: _,
        } = ran;
        match told {
            Ok(answer) => Ok((there(&answer), came_of(&answer, unstored))),
            Err(fault) => Err(refused(fault, unstored)),
        }
    }

    /// Removes the pair of a key within the section of its slot, and answers with that, if there was one: it is there until the session takes its next step. The faults are
    /// `Memory` and `Capacity`: no pair was removed then. What was removed is reclaimed once no section that had begun before holds it.
    pub fn remove<R: Wait, Q: Form<K, S>>(
        &mut self,
        rt: &R,
        key: &Q,
    ) -> Result<Option<Found>, Fault>
        requires inside { self.old.caller.seat.view.slot ≡ Inside self.old.slot Nothing }
        ensures inside { self.new.caller.seat.view.slot ≡ Inside self.new.slot Nothing }
        ensures slot { self.new.slot ≡ self.old.slot }
        ensures removed { IfOk result (λ taken. HasRemoved K.eq S.hash (Q.stands_for key.now) (is_some taken) self.old.caller.seat.view self.new.caller.seat.view) }
        ensures taken { IfOk result (λ taken. HasTakenOut K.eq S.hash (Q.stands_for key.now) (option_map (λ found. found.word) taken) self.old.caller.seat.view self.new.caller.seat.view) }
        ensures shown { IfOk result (λ taken. IfSome taken (λ found. Shows self.new.caller found.word)) }
        ensures refused { IfErr result (λ fault. HasRun K.eq S.hash (Remove (Q.stands_for key.now)) (outcome_of (Err fault)) self.old.caller.seat.view self.new.caller.seat.view) }
        ensures map { self.new.caller.seat.view.map ≡ self.old.caller.seat.view.map }
        ensures blocks { self.new.caller.blocks ≡ self.old.caller.blocks }
    {
        let hash = key.hash_by(self.hasher);
        let setting = setting_in(self.setting, self.slot);
        match self.caller.removes(rt, self.hasher, setting, hash, key) {
            Ok(answer) => Ok(removed(&answer)),
            Err(fault) => Err(fault),
        }
    }

    /// Stores a value that is made within the section of its slot, if its key is not there yet, and answers with the pair that is there then, until its next step, and whether it
    /// was stored. The closure is called where the key was missing; what it has made is dropped if it is not stored, as after the faults, `Memory` and `Capacity`.
    pub fn try_insert_with<R: Wait, F: FnOnce() -> V>(
        &mut self,
        rt: &R,
        key: K,
        make: F,
    ) -> Result<(Found, bool), Fault>
        requires inside { self.old.caller.seat.view.slot ≡ Inside self.old.slot Nothing }
        requires callable { F.pre make }
        ensures inside { self.new.caller.seat.view.slot ≡ Inside self.new.slot Nothing }
        ensures slot { self.new.slot ≡ self.old.slot }
        ensures tried { IfOk result (λ tried. (answer : AnAnswer) × HasRun K.eq S.hash (TryToInsertWith key) (outcome_of (Ok answer)) self.old.caller.seat.view self.new.caller.seat.view
            × (tried.1 ≡ puts answer) × (pair_there answer ≡ Some tried.0.word)) }
        ensures shown { IfOk result (λ tried. Shows self.new.caller tried.0.word) }
        ensures refused { IfErr result (λ fault. HasRun K.eq S.hash (TryToInsertWith key) (outcome_of (Err fault)) self.old.caller.seat.view self.new.caller.seat.view) }
        ensures asked { HasAsked K.eq S.hash (MakingSays (FnOnceReturns F.FnOnce make tt)) (TryToInsertWith key) self.old.caller.seat.view self.new.caller.seat.view }
        ensures map { self.new.caller.seat.view.map ≡ self.old.caller.seat.view.map }
        ensures blocks { self.new.caller.blocks ≡ self.old.caller.blocks }
    {
        let hash = self.hasher.hash_of(&key);
        let setting = setting_in(self.setting, self.slot);
        let call = KeyCall::try_insert_with(setting, hash, key);
        let ran = self
            .caller
            .makes_pair(rt, self.hasher, Machine::Key(call), make);
        match told_of(ran) {
            Ok(answer) => Ok((there(&answer), is_put(&answer))),
            Err(fault) => Err(fault),
        }
    }

    /// Removes the pair of a key within the section of its slot, if the test says yes of it, and answers with that, if it has: it is there until the session takes its next step.
    /// The test is called again where another pair of the key has taken the place of the first. The faults are `Memory` and `Capacity`: no pair was removed then.
    pub fn remove_if<R: Wait, Q: Form<K, S>, F: Fn(&K, &V) -> bool>(
        &mut self,
        rt: &R,
        key: &Q,
        test: F,
    ) -> Result<Option<Found>, Fault>
        requires inside { self.old.caller.seat.view.slot ≡ Inside self.old.slot Nothing }
        requires callable { F.IsAlwaysCallable test }
        ensures inside { self.new.caller.seat.view.slot ≡ Inside self.new.slot Nothing }
        ensures slot { self.new.slot ≡ self.old.slot }
        ensures removed { IfOk result (λ taken. (answer : AnAnswer) × HasRun K.eq S.hash (RemoveIf (Q.stands_for key.now)) (outcome_of (Ok answer)) self.old.caller.seat.view self.new.caller.seat.view
            × (removed_by answer ≡ option_map (λ found. found.word) taken)) }
        ensures shown { IfOk result (λ taken. IfSome taken (λ found. Shows self.new.caller found.word)) }
        ensures refused { IfErr result (λ fault. HasRun K.eq S.hash (RemoveIf (Q.stands_for key.now)) (outcome_of (Err fault)) self.old.caller.seat.view self.new.caller.seat.view) }
        ensures asked { HasAsked K.eq S.hash (TestSays (MayTest F.Fn test)) (RemoveIf (Q.stands_for key.now)) self.old.caller.seat.view self.new.caller.seat.view }
        ensures map { self.new.caller.seat.view.map ≡ self.old.caller.seat.view.map }
        ensures blocks { self.new.caller.blocks ≡ self.old.caller.blocks }
    {
        let hash = key.hash_by(self.hasher);
        let setting = setting_in(self.setting, self.slot);
        let ran = self
            .caller
            .removes_if(rt, self.hasher, setting, hash, key, &test);
        match told_of(ran) {
            Ok(told) => Ok(removed(&told)),
            Err(fault) => Err(fault),
        }
    }
}
