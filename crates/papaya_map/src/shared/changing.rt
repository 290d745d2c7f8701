//! Calls that change a map, with a guard, which is a session: its own seat does so. Some ask their caller's closure.
ghost use Rattle.std.specs.Fn.{FnOnceReturns, FnReturns, FnReturnsAt};
ghost use Rattle.std.specs.Prelude.{◌≡◌, ◌≢◌, IfErr, IfOk, IfSome, Some, is_some, option_map};
ghost use Rattle.papaya_sessions.specs.Asked.{MapComputed, MapGaveUpIf, MapHasNamedWith, MapNamed};
ghost use Rattle.papaya_sessions.specs.Given.ActsActs.{Insert, Remove, RemoveIf, TryToInsert, TryToInsertWith};
ghost use Rattle.papaya_sessions.specs.Given.CallsAnswers.{CameBack, has_stored};
ghost use Rattle.papaya_sessions.specs.Given.CallsShown.{Shows};
ghost use Rattle.papaya_sessions.specs.Given.ErrandsAsking.{HasAsked, MakingSays, MayTest, TestSays};
ghost use Rattle.papaya_sessions.specs.Given.UpdatesDeciding.{MayDecide, NewOld, NewOldOr, NewOldOrStop};
ghost use Rattle.papaya_sessions.specs.Given.UpdatesUpdated.{HasStopped, ShowsNamed};
ghost use Rattle.papaya_sessions.specs.Homes.{OneMap, home_at, home_of};
ghost use Rattle.papaya_sessions.specs.Kept.{KeepsMap};
ghost use Rattle.papaya_sessions.specs.OneMap.{MapCameToHave, MapGaveUp, MapGaveUpNamed, MapHadBefore, MapHasNamed, MapLacked, WasRefused};
ghost use Rattle.seize_words.specs.declared.fault.Fault.TheVariants.{ForeignGuard};

use crate::shared::SharedMap;
use map_tables::Hashes;
use papaya_sessions::{Attempt, ComputedPair, Form, Found, Operation, Session};
use seize_words::{Fault, Refused};
use std::hash::Hash;
use std::sync::Wait;

impl<'m, K: Eq + Hash + Drop, V: Drop, S: Hashes<K>> SharedMap<'m, K, V, S> {
    /// Stores a pair with this guard, also in the place of one of an equal key, and names that one, if there was one: the guard lends it (`value`, `pair`) until its next call.
    /// The faults are `Fault::ForeignGuard`, where the guard is of another map, and then it is as it was, `Fault::Capacity` and `Fault::Memory`: the pair was not stored, and key
    /// and value come back.
    pub fn insert<R: Wait>(
        &self,
        rt: &R,
        key: K,
        value: V,
        guard: &mut Session<'_, K, V, S>,
    ) -> Result<Option<Found>, Refused<K, V>>
        requires one_map { OneMap (home_of guard.old.number guard.old.base.caller)
            (home_at self.now.number self.now.blocks.now.words.id.views_name self.now.seat.now.view.map) }
        ensures keeps { KeepsMap guard.old guard.new }
        ensures own { IfOk result (λ _. guard.old.number ≡ self.now.number) }
        ensures foreign { guard.old.number ≢ self.now.number → IfErr result (λ r. r.fault ≡ ForeignGuard) × (guard.new ≡ guard.old) }
        ensures stored { IfOk result (λ old. MapCameToHave K.eq S.hash key value (is_some old) guard.old.base.caller guard.new.base.caller) }
        ensures before { IfOk result (λ old. IfSome old (λ found. MapHadBefore K.eq S.hash key value found.word guard.old.base.caller guard.new.base.caller)) }
        ensures shown { IfOk result (λ old. IfSome old (λ found. Shows guard.new.base.caller found.word)) }
        ensures refused { guard.old.number ≡ self.now.number → IfErr result (λ r. WasRefused K.eq S.hash (Insert key value) r.fault guard.old.base.caller guard.new.base.caller) }
        ensures back { IfErr result (λ r. (r.key ≡ key) × (r.value ≡ value)) }
    {
        if guard.number() != self.number {
            return Err(Refused {
                fault: Fault::ForeignGuard,
                key,
                value,
            });
        }
        guard.insert(rt, key, value)
    }

    /// Stores a pair with this guard, if the map has none of an equal key: else it comes back. The pair that is there then is named, its own or the other one. The faults are
    /// those of `insert`; then the pair comes back, too.
    pub fn try_insert<R: Wait>(
        &self,
        rt: &R,
        key: K,
        value: V,
        guard: &mut Session<'_, K, V, S>,
    ) -> Result<(Found, Attempt<K, V>), Refused<K, V>>
        requires one_map { OneMap (home_of guard.old.number guard.old.base.caller)
            (home_at self.now.number self.now.blocks.now.words.id.views_name self.now.seat.now.view.map) }
        ensures keeps { KeepsMap guard.old guard.new }
        ensures own { IfOk result (λ _. guard.old.number ≡ self.now.number) }
        ensures foreign { guard.old.number ≢ self.now.number → IfErr result (λ r. r.fault ≡ ForeignGuard) × (guard.new ≡ guard.old) }
        ensures tried { IfOk result (λ told. MapLacked K.eq S.hash key value (has_stored told.1) guard.old.base.caller guard.new.base.caller) }
        ensures there { IfOk result (λ told. MapHasNamed K.eq S.hash key value told.0.word guard.old.base.caller guard.new.base.caller) }
        ensures shown { IfOk result (λ told. Shows guard.new.base.caller told.0.word) }
        ensures present { IfOk result (λ told. CameBack key value told.1) }
        ensures refused { guard.old.number ≡ self.now.number → IfErr result (λ r. WasRefused K.eq S.hash (TryToInsert key value) r.fault guard.old.base.caller guard.new.base.caller) }
        ensures back { IfErr result (λ r. (r.key ≡ key) × (r.value ≡ value)) }
    {
        if guard.number() != self.number {
            return Err(Refused {
                fault: Fault::ForeignGuard,
                key,
                value,
            });
        }
        guard.try_insert(rt, key, value)
    }

    /// Removes the pair of a key with this guard, and names it, if there was one. It is dropped once no section that was open before holds it. The faults are those of `insert`;
    /// then no pair was removed.
    pub fn remove<R: Wait, Q: Form<K, S>>(
        &self,
        rt: &R,
        key: &Q,
        guard: &mut Session<'_, K, V, S>,
    ) -> Result<Option<Found>, Fault>
        requires one_map { OneMap (home_of guard.old.number guard.old.base.caller)
            (home_at self.now.number self.now.blocks.now.words.id.views_name self.now.seat.now.view.map) }
        ensures keeps { KeepsMap guard.old guard.new }
        ensures own { IfOk result (λ _. guard.old.number ≡ self.now.number) }
        ensures foreign { guard.old.number ≢ self.now.number → IfErr result (λ fault. fault ≡ ForeignGuard) × (guard.new ≡ guard.old) }
        ensures removed { IfOk result (λ taken. MapGaveUp K.eq S.hash (Q.stands_for key.now) (is_some taken) guard.old.base.caller guard.new.base.caller) }
        ensures taken { IfOk result (λ taken. IfSome taken (λ found. MapGaveUpNamed K.eq S.hash (Q.stands_for key.now) found.word guard.old.base.caller guard.new.base.caller)) }
        ensures shown { IfOk result (λ taken. IfSome taken (λ found. Shows guard.new.base.caller found.word)) }
        ensures refused { guard.old.number ≡ self.now.number → IfErr result (λ fault. WasRefused K.eq S.hash (Remove (Q.stands_for key.now)) fault guard.old.base.caller guard.new.base.caller) }
    {
        if guard.number() != self.number {
            return Err(Fault::ForeignGuard);
        }
        guard.take(rt, key)
    }

    /// Stores a value that is made with this guard, if the map has no pair of this key yet, names the pair that is there then, and answers whether it was stored. The closure is
    /// called where the key was missing; if another one has stored a pair meanwhile, what it has made is dropped. The faults are `Fault::ForeignGuard`, where the guard is of
    /// another map, and then it is as it was and the closure was not called, `Fault::Capacity` and `Fault::Memory`: nothing was stored then, and the key is dropped.
    pub fn try_insert_with<R: Wait, F: FnOnce() -> V + Drop>(
        &self,
        rt: &R,
        key: K,
        make: F,
        guard: &mut Session<'_, K, V, S>,
    ) -> Result<(Found, bool), Fault>
        requires one_map { OneMap (home_of guard.old.number guard.old.base.caller)
            (home_at self.now.number self.now.blocks.now.words.id.views_name self.now.seat.now.view.map) }
        requires callable { F.pre make }
        ensures keeps { KeepsMap guard.old guard.new }
        ensures own { IfOk result (λ _. guard.old.number ≡ self.now.number) }
        ensures foreign { guard.old.number ≢ self.now.number → IfErr result (λ fault. fault ≡ ForeignGuard) × (guard.new ≡ guard.old) }
        ensures tried { IfOk result (λ told. MapHasNamedWith K.eq S.hash key told.1 told.0.word guard.old.base.caller guard.new.base.caller) }
        ensures shown { IfOk result (λ told. Shows guard.new.base.caller told.0.word) }
        ensures asked { guard.old.number ≡ self.now.number
            → HasAsked K.eq S.hash (MakingSays (FnOnceReturns F.FnOnce make tt)) (TryToInsertWith key) guard.old.base.caller.seat.view guard.new.base.caller.seat.view }
        ensures refused { guard.old.number ≡ self.now.number
            → IfErr result (λ fault. WasRefused K.eq S.hash (TryToInsertWith key) fault guard.old.base.caller guard.new.base.caller) }
    {
        if guard.number() != self.number {
            return Err(Fault::ForeignGuard);
        }
        guard.try_insert_with(rt, key, make)
    }

    /// Removes the pair of a key with this guard, if the test says yes of it, and names it, if it has. The test is called again where another pair of the key has taken
    /// the place of the first. The faults are those of `try_insert_with`; no pair was removed then.
    pub fn remove_if<R: Wait, Q: Form<K, S>, F: Fn(&K, &V) -> bool + Drop>(
        &self,
        rt: &R,
        key: &Q,
        test: F,
        guard: &mut Session<'_, K, V, S>,
    ) -> Result<Option<Found>, Fault>
        requires one_map { OneMap (home_of guard.old.number guard.old.base.caller)
            (home_at self.now.number self.now.blocks.now.words.id.views_name self.now.seat.now.view.map) }
        requires callable { F.IsAlwaysCallable test }
        ensures keeps { KeepsMap guard.old guard.new }
        ensures own { IfOk result (λ _. guard.old.number ≡ self.now.number) }
        ensures foreign { guard.old.number ≢ self.now.number → IfErr result (λ fault. fault ≡ ForeignGuard) × (guard.new ≡ guard.old) }
        ensures removed { IfOk result (λ taken. MapGaveUpIf K.eq S.hash (Q.stands_for key.now) (option_map (λ found. found.word) taken) guard.old.base.caller guard.new.base.caller) }
        ensures shown { IfOk result (λ taken. IfSome taken (λ found. Shows guard.new.base.caller found.word)) }
        ensures asked { guard.old.number ≡ self.now.number
            → HasAsked K.eq S.hash (TestSays (MayTest F.Fn test)) (RemoveIf (Q.stands_for key.now)) guard.old.base.caller.seat.view guard.new.base.caller.seat.view }
        ensures refused { guard.old.number ≡ self.now.number
            → IfErr result (λ fault. WasRefused K.eq S.hash (RemoveIf (Q.stands_for key.now)) fault guard.old.base.caller guard.new.base.caller) }
    {
        if guard.number() != self.number {
            return Err(Fault::ForeignGuard);
        }
        guard.remove_if(rt, key, test)
    }
}

impl<'m, K: Eq + Hash + Clone + Drop, V: Drop, S: Hashes<K>> SharedMap<'m, K, V, S> {
    /// Replaces the value of a key by one that is made of it with this guard, if the key is there, and names the new pair. A clone of the key is stored. The closure is
    /// called again where another one has changed the pair meanwhile. The faults are `Fault::ForeignGuard`, where the guard is of another map, and then it is as it was and the
    /// closure was not called, `Fault::Capacity` and `Fault::Memory`: no pair has changed then.
    pub fn update<R: Wait, F: Fn(&V) -> V + Drop>(
        &self,
        rt: &R,
        key: &K,
        make: F,
        guard: &mut Session<'_, K, V, S>,
    ) -> Result<Option<Found>, Fault>
        requires one_map { OneMap (home_of guard.old.number guard.old.base.caller)
            (home_at self.now.number self.now.blocks.now.words.id.views_name self.now.seat.now.view.map) }
        requires callable { F.IsAlwaysCallable make }
        ensures keeps { KeepsMap guard.old guard.new }
        ensures own { IfOk result (λ _. guard.old.number ≡ self.now.number) }
        ensures foreign { guard.old.number ≢ self.now.number → IfErr result (λ fault. fault ≡ ForeignGuard) × (guard.new ≡ guard.old) }
        ensures updated { IfOk result (λ updated. MapNamed K.eq S.hash (K.is_clone key.now) (NewOld {T = Unit} (FnReturnsAt F.Fn make)) (option_map (λ found. found.word) updated) guard.old.base.caller guard.new.base.caller) }
        ensures shown { IfOk result (λ updated. IfSome updated (λ found. Shows guard.new.base.caller found.word)) }
        ensures stopped { guard.old.number ≡ self.now.number
            → IfErr result (λ fault. HasStopped K.eq S.hash (K.is_clone key.now) (NewOld {T = Unit} (FnReturnsAt F.Fn make)) fault guard.old.base.caller.seat.view guard.new.base.caller.seat.view) }
    {
        if guard.number() != self.number {
            return Err(Fault::ForeignGuard);
        }
        guard.update(rt, key, make)
    }

    /// Replaces the value of a key by one that is made of it with this guard, if the key is there, and else stores one that is begun; names the new pair. A
    /// clone of the key is stored. The closures are called again where another one has changed the pair meanwhile. The faults are those of `update`.
    pub fn update_or_insert_with<R: Wait, F: Fn(&V) -> V + Drop, B: Fn() -> V + Drop>(
        &self,
        rt: &R,
        key: &K,
        make: F,
        begin: B,
        guard: &mut Session<'_, K, V, S>,
    ) -> Result<Found, Fault>
        requires one_map { OneMap (home_of guard.old.number guard.old.base.caller)
            (home_at self.now.number self.now.blocks.now.words.id.views_name self.now.seat.now.view.map) }
        requires callable { F.IsAlwaysCallable make × B.IsAlwaysCallable begin }
        ensures keeps { KeepsMap guard.old guard.new }
        ensures own { IfOk result (λ _. guard.old.number ≡ self.now.number) }
        ensures foreign { guard.old.number ≢ self.now.number → IfErr result (λ fault. fault ≡ ForeignGuard) × (guard.new ≡ guard.old) }
        ensures updated { IfOk result (λ put. MapNamed K.eq S.hash (K.is_clone key.now) (NewOldOr {T = Unit} (FnReturnsAt F.Fn make) (FnReturns B.Fn begin tt)) (Some put.word) guard.old.base.caller guard.new.base.caller) }
        ensures shown { IfOk result (λ put. Shows guard.new.base.caller put.word) }
        ensures stopped { guard.old.number ≡ self.now.number
            → IfErr result (λ fault. HasStopped K.eq S.hash (K.is_clone key.now) (NewOldOr {T = Unit} (FnReturnsAt F.Fn make) (FnReturns B.Fn begin tt)) fault guard.old.base.caller.seat.view guard.new.base.caller.seat.view) }
    {
        if guard.number() != self.number {
            return Err(Fault::ForeignGuard);
        }
        guard.update_or_insert_with(rt, key, make, begin)
    }

    /// Does with the pair of a key, or where there is none, what a closure says, with this guard, and names the pairs that were stored, replaced or removed. A clone of the key is
    /// stored with a value. The closure is called again where another one has changed the pair meanwhile. The faults are those of `update`, and `Fault::RemoveNothing`, where the pair is to be removed and there is none.
    pub fn compute<R: Wait, T: Drop, F: Fn(Option<(&K, &V)>) -> Operation<V, T> + Drop>(
        &self,
        rt: &R,
        key: &K,
        decide: F,
        guard: &mut Session<'_, K, V, S>,
    ) -> Result<ComputedPair<T>, Fault>
        requires one_map { OneMap (home_of guard.old.number guard.old.base.caller)
            (home_at self.now.number self.now.blocks.now.words.id.views_name self.now.seat.now.view.map) }
        requires callable { F.IsAlwaysCallable decide }
        ensures keeps { KeepsMap guard.old guard.new }
        ensures own { IfOk result (λ _. guard.old.number ≡ self.now.number) }
        ensures foreign { guard.old.number ≢ self.now.number → IfErr result (λ fault. fault ≡ ForeignGuard) × (guard.new ≡ guard.old) }
        ensures done { IfOk result (λ done. MapComputed K.eq S.hash (K.is_clone key.now) (MayDecide F.Fn decide) done guard.old.base.caller guard.new.base.caller) }
        ensures shown { IfOk result (ShowsNamed guard.new.base.caller) }
        ensures stopped { guard.old.number ≡ self.now.number
            → IfErr result (λ fault. HasStopped K.eq S.hash (K.is_clone key.now) (MayDecide F.Fn decide) fault guard.old.base.caller.seat.view guard.new.base.caller.seat.view) }
    {
        if guard.number() != self.number {
            return Err(Fault::ForeignGuard);
        }
        guard.compute(rt, key, decide)
    }
}

impl<'m, K: Eq + Hash + Clone + Drop, V: Clone + Drop, S: Hashes<K>> SharedMap<'m, K, V, S> {
    /// Replaces the value of a key by one that is made of it with this guard, if the key is there, and else stores a clone of this one; names the new pair. A
    /// clone of the key is stored. The closure is called again where another one has changed the pair meanwhile. The faults are those of `update`.
    pub fn update_or_insert<R: Wait, F: Fn(&V) -> V + Drop>(
        &self,
        rt: &R,
        key: &K,
        make: F,
        value: &V,
        guard: &mut Session<'_, K, V, S>,
    ) -> Result<Found, Fault>
        requires one_map { OneMap (home_of guard.old.number guard.old.base.caller)
            (home_at self.now.number self.now.blocks.now.words.id.views_name self.now.seat.now.view.map) }
        requires callable { F.IsAlwaysCallable make }
        ensures keeps { KeepsMap guard.old guard.new }
        ensures own { IfOk result (λ _. guard.old.number ≡ self.now.number) }
        ensures foreign { guard.old.number ≢ self.now.number → IfErr result (λ fault. fault ≡ ForeignGuard) × (guard.new ≡ guard.old) }
        ensures updated { IfOk result (λ put. MapNamed K.eq S.hash (K.is_clone key.now) (NewOldOrStop {T = Unit} (FnReturnsAt F.Fn make) (V.is_clone value.now)) (Some put.word) guard.old.base.caller guard.new.base.caller) }
        ensures shown { IfOk result (λ put. Shows guard.new.base.caller put.word) }
        ensures stopped { guard.old.number ≡ self.now.number
            → IfErr result (λ fault. HasStopped K.eq S.hash (K.is_clone key.now) (NewOldOrStop {T = Unit} (FnReturnsAt F.Fn make) (V.is_clone value.now)) fault guard.old.base.caller.seat.view guard.new.base.caller.seat.view) }
    {
        if guard.number() != self.number {
            return Err(Fault::ForeignGuard);
        }
        guard.update_or_insert(rt, key, make, value)
    }
}
