//! A session's calls that store a value made of the one that is there, or do with its pair what a closure says.
ghost use Rattle.std.specs.Prelude.{IfErr, IfOk, IfSome, Some, option_map};
ghost use Rattle.std.specs.Fn.{FnReturns, FnReturnsAt};
ghost use Rattle.papaya_sessions.specs.Asked.{MapComputed, MapNamed};
ghost use Rattle.papaya_sessions.specs.Kept.{KeepsMap};
ghost use Rattle.threads_updates.specs.Deciding.{MayDecide, NewOld, NewOldOr, NewOldOrStop};
ghost use Rattle.threads_updates.specs.Given.CallsShown.{Shows};
ghost use Rattle.threads_updates.specs.Updated.{HasStopped, ShowsNamed};

use crate::session::Session;
use map_tables::Hashes;
use seize_words::{Fault, Operation};
use std::hash::Hash;
use std::sync::Wait;
use threads_updates::{ComputedPair, Found};

impl<'m, K: Eq + Hash + Clone + Drop, V: Drop, S: Hashes<K>> Session<'m, K, V, S> {
    /// Replaces the value of a key by one that is made of it, if the key is there, and names the new pair: `value` and `pair` lend it until the next call. A clone of the key is
    /// stored. The closure is called again where another one has changed the pair meanwhile. The faults are `Fault::Capacity` and `Fault::Memory`: no pair has changed then.
    pub fn update<R: Wait, F: Fn(&V) -> V>(
        &mut self,
        rt: &R,
        key: &K,
        make: F,
    ) -> Result<Option<Found>, Fault>
        requires callable { F.IsAlwaysCallable make }
        ensures keeps { KeepsMap self.old self.new }
        ensures updated { IfOk result (λ updated. MapNamed K.eq S.hash (K.is_clone key.now) (NewOld {T = Unit} (FnReturnsAt F.Fn make)) (option_map (λ found. found.word) updated) self.old.base.caller self.new.base.caller) }
        ensures shown { IfOk result (λ updated. IfSome updated (λ found. Shows self.new.base.caller found.word)) }
        ensures stopped { IfErr result (λ fault. HasStopped K.eq S.hash (K.is_clone key.now) (NewOld {T = Unit} (FnReturnsAt F.Fn make)) fault self.old.base.caller.seat.view self.new.base.caller.seat.view) }
    {
        threads_updates::update(&mut self.base, rt, key, &make)
    }

    /// Replaces the value of a key by one that is made of it, if the key is there, and else stores one that is begun; names the new pair, as `update` does. A clone of the
    /// key is stored. The closures are called again where another one has changed the pair meanwhile. The faults are those of `update`.
    pub fn update_or_insert_with<R: Wait, F: Fn(&V) -> V, B: Fn() -> V>(
        &mut self,
        rt: &R,
        key: &K,
        make: F,
        begin: B,
    ) -> Result<Found, Fault>
        requires callable { F.IsAlwaysCallable make × B.IsAlwaysCallable begin }
        ensures keeps { KeepsMap self.old self.new }
        ensures updated { IfOk result (λ put. MapNamed K.eq S.hash (K.is_clone key.now) (NewOldOr {T = Unit} (FnReturnsAt F.Fn make) (FnReturns B.Fn begin tt)) (Some put.word) self.old.base.caller self.new.base.caller) }
        ensures shown { IfOk result (λ put. Shows self.new.base.caller put.word) }
        ensures stopped { IfErr result (λ fault. HasStopped K.eq S.hash (K.is_clone key.now) (NewOldOr {T = Unit} (FnReturnsAt F.Fn make) (FnReturns B.Fn begin tt)) fault self.old.base.caller.seat.view self.new.base.caller.seat.view) }
    {
        threads_updates::update_or_insert_with(&mut self.base, rt, key, &make, &begin)
    }

    /// Does with the pair of a key, or where there is none, what a closure says, and names the pairs that were stored, replaced or removed: `value` and `pair` lend them until the
    /// next call. A clone of the key is stored with a value. The closure is called again where another one has changed the pair meanwhile. The faults are those of `update`, and
    /// `Fault::RemoveNothing`, where the pair is to be removed and there is none.
    pub fn compute<R: Wait, T: Drop, F: Fn(Option<(&K, &V)>) -> Operation<V, T>>(
        &mut self,
        rt: &R,
        key: &K,
        decide: F,
    ) -> Result<ComputedPair<T>, Fault>
        requires callable { F.IsAlwaysCallable decide }
        ensures keeps { KeepsMap self.old self.new }
        ensures done { IfOk result (λ done. MapComputed K.eq S.hash (K.is_clone key.now) (MayDecide F.Fn decide) done self.old.base.caller self.new.base.caller) }
        ensures shown { IfOk result (ShowsNamed self.new.base.caller) }
        ensures stopped { IfErr result (λ fault. HasStopped K.eq S.hash (K.is_clone key.now) (MayDecide F.Fn decide) fault self.old.base.caller.seat.view self.new.base.caller.seat.view) }
    {
        threads_updates::compute(&mut self.base, rt, key, &decide)
    }
}

impl<'m, K: Eq + Hash + Clone + Drop, V: Clone + Drop, S: Hashes<K>> Session<'m, K, V, S> {
    /// Replaces the value of a key by one that is made of it, if the key is there, and else stores a clone of this one; names the new pair, as `update` does. A clone of the
    /// key is stored. The closure is called again where another one has changed the pair meanwhile. The faults are those of `update`.
    pub fn update_or_insert<R: Wait, F: Fn(&V) -> V>(
        &mut self,
        rt: &R,
        key: &K,
        make: F,
        value: &V,
    ) -> Result<Found, Fault>
        requires callable { F.IsAlwaysCallable make }
        ensures keeps { KeepsMap self.old self.new }
        ensures updated { IfOk result (λ put. MapNamed K.eq S.hash (K.is_clone key.now) (NewOldOrStop {T = Unit} (FnReturnsAt F.Fn make) (V.is_clone value.now)) (Some put.word) self.old.base.caller self.new.base.caller) }
        ensures shown { IfOk result (λ put. Shows self.new.base.caller put.word) }
        ensures stopped { IfErr result (λ fault. HasStopped K.eq S.hash (K.is_clone key.now) (NewOldOrStop {T = Unit} (FnReturnsAt F.Fn make) (V.is_clone value.now)) fault self.old.base.caller.seat.view self.new.base.caller.seat.view) }
    {
        threads_updates::update_or_insert(&mut self.base, rt, key, &make, value)
    }
}
