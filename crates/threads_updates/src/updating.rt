//! A session's calls that store a value made of the one that is there, or do with its pair what a closure says.
ghost use Rattle.std.specs.Prelude.{◌≡◌, IfErr, IfNone, IfOk, IfSome, Some, option_map};
ghost use Rattle.std.specs.Fn.{FnReturns, FnReturnsAt};
ghost use Rattle.threads_calls.specs.Given.SeizeViewsDeclared.view.Has.TheVariants.{Nothing};
ghost use Rattle.threads_calls.specs.Given.SeizeViewsDeclared.view.SlotView.TheVariants.{Inside};
ghost use Rattle.threads_calls.specs.Shown.{Shows};
ghost use Rattle.threads_updates.specs.Deciding.{MayDecide, NewOld, NewOldOr, NewOldOrStop};
ghost use Rattle.threads_updates.specs.declared.changing.ComputedPair.TheVariants.{Aborted};
ghost use Rattle.threads_updates.specs.Updated.{HasComputed, HasStopped, HasUpdated, ShowsNamed, named_by};

use crate::changing::{ComputedPair, changes};
use crate::deciding::{AnyChange, NewOfOld, NewOrBegun, NewOrThis};
use map_tables::Hashes;
use seize_words::{Fault, Operation};
use std::hash::Hash;
use std::sync::Wait;
use threads_calls::{Found, SessionBase};

/// Returns the pair that was stored, or else the one that was removed, if the map was changed.
fn named(done: ComputedPair<()>) -> Option<Found>
    ensures named { named_by done ≡ option_map (λ found. found.word) result }
    ensures none { IfNone result (done ≡ Aborted tt) }
{
    match done {
        ComputedPair::Inserted(new) => Some(new),
        ComputedPair::Updated { old: _, new } => Some(new),
        ComputedPair::Removed(old) => Some(old),
        ComputedPair::Aborted(()) => None,
    }
}

/// Replaces the value of a key by one that is made of it, if the key is there, within the section of a session's slot, and answers with the new pair, which is there until its
/// next step. The faults are `Memory` and `Capacity`: no pair was changed then.
pub fn update<R: Wait, K: Eq + Hash + Clone + Drop, V: Drop, S: Hashes<K>, F: Fn(&V) -> V>(
    session: &mut SessionBase<'_, K, V, S>,
    rt: &R,
    key: &K,
    make: &F,
) -> Result<Option<Found>, Fault>
    requires inside { session.old.caller.seat.view.slot ≡ Inside session.old.slot Nothing }
    requires callable { F.IsAlwaysCallable make.now }
    ensures inside { session.new.caller.seat.view.slot ≡ Inside session.new.slot Nothing }
    ensures slot { session.new.slot ≡ session.old.slot }
    ensures updated { IfOk result (λ updated. HasUpdated K.eq S.hash (K.is_clone key.now) (NewOld {T = Unit} (FnReturnsAt F.Fn make.now)) (option_map (λ found. found.word) updated) session.old.caller.seat.view session.new.caller.seat.view) }
    ensures shown { IfOk result (λ updated. IfSome updated (λ found. Shows session.new.caller found.word)) }
    ensures stopped { IfErr result (λ fault. HasStopped K.eq S.hash (K.is_clone key.now) (NewOld {T = Unit} (FnReturnsAt F.Fn make.now)) fault session.old.caller.seat.view session.new.caller.seat.view) }
    ensures map { session.new.caller.seat.view.map ≡ session.old.caller.seat.view.map }
    ensures blocks { session.new.caller.blocks ≡ session.old.caller.blocks }
{
    match changes(session, rt, key, &NewOfOld { make }) {
        Ok(done) => Ok(named(done)),
        Err(fault) => Err(fault),
    }
}

/// Replaces the value of a key by one made of it, or stores a clone of this one where the key is missing. The new pair and the faults are as of `update`.
pub fn update_or_insert<
    R: Wait,
    K: Eq + Hash + Clone + Drop,
    V: Clone + Drop,
    S: Hashes<K>,
    F: Fn(&V) -> V,
>(
    session: &mut SessionBase<'_, K, V, S>,
    rt: &R,
    key: &K,
    make: &F,
    value: &V,
) -> Result<Found, Fault>
    requires inside { session.old.caller.seat.view.slot ≡ Inside session.old.slot Nothing }
    requires callable { F.IsAlwaysCallable make.now }
    ensures inside { session.new.caller.seat.view.slot ≡ Inside session.new.slot Nothing }
    ensures slot { session.new.slot ≡ session.old.slot }
    ensures updated { IfOk result (λ put. HasUpdated K.eq S.hash (K.is_clone key.now) (NewOldOrStop {T = Unit} (FnReturnsAt F.Fn make.now) (V.is_clone value.now)) (Some put.word) session.old.caller.seat.view session.new.caller.seat.view) }
    ensures shown { IfOk result (λ put. Shows session.new.caller put.word) }
    ensures stopped { IfErr result (λ fault. HasStopped K.eq S.hash (K.is_clone key.now) (NewOldOrStop {T = Unit} (FnReturnsAt F.Fn make.now) (V.is_clone value.now)) fault session.old.caller.seat.view session.new.caller.seat.view) }
    ensures map { session.new.caller.seat.view.map ≡ session.old.caller.seat.view.map }
    ensures blocks { session.new.caller.blocks ≡ session.old.caller.blocks }
{
    match changes(session, rt, key, &NewOrThis { make, value }) {
        Ok(done) => match named(done) {
            Some(put) => Ok(put),
            None => Err(Fault::Memory),
        },
        Err(fault) => Err(fault),
    }
}

/// Replaces the value of a key by one that is made of it, or stores one that is begun where the key is missing. The new pair and the faults are as of `update`.
pub fn update_or_insert_with<
    R: Wait,
    K: Eq + Hash + Clone + Drop,
    V: Drop,
    S: Hashes<K>,
    F: Fn(&V) -> V,
    B: Fn() -> V,
>(
    session: &mut SessionBase<'_, K, V, S>,
    rt: &R,
    key: &K,
    make: &F,
    begin: &B,
) -> Result<Found, Fault>
    requires inside { session.old.caller.seat.view.slot ≡ Inside session.old.slot Nothing }
    requires callable { F.IsAlwaysCallable make.now × B.IsAlwaysCallable begin.now }
    ensures inside { session.new.caller.seat.view.slot ≡ Inside session.new.slot Nothing }
    ensures slot { session.new.slot ≡ session.old.slot }
    ensures updated { IfOk result (λ put. HasUpdated K.eq S.hash (K.is_clone key.now) (NewOldOr {T = Unit} (FnReturnsAt F.Fn make.now) (FnReturns B.Fn begin.now tt)) (Some put.word) session.old.caller.seat.view session.new.caller.seat.view) }
    ensures shown { IfOk result (λ put. Shows session.new.caller put.word) }
    ensures stopped { IfErr result (λ fault. HasStopped K.eq S.hash (K.is_clone key.now) (NewOldOr {T = Unit} (FnReturnsAt F.Fn make.now) (FnReturns B.Fn begin.now tt)) fault session.old.caller.seat.view session.new.caller.seat.view) }
    ensures map { session.new.caller.seat.view.map ≡ session.old.caller.seat.view.map }
    ensures blocks { session.new.caller.blocks ≡ session.old.caller.blocks }
{
    match changes(session, rt, key, &NewOrBegun { make, begin }) {
        Ok(done) => match named(done) {
            Some(put) => Ok(put),
            None => unreachable!(),
        },
        Err(fault) => Err(fault),
    }
}

/// Stores a value for a key, removes its pair, or leaves it, as a closure says of the pair that is there, or of none, within the section of a session's slot. The faults are
/// those of `update`, and `RemoveNothing`, where the pair is to be removed and there is none. The pairs that it names are there until the session's next step.
pub fn compute<
    R: Wait,
    K: Eq + Hash + Clone + Drop,
    V: Drop,
    S: Hashes<K>,
    T: Drop,
    F: Fn(Option<(&K, &V)>) -> Operation<V, T>,
>(
    session: &mut SessionBase<'_, K, V, S>,
    rt: &R,
    key: &K,
    decide: &F,
) -> Result<ComputedPair<T>, Fault>
    requires inside { session.old.caller.seat.view.slot ≡ Inside session.old.slot Nothing }
    requires callable { F.IsAlwaysCallable decide.now }
    ensures inside { session.new.caller.seat.view.slot ≡ Inside session.new.slot Nothing }
    ensures slot { session.new.slot ≡ session.old.slot }
    ensures done { IfOk result (λ done. HasComputed K.eq S.hash (K.is_clone key.now) (MayDecide F.Fn decide.now) done session.old.caller.seat.view session.new.caller.seat.view) }
    ensures shown { IfOk result (ShowsNamed session.new.caller) }
    ensures stopped { IfErr result (λ fault. HasStopped K.eq S.hash (K.is_clone key.now) (MayDecide F.Fn decide.now) fault session.old.caller.seat.view session.new.caller.seat.view) }
    ensures map { session.new.caller.seat.view.map ≡ session.old.caller.seat.view.map }
    ensures blocks { session.new.caller.blocks ≡ session.old.caller.blocks }
{
    changes(session, rt, key, &AnyChange { decide })
}
