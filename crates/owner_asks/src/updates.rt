//! Calls on a key that update the value that is there, or store one where there is none, by closures. Each is run to its end by the one owner.
ghost use Rattle.std.specs.Prelude.{◌≡◌, ℕ, Bool, List, [], Option, None, Some, IfOk, IfErr, Ok, Err};
ghost use Rattle.std.specs.Fn.{FnOnceReturns, FnOnceReturnsAt, FnOnceTakesAt};
ghost use Rattle.std.specs.Option.{ForNone, ForSome};
ghost use Rattle.owner_calls.specs.Given.CallersKind.{Kind, tries_to_insert_with, updates, updates_or_inserts};
ghost use Rattle.owner_calls.specs.Given.CallersPairs.{IsTold};
ghost use Rattle.owner_asks.specs.Asks.Asking.{IsTaken, Pauses, RepliedThis};
ghost use Rattle.owner_asks.specs.Asks.Closures.{HasOutcome, HasOutcomeWith, Updating, UpdatingOrStoring, Storing};
ghost use Rattle.owner_calls.specs.Owned.Calling.{HasStopped, StopsReplied, stop_by};
ghost use Rattle.owner_calls.specs.Owned.Owned.{Holds, found_by, hashed_by};
ghost use Rattle.papaya_raw.specs.declared.machines.asking.MachineReply.TheVariants as replies;
ghost use Rattle.papaya_raw.specs.declared.machines.asking.Takes.TheVariants as takes;

use crate::asking::{finish, key_of, pair_of, start};
use map_tables::{Hashes, Node, Setting};
use owner_calls::{OnKey, Stop, pair_at};
use papaya_raw::machines::{KeyAnswer, KeyCall, MachineReply};
use seize_words::{Fault, Plain, Refused, RefusedKey};
use std::hash::{BuildHasher, Hash};

/// Tells a call what it has asked, and runs it to its end.
pub(crate) fn replied<K: Eq + Hash + Drop, V: Drop, S: Hashes<K>>(
    memory: &mut Plain<Node<K, V>>,
    setting: Setting,
    machine: &mut OnKey<'_, K, V, K, S>,
    reply: MachineReply<V>,
) -> Result<KeyAnswer, RefusedKey<K>>
    requires { (xs : List (K × V)) × (kind : Kind) × (key : K) × (asked : Option ℕ)
        × Pauses K.eq K.eq S.hash setting kind (Some key) (K.eq key) xs machine.old memory.old asked × IsTaken kind.takes asked reply }
    ensures comes { (xs : List (K × V)) (kind : Kind) (key : K) (asked : Option ℕ) → Pauses K.eq K.eq S.hash setting kind (Some key) (K.eq key) xs machine.old memory.old asked → IsTaken kind.takes asked reply
        → HasOutcome K.eq (S.hash machine.old.hasher.now) setting memory.new key xs (RepliedThis (K.eq key) xs reply) result }
    ensures ran { StopsReplied K.eq K.eq S.hash machine.old memory.old reply memory.new (stop_by (λ r. r.fault) result) }
{
    match finish(memory, setting, machine, reply) {
        Ok(answer) => Ok(answer),
        Err(fault) => {
            let key = key_of(machine);
            Err(RefusedKey { fault, key })
        }
    }
}

/// Replaces the value of a key by one that is made of it, if the key is there. The closure is called where it is, and else not at all.
pub fn update<K: Eq + Hash + Drop, V: Drop, S: BuildHasher, F: FnOnce(&V) -> V>(
    memory: &mut Plain<Node<K, V>>,
    setting: Setting,
    hasher: &S,
    key: K,
    make: F,
) -> Result<KeyAnswer, RefusedKey<K>>
    requires holds { (xs : List (K × V)) × Holds K.eq (hashed_by S.Hasher.finish S.Hasher.write S.build_hasher K.hash_input hasher.now) setting memory.old xs
        × ForSome (found_by (K.eq key) xs) (λ x. FnOnceTakesAt F.FnOnce make x.1) }
    ensures comes { (xs : List (K × V)) → Holds K.eq (hashed_by S.Hasher.finish S.Hasher.write S.build_hasher K.hash_input hasher.now) setting memory.old xs
        → HasOutcome K.eq (hashed_by S.Hasher.finish S.Hasher.write S.build_hasher K.hash_input hasher.now) setting memory.new key xs (Updating (FnOnceReturnsAt F.FnOnce make)) result }
    ensures ran { HasStopped K.eq K.eq (hashed_by S.Hasher.finish S.Hasher.write S.build_hasher K.hash_input) hasher.entry setting memory.old (K.eq key) (IsTold updates (Some key) []) memory.new (stop_by (λ r. r.fault) result) }
{
    let hash = hasher.hash_of(&key);
    let call = KeyCall::update(setting, hash, key);
    let mut machine: OnKey<'_, K, V, K, S> = OnKey {
        call,
        hasher,
        unstored: None,
    };
    match start(memory, setting, &mut machine) {
        Ok(Stop::Answered(answer)) => Ok(answer),
        Ok(Stop::Asks(Some(word))) => {
            let value = make(pair_at(memory, word).1);
            replied(memory, setting, &mut machine, MachineReply::Insert(value))
        }
        Ok(Stop::Asks(None)) => unreachable!(),
        Err(fault) => {
            let key = key_of(&mut machine);
            Err(RefusedKey { fault, key })
        }
    }
}

/// Replaces the value of a key by one that is made of it, if the key is there, and else stores one that is begun. The closure that is called is the one of the two.
pub fn update_or_insert_with<
    K: Eq + Hash + Drop,
    V: Drop,
    S: BuildHasher,
    B: FnOnce() -> V,
    F: FnOnce(&V) -> V,
>(
    memory: &mut Plain<Node<K, V>>,
    setting: Setting,
    hasher: &S,
    key: K,
    begin: B,
    make: F,
) -> Result<KeyAnswer, RefusedKey<K>>
    requires holds { (xs : List (K × V)) × Holds K.eq (hashed_by S.Hasher.finish S.Hasher.write S.build_hasher K.hash_input hasher.now) setting memory.old xs
        × ForNone (found_by (K.eq key) xs) (B.pre begin) × ForSome (found_by (K.eq key) xs) (λ x. FnOnceTakesAt F.FnOnce make x.1) }
    ensures comes { (xs : List (K × V)) → Holds K.eq (hashed_by S.Hasher.finish S.Hasher.write S.build_hasher K.hash_input hasher.now) setting memory.old xs
        → HasOutcome K.eq (hashed_by S.Hasher.finish S.Hasher.write S.build_hasher K.hash_input hasher.now) setting memory.new key xs
        (UpdatingOrStoring (FnOnceReturnsAt F.FnOnce make) (λ value. FnOnceReturns B.FnOnce begin tt value)) result }
    ensures ran { HasStopped K.eq K.eq (hashed_by S.Hasher.finish S.Hasher.write S.build_hasher K.hash_input) hasher.entry setting memory.old (K.eq key) (IsTold updates_or_inserts (Some key) []) memory.new (stop_by (λ r. r.fault) result) }
{
    let hash = hasher.hash_of(&key);
    let call = KeyCall::update_or_insert_with(setting, hash, key);
    let mut machine: OnKey<'_, K, V, K, S> = OnKey {
        call,
        hasher,
        unstored: None,
    };
    match start(memory, setting, &mut machine) {
        Ok(Stop::Answered(answer)) => Ok(answer),
        Ok(Stop::Asks(Some(word))) => {
            let value = make(pair_at(memory, word).1);
            replied(memory, setting, &mut machine, MachineReply::Insert(value))
        }
        Ok(Stop::Asks(None)) => {
            let value = begin();
            replied(memory, setting, &mut machine, MachineReply::Insert(value))
        }
        Err(fault) => {
            let key = key_of(&mut machine);
            Err(RefusedKey { fault, key })
        }
    }
}

/// Replaces the value of a key by one that is made of it, if the key is there, and else stores this one. The closure is called where the key is there, and else
/// not at all. This value comes back where the call is refused.
pub fn update_or_insert<K: Eq + Hash + Drop, V: Drop, S: BuildHasher, F: FnOnce(&V) -> V>(
    memory: &mut Plain<Node<K, V>>,
    setting: Setting,
    hasher: &S,
    key: K,
    value: V,
    make: F,
) -> Result<KeyAnswer, Refused<K, V>>
    requires holds { (xs : List (K × V)) × Holds K.eq (hashed_by S.Hasher.finish S.Hasher.write S.build_hasher K.hash_input hasher.now) setting memory.old xs
        × ForSome (found_by (K.eq key) xs) (λ x. FnOnceTakesAt F.FnOnce make x.1) }
    ensures comes { (xs : List (K × V)) → Holds K.eq (hashed_by S.Hasher.finish S.Hasher.write S.build_hasher K.hash_input hasher.now) setting memory.old xs
        → HasOutcomeWith K.eq (hashed_by S.Hasher.finish S.Hasher.write S.build_hasher K.hash_input hasher.now) setting memory.new key xs value
        (UpdatingOrStoring (FnOnceReturnsAt F.FnOnce make) (λ new. new ≡ value)) result }
    ensures ran { HasStopped K.eq K.eq (hashed_by S.Hasher.finish S.Hasher.write S.build_hasher K.hash_input) hasher.entry setting memory.old (K.eq key) (IsTold updates_or_inserts (Some key) []) memory.new (stop_by (λ r. r.fault) result) }
{
    let hash = hasher.hash_of(&key);
    let call = KeyCall::update_or_insert_with(setting, hash, key);
    let mut machine: OnKey<'_, K, V, K, S> = OnKey {
        call,
        hasher,
        unstored: None,
    };
    match start(memory, setting, &mut machine) {
        Ok(Stop::Answered(answer)) => Ok(answer),
        Ok(Stop::Asks(Some(word))) => {
            let new = make(pair_at(memory, word).1);
            match replied(memory, setting, &mut machine, MachineReply::Insert(new)) {
                Ok(answer) => Ok(answer),
                Err(refused) => Err(Refused {
                    fault: refused.fault,
                    key: refused.key,
                    value,
                }),
            }
        }
        Ok(Stop::Asks(None)) => stored(memory, setting, &mut machine, value),
        Err(fault) => {
            let key = key_of(&mut machine);
            Err(Refused { fault, key, value })
        }
    }
}

/// Tells a call to store a value where its key is missing, and runs it to its end.
fn stored<K: Eq + Hash + Drop, V: Drop, S: Hashes<K>>(
    memory: &mut Plain<Node<K, V>>,
    setting: Setting,
    machine: &mut OnKey<'_, K, V, K, S>,
    value: V,
) -> Result<KeyAnswer, Refused<K, V>>
    requires { (xs : List (K × V)) × (kind : Kind) × (key : K) × Pauses K.eq K.eq S.hash setting kind (Some key) (K.eq key) xs machine.old memory.old None × (kind.takes ≡ takes.Values) }
    ensures comes { (xs : List (K × V)) (kind : Kind) (key : K) → Pauses K.eq K.eq S.hash setting kind (Some key) (K.eq key) xs machine.old memory.old None → kind.takes ≡ takes.Values
        → HasOutcomeWith K.eq (S.hash machine.old.hasher.now) setting memory.new key xs value (RepliedThis (K.eq key) xs (replies.Insert value)) result }
    ensures ran { StopsReplied K.eq K.eq S.hash machine.old memory.old (replies.Insert value) memory.new (stop_by (λ r. r.fault) result) }
{
    match finish(memory, setting, machine, MachineReply::Insert(value)) {
        Ok(answer) => Ok(answer),
        Err(fault) => {
            let (key, value) = pair_of(machine);
            Err(Refused { fault, key, value })
        }
    }
}

/// Stores a value that is begun, if its key is not there yet. The closure is called where it is not, and else not at all.
pub fn insert_with<K: Eq + Hash + Drop, V: Drop, S: BuildHasher, B: FnOnce() -> V>(
    memory: &mut Plain<Node<K, V>>,
    setting: Setting,
    hasher: &S,
    key: K,
    begin: B,
) -> Result<KeyAnswer, RefusedKey<K>>
    requires holds { (xs : List (K × V)) × Holds K.eq (hashed_by S.Hasher.finish S.Hasher.write S.build_hasher K.hash_input hasher.now) setting memory.old xs
        × ForNone (found_by (K.eq key) xs) (B.pre begin) }
    ensures comes { (xs : List (K × V)) → Holds K.eq (hashed_by S.Hasher.finish S.Hasher.write S.build_hasher K.hash_input hasher.now) setting memory.old xs
        → HasOutcome K.eq (hashed_by S.Hasher.finish S.Hasher.write S.build_hasher K.hash_input hasher.now) setting memory.new key xs (Storing (λ value. FnOnceReturns B.FnOnce begin tt value)) result }
    ensures ran { HasStopped K.eq K.eq (hashed_by S.Hasher.finish S.Hasher.write S.build_hasher K.hash_input) hasher.entry setting memory.old (K.eq key) (IsTold tries_to_insert_with (Some key) []) memory.new (stop_by (λ r. r.fault) result) }
{
    let hash = hasher.hash_of(&key);
    let call = KeyCall::try_insert_with(setting, hash, key);
    let mut machine: OnKey<'_, K, V, K, S> = OnKey {
        call,
        hasher,
        unstored: None,
    };
    match start(memory, setting, &mut machine) {
        Ok(Stop::Answered(answer)) => Ok(answer),
        Ok(Stop::Asks(Some(_))) => unreachable!(),
        Ok(Stop::Asks(None)) => {
            let value = begin();
            replied(memory, setting, &mut machine, MachineReply::Insert(value))
        }
        Err(fault) => {
            let key = key_of(&mut machine);
            Err(RefusedKey { fault, key })
        }
    }
}
