//! Calls that update a value, or store one, by closures, each after a refresh.
ghost use Rattle.std.specs.Prelude.{◌≡◌, List, Some, IfErr, [], Err};
ghost use Rattle.std.specs.Fn.{FnOnceReturns, FnOnceReturnsAt, FnOnceTakesAt};
ghost use Rattle.std.specs.Option.{ForNone, ForSome};
ghost use Rattle.owner_asks.specs.Asks.Closures.{Updating, UpdatingOrStoring, Storing};
ghost use Rattle.owner_calls.specs.Holds.Held.{HoldsOn, held_in};
ghost use Rattle.map_straight.specs.Shown.Chain.{CannotGrowIn};
ghost use Rattle.owner_calls.specs.Owned.Owned.{Holds, found_by, hashed_by};
ghost use Rattle.owner_rests.specs.Rests.Asking.{ChangeHasOutcome};
ghost use Rattle.owner_rests.specs.Rests.Held.{stored_in};
ghost use Rattle.owner_rests.specs.Rests.Lasts.{QuiescentWith, pair_in};
ghost use Rattle.seize_words.specs.declared.fault.Fault.TheVariants.{Capacity};
ghost use Rattle.owner_rests.specs.Rests.Refreshed.{OnceRefreshed};
ghost use Rattle.owner_calls.specs.Owned.Calling.{HasStopped};
ghost use Rattle.owner_calls.specs.Given.CallersPairs.{IsTold};
ghost use Rattle.owner_calls.specs.Given.CallersKind.{tries_to_insert_with, updates, updates_or_inserts};

use crate::change::{Change, ended};
use crate::changes::refresh;
use crate::last::Last;
use map_tables::{Node, Setting};
use owner_asks::{Refused, RefusedKey};
use seize_words::Plain;
use std::hash::{BuildHasher, Hash};

/// Replaces the value of a key by one that is made of it, after a refresh, if the key is there.
pub fn update<K: Eq + Hash + Drop, V: Drop, S: BuildHasher, F: FnOnce(&V) -> V>(
    memory: &mut Plain<Node<K, V>>,
    setting: Setting,
    hasher: &S,
    last: &mut Last,
    key: K,
    make: F,
) -> Result<Change, RefusedKey<K>>
    requires holds { (xs : List (K × V)) × Holds K.eq (hashed_by S.Hasher.finish S.Hasher.write S.build_hasher K.hash_input hasher.now) setting memory.old xs
        × ForSome (found_by (K.eq key) xs) (λ x. FnOnceTakesAt F.FnOnce make x.1) }
    ensures comes { (xs : List (K × V)) → Holds K.eq (hashed_by S.Hasher.finish S.Hasher.write S.build_hasher K.hash_input hasher.now) setting memory.old xs
        → ChangeHasOutcome (K.eq key) (Some key) (Updating (FnOnceReturnsAt F.FnOnce make)) xs (QuiescentWith K.eq (hashed_by S.Hasher.finish S.Hasher.write S.build_hasher K.hash_input hasher.now) setting memory.new last.new) (λ r. r.fault) result }
    ensures back { IfErr result (λ r. r.key ≡ key) }
    ensures capacity { (xs : List (K × V)) → Holds K.eq (hashed_by S.Hasher.finish S.Hasher.write S.build_hasher K.hash_input hasher.now) setting memory.old xs → IfErr result (λ r. r.fault ≡ Capacity → CannotGrowIn memory.new setting) }
    ensures because { IfErr result (λ r. OnceRefreshed setting memory.old (λ m. HasStopped K.eq K.eq (hashed_by S.Hasher.finish S.Hasher.write S.build_hasher K.hash_input) hasher.entry setting m (K.eq key) (IsTold updates (Some key) []) memory.new (Err r.fault))) }
    ensures keeps { (xs : List (K × V)) → Holds K.eq (hashed_by S.Hasher.finish S.Hasher.write S.build_hasher K.hash_input hasher.now) setting memory.old xs
        → HoldsOn (stored_in result (pair_in memory.new last.new.met)) xs (held_in memory.old) (held_in memory.new) }
{
    refresh(memory, setting, hasher);
    ended(owner_asks::update(memory, setting, hasher, key, make), last)
}

/// Replaces the value of a key by one that is made of it, after a refresh, if the key is there, and else stores one that is begun.
pub fn update_or_insert_with<
    K: Eq + Hash + Drop,
    V: Drop,
    S: BuildHasher,
    B: FnOnce() -> V,
    F: FnOnce(&V) -> V,
>(
    memory: &mut Plain<Node<K, V>>,
    setting: Setting,
    hasher: &S,
    last: &mut Last,
    key: K,
    begin: B,
    make: F,
) -> Result<Change, RefusedKey<K>>
    requires holds { (xs : List (K × V)) × Holds K.eq (hashed_by S.Hasher.finish S.Hasher.write S.build_hasher K.hash_input hasher.now) setting memory.old xs
        × ForNone (found_by (K.eq key) xs) (B.pre begin) × ForSome (found_by (K.eq key) xs) (λ x. FnOnceTakesAt F.FnOnce make x.1) }
    ensures comes { (xs : List (K × V)) → Holds K.eq (hashed_by S.Hasher.finish S.Hasher.write S.build_hasher K.hash_input hasher.now) setting memory.old xs
        → ChangeHasOutcome (K.eq key) (Some key) (UpdatingOrStoring (FnOnceReturnsAt F.FnOnce make) (λ value. FnOnceReturns B.FnOnce begin tt value)) xs (QuiescentWith K.eq (hashed_by S.Hasher.finish S.Hasher.write S.build_hasher K.hash_input hasher.now) setting memory.new last.new) (λ r. r.fault) result }
    ensures back { IfErr result (λ r. r.key ≡ key) }
    ensures capacity { (xs : List (K × V)) → Holds K.eq (hashed_by S.Hasher.finish S.Hasher.write S.build_hasher K.hash_input hasher.now) setting memory.old xs → IfErr result (λ r. r.fault ≡ Capacity → CannotGrowIn memory.new setting) }
    ensures because { IfErr result (λ r. OnceRefreshed setting memory.old (λ m. HasStopped K.eq K.eq (hashed_by S.Hasher.finish S.Hasher.write S.build_hasher K.hash_input) hasher.entry setting m (K.eq key) (IsTold updates_or_inserts (Some key) []) memory.new (Err r.fault))) }
    ensures keeps { (xs : List (K × V)) → Holds K.eq (hashed_by S.Hasher.finish S.Hasher.write S.build_hasher K.hash_input hasher.now) setting memory.old xs
        → HoldsOn (stored_in result (pair_in memory.new last.new.met)) xs (held_in memory.old) (held_in memory.new) }
{
    refresh(memory, setting, hasher);
    ended(
        owner_asks::update_or_insert_with(memory, setting, hasher, key, begin, make),
        last,
    )
}

/// Stores a value that is begun, after a refresh, if its key is not there yet.
pub fn try_insert_with<K: Eq + Hash + Drop, V: Drop, S: BuildHasher, B: FnOnce() -> V>(
    memory: &mut Plain<Node<K, V>>,
    setting: Setting,
    hasher: &S,
    last: &mut Last,
    key: K,
    begin: B,
) -> Result<Change, RefusedKey<K>>
    requires holds { (xs : List (K × V)) × Holds K.eq (hashed_by S.Hasher.finish S.Hasher.write S.build_hasher K.hash_input hasher.now) setting memory.old xs
        × ForNone (found_by (K.eq key) xs) (B.pre begin) }
    ensures comes { (xs : List (K × V)) → Holds K.eq (hashed_by S.Hasher.finish S.Hasher.write S.build_hasher K.hash_input hasher.now) setting memory.old xs
        → ChangeHasOutcome (K.eq key) (Some key) (Storing (λ value. FnOnceReturns B.FnOnce begin tt value)) xs (QuiescentWith K.eq (hashed_by S.Hasher.finish S.Hasher.write S.build_hasher K.hash_input hasher.now) setting memory.new last.new) (λ r. r.fault) result }
    ensures back { IfErr result (λ r. r.key ≡ key) }
    ensures capacity { (xs : List (K × V)) → Holds K.eq (hashed_by S.Hasher.finish S.Hasher.write S.build_hasher K.hash_input hasher.now) setting memory.old xs → IfErr result (λ r. r.fault ≡ Capacity → CannotGrowIn memory.new setting) }
    ensures because { IfErr result (λ r. OnceRefreshed setting memory.old (λ m. HasStopped K.eq K.eq (hashed_by S.Hasher.finish S.Hasher.write S.build_hasher K.hash_input) hasher.entry setting m (K.eq key) (IsTold tries_to_insert_with (Some key) []) memory.new (Err r.fault))) }
    ensures keeps { (xs : List (K × V)) → Holds K.eq (hashed_by S.Hasher.finish S.Hasher.write S.build_hasher K.hash_input hasher.now) setting memory.old xs
        → HoldsOn (stored_in result (pair_in memory.new last.new.met)) xs (held_in memory.old) (held_in memory.new) }
{
    refresh(memory, setting, hasher);
    ended(
        owner_asks::insert_with(memory, setting, hasher, key, begin),
        last,
    )
}

/// Replaces the value of a key by one that is made of it, after a refresh, if the key is there, and else stores this one.
pub fn update_or_insert<K: Eq + Hash + Drop, V: Drop, S: BuildHasher, F: FnOnce(&V) -> V>(
    memory: &mut Plain<Node<K, V>>,
    setting: Setting,
    hasher: &S,
    last: &mut Last,
    key: K,
    value: V,
    make: F,
) -> Result<Change, Refused<K, V>>
    requires holds { (xs : List (K × V)) × Holds K.eq (hashed_by S.Hasher.finish S.Hasher.write S.build_hasher K.hash_input hasher.now) setting memory.old xs
        × ForSome (found_by (K.eq key) xs) (λ x. FnOnceTakesAt F.FnOnce make x.1) }
    ensures comes { (xs : List (K × V)) → Holds K.eq (hashed_by S.Hasher.finish S.Hasher.write S.build_hasher K.hash_input hasher.now) setting memory.old xs
        → ChangeHasOutcome (K.eq key) (Some key) (UpdatingOrStoring (FnOnceReturnsAt F.FnOnce make) (λ new. new ≡ value)) xs (QuiescentWith K.eq (hashed_by S.Hasher.finish S.Hasher.write S.build_hasher K.hash_input hasher.now) setting memory.new last.new) (λ r. r.fault) result }
    ensures back { IfErr result (λ r. (r.key ≡ key) × (r.value ≡ value)) }
    ensures capacity { (xs : List (K × V)) → Holds K.eq (hashed_by S.Hasher.finish S.Hasher.write S.build_hasher K.hash_input hasher.now) setting memory.old xs → IfErr result (λ r. r.fault ≡ Capacity → CannotGrowIn memory.new setting) }
    ensures because { IfErr result (λ r. OnceRefreshed setting memory.old (λ m. HasStopped K.eq K.eq (hashed_by S.Hasher.finish S.Hasher.write S.build_hasher K.hash_input) hasher.entry setting m (K.eq key) (IsTold updates_or_inserts (Some key) []) memory.new (Err r.fault))) }
    ensures keeps { (xs : List (K × V)) → Holds K.eq (hashed_by S.Hasher.finish S.Hasher.write S.build_hasher K.hash_input hasher.now) setting memory.old xs
        → HoldsOn (stored_in result (pair_in memory.new last.new.met)) xs (held_in memory.old) (held_in memory.new) }
{
    refresh(memory, setting, hasher);
    ended(
        owner_asks::update_or_insert(memory, setting, hasher, key, value, make),
        last,
    )
}
