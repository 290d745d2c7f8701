//! A call that computes what is to be done with a key, after a refresh.
ghost use Rattle.std.specs.Prelude.{◌≡◌, List, Some, IfErr, [], Err};
ghost use Rattle.owner_asks.specs.Asks.Closures.{ComputesAs, ComputingTakes};
ghost use Rattle.owner_calls.specs.Holds.Held.{HoldsOn, held_in};
ghost use Rattle.map_straight.specs.Shown.Chain.{CannotGrowIn};
ghost use Rattle.owner_calls.specs.Owned.Owned.{Holds, found_by, hashed_by};
ghost use Rattle.owner_rests.specs.Rests.Asking.{ComputesToIt};
ghost use Rattle.owner_rests.specs.Rests.Held.{stored_computing};
ghost use Rattle.owner_rests.specs.Rests.Lasts.{QuiescentWith, pair_in};
ghost use Rattle.seize_words.specs.declared.fault.Fault.TheVariants.{Capacity};
ghost use Rattle.owner_rests.specs.Rests.Refreshed.{OnceRefreshed};
ghost use Rattle.owner_calls.specs.Owned.Calling.{HasStopped};
ghost use Rattle.owner_calls.specs.Given.CallersPairs.{IsTold};
ghost use Rattle.owner_calls.specs.Given.CallersKind.{computes};

use crate::change::{ComputedChange, computed};
use crate::changes::refresh;
use crate::last::Last;
use map_tables::{Node, Setting};
use owner_asks::RefusedKey;
use seize_words::{Operation, Plain};
use std::hash::{BuildHasher, Hash};

/// Stores a value for a key, removes its pair, or leaves it, after a refresh, as a computing says.
pub fn compute<
    K: Eq + Hash + Drop,
    V: Drop,
    S: BuildHasher,
    T: Drop,
    F: FnOnce(Option<(&K, &V)>) -> Operation<V, T>,
>(
    memory: &mut Plain<Node<K, V>>,
    setting: Setting,
    hasher: &S,
    last: &mut Last,
    key: K,
    decide: F,
) -> Result<ComputedChange<T>, RefusedKey<K>>
    requires holds { (xs : List (K × V)) × Holds K.eq (hashed_by S.Hasher.finish S.Hasher.write S.build_hasher K.hash_input hasher.now) setting memory.old xs
        × ComputingTakes F.FnOnce decide (found_by (K.eq key) xs) }
    ensures comes { (xs : List (K × V)) → Holds K.eq (hashed_by S.Hasher.finish S.Hasher.write S.build_hasher K.hash_input hasher.now) setting memory.old xs
        → ComputesToIt (K.eq key) (Some key) (ComputesAs F.FnOnce decide) xs (QuiescentWith K.eq (hashed_by S.Hasher.finish S.Hasher.write S.build_hasher K.hash_input hasher.now) setting memory.new last.new) (λ r. r.fault) result }
    ensures back { IfErr result (λ r. r.key ≡ key) }
    ensures capacity { (xs : List (K × V)) → Holds K.eq (hashed_by S.Hasher.finish S.Hasher.write S.build_hasher K.hash_input hasher.now) setting memory.old xs → IfErr result (λ r. r.fault ≡ Capacity → CannotGrowIn memory.new setting) }
    ensures because { IfErr result (λ r. OnceRefreshed setting memory.old (λ m. HasStopped K.eq K.eq (hashed_by S.Hasher.finish S.Hasher.write S.build_hasher K.hash_input) hasher.entry setting m (K.eq key) (IsTold computes (Some key) []) memory.new (Err r.fault))) }
    ensures keeps { (xs : List (K × V)) → Holds K.eq (hashed_by S.Hasher.finish S.Hasher.write S.build_hasher K.hash_input hasher.now) setting memory.old xs
        → HoldsOn (stored_computing result (pair_in memory.new last.new.met)) xs (held_in memory.old) (held_in memory.new) }
{
    refresh(memory, setting, hasher);
    computed(
        owner_asks::compute(memory, setting, hasher, key, decide),
        last,
    )
}
