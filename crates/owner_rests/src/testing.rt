//! Removals that a test decides, each after a refresh.
ghost use Rattle.std.specs.Prelude.{◌≡◌, List, [], None, IfErr, IsOk, Err};
ghost use Rattle.std.specs.Option.{ForSome};
ghost use Rattle.owner_asks.specs.Asks.Closures.{Removing, TestsAs, TestTakes};
ghost use Rattle.owner_calls.specs.Holds.Held.{HoldsOn, held_in};
ghost use Rattle.map_straight.specs.Shown.Chain.{CannotGrowIn};
ghost use Rattle.owner_calls.specs.Owned.Owned.{Holds, found_by, hashed_by};
ghost use Rattle.owner_rests.specs.Rests.Asking.{ChangeHasOutcome};
ghost use Rattle.owner_rests.specs.Rests.Lasts.{QuiescentWith};
ghost use Rattle.seize_words.specs.declared.fault.Fault.TheVariants.{Capacity};
ghost use Rattle.owner_rests.specs.Rests.Refreshed.{OnceRefreshed};
ghost use Rattle.owner_calls.specs.Owned.Calling.{HasStopped};
ghost use Rattle.owner_calls.specs.Given.CallersPairs.{IsTold};
ghost use Rattle.owner_calls.specs.Given.CallersKind.{removes_if};
ghost use Rattle.owner_asks.specs.Asks.Asking.{by_lent};
ghost use Rattle.owner_asks.specs.Steady.Steady.{HasOneTable};

use crate::change::{Change, ended};
use crate::changes::refresh;
use crate::last::Last;
use map_tables::{Equivalent, Node, Setting};
use seize_words::{Fault, Plain};
use std::hash::{BuildHasher, Hash};

/// Removes the pair of a key, after a refresh, if a test of it answers yes. While the map has one table at most, it is done, and the map
/// has one at most then.
pub fn remove_if<
    K: Eq + Hash + Drop,
    V: Drop,
    S: BuildHasher,
    Q: Equivalent<K>,
    F: FnOnce(&K, &V) -> bool,
>(
    memory: &mut Plain<Node<K, V>>,
    setting: Setting,
    hasher: &S,
    last: &mut Last,
    asked: &Q,
    test: F,
) -> Result<Change, Fault>
    requires holds { (xs : List (K × V)) × Holds K.eq (hashed_by S.Hasher.finish S.Hasher.write S.build_hasher K.hash_input hasher.now) setting memory.old xs
        × ForSome (found_by (Q.Equivalent.equivalent asked.now) xs) (TestTakes F.FnOnce test) }
    ensures comes { (xs : List (K × V)) → Holds K.eq (hashed_by S.Hasher.finish S.Hasher.write S.build_hasher K.hash_input hasher.now) setting memory.old xs
        → ChangeHasOutcome (Q.Equivalent.equivalent asked.now) None (Removing (TestsAs F.FnOnce test)) xs (QuiescentWith K.eq (hashed_by S.Hasher.finish S.Hasher.write S.build_hasher K.hash_input hasher.now) setting memory.new last.new) (λ fault. fault) result }
    ensures capacity { (xs : List (K × V)) → Holds K.eq (hashed_by S.Hasher.finish S.Hasher.write S.build_hasher K.hash_input hasher.now) setting memory.old xs → IfErr result (λ fault. fault ≡ Capacity → CannotGrowIn memory.new setting) }
    ensures steady { (xs : List (K × V)) → Holds K.eq (hashed_by S.Hasher.finish S.Hasher.write S.build_hasher K.hash_input hasher.now) setting memory.old xs → HasOneTable setting memory.old → IsOk result }
    ensures steady_then { (xs : List (K × V)) → Holds K.eq (hashed_by S.Hasher.finish S.Hasher.write S.build_hasher K.hash_input hasher.now) setting memory.old xs → HasOneTable setting memory.old → HasOneTable setting memory.new }
    ensures because { IfErr result (λ fault. OnceRefreshed setting memory.old (λ m. HasStopped (by_lent Q.Equivalent.equivalent) K.eq (hashed_by S.Hasher.finish S.Hasher.write S.build_hasher K.hash_input) hasher.entry setting m (Q.Equivalent.equivalent asked.now) (IsTold removes_if None []) memory.new (Err fault))) }
    ensures keeps { (xs : List (K × V)) → Holds K.eq (hashed_by S.Hasher.finish S.Hasher.write S.build_hasher K.hash_input hasher.now) setting memory.old xs
        → HoldsOn [] xs (held_in memory.old) (held_in memory.new) }
{
    refresh(memory, setting, hasher);
    ended(
        owner_asks::remove_if(memory, setting, hasher, asked, test),
        last,
    )
}
