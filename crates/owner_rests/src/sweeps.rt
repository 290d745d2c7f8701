//! What goes over all pairs, and removes them, each after a refresh.
ghost use Rattle.std.specs.Prelude.{◌≡◌, List, [], IfErr, IsOk, OnOk, OnErr};
ghost use Rattle.owner_calls.specs.Given.LateFaults.{IsRoom};
ghost use Rattle.map_straight.specs.Shown.Chain.{CannotGrowIn};
ghost use Rattle.owner_calls.specs.Holds.Held.{HoldsOn, held_in};
ghost use Rattle.owner_calls.specs.Owned.Owned.{Holds, hashed_by};
ghost use Rattle.owner_calls.specs.Sifts.Retaining.{KeepsOf};
ghost use Rattle.papaya_raw.specs.Given.ReservesDeclared.sweep.Purpose.TheVariants.{Clears, Retains};
ghost use Rattle.owner_rests.specs.Rests.Refreshed.{OnceRefreshed};
ghost use Rattle.owner_calls.specs.Sifts.Sweeping.{HasSwept};
ghost use Rattle.owner_asks.specs.Steady.Steady.{HasOneTable};
ghost use Rattle.seize_words.specs.declared.fault.Fault.TheVariants.{Capacity};

use crate::changes::refresh;
use crate::counting::count;
use map_tables::{Node, Setting};
use owner_calls::{empty, sift};
use seize_words::{Fault, Plain};
use std::hash::{BuildHasher, Hash};

/// Removes all pairs, after a refresh. The faults are `Fault::Capacity`, where no table can follow the map's last one, and `Fault::Memory`. While the map has
/// one table at most, it is done, and the map has one at most then.
pub fn clear<K: Eq + Hash + Drop, V: Drop, S: BuildHasher>(
    memory: &mut Plain<Node<K, V>>,
    setting: Setting,
    hasher: &S,
) -> Result<(), Fault>
    requires { (xs : List (K × V)) × Holds K.eq (hashed_by S.Hasher.finish S.Hasher.write S.build_hasher K.hash_input hasher.now) setting memory.old xs }
    ensures done { (xs : List (K × V)) → Holds K.eq (hashed_by S.Hasher.finish S.Hasher.write S.build_hasher K.hash_input hasher.now) setting memory.old xs
        → OnOk result (Holds K.eq (hashed_by S.Hasher.finish S.Hasher.write S.build_hasher K.hash_input hasher.now) setting memory.new []) }
    ensures refused { (xs : List (K × V)) → Holds K.eq (hashed_by S.Hasher.finish S.Hasher.write S.build_hasher K.hash_input hasher.now) setting memory.old xs
        → OnErr result (Holds K.eq (hashed_by S.Hasher.finish S.Hasher.write S.build_hasher K.hash_input hasher.now) setting memory.new xs) }
    ensures fault { IfErr result IsRoom }
    ensures capacity { (xs : List (K × V)) → Holds K.eq (hashed_by S.Hasher.finish S.Hasher.write S.build_hasher K.hash_input hasher.now) setting memory.old xs → IfErr result (λ fault. fault ≡ Capacity → CannotGrowIn memory.new setting) }
    ensures steady { (xs : List (K × V)) → Holds K.eq (hashed_by S.Hasher.finish S.Hasher.write S.build_hasher K.hash_input hasher.now) setting memory.old xs → HasOneTable setting memory.old → IsOk result }
    ensures steady_then { (xs : List (K × V)) → Holds K.eq (hashed_by S.Hasher.finish S.Hasher.write S.build_hasher K.hash_input hasher.now) setting memory.old xs → HasOneTable setting memory.old → HasOneTable setting memory.new }
    ensures ran { OnceRefreshed setting memory.old (λ m. HasSwept (hashed_by S.Hasher.finish S.Hasher.write S.build_hasher K.hash_input) hasher.entry setting Clears m memory.new result) }
    ensures keeps { (xs : List (K × V)) → Holds K.eq (hashed_by S.Hasher.finish S.Hasher.write S.build_hasher K.hash_input hasher.now) setting memory.old xs
        → HoldsOn [] xs (held_in memory.old) (held_in memory.new) }
{
    refresh(memory, setting, hasher);
    empty(memory, setting, hasher)
}

/// Keeps just the pairs for which the closure answers `true`, after a refresh. The faults are `Fault::Capacity`, where no table can follow the map's
/// last one, and `Fault::Memory`. While the map has one table at most, it is done, and the map has one at most then.
pub fn retain<K: Eq + Hash + Drop, V: Drop, S: BuildHasher, F: FnMut(&K, &V) -> bool>(
    memory: &mut Plain<Node<K, V>>,
    setting: Setting,
    hasher: &S,
    keep: F,
) -> Result<(), Fault>
    requires callable { F.IsAlwaysCallable keep }
    requires holds { (xs : List (K × V)) × Holds K.eq (hashed_by S.Hasher.finish S.Hasher.write S.build_hasher K.hash_input hasher.now) setting memory.old xs }
    ensures done { (xs : List (K × V)) → Holds K.eq (hashed_by S.Hasher.finish S.Hasher.write S.build_hasher K.hash_input hasher.now) setting memory.old xs
        → OnOk result ((kept : List (K × V)) × KeepsOf F.FnMut keep xs kept × Holds K.eq (hashed_by S.Hasher.finish S.Hasher.write S.build_hasher K.hash_input hasher.now) setting memory.new kept) }
    ensures refused { (xs : List (K × V)) → Holds K.eq (hashed_by S.Hasher.finish S.Hasher.write S.build_hasher K.hash_input hasher.now) setting memory.old xs
        → OnErr result (Holds K.eq (hashed_by S.Hasher.finish S.Hasher.write S.build_hasher K.hash_input hasher.now) setting memory.new xs) }
    ensures fault { IfErr result IsRoom }
    ensures capacity { (xs : List (K × V)) → Holds K.eq (hashed_by S.Hasher.finish S.Hasher.write S.build_hasher K.hash_input hasher.now) setting memory.old xs → IfErr result (λ fault. fault ≡ Capacity → CannotGrowIn memory.new setting) }
    ensures steady { (xs : List (K × V)) → Holds K.eq (hashed_by S.Hasher.finish S.Hasher.write S.build_hasher K.hash_input hasher.now) setting memory.old xs → HasOneTable setting memory.old → IsOk result }
    ensures steady_then { (xs : List (K × V)) → Holds K.eq (hashed_by S.Hasher.finish S.Hasher.write S.build_hasher K.hash_input hasher.now) setting memory.old xs → HasOneTable setting memory.old → HasOneTable setting memory.new }
    ensures ran { OnceRefreshed setting memory.old (λ m. HasSwept (hashed_by S.Hasher.finish S.Hasher.write S.build_hasher K.hash_input) hasher.entry setting Retains m memory.new result) }
    ensures keeps { (xs : List (K × V)) → Holds K.eq (hashed_by S.Hasher.finish S.Hasher.write S.build_hasher K.hash_input hasher.now) setting memory.old xs
        → HoldsOn [] xs (held_in memory.old) (held_in memory.new) }
{
    refresh(memory, setting, hasher);
    let pairs = count(memory, setting, hasher);
    sift(memory, setting, hasher, pairs, keep)
}
