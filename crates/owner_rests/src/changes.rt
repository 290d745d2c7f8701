//! Refreshes of the owner's section, and removals. Each change begins with a refresh.
ghost use Rattle.std.specs.Prelude.{◌≡◌, List, [], None, is_some, IfErr, IfOk, IsOk, OnOk, OnErr, Err};
ghost use Rattle.owner_calls.specs.Given.LateFaults.{IsRoom};
ghost use Rattle.map_straight.specs.Shown.Chain.{CannotGrowIn};
ghost use Rattle.seize_words.specs.declared.fault.Fault.TheVariants.{Capacity};
ghost use Rattle.owner_calls.specs.Holds.Came.{NoneCame};
ghost use Rattle.owner_calls.specs.Holds.Held.{HoldsOn, held_in};
ghost use Rattle.owner_calls.specs.Owned.Owned.{Holds, found_by, hashed_by, left_by};
ghost use Rattle.owner_rests.specs.Rests.Calls.{has_removed};
ghost use Rattle.owner_rests.specs.Rests.Lasts.{QuiescentWith};
ghost use Rattle.owner_rests.specs.Rests.Refreshed.{HasRefreshed, OnceRefreshed};
ghost use Rattle.owner_calls.specs.Owned.Calling.{HasStopped};
ghost use Rattle.owner_calls.specs.Given.CallersPairs.{Begun};
ghost use Rattle.owner_calls.specs.Given.CallersKind.{removes};
ghost use Rattle.owner_asks.specs.Asks.Asking.{by_lent};
ghost use Rattle.owner_asks.specs.Steady.Steady.{HasOneTable};

use crate::last::{Last, told_at};
use map_tables::{Equivalent, Node, Setting};
use owner_calls::{OwnerRefresh, Stop, run_skimming};
use papaya_raw::machines::KeyAnswer;
use seize::rows::{Leave, Leaving, Settle};
use seize::states::{ACTIVE, HEAD};
use seize_words::{At, Fault, Memory, Plain};
use std::hash::{BuildHasher, Hash};

/// Ends the owner's section, and begins the next one: what is out of the map may be given back, once enough of it waits.
pub fn refresh<K: Eq + Hash + Drop, V: Drop, S: BuildHasher>(
    memory: &mut Plain<Node<K, V>>,
    setting: Setting,
    _hasher: &S,
)
    requires { (xs : List (K × V)) × Holds K.eq (hashed_by S.Hasher.finish S.Hasher.write S.build_hasher K.hash_input _hasher.now) setting memory.old xs }
    ensures holds { (xs : List (K × V)) → Holds K.eq (hashed_by S.Hasher.finish S.Hasher.write S.build_hasher K.hash_input _hasher.now) setting memory.old xs
        → Holds K.eq (hashed_by S.Hasher.finish S.Hasher.write S.build_hasher K.hash_input _hasher.now) setting memory.new xs }
    ensures none { NoneCame memory.old memory.new }
    ensures ran { HasRefreshed setting memory.old memory.new }
{
    let head = memory.swap(At::Slot(setting.slot, HEAD), ACTIVE);
    if head <= ACTIVE {
        return;
    }
    let settle = Settle::count_down(setting.slot, setting.batch_size, head);
    let leave = Leave {
        slot: setting.slot,
        batch_size: setting.batch_size,
        becomes: ACTIVE,
        frees: false,
        stands: Leaving::Settles(settle),
    };
    let mut machine = OwnerRefresh { leave };
    let _ = run_skimming(&mut machine, memory);
}

/// Whether a removal has removed a pair.
fn removed(stop: Stop) -> bool
    ensures { result ≡ has_removed stop }
{
    matches!(stop, Stop::Answered(KeyAnswer::Removed(_)))
}

/// Removes the pair of a key, after a refresh, and answers whether there was one. Where there was, it can be looked at still. While the map has one table at
/// most, it is done, and the map has one at most then.
pub fn remove<K: Eq + Hash + Drop, V: Drop, Q: Equivalent<K>, S: BuildHasher>(
    memory: &mut Plain<Node<K, V>>,
    setting: Setting,
    hasher: &S,
    last: &mut Last,
    asked: &Q,
) -> Result<bool, Fault>
    requires { (xs : List (K × V)) × Holds K.eq (hashed_by S.Hasher.finish S.Hasher.write S.build_hasher K.hash_input hasher.now) setting memory.old xs }
    ensures some { (xs : List (K × V)) → Holds K.eq (hashed_by S.Hasher.finish S.Hasher.write S.build_hasher K.hash_input hasher.now) setting memory.old xs → IfOk result (λ was. was ≡ is_some (found_by (Q.Equivalent.equivalent asked.now) xs)) }
    ensures removed { (xs : List (K × V)) → Holds K.eq (hashed_by S.Hasher.finish S.Hasher.write S.build_hasher K.hash_input hasher.now) setting memory.old xs
        → OnOk result (QuiescentWith K.eq (hashed_by S.Hasher.finish S.Hasher.write S.build_hasher K.hash_input hasher.now) setting memory.new last.new (left_by (Q.Equivalent.equivalent asked.now) xs) (found_by (Q.Equivalent.equivalent asked.now) xs) None) }
    ensures refused { (xs : List (K × V)) → Holds K.eq (hashed_by S.Hasher.finish S.Hasher.write S.build_hasher K.hash_input hasher.now) setting memory.old xs
        → OnErr result (QuiescentWith K.eq (hashed_by S.Hasher.finish S.Hasher.write S.build_hasher K.hash_input hasher.now) setting memory.new last.new xs None None) }
    ensures fault { IfErr result IsRoom }
    ensures capacity { (xs : List (K × V)) → Holds K.eq (hashed_by S.Hasher.finish S.Hasher.write S.build_hasher K.hash_input hasher.now) setting memory.old xs → IfErr result (λ fault. fault ≡ Capacity → CannotGrowIn memory.new setting) }
    ensures steady { (xs : List (K × V)) → Holds K.eq (hashed_by S.Hasher.finish S.Hasher.write S.build_hasher K.hash_input hasher.now) setting memory.old xs → HasOneTable setting memory.old → IsOk result }
    ensures steady_then { (xs : List (K × V)) → Holds K.eq (hashed_by S.Hasher.finish S.Hasher.write S.build_hasher K.hash_input hasher.now) setting memory.old xs → HasOneTable setting memory.old → HasOneTable setting memory.new }
    ensures because { IfErr result (λ fault. OnceRefreshed setting memory.old (λ m. HasStopped (by_lent Q.Equivalent.equivalent) K.eq (hashed_by S.Hasher.finish S.Hasher.write S.build_hasher K.hash_input) hasher.entry setting m (Q.Equivalent.equivalent asked.now) (Begun removes None) memory.new (Err fault))) }
    ensures keeps { (xs : List (K × V)) → Holds K.eq (hashed_by S.Hasher.finish S.Hasher.write S.build_hasher K.hash_input hasher.now) setting memory.old xs
        → HoldsOn [] xs (held_in memory.old) (held_in memory.new) }
{
    refresh(memory, setting, hasher);
    *last = Last::NONE;
    match owner_asks::remove(memory, setting, hasher, asked) {
        Ok(stop) => {
            *last = told_at(stop);
            Ok(removed(stop))
        }
        Err(fault) => Err(fault),
    }
}
