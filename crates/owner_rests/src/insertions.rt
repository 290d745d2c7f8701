//! Insertions, each after a refresh.
ghost use Rattle.std.specs.Prelude.{◌≡◌, true, false, List, [], ◌∷◌, ◌++◌, None, Some, is_some, IsTrue, IfOk, IfErr, OnOk, OnErr, Err};
ghost use Rattle.owner_calls.specs.Given.CallersKind.{Kind, inserts, tries_to_insert};
ghost use Rattle.owner_calls.specs.Given.LateFaults.{IsRoom};
ghost use Rattle.map_straight.specs.Shown.Chain.{CannotGrowIn};
ghost use Rattle.seize_words.specs.declared.fault.Fault.TheVariants.{Capacity};
ghost use Rattle.map_tables.specs.declared.node.Node.TheVariants as node;
ghost use Rattle.owner_calls.specs.Holds.Held.{HoldsOn, held_in};
ghost use Rattle.owner_calls.specs.Given.CallersPairs.{Begun};
ghost use Rattle.owner_calls.specs.Owned.Calling.{HasStopped};
ghost use Rattle.owner_calls.specs.Owned.Owned.{Holds, EndsBy, IsReturned, found_by, hashed_by, left_by};
ghost use Rattle.owner_rests.specs.Rests.Storing.{storing};
ghost use Rattle.owner_rests.specs.Rests.Calls.{StoresPair, has_found, has_replaced};
ghost use Rattle.owner_rests.specs.Rests.Held.{if_stored, if_tried};
ghost use Rattle.owner_rests.specs.Rests.Lasts.{QuiescentWith};
ghost use Rattle.owner_rests.specs.Rests.Refreshed.{OnceRefreshed};

use crate::changes::refresh;
use crate::last::{Last, told_at};
use map_tables::{Hashes, Node, Setting};
use owner_asks::Refused;
use owner_calls::Stop;
use papaya_raw::machines::{KeyAnswer, There};
use seize_words::{Fault, Plain};
use std::hash::{BuildHasher, Hash};

/// Runs a call that may store a pair to its end, and answers that pair, too, where it was not stored.
fn store<K: Eq + Hash + Drop, V: Drop, S: BuildHasher>(
    memory: &mut Plain<Node<K, V>>,
    setting: Setting,
    hasher: &S,
    hash: u64,
    there: There,
    key: K,
    value: V,
) -> (Result<Stop, Fault>, Option<Node<K, V>>)
    requires map { (xs : List (K × V)) × Holds K.eq (hashed_by S.Hasher.finish S.Hasher.write S.build_hasher K.hash_input hasher.now) setting memory.old xs }
    requires call { (kind : Kind) × (k : K) × (v : V) × StoresPair (hashed_by S.Hasher.finish S.Hasher.write S.build_hasher K.hash_input hasher.now) setting k v kind (storing setting hasher hash there key value).call }
    ensures ends { (xs : List (K × V)) (kind : Kind) (k : K) (v : V) → Holds K.eq (hashed_by S.Hasher.finish S.Hasher.write S.build_hasher K.hash_input hasher.now) setting memory.old xs
        → StoresPair (hashed_by S.Hasher.finish S.Hasher.write S.build_hasher K.hash_input hasher.now) setting k v kind (storing setting hasher.entry hash there key value).call
        → EndsBy K.eq (hashed_by S.Hasher.finish S.Hasher.write S.build_hasher K.hash_input hasher.now) setting memory.new kind (Some (node.Pair k v)) (K.eq k) xs result.0 }
    ensures back { (xs : List (K × V)) (kind : Kind) (k : K) (v : V) → Holds K.eq (hashed_by S.Hasher.finish S.Hasher.write S.build_hasher K.hash_input hasher.now) setting memory.old xs
        → StoresPair (hashed_by S.Hasher.finish S.Hasher.write S.build_hasher K.hash_input hasher.now) setting k v kind (storing setting hasher.entry hash there key value).call → IsReturned (Some (node.Pair k v)) result.0 result.1 }
    ensures ran { (kind : Kind) (k : K) (v : V) → StoresPair (hashed_by S.Hasher.finish S.Hasher.write S.build_hasher K.hash_input hasher.now) setting k v kind (storing setting hasher.entry hash there key value).call
        → HasStopped K.eq K.eq (hashed_by S.Hasher.finish S.Hasher.write S.build_hasher K.hash_input) hasher.entry setting memory.old (K.eq k) (Begun kind (Some (node.Pair k v))) memory.new result.0 }
{
    crate::storing::store(memory, setting, hasher, hash, there, key, value)
}

/// Whether a call has replaced a pair.
fn replaced(stop: Stop) -> bool
    ensures { result ≡ has_replaced stop }
{
    matches!(stop, Stop::Answered(KeyAnswer::Replaced { .. }))
}

/// The key and the value of the pair of a call, which came back.
fn pair_of<K: Drop, V: Drop>(back: Option<Node<K, V>>) -> (K, V)
    requires { (key : K) × (value : V) × (back ≡ Some (node.Pair key value)) }
    ensures { back ≡ Some (node.Pair result.0 result.1) }
{
    match back {
        Some(Node::Pair(key, value)) => (key, value),
        Some(Node::Table { .. } | Node::Shards) | None => unreachable!(),
    }
}

/// A call was refused, and its pair came back.
fn refused<K: Drop, V: Drop>(fault: Fault, back: Option<Node<K, V>>) -> Refused<K, V>
    requires { (key : K) × (value : V) × (back ≡ Some (node.Pair key value)) }
    ensures fault { result.fault ≡ fault }
    ensures pair { back ≡ Some (node.Pair result.key result.value) }
{
    let (key, value) = pair_of(back);
    Refused { fault, key, value }
}

/// What a call comes to that stores its pair only where there is none: where it has found one, its own value comes back.
fn tried<K: Drop, V: Drop>(stop: Stop, back: Option<Node<K, V>>) -> Result<(), V>
    requires { IsTrue (has_found stop) → (key : K) × (value : V) × (back ≡ Some (node.Pair key value)) }
    ensures stored { OnOk result (has_found stop ≡ false) }
    ensures found { OnErr result (has_found stop ≡ true) }
    ensures back { IfErr result (λ value. (key : K) × (back ≡ Some (node.Pair key value))) }
{
    match stop {
        Stop::Answered(KeyAnswer::Found(_)) => Err(pair_of(back).1),
        Stop::Answered(_) | Stop::Asks(_) => Ok(()),
    }
}

/// Stores a pair, after a refresh, also in the place of another one of its key, and answers whether there was one.
pub fn insert<K: Eq + Hash + Drop, V: Drop, S: BuildHasher>(
    memory: &mut Plain<Node<K, V>>,
    setting: Setting,
    hasher: &S,
    last: &mut Last,
    key: K,
    value: V,
) -> Result<bool, Refused<K, V>>
    requires { (xs : List (K × V)) × Holds K.eq (hashed_by S.Hasher.finish S.Hasher.write S.build_hasher K.hash_input hasher.now) setting memory.old xs }
    ensures some { (xs : List (K × V)) → Holds K.eq (hashed_by S.Hasher.finish S.Hasher.write S.build_hasher K.hash_input hasher.now) setting memory.old xs → IfOk result (λ was. was ≡ is_some (found_by (K.eq key) xs)) }
    ensures stored { (xs : List (K × V)) → Holds K.eq (hashed_by S.Hasher.finish S.Hasher.write S.build_hasher K.hash_input hasher.now) setting memory.old xs
        → OnOk result (QuiescentWith K.eq (hashed_by S.Hasher.finish S.Hasher.write S.build_hasher K.hash_input hasher.now) setting memory.new last.new (left_by (K.eq key) xs ++ ((key, value) ∷ [])) (found_by (K.eq key) xs) (Some (key, value))) }
    ensures refused { (xs : List (K × V)) → Holds K.eq (hashed_by S.Hasher.finish S.Hasher.write S.build_hasher K.hash_input hasher.now) setting memory.old xs
        → OnErr result (QuiescentWith K.eq (hashed_by S.Hasher.finish S.Hasher.write S.build_hasher K.hash_input hasher.now) setting memory.new last.new xs None None) }
    ensures back { IfErr result (λ r. (r.key ≡ key) × (r.value ≡ value)) }
    ensures fault { IfErr result (λ r. IsRoom r.fault) }
    ensures capacity { (xs : List (K × V)) → Holds K.eq (hashed_by S.Hasher.finish S.Hasher.write S.build_hasher K.hash_input hasher.now) setting memory.old xs → IfErr result (λ r. r.fault ≡ Capacity → CannotGrowIn memory.new setting) }
    ensures because { IfErr result (λ r. OnceRefreshed setting memory.old (λ m. HasStopped K.eq K.eq (hashed_by S.Hasher.finish S.Hasher.write S.build_hasher K.hash_input) hasher.entry setting m (K.eq key) (Begun inserts (Some (node.Pair key value))) memory.new (Err r.fault))) }
    ensures keeps { (xs : List (K × V)) → Holds K.eq (hashed_by S.Hasher.finish S.Hasher.write S.build_hasher K.hash_input hasher.now) setting memory.old xs
        → HoldsOn (if_stored result (key, value)) xs (held_in memory.old) (held_in memory.new) }
{
    refresh(memory, setting, hasher);
    *last = Last::NONE;
    let hash = hasher.hash_of(&key);
    match store(memory, setting, hasher, hash, There::Puts, key, value) {
        (Ok(stop), _) => {
            *last = told_at(stop);
            Ok(replaced(stop))
        }
        (Err(fault), back) => Err(refused(fault, back)),
    }
}

/// Stores a pair, after a refresh, if its key is not there yet. Where it is there, the value is handed back.
pub fn try_insert<K: Eq + Hash + Drop, V: Drop, S: BuildHasher>(
    memory: &mut Plain<Node<K, V>>,
    setting: Setting,
    hasher: &S,
    last: &mut Last,
    key: K,
    value: V,
) -> Result<Result<(), V>, Refused<K, V>>
    requires { (xs : List (K × V)) × Holds K.eq (hashed_by S.Hasher.finish S.Hasher.write S.build_hasher K.hash_input hasher.now) setting memory.old xs }
    ensures stored { (xs : List (K × V)) → Holds K.eq (hashed_by S.Hasher.finish S.Hasher.write S.build_hasher K.hash_input hasher.now) setting memory.old xs
        → IfOk result (λ tried. OnOk tried ((found_by (K.eq key) xs ≡ None) × QuiescentWith K.eq (hashed_by S.Hasher.finish S.Hasher.write S.build_hasher K.hash_input hasher.now) setting memory.new last.new (xs ++ ((key, value) ∷ [])) None (Some (key, value)))) }
    ensures found { (xs : List (K × V)) → Holds K.eq (hashed_by S.Hasher.finish S.Hasher.write S.build_hasher K.hash_input hasher.now) setting memory.old xs
        → IfOk result (λ tried. OnErr tried (IsTrue (is_some (found_by (K.eq key) xs)) × QuiescentWith K.eq (hashed_by S.Hasher.finish S.Hasher.write S.build_hasher K.hash_input hasher.now) setting memory.new last.new xs None (found_by (K.eq key) xs))) }
    ensures kept { IfOk result (λ tried. IfErr tried (λ back. back ≡ value)) }
    ensures refused { (xs : List (K × V)) → Holds K.eq (hashed_by S.Hasher.finish S.Hasher.write S.build_hasher K.hash_input hasher.now) setting memory.old xs
        → OnErr result (QuiescentWith K.eq (hashed_by S.Hasher.finish S.Hasher.write S.build_hasher K.hash_input hasher.now) setting memory.new last.new xs None None) }
    ensures back { IfErr result (λ r. (r.key ≡ key) × (r.value ≡ value)) }
    ensures fault { IfErr result (λ r. IsRoom r.fault) }
    ensures capacity { (xs : List (K × V)) → Holds K.eq (hashed_by S.Hasher.finish S.Hasher.write S.build_hasher K.hash_input hasher.now) setting memory.old xs → IfErr result (λ r. r.fault ≡ Capacity → CannotGrowIn memory.new setting) }
    ensures because { IfErr result (λ r. OnceRefreshed setting memory.old (λ m. HasStopped K.eq K.eq (hashed_by S.Hasher.finish S.Hasher.write S.build_hasher K.hash_input) hasher.entry setting m (K.eq key) (Begun tries_to_insert (Some (node.Pair key value))) memory.new (Err r.fault))) }
    ensures keeps { (xs : List (K × V)) → Holds K.eq (hashed_by S.Hasher.finish S.Hasher.write S.build_hasher K.hash_input hasher.now) setting memory.old xs
        → HoldsOn (if_tried result (key, value)) xs (held_in memory.old) (held_in memory.new) }
{
    refresh(memory, setting, hasher);
    *last = Last::NONE;
    let hash = hasher.hash_of(&key);
    match store(memory, setting, hasher, hash, There::Answers, key, value) {
        (Ok(stop), back) => {
            *last = told_at(stop);
            Ok(tried(stop, back))
        }
        (Err(fault), back) => Err(refused(fault, back)),
    }
}
