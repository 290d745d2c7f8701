//! Removals of the pair of a key, which is asked for by whatever is equivalent to it. Each is run to its end by the one owner.
ghost use Rattle.std.specs.Prelude.{◌≡◌, List, [], None, if◌then◌else◌};
ghost use Rattle.std.specs.Option.{ForSome};
ghost use Rattle.papaya_raw.specs.declared.machines.asking.MachineReply.TheVariants as replies;
ghost use Rattle.owner_calls.specs.Given.CallersKind.{removes, removes_if};
ghost use Rattle.owner_calls.specs.Given.CallersPairs.{Begun, IsTold};
ghost use Rattle.owner_asks.specs.Asks.Asking.{EndsAs, by_lent};
ghost use Rattle.owner_asks.specs.Asks.Closures.{TestsAs, TestTakes, Removing};
ghost use Rattle.owner_calls.specs.Owned.Calling.{HasStopped, stop_by};
ghost use Rattle.owner_calls.specs.Owned.Owned.{Holds, EndsBy, found_by, hashed_by};

use crate::asking::{finish, start};
use map_tables::{Equivalent, Hashes, Lent, Node, Setting};
use owner_calls::{OnKey, Stop, pair_at, run_removal};
use papaya_raw::machines::{KeyAnswer, KeyCall, MachineReply};
use seize_words::{Fault, Plain};
use std::hash::{BuildHasher, Hash};
use std::marker::PhantomData;

/// Removes the pair of a key.
pub fn remove<K: Eq + Hash + Drop, V: Drop, Q: Equivalent<K>, S: BuildHasher>(
    memory: &mut Plain<Node<K, V>>,
    setting: Setting,
    hasher: &S,
    asked: &Q,
) -> Result<Stop, Fault>
    requires { (xs : List (K × V)) × Holds K.eq (hashed_by S.Hasher.finish S.Hasher.write S.build_hasher K.hash_input hasher.now) setting memory.old xs }
    ensures comes { (xs : List (K × V)) → Holds K.eq (hashed_by S.Hasher.finish S.Hasher.write S.build_hasher K.hash_input hasher.now) setting memory.old xs
        → EndsBy K.eq (hashed_by S.Hasher.finish S.Hasher.write S.build_hasher K.hash_input hasher.now) setting memory.new removes None (Q.Equivalent.equivalent asked.now) xs result }
    ensures ran { HasStopped (by_lent Q.Equivalent.equivalent) K.eq (hashed_by S.Hasher.finish S.Hasher.write S.build_hasher K.hash_input) hasher.entry setting memory.old (Q.Equivalent.equivalent asked.now) (Begun removes None) memory.new result }
{
    let hash = hasher.hash_of(asked);
    let lent = Lent {
        asked,
        keys: PhantomData,
    };
    run_removal::<K, V, Lent<'_, K, Q>, S>(memory, hasher, setting, hash, lent)
}

/// A choice, as a reply.
fn chosen<V>(yes: bool) -> MachineReply<V>
    ensures { result ≡ (if yes then replies.Yes else replies.No) }
{
    if yes {
        MachineReply::Yes
    } else {
        MachineReply::No
    }
}

/// Removes the pair of a key, if a test of it answers yes. The test is called where the key is there, and else not at all.
pub fn remove_if<
    K: Eq + Hash + Drop,
    V: Drop,
    Q: Equivalent<K>,
    S: BuildHasher,
    F: FnOnce(&K, &V) -> bool,
>(
    memory: &mut Plain<Node<K, V>>,
    setting: Setting,
    hasher: &S,
    asked: &Q,
    test: F,
) -> Result<KeyAnswer, Fault>
    requires holds { (xs : List (K × V)) × Holds K.eq (hashed_by S.Hasher.finish S.Hasher.write S.build_hasher K.hash_input hasher.now) setting memory.old xs
        × ForSome (found_by (Q.Equivalent.equivalent asked.now) xs) (TestTakes F.FnOnce test) }
    ensures comes { (xs : List (K × V)) → Holds K.eq (hashed_by S.Hasher.finish S.Hasher.write S.build_hasher K.hash_input hasher.now) setting memory.old xs
        → EndsAs K.eq (hashed_by S.Hasher.finish S.Hasher.write S.build_hasher K.hash_input hasher.now) setting memory.new (Q.Equivalent.equivalent asked.now) xs None (Removing (TestsAs F.FnOnce test)) result }
    ensures ran { HasStopped (by_lent Q.Equivalent.equivalent) K.eq (hashed_by S.Hasher.finish S.Hasher.write S.build_hasher K.hash_input) hasher.entry setting memory.old (Q.Equivalent.equivalent asked.now) (IsTold removes_if None []) memory.new (stop_by (λ fault. fault) result) }
{
    let hash = hasher.hash_of(asked);
    let lent = Lent {
        asked,
        keys: PhantomData,
    };
    let call = KeyCall::remove_if(setting, hash, lent);
    let mut machine: OnKey<'_, K, V, Lent<'_, K, Q>, S> = OnKey {
        call,
        hasher,
        unstored: None,
    };
    match start(memory, setting, &mut machine) {
        Ok(Stop::Answered(answer)) => Ok(answer),
        Ok(Stop::Asks(Some(word))) => {
            let (key, value) = pair_at(memory, word);
            let yes = test(key, value);
            let reply = chosen(yes);
            finish(memory, setting, &mut machine, reply)
        }
        Ok(Stop::Asks(None)) => unreachable!(),
        Err(fault) => Err(fault),
    }
}
