//! A call on a key that computes what is to be done with it, run to its end by the one owner.
ghost use Rattle.std.specs.Prelude.{List, [], Some};
ghost use Rattle.owner_calls.specs.Given.CallersKind.{computes};
ghost use Rattle.owner_calls.specs.Given.CallersPairs.{IsTold};
ghost use Rattle.owner_asks.specs.Asks.Closures.{ComputesAs, ComputesTo, ComputingTakes, computing_stop};
ghost use Rattle.owner_calls.specs.Owned.Calling.{HasStopped};
ghost use Rattle.owner_calls.specs.Owned.Owned.{Holds, found_by, hashed_by};

use crate::asking::{key_of, start};
use crate::updates::replied;
use map_tables::{Hashes, Node, Setting};
use owner_calls::{OnKey, Stop, shown_at};
use papaya_raw::machines::{KeyAnswer, KeyCall, MachineReply};
use seize_words::{Operation, Plain, RefusedKey};
use std::hash::{BuildHasher, Hash};

/// What a computing has come to.
#[derive(Drop)]
pub enum Computed<T> {
    /// A pair was stored, replaced or removed, as this answer says.
    Changed(KeyAnswer),
    /// Nothing has changed: this was answered, of the pair that the call has found, or of none.
    Aborted(T, KeyAnswer),
}

/// Stores a value for a key, removes its pair, or leaves it, as a computing says. That is called with the pair that is there, or with none. Where it says that the
/// pair is to be removed that is not there, the call is refused.
pub fn compute<
    K: Eq + Hash + Drop,
    V: Drop,
    S: BuildHasher,
    T: Drop,
    F: FnOnce(Option<(&K, &V)>) -> Operation<V, T>,
>(
    memory: &mut Plain<Node<K, V>>,
    setting: Setting,
    hasher: &S,
    key: K,
    compute: F,
) -> Result<Computed<T>, RefusedKey<K>>
    requires holds { (xs : List (K × V)) × Holds K.eq (hashed_by S.Hasher.finish S.Hasher.write S.build_hasher K.hash_input hasher.now) setting memory.old xs
        × ComputingTakes F.FnOnce compute (found_by (K.eq key) xs) }
    ensures comes { (xs : List (K × V)) → Holds K.eq (hashed_by S.Hasher.finish S.Hasher.write S.build_hasher K.hash_input hasher.now) setting memory.old xs
        → ComputesTo K.eq (hashed_by S.Hasher.finish S.Hasher.write S.build_hasher K.hash_input hasher.now) setting memory.new key xs (ComputesAs F.FnOnce compute) result }
    ensures ran { HasStopped K.eq K.eq (hashed_by S.Hasher.finish S.Hasher.write S.build_hasher K.hash_input) hasher.entry setting memory.old (K.eq key) (IsTold computes (Some key) []) memory.new (computing_stop result) }
{
    let hash = hasher.hash_of(&key);
    let call = KeyCall::compute(setting, hash, key);
    let mut machine: OnKey<'_, K, V, K, S> = OnKey {
        call,
        hasher,
        unstored: None,
    };
    match start(memory, setting, &mut machine) {
        Ok(Stop::Asks(asked)) => match compute(shown_at(memory, asked)) {
            Operation::Insert(value) => match replied(
                memory,
                setting,
                &mut machine,
                MachineReply::Insert(value),
            ) {
                Ok(answer) => Ok(Computed::Changed(answer)),
                Err(refused) => Err(refused),
            },
            Operation::Remove => match replied(
                memory,
                setting,
                &mut machine,
                MachineReply::Remove,
            ) {
                Ok(answer) => Ok(Computed::Changed(answer)),
                Err(refused) => Err(refused),
            },
            Operation::Abort(end) => match replied(
                memory,
                setting,
                &mut machine,
                MachineReply::Abort,
            ) {
                Ok(answer) => Ok(Computed::Aborted(end, answer)),
                Err(refused) => Err(refused),
            },
        },
        Ok(Stop::Answered(_)) => unreachable!(),
        Err(fault) => {
            let key = key_of(&mut machine);
            Err(RefusedKey { fault, key })
        }
    }
}
