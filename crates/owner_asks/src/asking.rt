//! Calls on a key that ask, run by the one owner of a memory: up to their question, and on from there.
ghost use Rattle.std.specs.Prelude.{◌≡◌, ℕ, Bool, List, [], Option, None, Some, IfErr};
ghost use Rattle.owner_calls.specs.Given.CallersKind.{Kind};
ghost use Rattle.owner_calls.specs.Given.CallersPairs.{IsTold};
ghost use Rattle.owner_calls.specs.Given.CallersTogether.{IsBegun};
ghost use Rattle.papaya_raw.specs.CallAsks.{replied};
ghost use Rattle.papaya_raw.specs.declared.machines.asking.MachineReply.TheVariants as replies;
ghost use Rattle.papaya_raw.specs.declared.machines.asking.Told.TheVariants as tells;
ghost use Rattle.owner_asks.specs.Asks.Asking.{IsTaken, EndsAs, Pauses, StartsAs, RepliedThis, HasKeyBack, HasPairBack};
ghost use Rattle.owner_calls.specs.Owned.Calling.{StopsReplied, stop_by};
ghost use Rattle.owner_calls.specs.Given.StridesEnding.{RunsTo};
ghost use Rattle.owner_calls.specs.Owned.Machines.{on_key_plan};
ghost use Rattle.owner_calls.specs.Owned.Owned.{Holds};

use map_tables::{Equivalent, Hashes, Node, Setting};
use owner_calls::{OnKey, Stop, run_skimming};
use papaya_raw::machines::{KeyAnswer, MachineReply, Told};
use seize_words::{Fault, Plain};
use std::hash::Hash;
use std::mem;

/// Takes the steps of a call that asks until it does, or has ended.
pub(crate) fn start<K: Eq + Hash + Drop, V: Drop, Q: Equivalent<K>, S: Hashes<K>>(
    memory: &mut Plain<Node<K, V>>,
    _setting: Setting,
    machine: &mut OnKey<'_, K, V, Q, S>,
) -> Result<Stop, Fault>
    requires fresh { machine.old.unstored ≡ None }
    requires begun { (xs : List (K × V)) × (kind : Kind) × (its : Option K) × (keys : K → Bool) × Holds K.eq (S.hash machine.old.hasher.now) _setting memory.old xs
        × IsBegun V K.eq (S.hash machine.old.hasher.now) Q.Equivalent.equivalent _setting (λ i. _setting.slot) 0 keys (IsTold kind its []) machine.old.call }
    ensures starts { (xs : List (K × V)) (kind : Kind) (its : Option K) (keys : K → Bool) → Holds K.eq (S.hash machine.old.hasher.now) _setting memory.old xs
        → IsBegun V K.eq (S.hash machine.old.hasher.now) Q.Equivalent.equivalent _setting (λ i. _setting.slot) 0 keys (IsTold kind its []) machine.old.call
        → StartsAs Q.Equivalent.equivalent K.eq S.hash _setting kind its keys xs machine.old.hasher machine.new memory.new result }
    ensures ran { RunsTo (on_key_plan Q.Equivalent.equivalent K.eq S.hash) machine.old memory.old machine.new memory.new result }
{
    run_skimming(machine, memory)
}

/// Tells a call what it has asked, and takes its steps until it has ended. It asks no more.
pub(crate) fn finish<K: Eq + Hash + Drop, V: Drop, Q: Equivalent<K>, S: Hashes<K>>(
    memory: &mut Plain<Node<K, V>>,
    _setting: Setting,
    machine: &mut OnKey<'_, K, V, Q, S>,
    reply: MachineReply<V>,
) -> Result<KeyAnswer, Fault>
    requires { (xs : List (K × V)) × (kind : Kind) × (its : Option K) × (keys : K → Bool) × (asked : Option ℕ)
        × Pauses Q.Equivalent.equivalent K.eq S.hash _setting kind its keys xs machine.old memory.old asked × IsTaken kind.takes asked reply }
    ensures ends { (xs : List (K × V)) (kind : Kind) (its : Option K) (keys : K → Bool) (asked : Option ℕ) → Pauses Q.Equivalent.equivalent K.eq S.hash _setting kind its keys xs machine.old memory.old asked
        → IsTaken kind.takes asked reply → EndsAs K.eq (S.hash machine.old.hasher.now) _setting memory.new keys xs its (RepliedThis keys xs reply) result }
    ensures key { (xs : List (K × V)) (kind : Kind) (key : K) (keys : K → Bool) (asked : Option ℕ) → Pauses Q.Equivalent.equivalent K.eq S.hash _setting kind (Some key) keys xs machine.old memory.old asked
        → IsTaken kind.takes asked reply → IfErr result (λ fault. HasKeyBack machine.new key) }
    ensures value { (xs : List (K × V)) (kind : Kind) (key : K) (value : V) (keys : K → Bool) → Pauses Q.Equivalent.equivalent K.eq S.hash _setting kind (Some key) keys xs machine.old memory.old None
        → IsTaken kind.takes None reply → reply ≡ replies.Insert value → IfErr result (λ fault. HasPairBack machine.new key value) }
    ensures ran { StopsReplied Q.Equivalent.equivalent K.eq S.hash machine.old memory.old reply memory.new (stop_by (λ fault. fault) result) }
{
    let _taken = machine.call.reply(reply);
    match run_skimming(machine, memory) {
        Ok(Stop::Answered(answer)) => Ok(answer),
        Ok(Stop::Asks(_)) => unreachable!(),
        Err(fault) => Err(fault),
    }
}

/// The key of a call that was refused.
pub(crate) fn key_of<K: Drop, V: Drop, Q, S>(machine: &mut OnKey<'_, K, V, Q, S>) -> K
    requires { (key : K) × HasKeyBack machine.old key }
    ensures { (key : K) → HasKeyBack machine.old key → result ≡ key }
{
    match machine.unstored.take() {
        Some(Node::Pair(key, _)) => key,
        Some(Node::Table { .. } | Node::Shards) => unreachable!(),
        None => match machine.call.replies.key.take() {
            Some(key) => key,
            None => unreachable!(),
        },
    }
}

/// The value that a call was told to store where its key is missing.
fn value_of<V: Drop>(told: &mut Told<V>) -> V
    requires { (value : V) × (told.old ≡ tells.Value value) }
    ensures { told.old ≡ tells.Value result }
{
    match mem::replace(told, Told::Nothing) {
        Told::Value(value) => value,
        Told::Nothing | Told::Own | Told::Removes => unreachable!(),
    }
}

/// The key and the value of a call that was refused, and was to store them where the key is missing.
pub(crate) fn pair_of<K: Drop, V: Drop, Q, S>(machine: &mut OnKey<'_, K, V, Q, S>) -> (K, V)
    requires { (key : K) × (value : V) × HasPairBack machine.old key value }
    ensures { (key : K) (value : V) → HasPairBack machine.old key value → (result.0 ≡ key) × (result.1 ≡ value) }
{
    match machine.unstored.take() {
        Some(Node::Pair(key, value)) => (key, value),
        Some(Node::Table { .. } | Node::Shards) => unreachable!(),
        None => match machine.call.replies.key.take() {
            Some(key) => (key, value_of(&mut machine.call.replies.absent)),
            None => unreachable!(),
        },
    }
}
