//! A call that stores a pair of its own: straight code up to an end of the call, or a machine from where that stops.
ghost use Rattle.std.specs.Prelude.{◌≡◌};
ghost use Rattle.owner_calls.specs.Given.StridesEnding.{Ends};
ghost use Rattle.owner_calls.specs.Owned.Machines.{on_key_plan};
ghost use Rattle.owner_rests.specs.Rests.Storing.{StoresTo, storing, with_own};
ghost use Rattle.papaya_raw.specs.CallPoints.{untried};
ghost use Rattle.papaya_raw.specs.declared.machines.call.Calling.TheVariants as at;
ghost use Rattle.map_straight.specs.Straight.Storing.{calling_at};

use map_straight::{Stored, StoringPoint, call_of};
use map_tables::{Hashes, Node, Setting, Trial};
use owner_calls::{OnKey, Stop, run_skimming};
use papaya_raw::machines::{There, link_to};
use seize_words::{Fault, Memory, Plain};
use std::hash::Hash;

/// Runs a call that stands here to its end.
fn go_on<K: Eq + Hash + Drop, V: Drop, S: Hashes<K>>(
    memory: &mut Plain<Node<K, V>>,
    setting: Setting,
    hasher: &S,
    hash: u64,
    there: There,
    own: u64,
    trial: Trial,
    spot: StoringPoint,
) -> (Result<Stop, Fault>, Option<Node<K, V>>)
    requires { Ends (on_key_plan K.eq K.eq S.hash) (with_own setting hasher hash there own trial (calling_at setting own trial spot)) memory.old }
    ensures { StoresTo K.eq S.hash (with_own setting hasher.entry hash there own trial (calling_at setting own trial spot)) memory.old memory.new result }
{
    let call = call_of(setting, hash, there, own, trial, spot);
    let mut machine: OnKey<'_, K, V, K, S> = OnKey {
        call,
        hasher,
        unstored: None,
    };
    let end = run_skimming(&mut machine, memory);
    (end, machine.unstored)
}

/// Runs such a call to its end from the root on.
#[inline(always)]
fn from_root<K: Eq + Hash + Drop, V: Drop, S: Hashes<K>>(
    memory: &mut Plain<Node<K, V>>,
    setting: Setting,
    hasher: &S,
    hash: u64,
    there: There,
    own: u64,
) -> (Result<Stop, Fault>, Option<Node<K, V>>)
    requires { Ends (on_key_plan K.eq K.eq S.hash) (with_own setting hasher hash there own untried at.Roots) memory.old }
    ensures { StoresTo K.eq S.hash (with_own setting hasher.entry hash there own untried at.Roots) memory.old memory.new result }
{
    match map_straight::store::<K, V, K, S, Plain<Node<K, V>>>(
        memory, hasher, setting, hash, there, own,
    ) {
        Stored::Answered(answer) => (Ok(Stop::Answered(answer)), None),
        Stored::Stands(trial, spot) => {
            go_on(memory, setting, hasher, hash, there, own, trial, spot)
        }
    }
}

/// Runs a call that stores a pair to its end, from its beginning, and answers that pair, too, where it was not stored. `there` says what
/// becomes of a pair of its key.
pub(crate) fn store<K: Eq + Hash + Drop, V: Drop, S: Hashes<K>>(
    memory: &mut Plain<Node<K, V>>,
    setting: Setting,
    hasher: &S,
    hash: u64,
    there: There,
    key: K,
    value: V,
) -> (Result<Stop, Fault>, Option<Node<K, V>>)
    requires { Ends (on_key_plan K.eq K.eq S.hash) (storing setting hasher hash there key value) memory.old }
    ensures { StoresTo K.eq S.hash (storing setting hasher.entry hash there key value) memory.old memory.new result }
{
    match memory.make(Node::Pair(key, value), 0) {
        Ok(block) => {
            let own = link_to(block, hash);
            from_root(memory, setting, hasher, hash, there, own)
        }
        Err(pair) => (Err(Fault::Memory), Some(pair)),
    }
}
