//! Removals that the owner of a map runs to their ends.
ghost use Rattle.papaya_raw.specs.CallPoints.{removing};
ghost use Rattle.owner_whole.specs.Strides.Ending.{Ends, RunsTo};
ghost use Rattle.owner_calls.specs.Owned.Machines.{on_call, on_key_plan};
ghost use Rattle.owner_calls.specs.declared.machines.OnKey.{OnKey as Running};

use crate::machines::{OnKey, Stop};
use crate::running::run_skimming;
use map_straight::{RemovalAt, removal_of, remove};
use map_tables::{Equivalent, Hashes, Node, Setting};
use seize_words::{Fault, Plain};
use std::hash::Hash;

/// Runs a removal to its end: as straight code, and as a machine from where that stops.
pub fn run_removal<K: Eq + Hash + Drop, V: Drop, Q: Equivalent<K> + Drop, S: Hashes<K>>(
    memory: &mut Plain<Node<K, V>>,
    hasher: &S,
    setting: Setting,
    hash: u64,
    asked: Q,
) -> Result<Stop, Fault>
    requires { Ends (on_key_plan Q.Equivalent.equivalent K.eq S.hash) (on_call {V = V} hasher (removing setting hash asked)) memory.old }
    ensures { (x : Running K V Q S) × RunsTo (on_key_plan Q.Equivalent.equivalent K.eq S.hash) (on_call hasher.entry (removing setting hash asked)) memory.old x memory.new result }
{
    match remove::<K, V, Q, S, Plain<Node<K, V>>>(memory, hasher, setting, hash, &asked) {
        RemovalAt::Answered(answer) => Ok(Stop::Answered(answer)),
        RemovalAt::Stands(trial, removal) => {
            let call = removal_of(setting, hash, asked, trial, removal);
            let mut machine: OnKey<'_, K, V, Q, S> = OnKey {
                call,
                hasher,
                unstored: None,
            };
            run_skimming(&mut machine, memory)
        }
    }
}
