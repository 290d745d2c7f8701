//! Steps of a call on a key, several at once: tries that pass a word which can be none of the key, and steps of machines within it.
ghost use Rattle.std.specs.Prelude.{◌≡◌, IfSome};
ghost use Rattle.seize_words.specs.OneMemory.Mem.{Can, Took, value_at};
ghost use Rattle.seize_words.specs.OneMemory.Plan.{May, Steps};
ghost use Rattle.seize.specs.declared.advance.Advance.TheVariants as progress;
ghost use Rattle.owner_whole.specs.Strides.Ending.{Ends, Leads, Strides};
ghost use Rattle.owner_calls.specs.Owned.Machines.{at_trial, on_key_plan};
ghost use Rattle.papaya_raw.specs.declared.machines.call.Calling.TheVariants as at;

use crate::machines::{OnKey, Stop};
use crate::skims::Skims;
use map_tables::{Aim, Equivalent, Finding, Hashes, Node, ResizeMode, Trial, may_be, seen};
use papaya_raw::machines::{Calling, Disposing};
use seize::{Advance, StepMachine};
use seize_words::{Look, Plain};
use std::hash::Hash;

/// The try after one of a call with this hash, where that passes such a word.
fn next_try<K: Eq + Hash + Drop, V: Drop, Q: Equivalent<K>, S: Hashes<K>>(
    memory: &Plain<Node<K, V>>,
    hash: u64,
    mode: ResizeMode,
    trial: Trial,
) -> Option<Trial>
    requires { (u : OnKey K V Q S) × (u.call.stands ≡ at.Probes) × May Can Took value_at memory.now (on_key_plan Q.Equivalent.equivalent K.eq S.hash (at_trial u trial)) }
    ensures { (u : OnKey K V Q S) → u.call.stands ≡ at.Probes → u.call.hash ≡ hash → u.call.setting.mode ≡ mode
        → IfSome result (λ next. Steps Took value_at memory.now (on_key_plan Q.Equivalent.equivalent K.eq S.hash (at_trial u trial)) memory.now (at_trial u next, progress.Goes)) }
{
    let word = memory.look().load(trial.at());
    if may_be(hash, word) {
        return None;
    }
    match seen(mode, Aim::Looks, word, false) {
        Finding::Passed => trial.meets(word).next(),
        Finding::Free | Finding::Moved | Finding::Copying | Finding::There => None,
    }
}

/// Returns the try from this one on up to which all pass such words.
pub fn last_try<K: Eq + Hash + Drop, V: Drop, Q: Equivalent<K>, S: Hashes<K>>(
    memory: &Plain<Node<K, V>>,
    hash: u64,
    mode: ResizeMode,
    first: Trial,
) -> Trial
    requires { (u : OnKey K V Q S) × (u.call.stands ≡ at.Probes) × (u.call.hash ≡ hash) × (u.call.setting.mode ≡ mode) × Ends (on_key_plan Q.Equivalent.equivalent K.eq S.hash) (at_trial u first) memory.now }
    ensures { (u : OnKey K V Q S) → u.call.stands ≡ at.Probes → u.call.hash ≡ hash → u.call.setting.mode ≡ mode
        → Leads (on_key_plan Q.Equivalent.equivalent K.eq S.hash) (at_trial u first) memory.now (at_trial u result) memory.now }
{
    let mut trial = first;
    for _ in 0..first.table.limit {
        match next_try::<K, V, Q, S>(memory, hash, mode, trial) {
            Some(next) => trial = next,
            None => return trial,
        }
    }
    trial
}

impl<K: Eq + Hash + Drop, V: Drop, Q: Equivalent<K>, S: Hashes<K>> OnKey<'_, K, V, Q, S> {
    /// Makes the tries that pass such words, and one more.
    fn probes(&mut self, memory: &mut Plain<Node<K, V>>) -> Advance<Stop>
        requires probing { self.old.call.stands ≡ at.Probes }
        requires ends { Ends (on_key_plan Q.Equivalent.equivalent K.eq S.hash) self.old memory.old }
        ensures { Strides (on_key_plan Q.Equivalent.equivalent K.eq S.hash) self.old memory.old memory.new (self.new, result) }
    {
        let (hash, mode, first) = (self.call.hash, self.call.setting.mode, self.call.trial);
        let last = last_try::<K, V, Q, S>(memory, hash, mode, first);
        self.call.trial = last;
        self.step(memory)
    }
}

impl<K: Eq + Hash + Drop, V: Drop, Q: Equivalent<K>, S: Hashes<K>> Skims<Node<K, V>, Stop>
    for OnKey<'_, K, V, Q, S> {
    fn skim(&mut self, memory: &mut Plain<Node<K, V>>) -> Advance<Stop> {
        match self.call.stands {
            Calling::Probes => self.probes(memory),
            Calling::Helps { .. } => self.helps(memory),
            Calling::Disposes { dispose, answer } => match dispose.stands {
                Disposing::Settles(settle) => self.disposes(memory, dispose, answer, settle),
                _ => self.step(memory),
            },
            _ => self.step(memory),
        }
    }
}
