//! Removals from a map for one owner. Each change begins with a refresh.
ghost use Rattle.std.specs.Prelude.{◌≡◌, ◌≤◌, [], None, is_some, length, option_map, IfErr, IfOk, IsOk, OnOk, OnErr, MatchResult};
ghost use Rattle.std.specs.Borrow.{sem};
ghost use Rattle.std.specs.List.Sorted.{IsPermutation};
ghost use Rattle.std.specs.Option.{option_copied};
ghost use Rattle.owner_asks.specs.Given.LateFaults.{IsRoom};
ghost use Rattle.map_straight.specs.Shown.Chain.{CannotGrow};
ghost use Rattle.seize_words.specs.declared.fault.Fault.TheVariants.{Capacity};
ghost use Rattle.owner_rests.specs.Given.{found_by, left_by};
ghost use Rattle.owner_rests.specs.ShowsPairs.Maps.{HasNow, Keeps, LastTook};

use crate::map::HashMap;
use map_tables::Equivalent;
use seize_words::{Fault, Receiver};
use std::hash::{BuildHasher, Hash};

/// Removes the pair of a key, and answers whether there was one, which `taken` shows until the next change. The faults are `Fault::Capacity`, where no
/// table can follow the map's last one, and `Fault::Memory`; then no pair has changed.
/// While the map has one table at most, it is not refused, and the map has one at most then.
pub fn take<K: Eq + Hash + Drop, V: Drop, S: BuildHasher, R: Receiver<(K, V)>, Q: Equivalent<K>>(
    map: &mut HashMap<K, V, S, R>,
    asked: &Q,
) -> Result<bool, Fault>
    ensures some { IfOk result (λ was. was ≡ is_some (found_by (Q.Equivalent.equivalent asked.now) map.old.pairs)) }
    ensures removed { OnOk result (IsPermutation map.new.pairs (left_by (Q.Equivalent.equivalent asked.now) map.old.pairs)) }
    ensures refused { OnErr result (IsPermutation map.new.pairs map.old.pairs) }
    ensures last { MatchResult result (λ _. LastTook map.new (found_by (Q.Equivalent.equivalent asked.now) map.old.pairs) None) (λ _. LastTook map.new None None) }
    ensures fault { IfErr result IsRoom }
    ensures capacity { IfErr result (λ fault. fault ≡ Capacity → CannotGrow map.new.tables) }
    ensures steady { length map.old.tables ≤ 1 → IsOk result }
    ensures steady_then { length map.old.tables ≤ 1 → length map.new.tables ≤ 1 }
    ensures hasher { map.new.hasher ≡ map.old.hasher }
    ensures keeps { Keeps [] map.old map.new }
{
    owner_rests::remove(
        &mut map.resting.memory,
        map.resting.setting,
        &map.hasher,
        &mut map.resting.last,
        asked,
    )
}

impl<K: Eq + Hash + Drop, V: Drop, S: BuildHasher, R: Receiver<(K, V)>> HashMap<K, V, S, R> {
    ghost use Rattle.owner_map.specs.Lent.{EndsSo};

    /// Removes the pair of a key, and answers its value, which can be looked at until the next change, if the key was in the map. The faults are
    /// `Fault::Capacity`, where no table can follow the map's last one, and `Fault::Memory`; then no pair has changed.
    /// While the map has one table at most, it is not refused, and the map has one at most then.
    pub fn remove<Q: Equivalent<K>>(&mut self, asked: &Q) -> Result<Option<&V>, Fault>
        ensures* after { sem 𝓛 (EndsSo K.row V.row S.row R.row S.Hasher.row K.Hash S.BuildHasher S.Hasher.Hasher self.entry (λ map. MatchResult result (λ _. HasNow map (left_by (Q.Equivalent.equivalent asked.now) self.old.pairs) (found_by (Q.Equivalent.equivalent asked.now) self.old.pairs) None) (λ fault. HasNow map self.old.pairs None None × (fault ≡ Capacity → CannotGrow map.tables)) × (map.hasher ≡ self.old.hasher) × Keeps [] self.old map × (length self.old.tables ≤ 1 → length map.tables ≤ 1))) }
        ensures value { IfOk result (λ was. option_copied was ≡ option_map (λ x. x.1) (found_by (Q.Equivalent.equivalent asked.now) self.old.pairs)) }
        ensures fault { IfErr result IsRoom }
        ensures steady { length self.old.tables ≤ 1 → IsOk result }
    {
        match take(self, asked) {
            Ok(_) => match self.taken() {
                Some((_, value)) => Ok(Some(value)),
                None => Ok(None),
            },
            Err(fault) => Err(fault),
        }
    }

    /// Removes the pair of a key, and answers it, to be looked at until the next change, if the key was in the map. The faults are
    /// `Fault::Capacity`, where no table can follow the map's last one, and `Fault::Memory`; then no pair has changed.
    /// While the map has one table at most, it is not refused, and the map has one at most then.
    pub fn remove_entry<Q: Equivalent<K>>(&mut self, asked: &Q) -> Result<Option<(&K, &V)>, Fault>
        ensures* after { sem 𝓛 (EndsSo K.row V.row S.row R.row S.Hasher.row K.Hash S.BuildHasher S.Hasher.Hasher self.entry (λ map. MatchResult result (λ _. HasNow map (left_by (Q.Equivalent.equivalent asked.now) self.old.pairs) (found_by (Q.Equivalent.equivalent asked.now) self.old.pairs) None) (λ fault. HasNow map self.old.pairs None None × (fault ≡ Capacity → CannotGrow map.tables)) × (map.hasher ≡ self.old.hasher) × Keeps [] self.old map × (length self.old.tables ≤ 1 → length map.tables ≤ 1))) }
        ensures pair { IfOk result (λ was. option_map (λ x. (x.0.now, x.1.now)) was ≡ found_by (Q.Equivalent.equivalent asked.now) self.old.pairs) }
        ensures fault { IfErr result IsRoom }
        ensures steady { length self.old.tables ≤ 1 → IsOk result }
    {
        match take(self, asked) {
            Ok(_) => Ok(self.taken()),
            Err(fault) => Err(fault),
        }
    }
}
