//! What goes over all pairs of a map for one owner, and removes them. Each change begins with a refresh.
ghost use Rattle.std.specs.Prelude.{◌≡◌, ◌≤◌, None, Bool, List, [], length, IfErr, IsOk, OnOk, OnErr, filter};
ghost use Rattle.std.specs.List.Sorted.{IsPermutation};
ghost use Rattle.owner_asks.specs.Given.LateFaults.{IsRoom};
ghost use Rattle.map_straight.specs.Shown.Chain.{CannotGrow};
ghost use Rattle.seize_words.specs.declared.fault.Fault.TheVariants.{Capacity};
ghost use Rattle.owner_rests.specs.Given.{AnswersByTest, KeepsOf};
ghost use Rattle.owner_rests.specs.ShowsPairs.Maps.{Keeps, LastTook};

use crate::map::HashMap;
use owner_rests::Last;
use seize_words::{Fault, Receiver};
use std::hash::{BuildHasher, Hash};

impl<K: Eq + Hash + Drop, V: Drop, S: BuildHasher, R: Receiver<(K, V)>> HashMap<K, V, S, R> {
    /// Removes all pairs. The faults are `Fault::Capacity`, where no table can follow the map's last one, and `Fault::Memory`: a growth that was under
    /// way could not be seen through. Then no pair has changed. While the map has one table at most, it is not refused, and the map has one at most then.
    pub fn clear(&mut self) -> Result<(), Fault>
        ensures done { OnOk result (self.new.pairs ≡ []) }
        ensures refused { OnErr result (IsPermutation self.new.pairs self.old.pairs) }
        ensures last { LastTook self.new None None }
        ensures fault { IfErr result IsRoom }
        ensures capacity { IfErr result (λ fault. fault ≡ Capacity → CannotGrow self.new.tables) }
        ensures steady { length self.old.tables ≤ 1 → IsOk result }
        ensures steady_then { length self.old.tables ≤ 1 → length self.new.tables ≤ 1 }
        ensures hasher { self.new.hasher ≡ self.old.hasher }
        ensures keeps { Keeps [] self.old self.new }
    {
        self.resting.last = Last::NONE;
        owner_rests::clear(&mut self.resting.memory, self.resting.setting, &self.hasher)
    }

    /// Keeps just the pairs for which the closure answers `true`. It is called with each pair once, in which order is not said. The faults are
    /// `Fault::Capacity`, where no table can follow the map's last one, and `Fault::Memory`: a growth that was under way could not be seen through.
    /// Then no pair has changed. While the map has one table at most, it is not refused, and the map has one at most then.
    pub fn retain<F: FnMut(&K, &V) -> bool>(&mut self, keep: F) -> Result<(), Fault>
        requires callable { F.IsAlwaysCallable keep }
        ensures done { OnOk result ((kept : List (K × V)) × KeepsOf F.FnMut keep self.old.pairs kept × IsPermutation self.new.pairs kept) }
        ensures by_test { (test : K → V → Bool) → AnswersByTest F.FnMut test keep → OnOk result (IsPermutation self.new.pairs (filter (λ x. test x.0 x.1) self.old.pairs)) }
        ensures refused { OnErr result (IsPermutation self.new.pairs self.old.pairs) }
        ensures last { LastTook self.new None None }
        ensures fault { IfErr result IsRoom }
        ensures capacity { IfErr result (λ fault. fault ≡ Capacity → CannotGrow self.new.tables) }
        ensures steady { length self.old.tables ≤ 1 → IsOk result }
        ensures steady_then { length self.old.tables ≤ 1 → length self.new.tables ≤ 1 }
        ensures hasher { self.new.hasher ≡ self.old.hasher }
        ensures keeps { Keeps [] self.old self.new }
    {
        self.resting.last = Last::NONE;
        owner_rests::retain(
            &mut self.resting.memory,
            self.resting.setting,
            &self.hasher,
            keep,
        )
    }
}
