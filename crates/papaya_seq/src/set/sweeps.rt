//! What goes over all elements of a set for one owner, and removes them.
ghost use Rattle.std.specs.Prelude.{◌≡◌, ◌≤◌, None, Bool, List, [], length, IfErr, IsOk, OnOk, OnErr, filter};
ghost use Rattle.std.specs.Fn.{ComputesKey};
ghost use Rattle.std.specs.List.Sorted.{IsPermutation};
ghost use Rattle.owner_map.specs.Given.{CannotGrow, IsRoom};
ghost use Rattle.papaya_seq.specs.Sets.{KeepsElements, KeepsIn, LastTookOut};
ghost use Rattle.seize_words.specs.declared.fault.Fault.TheVariants.{Capacity};

use super::HashSet;
use owner_map::Receiver;
use seize_words::Fault;
use std::hash::{BuildHasher, Hash};

impl<K: Eq + Hash + Drop, S: BuildHasher, R: Receiver<(K, ())>> HashSet<K, S, R> {
    /// Removes all elements. The faults are `Fault::Capacity`, where no table can follow the set's last one, and `Fault::Memory`: a growth that was under
    /// way could not be seen through. Then no element has changed. While the set has one table at most, it is not refused, and the set has one at most then.
    pub fn clear(&mut self) -> Result<(), Fault>
        ensures done { OnOk result (self.new.elements ≡ []) }
        ensures refused { OnErr result (IsPermutation self.new.elements self.old.elements) }
        ensures last { LastTookOut self.new None None }
        ensures fault { IfErr result IsRoom }
        ensures capacity { IfErr result (λ fault. fault ≡ Capacity → CannotGrow self.new.tables) }
        ensures steady { length self.old.tables ≤ 1 → IsOk result }
        ensures steady_then { length self.old.tables ≤ 1 → length self.new.tables ≤ 1 }
        ensures hasher { self.new.hasher ≡ self.old.hasher }
        ensures keeps { KeepsIn [] self.old self.new }
    {
        self.map.clear()
    }

    /// Keeps just the elements for which the closure answers `true`. It is called with each once, in which order is not said. The faults are
    /// `Fault::Capacity`, where no table can follow the set's last one, and `Fault::Memory`: a growth that was under way could not be seen through.
    /// Then no element has changed. While the set has one table at most, it is not refused, and the set has one at most then.
    pub fn retain<F: FnMut(&K) -> bool>(&mut self, mut keep: F) -> Result<(), Fault>
        requires callable { F.IsAlwaysCallable keep }
        ensures done { OnOk result ((kept : List K) × KeepsElements F.FnMut keep self.old.elements kept × IsPermutation self.new.elements kept) }
        ensures by_test { (test : K → Bool) → ComputesKey F.FnMut test keep → OnOk result (IsPermutation self.new.elements (filter test self.old.elements)) }
        ensures refused { OnErr result (IsPermutation self.new.elements self.old.elements) }
        ensures last { LastTookOut self.new None None }
        ensures fault { IfErr result IsRoom }
        ensures capacity { IfErr result (λ fault. fault ≡ Capacity → CannotGrow self.new.tables) }
        ensures steady { length self.old.tables ≤ 1 → IsOk result }
        ensures steady_then { length self.old.tables ≤ 1 → length self.new.tables ≤ 1 }
        ensures hasher { self.new.hasher ≡ self.old.hasher }
        ensures keeps { KeepsIn [] self.old self.new }
    {
        self.map.retain(move |element, _| keep(element))
    }
}
