//! An element is put into a set for one owner, or removed from it, or room is made for more.
ghost use Rattle.std.specs.Prelude.{◌≡◌, ◌≤◌, ◌⊎◌, Err, List, [], None, Some, is_none, is_some, find, length, IfOk, IfErr, IsOk, OnOk, OnErr, MatchResult};
ghost use Rattle.std.specs.List.Sorted.{IsPermutation};
ghost use Rattle.owner_map.specs.Given.{CannotGrow, FirstHas, IsRoom, NeedTooMany, if_stored, needed};
ghost use Rattle.seize_words.specs.declared.fault.Fault.TheVariants.{Capacity};
ghost use Rattle.papaya_seq.specs.Sets.{KeepsIn, LastTookOut, left_in, put_in};

use super::HashSet;
use map_tables::Equivalent;
use owner_map::{Receiver, RefusedKey, put, take};
use seize_words::Fault;
use std::hash::{BuildHasher, Hash};

impl<K: Eq + Hash + Drop, S: BuildHasher, R: Receiver<(K, ())>> HashSet<K, S, R> {
    /// Stores an element, also in the place of one that equals it, and answers whether there was none. The one whose place it took is shown by `taken`
    /// until the next change. The faults are `Fault::Capacity`, where no table can follow the set's last one, and `Fault::Memory`; then no element has changed.
    pub fn insert(&mut self, element: K) -> Result<bool, RefusedKey<K>>
        ensures fresh { IfOk result (λ new. new ≡ is_none (find (K.eq element) self.old.elements)) }
        ensures stored { OnOk result (IsPermutation self.new.elements (put_in K.eq self.old.elements element)) }
        ensures refused { OnErr result (IsPermutation self.new.elements self.old.elements) }
        ensures last { MatchResult result (λ _. LastTookOut self.new (find (K.eq element) self.old.elements) (Some element)) (λ _. LastTookOut self.new None None) }
        ensures in_any_order { (xs : List K) → IsPermutation self.old.elements xs → OnOk result (self.new.taken ≡ find (K.eq element) xs) }
        ensures back { IfErr result (λ r. r.key ≡ element) }
        ensures fault { IfErr result (λ r. IsRoom r.fault) }
        ensures capacity { IfErr result (λ r. r.fault ≡ Capacity → CannotGrow self.new.tables) }
        ensures hasher { self.new.hasher ≡ self.old.hasher }
        ensures keeps { KeepsIn (if_stored result element) self.old self.new }
    {
        match put(&mut self.map, element, ()) {
            Ok(was) => Ok(!was),
            Err(refused) => Err(RefusedKey {
                fault: refused.fault,
                key: refused.key,
            }),
        }
    }

    /// Removes the element that this asks for, and answers whether it was there; `taken` shows it until the next change. The faults are
    /// `Fault::Capacity`, where no table can follow the set's last one, and `Fault::Memory`; then no element has changed.
    /// While the set has one table at most, it is not refused, and the set has one at most then.
    pub fn remove<Q: Equivalent<K>>(&mut self, asked: &Q) -> Result<bool, Fault>
        ensures some { IfOk result (λ was. was ≡ is_some (find (Q.Equivalent.equivalent asked.now) self.old.elements)) }
        ensures removed { OnOk result (IsPermutation self.new.elements (left_in (Q.Equivalent.equivalent asked.now) self.old.elements)) }
        ensures refused { OnErr result (IsPermutation self.new.elements self.old.elements) }
        ensures last { MatchResult result (λ _. LastTookOut self.new (find (Q.Equivalent.equivalent asked.now) self.old.elements) None) (λ _. LastTookOut self.new None None) }
        ensures fault { IfErr result IsRoom }
        ensures capacity { IfErr result (λ fault. fault ≡ Capacity → CannotGrow self.new.tables) }
        ensures steady { length self.old.tables ≤ 1 → IsOk result }
        ensures steady_then { length self.old.tables ≤ 1 → length self.new.tables ≤ 1 }
        ensures hasher { self.new.hasher ≡ self.old.hasher }
        ensures keeps { KeepsIn [] self.old self.new }
    {
        take(&mut self.map, asked)
    }

    /// Makes room for so many further elements beside those that it has: its first table has the places that they need. No element changes, only
    /// their order may. The faults are `Fault::Capacity`, always where that is too many, and else where no table can follow the set's last one, and `Fault::Memory`.
    pub fn reserve(&mut self, additional: u64) -> Result<(), Fault>
        ensures elements { IsPermutation self.new.elements self.old.elements }
        ensures last { LastTookOut self.new None None }
        ensures fault { IfErr result IsRoom }
        ensures room { OnOk result (FirstHas (needed additional (length self.old.elements)) self.new.tables) }
        ensures capacity { IfErr result (λ fault. fault ≡ Capacity → CannotGrow self.new.tables ⊎ NeedTooMany additional (length self.old.elements)) }
        ensures refused { NeedTooMany additional (length self.old.elements) → result ≡ Err Capacity }
        ensures hasher { self.new.hasher ≡ self.old.hasher }
        ensures keeps { KeepsIn [] self.old self.new }
    {
        self.map.reserve(additional)
    }
}
