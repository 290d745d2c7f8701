//! Removals from a map for one owner that a test decides. Each begins with a refresh.
ghost use Rattle.std.specs.Prelude.{◌≡◌, ◌≤◌, [], None, Some, true, false, length, option_map, MatchOption, MatchResult, IfOk, IfErr, IsOk, OnErr};
ghost use Rattle.std.specs.Borrow.{sem};
ghost use Rattle.std.specs.Option.{ForSome};
ghost use Rattle.owner_asks.specs.Asks.Closures.{Removing, TestsAs, TestTakes};
ghost use Rattle.owner_asks.specs.Given.LateFaults.{IsRoom};
ghost use Rattle.map_straight.specs.Shown.Chain.{CannotGrow};
ghost use Rattle.seize_words.specs.declared.fault.Fault.TheVariants.{Capacity};
ghost use Rattle.owner_rests.specs.Given.{found_by};
ghost use Rattle.owner_rests.specs.Rests.Asking.{HasDone};
ghost use Rattle.owner_map.specs.Answers.{HasRemoved, IsLeft, IsRefused};
ghost use Rattle.owner_rests.specs.ShowsPairs.Maps.{HasNow, Keeps};

use crate::map::HashMap;
use map_tables::Equivalent;
use owner_rests::Change;
use seize_words::{Fault, Receiver};
use std::hash::{BuildHasher, Hash};

/// Removes the pair of a key, if a test of it answers yes. The test is called where the key is there, and else not at all. It answers `Removed`, `Kept` or
/// `Missing`. The faults are `Fault::Capacity`, where no table can follow the map's last one, and `Fault::Memory`; then no pair has changed.
/// While the map has one table at most, it is not refused, and the map has one at most then.
fn take_if<
    K: Eq + Hash + Drop,
    V: Drop,
    S: BuildHasher,
    R: Receiver<(K, V)>,
    Q: Equivalent<K>,
    F: FnOnce(&K, &V) -> bool,
>(map: &mut HashMap<K, V, S, R>, asked: &Q, test: F) -> Result<Change, Fault>
    requires callable { ForSome (found_by (Q.Equivalent.equivalent asked.now) map.old.pairs) (TestTakes F.FnOnce test) }
    ensures done { IfOk result (λ done. HasDone (Q.Equivalent.equivalent asked.now) None (Removing (TestsAs F.FnOnce test)) map.old.pairs (HasNow map.new) done) }
    ensures refused { OnErr result (HasNow map.new map.old.pairs None None) }
    ensures fault { IfErr result IsRoom }
    ensures capacity { IfErr result (λ fault. fault ≡ Capacity → CannotGrow map.new.tables) }
    ensures steady { length map.old.tables ≤ 1 → IsOk result }
    ensures steady_then { length map.old.tables ≤ 1 → length map.new.tables ≤ 1 }
    ensures hasher { map.new.hasher ≡ map.old.hasher }
    ensures keeps { Keeps [] map.old map.new }
{
    owner_rests::remove_if(
        &mut map.resting.memory,
        map.resting.setting,
        &map.hasher,
        &mut map.resting.last,
        asked,
        test,
    )
}

impl<K: Eq + Hash + Drop, V: Drop, S: BuildHasher, R: Receiver<(K, V)>> HashMap<K, V, S, R> {
    ghost use Rattle.owner_map.specs.Lent.{EndsSo};

    /// Removes the pair of a key, if a test of it answers yes, and lends it, or, where it answers no, the pair that stays; or nothing, where the key is not
    /// there. The test is called where it is there, and else not at all. The faults are `Fault::Capacity`, where no table can follow the map's last one, and
    /// `Fault::Memory`; then no pair has changed.
    /// While the map has one table at most, it is not refused, and the map has one at most then.
    pub fn remove_if<Q: Equivalent<K>, F: FnOnce(&K, &V) -> bool>(
        &mut self,
        asked: &Q,
        test: F,
    ) -> Result<Result<Option<(&K, &V)>, (&K, &V)>, Fault>
        requires callable { ForSome (found_by (Q.Equivalent.equivalent asked.now) self.old.pairs) (TestTakes F.FnOnce test) }
        ensures* after { sem 𝓛 (EndsSo K.row V.row S.row R.row S.Hasher.row K.Hash S.BuildHasher S.Hasher.Hasher self.entry (λ map. MatchResult result (λ gone. MatchResult gone
            (λ _. MatchOption (found_by (Q.Equivalent.equivalent asked.now) self.old.pairs) (IsLeft self.old map None) (λ x. TestsAs F.FnOnce test x true × HasRemoved self.old map (Q.Equivalent.equivalent asked.now) x))
            (λ _. MatchOption (found_by (Q.Equivalent.equivalent asked.now) self.old.pairs) ⊥ (λ x. TestsAs F.FnOnce test x false × IsLeft self.old map (Some x))) × (map.hasher ≡ self.old.hasher))
            (λ fault. IsRefused self.old map fault) × (length self.old.tables ≤ 1 → length map.tables ≤ 1))) }
        ensures pair { IfOk result (λ gone. MatchResult gone (λ was. option_map (λ x. (x.0.now, x.1.now)) was ≡ found_by (Q.Equivalent.equivalent asked.now) self.old.pairs) (λ x. Some (x.0.now, x.1.now) ≡ found_by (Q.Equivalent.equivalent asked.now) self.old.pairs)) }
        ensures fault { IfErr result IsRoom }
        ensures steady { length self.old.tables ≤ 1 → IsOk result }
    {
        match take_if(self, asked, test) {
            Ok(Change::Removed) => Ok(Ok(self.taken())),
            Ok(Change::Missing) => Ok(Ok(None)),
            Ok(Change::Kept) => match self.met() {
                Some(there) => Ok(Err(there)),
                None => unreachable!(),
            },
            Ok(Change::Stored) => unreachable!(),
            Ok(Change::Replaced) => unreachable!(),
            Err(fault) => Err(fault),
        }
    }
}
