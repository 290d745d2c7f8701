//! Insertions into a map for one owner. Each begins with a refresh.
ghost use Rattle.std.specs.Borrow.{sem};
ghost use Rattle.std.specs.Prelude.{◌≡◌, List, [], ◌∷◌, ◌++◌, None, Some, is_some, IsTrue, IfOk, IfErr, OnOk, OnErr, MatchResult};
ghost use Rattle.std.specs.List.Sorted.{IsPermutation};
ghost use Rattle.owner_asks.specs.Given.LateFaults.{IsRoom};
ghost use Rattle.map_straight.specs.Shown.Chain.{CannotGrow};
ghost use Rattle.seize_words.specs.declared.fault.Fault.TheVariants.{Capacity};
ghost use Rattle.owner_rests.specs.Given.{found_by, left_by};
ghost use Rattle.owner_rests.specs.Rests.Held.{if_stored, if_tried};
ghost use Rattle.owner_map.specs.Answers.{HasAdded, IsLeft, IsRefused, QuiescentUnless, name_of_either};
ghost use Rattle.owner_rests.specs.ShowsPairs.Maps.{Keeps, LastTook};
ghost use Rattle.owner_rests.specs.ShowsPairs.Stored.{HasPut};

use crate::answers::{OccupiedError, Present, Replaced};
use crate::map::HashMap;
use owner_asks::Refused;
use seize_words::{Fault, Receiver};
use std::hash::{BuildHasher, Hash};

/// Stores a pair, also in the place of another one of its key, and answers whether there was one, which `taken` shows until the next change. The faults
/// are `Fault::Capacity`, where no table can follow the map's last one, and `Fault::Memory`; then no pair has changed.
pub fn put<K: Eq + Hash + Drop, V: Drop, S: BuildHasher, R: Receiver<(K, V)>>(
    map: &mut HashMap<K, V, S, R>,
    key: K,
    value: V,
) -> Result<bool, Refused<K, V>>
    ensures some { IfOk result (λ was. was ≡ is_some (found_by (K.eq key) map.old.pairs)) }
    ensures stored { OnOk result (IsPermutation map.new.pairs (left_by (K.eq key) map.old.pairs ++ ((key, value) ∷ []))) }
    ensures refused { OnErr result (IsPermutation map.new.pairs map.old.pairs) }
    ensures last { MatchResult result (λ _. LastTook map.new (found_by (K.eq key) map.old.pairs) (Some (key, value))) (λ _. LastTook map.new None None) }
    ensures in_any_order { (xs : List (K × V)) → IsPermutation map.old.pairs xs → OnOk result (map.new.taken ≡ found_by (K.eq key) xs) }
    ensures back { IfErr result (λ r. (r.key ≡ key) × (r.value ≡ value)) }
    ensures fault { IfErr result (λ r. IsRoom r.fault) }
    ensures capacity { IfErr result (λ r. r.fault ≡ Capacity → CannotGrow map.new.tables) }
    ensures hasher { map.new.hasher ≡ map.old.hasher }
    ensures keeps { Keeps (if_stored result (key, value)) map.old map.new }
{
    owner_rests::insert(
        &mut map.resting.memory,
        map.resting.setting,
        &map.hasher,
        &mut map.resting.last,
        key,
        value,
    )
}

/// Stores a pair, if its key is not there yet. Where it is there, no pair has changed, the value that was not stored is handed back, and
/// `met` shows the pair that is there until the next change. The faults are `Fault::Capacity`, where no table can follow the map's last one, and
/// `Fault::Memory`; then no pair has changed, either.
pub(crate) fn try_put<K: Eq + Hash + Drop, V: Drop, S: BuildHasher, R: Receiver<(K, V)>>(
    map: &mut HashMap<K, V, S, R>,
    key: K,
    value: V,
) -> Result<Result<(), V>, Refused<K, V>>
    ensures stored { IfOk result (λ tried. OnOk tried ((found_by (K.eq key) map.old.pairs ≡ None) × IsPermutation map.new.pairs (map.old.pairs ++ ((key, value) ∷ [])))) }
    ensures found { IfOk result (λ tried. OnErr tried (IsTrue (is_some (found_by (K.eq key) map.old.pairs)) × IsPermutation map.new.pairs map.old.pairs)) }
    ensures kept { IfOk result (λ tried. IfErr tried (λ back. back ≡ value)) }
    ensures refused { OnErr result (IsPermutation map.new.pairs map.old.pairs) }
    ensures last { MatchResult result (λ tried. MatchResult tried (λ _. LastTook map.new None (Some (key, value))) (λ _. LastTook map.new None (found_by (K.eq key) map.old.pairs))) (λ _. LastTook map.new None None) }
    ensures back { IfErr result (λ r. (r.key ≡ key) × (r.value ≡ value)) }
    ensures fault { IfErr result (λ r. IsRoom r.fault) }
    ensures capacity { IfErr result (λ r. r.fault ≡ Capacity → CannotGrow map.new.tables) }
    ensures hasher { map.new.hasher ≡ map.old.hasher }
    ensures keeps { Keeps (if_tried result (key, value)) map.old map.new }
{
    owner_rests::try_insert(
        &mut map.resting.memory,
        map.resting.setting,
        &map.hasher,
        &mut map.resting.last,
        key,
        value,
    )
}

/// Stores a pair that is not wanted back where it is refused.
pub fn store<K: Eq + Hash + Drop, V: Drop, S: BuildHasher, R: Receiver<(K, V)>>(
    map: &mut HashMap<K, V, S, R>,
    key: K,
    value: V,
) -> Result<(), Fault>
    ensures put { OnOk result (HasPut K.eq (key, value) map.old map.new) }
    ensures fault { IfErr result IsRoom }
    ensures hasher { map.new.hasher ≡ map.old.hasher }
{
    match put(map, key, value) {
        Ok(_) => Ok(()),
        Err(refused) => Err(refused.fault),
    }
}

impl<K: Eq + Hash + Drop, V: Drop, S: BuildHasher, R: Receiver<(K, V)>> HashMap<K, V, S, R> {
    /// Stores a pair, also in the place of another one of its key, and lends the value that it replaced, if there was one. The faults are `Fault::Capacity`,
    /// where no table can follow the map's last one, and `Fault::Memory`; then no pair has changed, and key and value come back.
    pub fn insert(&mut self, key: K, value: V) -> Result<Replaced<'_, K, V, S, R>, Refused<K, V>>
        ensures* after { sem 𝓛 (QuiescentUnless K.row V.row S.row R.row S.Hasher.row K.Hash S.BuildHasher S.Hasher.Hasher self.entry result (λ done. done.map.ghost_name) (λ map. IfErr result (λ r. IsRefused self.old map r.fault))) }
        ensures same { IfOk result (λ done. done.map.ghost_name ≡ self.entry.ghost_name) }
        ensures stored { IfOk result (λ done. IsPermutation done.map.now.pairs (left_by (K.eq key) self.old.pairs ++ ((key, value) ∷ []))) }
        ensures last { IfOk result (λ done. LastTook done.map.now (found_by (K.eq key) self.old.pairs) (Some (key, value))) }
        ensures in_any_order { (xs : List (K × V)) → IsPermutation self.old.pairs xs → IfOk result (λ done. done.map.now.taken ≡ found_by (K.eq key) xs) }
        ensures back { IfErr result (λ r. (r.key ≡ key) × (r.value ≡ value)) }
        ensures fault { IfErr result (λ r. IsRoom r.fault) }
        ensures hasher { IfOk result (λ done. done.map.now.hasher ≡ self.old.hasher) }
        ensures keeps { IfOk result (λ done. Keeps ((key, value) ∷ []) self.old done.map.now) }
    {
        match put(self, key, value) {
            Ok(_) => Ok(Replaced { map: self }),
            Err(refused) => Err(refused),
        }
    }

    /// Stores a pair, if its key is not there yet, and lends its value. Where the key is there, no pair has changed, and the answer lends the value that it
    /// has, and hands the other one back. The faults are `Fault::Capacity`, where no table can follow the map's last one, and `Fault::Memory`; then no pair
    /// has changed, and key and value come back.
    pub fn try_insert(
        &mut self,
        key: K,
        value: V,
    ) -> Result<Result<Present<'_, K, V, S, R>, OccupiedError<'_, K, V, S, R>>, Refused<K, V>>
        ensures* after { sem 𝓛 (QuiescentUnless K.row V.row S.row R.row S.Hasher.row K.Hash S.BuildHasher S.Hasher.Hasher self.entry result (λ tried. name_of_either tried (λ done. done.map.ghost_name) (λ there. there.map.ghost_name)) (λ map. IfErr result (λ r. IsRefused self.old map r.fault))) }
        ensures same { IfOk result (λ tried. MatchResult tried (λ done. done.map.ghost_name ≡ self.entry.ghost_name) (λ there. there.map.ghost_name ≡ self.entry.ghost_name)) }
        ensures stored { IfOk result (λ tried. IfOk tried (λ done. (found_by (K.eq key) self.old.pairs ≡ None) × HasAdded self.old done.map.now (key, value))) }
        ensures found { IfOk result (λ tried. IfErr tried (λ there. IsLeft self.old there.map.now (found_by (K.eq key) self.old.pairs))) }
        ensures met { IfOk result (λ tried. MatchResult tried (λ done. IsTrue (is_some done.map.now.met)) (λ there. IsTrue (is_some there.map.now.met))) }
        ensures kept { IfOk result (λ tried. IfErr tried (λ there. there.not_inserted ≡ Some value)) }
        ensures back { IfErr result (λ r. (r.key ≡ key) × (r.value ≡ value)) }
        ensures fault { IfErr result (λ r. IsRoom r.fault) }
        ensures hasher { IfOk result (λ tried. MatchResult tried (λ done. done.map.now.hasher ≡ self.old.hasher) (λ there. there.map.now.hasher ≡ self.old.hasher)) }
    {
        match try_put(self, key, value) {
            Ok(Ok(())) => Ok(Ok(Present { map: self })),
            Ok(Err(value)) => Ok(Err(OccupiedError {
                map: self,
                not_inserted: Some(value),
            })),
            Err(refused) => Err(refused),
        }
    }
}
