//! Maps for one owner with clones of the pairs of another map, or of an array.
ghost use Rattle.std.specs.Prelude.{◌≡◌, [], Bool, true, length, IfOk, IfErr, OnOk};
ghost use Rattle.std.specs.List.Sorted.{IsPermutation};
ghost use Rattle.owner_asks.specs.Given.LateFaults.{IsRoom};
ghost use Rattle.owner_asks.specs.Pairs.Equals.{agree};
ghost use Rattle.owner_asks.specs.Pairs.Puts.{ClonesAreSame, IsCloneOf, put_all};
ghost use Rattle.owner_rests.specs.ShowsPairs.Stored.{ClonesAreEqual, HasPut, IsMadeOfClones};

use crate::insertions::store;
use crate::map::HashMap;
use seize_words::Fault;
use std::alloc::Global;
use std::hash::{BuildHasher, Hash};

/// Stores a clone of a pair.
fn put_clone<K: Eq + Hash + Clone, V: Clone, S: BuildHasher>(
    map: &mut HashMap<K, V, S>,
    key: &K,
    value: &V,
) -> Result<(), Fault>
    ensures put { OnOk result ((x : K × V) × IsCloneOf K.is_clone V.is_clone (key.now, value.now) x × HasPut K.eq x map.old map.new) }
    ensures fault { IfErr result IsRoom }
    ensures hasher { map.new.hasher ≡ map.old.hasher }
{
    let key = key.clone()?;
    let value = value.clone()?;
    store(map, key, value)?;
    Ok(())
}

impl<K: Eq + Hash + Clone, V: Clone, S: BuildHasher + Clone> HashMap<K, V, S> {
    /// Makes a map with a clone of each pair, of the hasher too, and with a memory of its own. The faults are `Fault::Capacity` and `Fault::Memory`; then there
    /// is no map. Where a key's clone equals another key, that counts once; where each clone equals its original, so does the map, and has as many pairs.
    pub fn clone(&self, alloc: Global) -> Result<Self, Fault>
        ensures clones { IfOk result (λ map. IsMadeOfClones K.eq K.is_clone V.is_clone self.now.pairs map) }
        ensures same { ClonesAreSame K.is_clone → ClonesAreSame V.is_clone → IfOk result (λ map. IsPermutation map.pairs self.now.pairs) }
        ensures equals { (equal : V → V → Bool) → ClonesAreEqual K.eq K.is_clone → ClonesAreEqual equal V.is_clone → IfOk result (λ map. (agree K.eq equal self.now.pairs map.pairs ≡ true) × (length map.pairs ≡ length self.now.pairs)) }
        ensures fault { IfErr result IsRoom }
        ensures hasher { IfOk result (λ map. S.is_clone self.now.hasher map.hasher) }
    {
        let hasher = self.hasher.clone()?;
        let mut map = HashMap::with_capacity_and_hasher(alloc, self.len(), hasher)?;
        for (key, value) in self.iter() {
            put_clone(&mut map, key, value)?;
        }
        Ok(map)
    }
}

impl<K: Eq + Hash + Clone, V: Clone, S: BuildHasher + Default + Drop> HashMap<K, V, S> {
    /// Makes a map with clones of these pairs, the last one of each key. The faults are `Fault::Capacity` and `Fault::Memory`; then there is no map.
    pub fn from_array(alloc: Global, items: &[(K, V)]) -> Result<Self, Fault>
        ensures clones { IfOk result (λ map. IsMadeOfClones K.eq K.is_clone V.is_clone items.now map) }
        ensures same { ClonesAreSame K.is_clone → ClonesAreSame V.is_clone → IfOk result (λ map. IsPermutation map.pairs (put_all K.eq [] items.now)) }
        ensures fault { IfErr result IsRoom }
        ensures hasher { IfOk result (λ map. S.is_default map.hasher) }
    {
        let mut map = HashMap::new(alloc)?;
        for item in items {
            put_clone(&mut map, &item.0, &item.1)?;
        }
        Ok(map)
    }
}
