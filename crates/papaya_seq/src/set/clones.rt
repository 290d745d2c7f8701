//! Sets for one owner with clones of the elements of another set, or of an array.
ghost use Rattle.std.specs.Prelude.{◌≡◌, [], true, length, IfOk, IfErr, OnOk};
ghost use Rattle.std.specs.List.Sorted.{IsPermutation};
ghost use Rattle.owner_map.specs.Given.{ClonesAreEqual, ClonesAreSame, IsRoom, agree, with_no_values};
ghost use Rattle.papaya_seq.specs.Sets.{put_all_in};
ghost use Rattle.papaya_seq.specs.Stored.{HasPutIn, IsSetMadeOfClones};

use super::HashSet;
use seize_words::Fault;
use std::alloc::Global;
use std::hash::{BuildHasher, Hash};

/// Stores a clone of an element.
fn put_clone<K: Eq + Hash + Clone, S: BuildHasher>(
    set: &mut HashSet<K, S>,
    element: &K,
) -> Result<(), Fault>
    ensures put { OnOk result ((x : K) × K.is_clone element.now x × HasPutIn K.eq x set.old set.new) }
    ensures fault { IfErr result IsRoom }
    ensures hasher { set.new.hasher ≡ set.old.hasher }
{
    let element = element.clone()?;
    match set.insert(element) {
        Ok(_) => Ok(()),
        Err(refused) => Err(refused.fault),
    }
}

impl<K: Eq + Hash + Clone, S: BuildHasher + Clone> HashSet<K, S> {
    /// Makes a set with a clone of each element, of the hasher too, and with a memory of its own. The faults are `Fault::Capacity` and `Fault::Memory`; then
    /// there is no set. Where an element's clone equals another element, that counts once; where each clone equals its original, so does the set, and has as
    /// many elements.
    pub fn clone(&self, alloc: Global) -> Result<Self, Fault>
        ensures clones { IfOk result (λ set. IsSetMadeOfClones K.eq K.is_clone self.now.elements set) }
        ensures same { ClonesAreSame K.is_clone → IfOk result (λ set. IsPermutation set.elements self.now.elements) }
        ensures equals { ClonesAreEqual K.eq K.is_clone → IfOk result (λ set. (agree K.eq (λ _ _. true) (with_no_values self.now.elements) (with_no_values set.elements) ≡ true) × (length set.elements ≡ length self.now.elements)) }
        ensures fault { IfErr result IsRoom }
        ensures hasher { IfOk result (λ set. S.is_clone self.now.hasher set.hasher) }
    {
        let map = self.map.clone(alloc)?;
        Ok(HashSet { map })
    }
}

impl<K: Eq + Hash + Clone, S: BuildHasher + Default + Drop> HashSet<K, S> {
    /// Makes a set with clones of these elements, the last of those that are equal. The faults are `Fault::Capacity` and `Fault::Memory`; then there is no set.
    pub fn from_array(alloc: Global, items: &[K]) -> Result<Self, Fault>
        ensures clones { IfOk result (λ set. IsSetMadeOfClones K.eq K.is_clone items.now set) }
        ensures same { ClonesAreSame K.is_clone → IfOk result (λ set. IsPermutation set.elements (put_all_in K.eq [] items.now)) }
        ensures fault { IfErr result IsRoom }
        ensures hasher { IfOk result (λ set. S.is_default set.hasher) }
    {
        let mut set = HashSet::new(alloc)?;
        for item in items {
            put_clone(&mut set, item)?;
        }
        Ok(set)
    }
}
