//! How a set for one owner is made.
ghost use Rattle.std.specs.Prelude.{◌≡◌, [], None, IfOk, IfErr, OnOk};
ghost use Rattle.seize_words.specs.declared.fault.Fault.TheVariants.{Memory};
ghost use Rattle.owner_map.specs.Given.{AreTooMany, IsUnmade, tables_for};
ghost use Rattle.papaya_seq.specs.Sets.{LastTookOut};

use super::HashSet;
use owner_map::HashMap;
use seize_words::Fault;
use std::alloc::Global;
use std::hash::{BuildHasher, Hash};

impl<K: Eq + Hash + Drop, S: BuildHasher + Default + Drop> HashSet<K, S> {
    /// Makes a set with no element, and with no table yet. The only fault is `Fault::Memory`.
    pub fn new(alloc: Global) -> Result<Self, Fault>
        ensures elements { IfOk result (λ set. set.elements ≡ []) }
        ensures last { IfOk result (λ set. LastTookOut set None None) }
        ensures held { IfOk result (λ set. set.held ≡ []) }
        ensures tables { IfOk result (λ set. set.tables ≡ []) }
        ensures fault { IfErr result (λ fault. fault ≡ Memory) }
        ensures hasher { IfOk result (λ set. S.is_default set.hasher) }
    {
        HashSet::with_hasher(alloc, S::default())
    }

    /// Makes a set with no element, and with a first table that has the places for so many. The faults are `Fault::Capacity`, just where that is too many, and
    /// `Fault::Memory`.
    pub fn with_capacity(alloc: Global, capacity: u64) -> Result<Self, Fault>
        ensures elements { IfOk result (λ set. set.elements ≡ []) }
        ensures last { IfOk result (λ set. LastTookOut set None None) }
        ensures held { IfOk result (λ set. set.held ≡ []) }
        ensures tables { IfOk result (λ set. set.tables ≡ tables_for capacity) }
        ensures few { OnOk result (AreTooMany capacity → ⊥) }
        ensures fault { IfErr result (IsUnmade capacity) }
        ensures hasher { IfOk result (λ set. S.is_default set.hasher) }
    {
        HashSet::with_capacity_and_hasher(alloc, capacity, S::default())
    }
}

impl<K: Eq + Hash + Drop, S: BuildHasher + Drop> HashSet<K, S> {
    /// Makes a set with no element, with no table yet, and with this hasher. The only fault is `Fault::Memory`.
    pub fn with_hasher(alloc: Global, hasher: S) -> Result<Self, Fault>
        ensures elements { IfOk result (λ set. set.elements ≡ []) }
        ensures last { IfOk result (λ set. LastTookOut set None None) }
        ensures held { IfOk result (λ set. set.held ≡ []) }
        ensures tables { IfOk result (λ set. set.tables ≡ []) }
        ensures fault { IfErr result (λ fault. fault ≡ Memory) }
        ensures hasher { IfOk result (λ set. set.hasher ≡ hasher) }
    {
        HashSet::with_capacity_and_hasher(alloc, 0, hasher)
    }

    /// Makes a set with no element, with a first table that has the places for so many, and with this hasher. The faults are `Fault::Capacity`, just where that
    /// is too many, and `Fault::Memory`.
    pub fn with_capacity_and_hasher(alloc: Global, capacity: u64, hasher: S) -> Result<Self, Fault>
        ensures elements { IfOk result (λ set. set.elements ≡ []) }
        ensures last { IfOk result (λ set. LastTookOut set None None) }
        ensures held { IfOk result (λ set. set.held ≡ []) }
        ensures tables { IfOk result (λ set. set.tables ≡ tables_for capacity) }
        ensures few { OnOk result (AreTooMany capacity → ⊥) }
        ensures fault { IfErr result (IsUnmade capacity) }
        ensures hasher { IfOk result (λ set. set.hasher ≡ hasher) }
    {
        let map = HashMap::with_capacity_and_hasher(alloc, capacity, hasher)?;
        Ok(HashSet { map })
    }
}
