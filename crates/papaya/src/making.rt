//! How a set is made that threads share.
ghost use Rattle.std.specs.Prelude.{◌≡◌, None, Ok, IfOk, IfErr, OnOk, MatchResult};
ghost use Rattle.map_tables.specs.declared.resize_mode.ResizeMode.TheVariants.{Incremental};
ghost use Rattle.papaya_map.specs.Builders.{RefusedBy, first_fault, ids_after};
ghost use Rattle.seize.specs.Ids.{given, following};
ghost use Rattle.seize_words.specs.declared.fault.Fault.TheVariants.{Memory};

use crate::builder::HashSetBuilder;
use crate::set::HashSet;
use papaya_map::{HashMap, IdSource};
use seize_words::Fault;
use std::alloc::Global;
use std::hash::{BuildHasher, Hash, RandomState};

impl<K: Eq + Hash + Drop> HashSet<K> {
    /// Makes a set with no element, with this hasher, whose keys are random. After `Fault::CollectorsUsedUp` the source is as it was; after `Fault::Memory` its
    /// number is spent.
    pub fn new(alloc: Global, ids: &mut IdSource, hasher: RandomState) -> Result<Self, Fault>
        ensures number { IfOk result (λ set. given ids.old ≡ Ok set.map.collector.number) }
        ensures hasher { IfOk result (λ set. set.map.hasher ≡ hasher) }
        ensures mode { IfOk result (λ set. set.map.setting.mode ≡ Incremental 64) }
        ensures fault { IfErr result (λ fault. MatchResult (given ids.old) (λ _. fault ≡ Memory) (λ none. fault ≡ none)) }
        ensures ids { ids.new ≡ following ids.old }
    {
        HashSet::with_hasher(alloc, ids, hasher)
    }

    /// Makes the same, with a memory that has room for so many elements at first. `Fault::Capacity` comes before the others, and just where that is too many; the
    /// source is as it was then.
    pub fn with_capacity(
        alloc: Global,
        ids: &mut IdSource,
        capacity: u64,
        hasher: RandomState,
    ) -> Result<Self, Fault>
        ensures few { OnOk result (first_fault (Incremental 64) capacity ≡ None) }
        ensures number { IfOk result (λ set. given ids.old ≡ Ok set.map.collector.number) }
        ensures hasher { IfOk result (λ set. set.map.hasher ≡ hasher) }
        ensures mode { IfOk result (λ set. set.map.setting.mode ≡ Incremental 64) }
        ensures fault { IfErr result (RefusedBy (first_fault (Incremental 64) capacity) None ids.old) }
        ensures ids { ids.new ≡ ids_after (first_fault (Incremental 64) capacity) None ids.old }
    {
        HashSet::with_capacity_and_hasher(alloc, ids, capacity, hasher)
    }
}

impl<K: Eq + Hash + Drop, S: BuildHasher + Drop> HashSet<K, S> {
    /// Begins a builder of a set with this hasher: of capacity 0, which copies 64 places at a time as it grows, and makes its collector itself.
    pub fn builder(hasher: S) -> HashSetBuilder<K, S>
        ensures capacity { result.map.capacity ≡ 0 }
        ensures mode { result.map.mode ≡ Incremental 64 }
        ensures shards { result.map.shards ≡ None }
        ensures collector { result.map.collector ≡ None }
        ensures hasher { result.map.hasher ≡ hasher }
    {
        HashSetBuilder::of(HashMap::builder(hasher))
    }

    /// Makes a set with no element, and with this hasher. After `Fault::CollectorsUsedUp` the source is as it was; after `Fault::Memory` its number is spent.
    pub fn with_hasher(alloc: Global, ids: &mut IdSource, hasher: S) -> Result<Self, Fault>
        ensures number { IfOk result (λ set. given ids.old ≡ Ok set.map.collector.number) }
        ensures hasher { IfOk result (λ set. set.map.hasher ≡ hasher) }
        ensures mode { IfOk result (λ set. set.map.setting.mode ≡ Incremental 64) }
        ensures fault { IfErr result (λ fault. MatchResult (given ids.old) (λ _. fault ≡ Memory) (λ none. fault ≡ none)) }
        ensures ids { ids.new ≡ following ids.old }
    {
        let map = HashMap::with_hasher(alloc, ids, hasher)?;
        Ok(HashSet::of(map))
    }

    /// Makes the same, with a memory that has room for so many elements at first. `Fault::Capacity` comes before the others, and just where that is too many; the
    /// source is as it was then.
    pub fn with_capacity_and_hasher(
        alloc: Global,
        ids: &mut IdSource,
        capacity: u64,
        hasher: S,
    ) -> Result<Self, Fault>
        ensures few { OnOk result (first_fault (Incremental 64) capacity ≡ None) }
        ensures number { IfOk result (λ set. given ids.old ≡ Ok set.map.collector.number) }
        ensures hasher { IfOk result (λ set. set.map.hasher ≡ hasher) }
        ensures mode { IfOk result (λ set. set.map.setting.mode ≡ Incremental 64) }
        ensures fault { IfErr result (RefusedBy (first_fault (Incremental 64) capacity) None ids.old) }
        ensures ids { ids.new ≡ ids_after (first_fault (Incremental 64) capacity) None ids.old }
    {
        let map = HashMap::with_capacity_and_hasher(alloc, ids, capacity, hasher)?;
        Ok(HashSet::of(map))
    }
}
