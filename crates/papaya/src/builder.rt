//! What is chosen of a set before it is made.
ghost use Rattle.std.specs.Prelude.{◌≡◌, Some, None, Ok, IfOk, IfErr, OnOk};
ghost use Rattle.papaya_map.specs.Builders.{RefusedBy, first_fault, ids_after, made_for};

use crate::set::HashSet;
use papaya_map::{Collector, Given, HashMapBuilder, IdSource, Own, ResizeMode};
use seize_words::Fault;
use std::alloc::Global;
use std::fmt;
use std::hash::{BuildHasher, Hash, RandomState};

/// What is chosen of a set: what a builder of its map has. Each call takes the builder, and gives it back with that one thing chosen anew.
#[derive(Drop)]
pub struct HashSetBuilder<K, S = RandomState, C = Own> {
    map: HashMapBuilder<K, (), S, C>,
}

impl<K, S: Drop> HashSetBuilder<K, S> {
    /// Chooses this hasher, also of another type. It stands on builders to which no collector was given.
    pub fn hasher<H>(self, hasher: H) -> HashSetBuilder<K, H>
        ensures hasher { result.map.hasher ≡ hasher }
        ensures capacity { result.map.capacity ≡ self.map.capacity }
        ensures mode { result.map.mode ≡ self.map.mode }
        ensures shards { result.map.shards ≡ self.map.shards }
        ensures collector { result.map.collector ≡ self.map.collector }
    {
        HashSetBuilder {
            map: self.map.hasher(hasher),
        }
    }
}

impl<K, S, C> HashSetBuilder<K, S, C> {
    /// The one of this builder of its map.
    pub(crate) fn of(map: HashMapBuilder<K, (), S, C>) -> Self
        ensures { result.map ≡ map }
    {
        HashSetBuilder { map }
    }

    /// Chooses a memory that has room for so many elements at first.
    pub fn capacity(self, capacity: u64) -> Self
        ensures { result.map ≡ record self.map { capacity = capacity } }
    {
        HashSetBuilder {
            map: self.map.capacity(capacity),
        }
    }

    /// Chooses how the set comes to its next table: bit by bit, or at once.
    pub fn resize_mode(self, mode: ResizeMode) -> Self
        ensures { result.map ≡ record self.map { mode = mode } }
    {
        HashSetBuilder {
            map: self.map.resize_mode(mode),
        }
    }

    /// Chooses that its elements are counted for so many processors, 2^63 at most.
    pub fn shards(self, shards: u64) -> Self
        ensures { result.map ≡ record self.map { shards = Some shards } }
    {
        HashSetBuilder {
            map: self.map.shards(shards),
        }
    }

    /// Chooses this collector, which is the set's own: of its roots the set takes one, and the others stand for nothing. A later one holds.
    pub fn collector(self, collector: Collector) -> HashSetBuilder<K, S, Given>
        ensures collector { result.map.collector ≡ Some collector }
        ensures capacity { result.map.capacity ≡ self.map.capacity }
        ensures mode { result.map.mode ≡ self.map.mode }
        ensures shards { result.map.shards ≡ self.map.shards }
        ensures hasher { result.map.hasher ≡ self.map.hasher }
    {
        HashSetBuilder {
            map: self.map.collector(collector),
        }
    }
}

impl<K, S, C> fmt::Debug for HashSetBuilder<K, S, C> {
    /// It is shown as the builder of its map.
    fn fmt<W: fmt::Write>(&self, f: &mut fmt::Formatter<W>) -> fmt::Result {
        fmt::Debug::fmt(&self.map, f)
    }
}

impl<K: Eq + Hash + Drop, S: BuildHasher + Drop, C> HashSetBuilder<K, S, C> {
    /// Returns the set, with no element. The faults, the first that holds, are `Fault::ZeroChunk`, where no place would ever be copied; `Fault::Capacity`, just
    /// where no table has the places for so many elements; `Fault::CollectorsUsedUp`, where no collector was given, and the source has no number left; and
    /// `Fault::Memory`. Where a collector was given, and after the first three faults, the source is as it was.
    pub fn build(self, alloc: Global, ids: &mut IdSource) -> Result<HashSet<K, S>, Fault>
        ensures few { OnOk result (first_fault self.map.mode self.map.capacity ≡ None) }
        ensures collector { IfOk result (λ set. made_for self.map.collector ids.old ≡ Ok set.map.collector) }
        ensures batches { IfOk result (λ set. set.map.setting.batch_size ≡ set.map.collector.batch_size) }
        ensures hasher { IfOk result (λ set. set.map.hasher ≡ self.map.hasher) }
        ensures mode { IfOk result (λ set. set.map.setting.mode ≡ self.map.mode) }
        ensures fault { IfErr result (RefusedBy (first_fault self.map.mode self.map.capacity) self.map.collector ids.old) }
        ensures ids { ids.new ≡ ids_after (first_fault self.map.mode self.map.capacity) self.map.collector ids.old }
    {
        let map = self.map.build(alloc, ids)?;
        Ok(HashSet::of(map))
    }
}
