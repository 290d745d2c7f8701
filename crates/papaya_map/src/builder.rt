//! What is chosen of a map before it is made.
ghost use Rattle.std.specs.Prelude.{◌≡◌, Some, None, Ok, IfOk, IfErr, OnOk};
ghost use Rattle.map_tables.specs.declared.resize_mode.ResizeMode.TheVariants.{Incremental};
ghost use Rattle.papaya_map.specs.Builders.{RefusedBy, first_fault, ids_after, is_zero, made_for};

use crate::making::Making;
use crate::map::HashMap;
use map_tables::{ResizeMode, entries_for};
use seize::{Collector, IdSource};
use seize_words::Fault;
use std::alloc::Global;
use std::fmt;
use std::hash::{BuildHasher, Hash, RandomState};
use std::marker::PhantomData;

/// For how many processors a map counts its pairs at most.
const MOST_PROCESSORS: u64 = 1 << 63;

/// Of a builder: the map is to make its collector itself.
pub struct Own;

/// Of a builder: the map's collector was given.
pub struct Given;

/// What is chosen of a map: its capacity, how it comes to its next table, for how many processors it counts its pairs, its collector and its hasher. Each
/// call takes the builder, and gives it back with that one thing chosen anew.
#[derive(Drop)]
pub struct HashMapBuilder<K, V, S = RandomState, C = Own> {
    capacity: u64,
    mode: ResizeMode,
    shards: Option<u64>,
    collector: Option<Collector>,
    hasher: S,
    made: PhantomData<(K, V, C)>,
}

impl<K, V, S> HashMapBuilder<K, V, S> {
    /// One with this hasher.
    pub(crate) fn of(hasher: S) -> Self
        ensures capacity { result.capacity ≡ 0 }
        ensures mode { result.mode ≡ Incremental 64 }
        ensures shards { result.shards ≡ None }
        ensures collector { result.collector ≡ None }
        ensures hasher { result.hasher ≡ hasher }
    {
        HashMapBuilder {
            capacity: 0,
            mode: ResizeMode::default(),
            shards: None,
            collector: None,
            hasher,
            made: PhantomData,
        }
    }
}

impl<K, V, S: Drop> HashMapBuilder<K, V, S> {
    /// Chooses this hasher, also of another type. It stands on builders to which no collector was given.
    pub fn hasher<H>(self, hasher: H) -> HashMapBuilder<K, V, H>
        ensures hasher { result.hasher ≡ hasher }
        ensures capacity { result.capacity ≡ self.capacity }
        ensures mode { result.mode ≡ self.mode }
        ensures shards { result.shards ≡ self.shards }
        ensures collector { result.collector ≡ self.collector }
    {
        let HashMapBuilder {
            capacity,
            mode,
            shards,
            collector,
            hasher: _,
            made,
        } = self;
        HashMapBuilder {
            capacity,
            mode,
            shards,
            collector,
            hasher,
            made,
        }
    }
}

impl<K, V, S, C> HashMapBuilder<K, V, S, C> {
    /// Chooses a memory that has room for so many pairs at first.
    pub fn capacity(self, capacity: u64) -> Self
        ensures { result ≡ record self { capacity = capacity } }
    {
        HashMapBuilder { capacity, ..self }
    }

    /// Chooses how the map comes to its next table: bit by bit, or at once.
    pub fn resize_mode(self, mode: ResizeMode) -> Self
        ensures { result ≡ record self { mode = mode } }
    {
        HashMapBuilder { mode, ..self }
    }

    /// Chooses that its pairs are counted for so many processors, 2^63 at most.
    pub fn shards(self, shards: u64) -> Self
        ensures { result ≡ record self { shards = Some shards } }
    {
        HashMapBuilder {
            shards: Some(shards),
            ..self
        }
    }

    /// Chooses this collector, which is the map's own: of its roots the map takes one, and the others stand for nothing. A later one holds.
    pub fn collector(self, collector: Collector) -> HashMapBuilder<K, V, S, Given>
        ensures collector { result.collector ≡ Some collector }
        ensures capacity { result.capacity ≡ self.capacity }
        ensures mode { result.mode ≡ self.mode }
        ensures shards { result.shards ≡ self.shards }
        ensures hasher { result.hasher ≡ self.hasher }
    {
        let HashMapBuilder {
            capacity,
            mode,
            shards,
            collector: _,
            hasher,
            made: _,
        } = self;
        HashMapBuilder {
            capacity,
            mode,
            shards,
            collector: Some(collector),
            hasher,
            made: PhantomData,
        }
    }
}

impl<K, V, S, C> fmt::Debug for HashMapBuilder<K, V, S, C> {
    fn fmt<W: fmt::Write>(&self, f: &mut fmt::Formatter<W>) -> fmt::Result {
        f.debug_struct("HashMapBuilder")
            .field("capacity", &self.capacity)
            .field("collector", &self.collector)
            .field("resize_mode", &self.mode)
            .finish()
    }
}

/// Tells whether a map would never copy a place so.
fn copies_none(mode: ResizeMode) -> bool
    ensures { result ≡ is_zero mode }
{
    matches!(mode, ResizeMode::Incremental(0))
}

/// The collector that was given, or one of one processor and one root.
fn made(collector: Option<Collector>, ids: &mut IdSource) -> Result<Collector, Fault>
    ensures made { result ≡ made_for collector ids.old }
    ensures ids { ids.new ≡ ids_after None collector ids.old }
{
    match collector {
        Some(collector) => Ok(collector),
        None => Collector::new(ids, 1, 1),
    }
}

impl<K: Eq + Hash + Drop, V: Drop, S: BuildHasher + Drop, C> HashMapBuilder<K, V, S, C> {
    /// Returns the map, with no pair, and with no table yet. The faults, the first that holds, are `Fault::ZeroChunk`, where no place would ever be copied;
    /// `Fault::Capacity`, just where no table has the places for so many pairs; `Fault::CollectorsUsedUp`, where no collector was given, and the source has no
    /// number left; and `Fault::Memory`. Where a collector was given, and after the first three faults, the source is as it was.
    pub fn build(self, alloc: Global, ids: &mut IdSource) -> Result<HashMap<K, V, S>, Fault>
        ensures few { OnOk result (first_fault self.mode self.capacity ≡ None) }
        ensures collector { IfOk result (λ map. made_for self.collector ids.old ≡ Ok map.collector) }
        ensures batches { IfOk result (λ map. map.setting.batch_size ≡ map.collector.batch_size) }
        ensures hasher { IfOk result (λ map. map.hasher ≡ self.hasher) }
        ensures mode { IfOk result (λ map. map.setting.mode ≡ self.mode) }
        ensures fault { IfErr result (RefusedBy (first_fault self.mode self.capacity) self.collector ids.old) }
        ensures ids { ids.new ≡ ids_after (first_fault self.mode self.capacity) self.collector ids.old }
    {
        let HashMapBuilder {
            capacity,
            mode,
            shards,
            collector,
            hasher,
            made: _,
        } = self;
        if copies_none(mode) {
            return Err(Fault::ZeroChunk);
        }
        let _ = entries_for(capacity)?;
        let collector = made(collector, ids)?;
        let processors = shards.unwrap_or(collector.processors());
        let making = Making {
            capacity,
            mode,
            processors: processors.min(MOST_PROCESSORS),
        };
        HashMap::opened(alloc, collector, hasher, making)
    }
}
