//! A collector that maps share, and how they are made.
ghost use Rattle.std.specs.Prelude.{◌≡◌, ◌≢◌, ◌≤◌, ◌^◌, [], Ok, true, IfErr, IfOk, OnOk, nat_lt};
ghost use Rattle.map_tables.specs.declared.resize_mode.ResizeMode.TheVariants.{Incremental};
ghost use Rattle.seize.specs.Collector.{made_by};
ghost use Rattle.seize.specs.Ids.{following, given};
ghost use Rattle.seize_words.specs.declared.fault.Fault.TheVariants.{Memory};

use crate::guard::{CollectorGuard, CollectorRegistration};
use crate::map::CollectorMap;
use crate::pass::CollectorPass;
use map_machines::NewMap;
use map_tables::{Counter, Hashes, Node, ResizeMode, Setting};
use seize::{Collector, IdSource};
use seize_blocks::Home;
use seize_views::Fixed;
use seize_words::Fault;
use std::alloc::Global;
use std::hash::{BuildHasher, Hash, RandomState};
use threads_callers::{MapCaller, OfMaps, Sleepers, memory_for};
use threads_owners::makes_own;

/// For how many blocks its memory has numbers at first.
const FIRST: u64 = 64;

/// For how many processors a map counts its pairs at most.
const MOST_PROCESSORS: u64 = 1 << 63;

/// A collector that maps share. It stays on its thread; its maps may be lent to others, and its registrations and passes sent, which serve all its maps. The hashers of these are of one type.
#[derive(Drop)]
pub struct SharedCollector<K: Eq + Hash + Drop, V: Drop, S: Hashes<K> = RandomState> {
    pub(crate) collector: Collector,
    pub(crate) home: Home<Node<K, V>, OfMaps<S>>,
    /// Those of its callers that sleep until another one has taken a step.
    pub(crate) sleepers: Sleepers,
    pub(crate) ghost sized: { home.blocks.words.fixed.batch_size ≡ collector.batch_size },
    pub(crate) ghost rooted: { home.blocks.words.fixed.roots ≡ collector.roots },
    pub(crate) ghost single: { home.blocks.words.fixed.chains ≡ 0 },
    pub(crate) ghost some: { nat_lt 0 collector.roots ≡ true },
    pub(crate) ghost small: { nat_lt home.blocks.words.fixed.batch_size (2 ^ 64) ≡ true },
}

impl<K: Eq + Hash + Drop, V: Drop, S: BuildHasher> SharedCollector<K, V, S> {
    /// Makes a collector for 1 to 2^63 processors, with 1 to 65,536 roots: so many maps may be there at a time. After `Fault::CollectorsUsedUp` the source is as it was; after
    /// `Fault::Memory` its number is spent.
    pub fn new(
        alloc: Global,
        ids: &mut IdSource,
        processors: u64,
        roots: u64,
    ) -> Result<Self, Fault>
        requires some_processors { 1 ≤ processors }
        requires processors { processors ≤ 2 ^ 63 }
        requires some_roots { 1 ≤ roots }
        requires roots { roots ≤ 65536 }
        ensures made { IfOk result (λ shared. made_by (given ids.old) processors roots ≡ Ok shared.collector) }
        ensures ids { ids.new ≡ following ids.old }
    {
        let collector = Collector::new(ids, processors, roots)?;
        SharedCollector::of(alloc, collector)
    }

    /// Makes one of what was chosen so.
    pub fn of(alloc: Global, collector: Collector) -> Result<Self, Fault>
        requires some_roots { 1 ≤ collector.roots }
        requires roots { collector.roots ≤ 65536 }
        ensures collector { IfOk result (λ shared. shared.collector ≡ collector) }
        ensures fault { IfErr result (λ fault. fault ≡ Memory) }
    {
        let chosen = Fixed {
            batch_size: collector.size_of_batches(),
            roots: collector.roots(),
            chains: 0,
        };
        let home = memory_for::<K, V, S>(alloc, FIRST, &chosen)?;
        Ok(SharedCollector {
            collector,
            home,
            sleepers: Sleepers::new(),
        })
    }
}

impl<K: Eq + Hash + Drop, V: Drop, S: Hashes<K>> SharedCollector<K, V, S> {
    /// Returns its number, which no other collector of its source has.
    pub fn number(&self) -> u64
        ensures { result ≡ self.now.collector.number }
    {
        self.collector.number()
    }

    /// Takes a slot, and opens no section of it yet. The faults are `Fault::SlotsUsedUp` and `Fault::Memory`.
    pub fn register(&self) -> Result<CollectorRegistration<'_, K, V, S>, Fault>
        ensures memory { IfOk result (λ it. it.caller.blocks.now ≡ self.now.home.blocks) }
        ensures number { IfOk result (λ it. it.number ≡ self.now.collector.number) }
    {
        let caller = MapCaller::new(&self.home.blocks, &self.sleepers);
        let batch_size = self.collector.size_of_batches();
        CollectorRegistration::begin(caller, batch_size, self.number())
    }

    /// Takes a slot, and opens a section of it. The faults are `Fault::SlotsUsedUp` and `Fault::Memory`.
    pub fn guard(&self) -> Result<CollectorGuard<'_, K, V, S>, Fault>
        ensures memory { IfOk result (λ guard. guard.caller.blocks.now ≡ self.now.home.blocks) }
        ensures number { IfOk result (λ guard. guard.number ≡ self.now.collector.number) }
    {
        let registration = self.register()?;
        Ok(registration.enter())
    }

    /// Makes a pass, which may be sent to a thread, and serves any guard and any map of this collector.
    pub fn pass(&self) -> CollectorPass<K, V, S>
        ensures memory { result.seat.seat.base ≡ self.now.home.blocks.words.id.views_name }
        ensures number { result.number ≡ self.now.collector.number }
        ensures none { result.seat.seat.view.calls ≡ [] }
    {
        let caller = MapCaller::new(&self.home.blocks, &self.sleepers);
        CollectorPass::of(&caller, self.number())
    }

    /// Begins a builder of a map with this hasher: one that copies 64 places at a time as it grows, and counts its pairs for the processors of the collector.
    pub fn builder(&self, hasher: S) -> CollectorMapBuilder<'_, K, V, S>
        ensures collector { result.collector.now ≡ self.now }
        ensures hasher { result.hasher ≡ hasher }
        ensures copies { result.copies ≡ 64 }
        ensures shards { result.shards ≡ self.now.collector.processors }
    {
        CollectorMapBuilder {
            collector: self,
            hasher,
            copies: 64,
            shards: self.collector.processors(),
        }
    }
}

/// What is chosen of a map that shares its collector. Each call takes the builder, and gives it back with that one thing chosen anew.
#[derive(Drop)]
pub struct CollectorMapBuilder<'c, K: Eq + Hash + Drop, V: Drop, S: Hashes<K> = RandomState> {
    collector: &'c SharedCollector<K, V, S>,
    hasher: S,
    copies: u64,
    shards: u64,
}

impl<'c, K: Eq + Hash + Drop, V: Drop, S: Hashes<K> + Drop> CollectorMapBuilder<'c, K, V, S> {
    /// Chooses how many places the map copies at a time as it grows.
    pub fn copies(self, places: u64) -> Self
        ensures { result ≡ record self.entry { copies = places } }
    {
        CollectorMapBuilder {
            copies: places,
            ..self
        }
    }

    /// Chooses that its pairs are counted for so many processors, 2^63 at most.
    pub fn shards(self, shards: u64) -> Self
        ensures { result ≡ record self.entry { shards = shards } }
    {
        CollectorMapBuilder { shards, ..self }
    }

    /// Returns the map, with no pair, and with no table yet. The faults, the first that holds, are `Fault::ZeroChunk`, where no place would ever be copied; `Fault::RootsUsedUp`, where
    /// each root was in use at its try: by a map that stands, or by what waits of one that has ended; and `Fault::Memory`.
    pub fn build(self) -> Result<CollectorMap<'c, K, V, S>, Fault>
        ensures some { OnOk result (self.entry.copies ≢ 0) }
        ensures memory { IfOk result (λ map. map.owner.blocks.now ≡ self.entry.collector.now.home.blocks) }
        ensures number { IfOk result (λ map. map.number ≡ self.entry.collector.now.collector.number) }
        ensures hasher { IfOk result (λ map. map.hasher ≡ self.entry.hasher) }
        ensures mode { IfOk result (λ map. map.setting.mode ≡ Incremental self.entry.copies) }
    {
        let CollectorMapBuilder {
            collector,
            hasher,
            copies,
            shards,
        } = self;
        if copies == 0 {
            return Err(Fault::ZeroChunk);
        }
        let setting = Setting {
            slot: 0,
            batch_size: collector.collector.size_of_batches(),
            root: 0,
            mode: ResizeMode::Incremental(copies),
            counter: 0,
            mask: Counter::new(shards.min(MOST_PROCESSORS)).mask,
            initial: 1,
        };
        let opening = NewMap::new(setting, collector.collector.roots(), 0);
        let mut owner = MapCaller::new(&collector.home.blocks, &collector.sleepers);
        let setting = makes_own(&mut owner, &hasher, opening)?;
        Ok(CollectorMap {
            owner,
            hasher,
            setting,
            number: collector.number(),
        })
    }
}
