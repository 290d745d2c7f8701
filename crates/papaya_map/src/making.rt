//! How a map is made that threads share.
ghost use Rattle.std.specs.Prelude.{◌≡◌, ◌<◌, ◌≤◌, ◌^◌, Some, None, Ok, true, IfOk, IfErr, OnOk, MatchResult};
ghost use Rattle.papaya_sessions.specs.Given.SeizeCallersKept.{is_home};
ghost use Rattle.papaya_sessions.specs.Given.SeizeViewsDeclared.view.SlotView.TheVariants.{Rests};
ghost use Rattle.map_tables.specs.declared.resize_mode.ResizeMode.TheVariants.{Incremental};
ghost use Rattle.papaya_sessions.specs.Given.ViewsDeclared.view.SeatWork.TheVariants.{Nothing as NoWork};
ghost use Rattle.papaya_map.specs.Builders.{RefusedBy, first_fault, ids_after};
ghost use Rattle.papaya_sessions.specs.Given.CallersStanding.{known_by};
ghost use Rattle.seize.specs.Ids.{given, following};
ghost use Rattle.seize_words.specs.declared.fault.Fault.TheVariants.{Memory};

use crate::builder::HashMapBuilder;
use crate::map::HashMap;
use map_tables::{Hashes, Node, ResizeMode, Setting};
use papaya_sessions::{Fixed, OfMaps, SessionBase as Base, Sleepers, memory_for};
use seize::{Collector, IdSource};
use seize_blocks::{Blocks, Seat};
use seize_words::Fault;
use std::alloc::Global;
use std::hash::{BuildHasher, Hash, RandomState};

/// For how many blocks its memory has numbers at first, beside those of its capacity.
const FIRST: u64 = 64;

/// For how many blocks it has numbers at first at most.
const MOST: u64 = 1 << 32;

/// What a map is made with beside its collector and its hasher.
#[derive(Clone, Copy)]
pub(crate) struct Making {
    /// For how many pairs its memory has numbers at first.
    pub(crate) capacity: u64,
    /// How it comes to its next table.
    pub(crate) mode: ResizeMode,
    /// For how many processors it counts its pairs.
    pub(crate) processors: u64,
}

/// Makes a map in this memory, and answers the seat that knows it, and what each call on it works with.
fn begun<K: Eq + Hash + Drop, V: Drop, S: Hashes<K>>(
    blocks: &Blocks<Node<K, V>, OfMaps<S>>,
    sleepers: &Sleepers,
    hasher: &S,
    chosen: &Fixed,
    making: Making,
) -> Result<(Seat<Node<K, V>, OfMaps<S>>, Setting), Fault>
    requires fixed { blocks.now.words.fixed ≡ chosen.now }
    requires roots { 0 < chosen.now.roots }
    requires processors { making.processors ≤ 2 ^ 63 }
    ensures own { IfOk result (λ r. r.0.base ≡ blocks.now.words.id.views_name) }
    ensures stays { IfOk result (λ r. is_home r.0.away ≡ true) }
    ensures rests { IfOk result (λ r. r.0.view.slot ≡ Rests) }
    ensures free { IfOk result (λ r. r.0.view.work ≡ NoWork) }
    ensures lone { IfOk result (λ r. r.0.view.under ≡ None) }
    ensures good { IfOk result (λ r. r.0.view.by ≡ None) }
    ensures knows { IfOk result (λ r. known_by r.0.view ≡ Some (r.1, hasher.now)) }
    ensures sized { IfOk result (λ r. blocks.now.words.fixed.batch_size ≡ r.1.batch_size) }
    ensures mode { IfOk result (λ r. r.1.mode ≡ making.mode) }
{
    let (mode, processors) = (making.mode, making.processors);
    let session = Base::open(blocks, sleepers, hasher, chosen, mode, processors)?;
    Ok(session.into_seat())
}

impl<K: Eq + Hash + Drop, V: Drop> HashMap<K, V> {
    /// Makes a map with no pair, and with no table yet, with this hasher, whose keys are random. After `Fault::CollectorsUsedUp` the source is as it was; after
    /// `Fault::Memory` its number is spent.
    pub fn new(alloc: Global, ids: &mut IdSource, hasher: RandomState) -> Result<Self, Fault>
        ensures number { IfOk result (λ map. given ids.old ≡ Ok map.collector.number) }
        ensures hasher { IfOk result (λ map. map.hasher ≡ hasher) }
        ensures mode { IfOk result (λ map. map.setting.mode ≡ Incremental 64) }
        ensures fault { IfErr result (λ fault. MatchResult (given ids.old) (λ _. fault ≡ Memory) (λ none. fault ≡ none)) }
        ensures ids { ids.new ≡ following ids.old }
    {
        HashMap::with_hasher(alloc, ids, hasher)
    }

    /// Makes the same, with a memory that has room for so many pairs at first. `Fault::Capacity` comes before the others, and just where that is too many; the
    /// source is as it was then.
    pub fn with_capacity(
        alloc: Global,
        ids: &mut IdSource,
        capacity: u64,
        hasher: RandomState,
    ) -> Result<Self, Fault>
        ensures few { OnOk result (first_fault (Incremental 64) capacity ≡ None) }
        ensures number { IfOk result (λ map. given ids.old ≡ Ok map.collector.number) }
        ensures hasher { IfOk result (λ map. map.hasher ≡ hasher) }
        ensures mode { IfOk result (λ map. map.setting.mode ≡ Incremental 64) }
        ensures fault { IfErr result (RefusedBy (first_fault (Incremental 64) capacity) None ids.old) }
        ensures ids { ids.new ≡ ids_after (first_fault (Incremental 64) capacity) None ids.old }
    {
        HashMap::with_capacity_and_hasher(alloc, ids, capacity, hasher)
    }
}

impl<K: Eq + Hash + Drop, V: Drop, S: BuildHasher + Drop> HashMap<K, V, S> {
    /// Begins a builder of a map with this hasher: of capacity 0, which copies 64 places at a time as it grows, and makes its collector itself.
    pub fn builder(hasher: S) -> HashMapBuilder<K, V, S>
        ensures capacity { result.capacity ≡ 0 }
        ensures mode { result.mode ≡ Incremental 64 }
        ensures shards { result.shards ≡ None }
        ensures collector { result.collector ≡ None }
        ensures hasher { result.hasher ≡ hasher }
    {
        HashMapBuilder::of(hasher)
    }

    /// Makes a map with no pair, with no table yet, and with this hasher. After `Fault::CollectorsUsedUp` the source is as it was; after `Fault::Memory` its
    /// number is spent.
    pub fn with_hasher(alloc: Global, ids: &mut IdSource, hasher: S) -> Result<Self, Fault>
        ensures number { IfOk result (λ map. given ids.old ≡ Ok map.collector.number) }
        ensures hasher { IfOk result (λ map. map.hasher ≡ hasher) }
        ensures mode { IfOk result (λ map. map.setting.mode ≡ Incremental 64) }
        ensures fault { IfErr result (λ fault. MatchResult (given ids.old) (λ _. fault ≡ Memory) (λ none. fault ≡ none)) }
        ensures ids { ids.new ≡ following ids.old }
    {
        let collector = Collector::new(ids, 1, 1)?;
        let making = Making {
            capacity: 0,
            mode: ResizeMode::default(),
            processors: 1,
        };
        HashMap::opened(alloc, collector, hasher, making)
    }

    /// Makes the same, with a memory that has room for so many pairs at first. `Fault::Capacity` comes before the others, and just where that is too many; the
    /// source is as it was then.
    pub fn with_capacity_and_hasher(
        alloc: Global,
        ids: &mut IdSource,
        capacity: u64,
        hasher: S,
    ) -> Result<Self, Fault>
        ensures few { OnOk result (first_fault (Incremental 64) capacity ≡ None) }
        ensures number { IfOk result (λ map. given ids.old ≡ Ok map.collector.number) }
        ensures hasher { IfOk result (λ map. map.hasher ≡ hasher) }
        ensures mode { IfOk result (λ map. map.setting.mode ≡ Incremental 64) }
        ensures fault { IfErr result (RefusedBy (first_fault (Incremental 64) capacity) None ids.old) }
        ensures ids { ids.new ≡ ids_after (first_fault (Incremental 64) capacity) None ids.old }
    {
        HashMap::builder(hasher)
            .capacity(capacity)
            .build(alloc, ids)
    }

    /// The one with this collector. It is alone in its memory, so that has one root, whatever the collector was made for.
    pub(crate) fn opened(
        alloc: Global,
        collector: Collector,
        hasher: S,
        making: Making,
    ) -> Result<Self, Fault>
        requires processors { making.processors ≤ 2 ^ 63 }
        ensures collector { IfOk result (λ map. map.collector ≡ collector) }
        ensures batches { IfOk result (λ map. map.setting.batch_size ≡ collector.batch_size) }
        ensures hasher { IfOk result (λ map. map.hasher ≡ hasher) }
        ensures mode { IfOk result (λ map. map.setting.mode ≡ making.mode) }
        ensures fault { IfErr result (λ fault. fault ≡ Memory) }
    {
        let chosen = Fixed {
            batch_size: collector.size_of_batches(),
            roots: 1,
            chains: 0,
        };
        let count = making.capacity.saturating_add(FIRST).min(MOST);
        let home = memory_for::<K, V, S>(alloc, count, &chosen)?;
        let sleepers = Sleepers::new();
        match begun(&home.blocks, &sleepers, &hasher, &chosen, making) {
            Ok((seat, setting)) => Ok(HashMap {
                collector,
                home,
                sleepers,
                hasher,
                setting,
                seat,
            }),
            // Its one root is free in a memory that has just been opened.
            Err(_) => Err(Fault::Memory),
        }
    }
}
