//! A map that shares its collector with others.
ghost use Rattle.std.specs.Prelude.{◌≡◌, ◌^◌, Some, true, nat_lt};
ghost use Rattle.map_tables.specs.Chunks.{is_incremental};
ghost use Rattle.papaya_maps.specs.Calls.{own_by};
ghost use Rattle.threads_callers.specs.Given.ViewsDeclared.view.SeatWork.TheVariants.{Nothing as NoWork};
ghost use Rattle.seize_views.specs.declared.view.SlotView.TheVariants.{Rests};

mod calls;
mod keys;

pub(crate) use calls::value_of;
use map_tables::{Hashes, Setting};
use std::hash::{Hash, RandomState};
use threads_callers::MapCaller;
use threads_owners::ends_own;

/// A map that shares its collector with others. It may be lent to threads. As it is dropped it ends: its pairs are dropped at once, but those that its tables carry, which wait at its
/// root; that one is free again once `SharedCollector::reclaim_all` has reclaimed them. The other maps of the collector go on meanwhile.
pub struct CollectorMap<'c, K: Eq + Hash + Drop, V: Drop, S: Hashes<K> = RandomState> {
    /// It has the map as its own, and holds no slot. It is lent for each call.
    pub(crate) owner: MapCaller<'c, K, V, S>,
    pub(crate) hasher: S,
    pub(crate) setting: Setting,
    pub(crate) number: u64,
    pub(crate) ghost owns: { own_by owner.seat.view ≡ Some (setting, hasher) },
    pub(crate) ghost rests: { owner.seat.view.slot ≡ Rests },
    pub(crate) ghost free: { owner.seat.view.work ≡ NoWork },
    pub(crate) ghost bits: { is_incremental setting.mode ≡ true },
    pub(crate) ghost sized: { owner.blocks.now.words.fixed.batch_size ≡ setting.batch_size },
    pub(crate) ghost small: { nat_lt owner.blocks.now.words.fixed.batch_size (2 ^ 64) ≡ true },
}

impl<'c, K: Eq + Hash + Drop, V: Drop, S: Hashes<K>> CollectorMap<'c, K, V, S> {
    /// Returns the number of its collector.
    pub fn number(&self) -> u64
        ensures { result ≡ self.now.number }
    {
        self.number
    }
}

impl<'c, K: Eq + Hash + Drop, V: Drop, S: Hashes<K> + Drop> Drop for CollectorMap<'c, K, V, S> {
    fn drop(self) {
        let CollectorMap {
            owner,
            hasher: _,
            setting,
            number: _,
        } = self;
        let mut owner = owner;
        ends_own(&mut owner, setting);
        drop(owner);
    }
}
