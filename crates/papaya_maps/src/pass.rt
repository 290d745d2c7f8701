//! Passes of a collector that maps share: by them calls are made.
ghost use Rattle.std.specs.Prelude.{◌≡◌, []};

use crate::guard::CollectorGuard;
use map_tables::Hashes;
use std::hash::{Hash, RandomState};
use threads_callers::{MapCaller, MapPassSeat};

/// A pass of a collector. It holds no slot, and rests between two calls; it serves any guard and any map of the collector, may go to another thread, and may outlive them.
#[derive(Drop)]
pub struct CollectorPass<K: Eq + Hash + Drop, V: Drop, S: Hashes<K> = RandomState> {
    pub(crate) seat: MapPassSeat<K, V, S>,
    pub(crate) number: u64,
    /// From where on it looks for the numbers of blocks.
    pub(crate) near: u64,
}

impl<K: Eq + Hash + Drop, V: Drop, S: Hashes<K>> CollectorPass<K, V, S> {
    /// Makes one more of the memory of this one, whose collector has this number.
    pub(crate) fn of(caller: &MapCaller<'_, K, V, S>, number: u64) -> Self
        ensures memory { result.seat.seat.base ≡ caller.now.blocks.now.words.id.views_name }
        ensures number { result.number ≡ number }
        ensures none { result.seat.seat.view.calls ≡ [] }
    {
        CollectorPass {
            seat: caller.pass(),
            number,
            near: 0,
        }
    }

    /// Returns the number of its collector.
    pub fn number(&self) -> u64
        ensures { result ≡ self.now.number }
    {
        self.number
    }

    /// Tells from where on it looks for the numbers of blocks under this guard: where that one begins to at first.
    pub(crate) fn near_under(&self, guard: &CollectorGuard<'_, K, V, S>) -> u64 {
        if self.near == 0 {
            guard.caller.near()
        } else {
            self.near
        }
    }
}
