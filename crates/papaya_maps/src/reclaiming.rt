//! The end of all that waits in a collector that maps shared, while none of them is there.
ghost use Rattle.std.specs.Prelude.{◌≡◌};
ghost use Rattle.threads_reclaims.specs.Reclaims.Promises.{IsReclaimed};

use crate::collector::SharedCollector;
use core::mem::replace_with;
use map_tables::Hashes;
use seize_views::Fixed;
use std::hash::Hash;
use threads_reclaims::reclaim_all;

/// The same collector, whose memory has begun another lifetime.
fn reclaimed<K: Eq + Hash + Drop, V: Drop, S: Hashes<K>>(
    shared: SharedCollector<K, V, S>,
    (): (),
) -> (SharedCollector<K, V, S>, ())
    ensures collector { result.0.collector ≡ shared.collector }
    ensures fixed { result.0.home.blocks.words.fixed ≡ shared.home.blocks.words.fixed }
    ensures empty { IsReclaimed K.eq S.hash result.0.home.blocks.words.fixed result.0.home.blocks.words.start }
{
    let SharedCollector {
        collector,
        home,
        sleepers,
    } = shared;
    let chosen = Fixed {
        batch_size: collector.size_of_batches(),
        roots: collector.roots(),
        chains: 0,
    };
    let seat = home.blocks.seat();
    let (home, _) = reclaim_all(home, seat, &chosen);
    let shared = SharedCollector {
        collector,
        home,
        sleepers,
    };
    (shared, ())
}

impl<K: Eq + Hash + Drop, V: Drop, S: Hashes<K>> SharedCollector<K, V, S> {
    /// Reclaims all that waits in the collector: its maps have ended, and its guards, or were forgotten. Each pair that was removed or replaced, each table that was left, and what waits at
    /// the roots of maps that have ended is dropped, and these roots are free then. A pass that was made before serves no call after it. It is refused nothing.
    pub fn reclaim_all(&mut self)
        ensures collector { self.new.collector ≡ self.old.collector }
        ensures fixed { self.new.home.blocks.words.fixed ≡ self.old.home.blocks.words.fixed }
        ensures empty { IsReclaimed K.eq S.hash self.new.home.blocks.words.fixed self.new.home.blocks.words.start }
    {
        replace_with(self, (), reclaimed)
    }
}
