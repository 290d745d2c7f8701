//! The end of all that waits in a map, while nobody else has it.
ghost use Rattle.std.specs.Prelude.{◌≡◌, true};
ghost use Rattle.threads_reclaims.specs.Reclaims.Promises.{IsReclaimed};
ghost use Rattle.threads_reclaims.specs.Reclaims.Rule.{freed};

use crate::map::HashMap;
use core::mem::replace_with;
use map_tables::Hashes;
use papaya_sessions::Fixed;
use std::hash::Hash;
use threads_reclaims::reclaim_all;

/// The same map, whose memory has begun another lifetime.
fn reclaimed<K: Eq + Hash + Drop, V: Drop, S: Hashes<K>>(
    map: HashMap<K, V, S>,
    (): (),
) -> (HashMap<K, V, S>, ())
    ensures collector { result.0.collector ≡ map.collector }
    ensures hasher { result.0.hasher ≡ map.hasher }
    ensures setting { result.0.setting ≡ map.setting }
    ensures words { result.0.home.blocks.words.words ≡ map.home.blocks.words.words }
    ensures fixed { result.0.home.blocks.words.fixed ≡ map.home.blocks.words.fixed }
    ensures knows { result.0.seat.view ≡ freed map.seat.view }
    ensures empty { IsReclaimed K.eq S.hash result.0.home.blocks.words.fixed result.0.home.blocks.words.start }
{
    let HashMap {
        collector,
        home,
        sleepers,
        hasher,
        setting,
        seat,
    } = map;
    let chosen = Fixed {
        batch_size: setting.batch_size,
        roots: 1,
        chains: 0,
    };
    let (home, seat) = reclaim_all(home, seat, &chosen);
    let map = HashMap {
        collector,
        home,
        sleepers,
        hasher,
        setting,
        seat,
    };
    (map, ())
}

impl<K: Eq + Hash + Drop, V: Drop, S: Hashes<K>> HashMap<K, V, S> {
    /// Reclaims all that waits in the map: nobody else has it meanwhile. A slot that a session has kept which was forgotten is free then, and each pair that
    /// was removed or replaced, and each table that was left, is dropped. Pairs of the map stay. A pass that was made before serves no session that begins
    /// then. It is refused nothing, and answers whether the map owns its collector, as each does.
    pub fn reclaim_all(&mut self) -> bool
        ensures owns { result ≡ true }
        ensures collector { self.new.collector ≡ self.old.collector }
        ensures hasher { self.new.hasher ≡ self.old.hasher }
        ensures setting { self.new.setting ≡ self.old.setting }
        ensures words { self.new.home.blocks.words.words ≡ self.old.home.blocks.words.words }
        ensures fixed { self.new.home.blocks.words.fixed ≡ self.old.home.blocks.words.fixed }
        ensures knows { self.new.seat.view ≡ freed self.old.seat.view }
        ensures empty { IsReclaimed K.eq S.hash self.new.home.blocks.words.fixed self.new.home.blocks.words.start }
    {
        replace_with(self, (), reclaimed);
        true
    }
}
