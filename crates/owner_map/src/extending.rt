//! What an iterator gives is put into a map for one owner.
ghost use Rattle.std.specs.Prelude.{◌≡◌, IfOk, IfErr};
ghost use Rattle.std.specs.Iterator.{IsFiniteIterable};
ghost use Rattle.owner_asks.specs.Given.LateFaults.{IsRoom};
ghost use Rattle.map_straight.specs.Shown.Chain.{CannotGrow};
ghost use Rattle.seize_words.specs.declared.fault.Fault.TheVariants.{Capacity};
ghost use Rattle.owner_rests.specs.ShowsPairs.Stored.{Collects, Extends};

use crate::insertions::put;
use crate::map::HashMap;
use owner_asks::Refused;
use seize_words::{Fault, Receiver};
use std::alloc::Global;
use std::hash::{BuildHasher, Hash};

impl<K: Eq + Hash + Drop, V: Drop, S: BuildHasher, R: Receiver<(K, V)>> HashMap<K, V, S, R> {
    /// Stores what an iterator gives, one pair after another, each also in the place of another one of its key. Where a pair is refused, it is
    /// handed back, those that came before stay, and no further one is asked for. `taken` and `met` show then what they show after the last one, or,
    /// where one was refused, nothing. The faults are `Fault::Capacity`, where no table can follow the map's last one, and `Fault::Memory`.
    pub fn extend<I: IntoIterator<Item = (K, V)>>(&mut self, items: I) -> Result<(), Refused<K, V>>
        requires { IsFiniteIterable I.into_iter_gives I.IntoIter.can_next I.IntoIter.remaining items }
        ensures put { Extends K.eq I.into_iter_gives I.IntoIter.next_gives items self.old self.new result }
        ensures fault { IfErr result (λ r. IsRoom r.fault) }
        ensures capacity { IfErr result (λ r. r.fault ≡ Capacity → CannotGrow self.new.tables) }
        ensures hasher { self.new.hasher ≡ self.old.hasher }
    {
        for (key, value) in items {
            match put(self, key, value) {
                Ok(_) => {}
                Err(refused) => return Err(refused),
            }
        }
        Ok(())
    }
}

impl<K: Eq + Hash + Drop, V: Drop, S: BuildHasher + Default + Drop> HashMap<K, V, S> {
    /// Makes a map with what an iterator gives, the last pair of each key. The faults are `Fault::Capacity` and `Fault::Memory`; then there is no map.
    pub fn try_collect<I: IntoIterator<Item = (K, V)>>(
        alloc: Global,
        items: I,
    ) -> Result<Self, Fault>
        requires { IsFiniteIterable I.into_iter_gives I.IntoIter.can_next I.IntoIter.remaining items }
        ensures collected { IfOk result (λ map. Collects K.eq I.into_iter_gives I.IntoIter.next_gives items map) }
        ensures fault { IfErr result IsRoom }
        ensures hasher { IfOk result (λ map. S.is_default map.hasher) }
    {
        let rest = items.into_iter();
        let mut map = HashMap::new(alloc)?;
        match map.extend(rest) {
            Ok(()) => Ok(map),
            Err(refused) => Err(refused.fault),
        }
    }
}
