//! What an iterator gives is put into a set for one owner.
ghost use Rattle.std.specs.Prelude.{◌≡◌, IfOk, IfErr};
ghost use Rattle.std.specs.Iterator.{IsFiniteIterable};
ghost use Rattle.owner_map.specs.Given.{CannotGrow, IsRoom};
ghost use Rattle.seize_words.specs.declared.fault.Fault.TheVariants.{Capacity};
ghost use Rattle.papaya_seq.specs.Stored.{CollectsSet, ExtendsSet};

use super::HashSet;
use owner_map::{Receiver, RefusedKey};
use seize_words::Fault;
use std::alloc::Global;
use std::hash::{BuildHasher, Hash};

impl<K: Eq + Hash + Drop, S: BuildHasher, R: Receiver<(K, ())>> HashSet<K, S, R> {
    /// Stores what an iterator gives, one element after another, each also in the place of one that equals it. Where one is refused, it is handed
    /// back, those that came before stay, and no further one is asked for. `taken` and `met` show then what they show after the last one, or, where one
    /// was refused, nothing. The faults are `Fault::Capacity`, where no table can follow the set's last one, and `Fault::Memory`.
    pub fn extend<I: IntoIterator<Item = K>>(&mut self, items: I) -> Result<(), RefusedKey<K>>
        requires { IsFiniteIterable I.into_iter_gives I.IntoIter.can_next I.IntoIter.remaining items }
        ensures put { ExtendsSet K.eq I.into_iter_gives I.IntoIter.next_gives items self.old self.new result }
        ensures fault { IfErr result (λ r. IsRoom r.fault) }
        ensures capacity { IfErr result (λ r. r.fault ≡ Capacity → CannotGrow self.new.tables) }
        ensures hasher { self.new.hasher ≡ self.old.hasher }
    {
        for element in items {
            match self.insert(element) {
                Ok(_) => {}
                Err(refused) => return Err(refused),
            }
        }
        Ok(())
    }
}

impl<K: Eq + Hash + Drop, S: BuildHasher + Default + Drop> HashSet<K, S> {
    /// Makes a set with what an iterator gives, the last of those that are equal. The faults are `Fault::Capacity` and `Fault::Memory`; then there is no set.
    pub fn try_collect<I: IntoIterator<Item = K>>(alloc: Global, items: I) -> Result<Self, Fault>
        requires { IsFiniteIterable I.into_iter_gives I.IntoIter.can_next I.IntoIter.remaining items }
        ensures collected { IfOk result (λ set. CollectsSet K.eq I.into_iter_gives I.IntoIter.next_gives items set) }
        ensures fault { IfErr result IsRoom }
        ensures hasher { IfOk result (λ set. S.is_default set.hasher) }
    {
        let rest = items.into_iter();
        let mut set = HashSet::new(alloc)?;
        match set.extend(rest) {
            Ok(()) => Ok(set),
            Err(refused) => Err(refused.fault),
        }
    }
}
