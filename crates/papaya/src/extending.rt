//! A session of a set puts what an iterator gives into it.
ghost use Rattle.std.specs.Prelude.{◌≡◌};
ghost use Rattle.std.specs.Iterator.{IsFiniteIterable};
ghost use Rattle.papaya.specs.OneSet.{PutsKey, RefusesKey, key_of};
ghost use Rattle.papaya_map.specs.Given.SessionsExtended.{Extends};

use crate::session::SetSession;
use map_tables::Hashes;
use seize_words::RefusedKey;
use std::hash::Hash;
use std::sync::Wait;

impl<'m, K: Eq + Hash + Drop, S: Hashes<K>> SetSession<'m, K, S> {
    /// Puts what an iterator gives into the set, one key after another, each also in the place of an element that equals it. Where a key is refused, it comes back, those that
    /// came before stay, and no further one is asked for. The faults are `Fault::Capacity` and `Fault::Memory`.
    pub fn extend<R: Wait, I: IntoIterator<Item = K>>(
        &mut self,
        rt: &R,
        keys: I,
    ) -> Result<(), RefusedKey<K>>
        requires { IsFiniteIterable I.into_iter_gives I.IntoIter.can_next I.IntoIter.remaining keys }
        ensures extended { Extends (PutsKey K.eq S.hash) I.into_iter_gives I.IntoIter.next_gives key_of (RefusesKey K.eq S.hash) keys result
            self.old.session.base.caller self.new.session.base.caller }
        ensures number { self.new.session.number ≡ self.old.session.number }
    {
        for key in keys {
            match self.insert(rt, key) {
                Ok(_) => {}
                Err(refused) => return Err(refused),
            }
        }
        Ok(())
    }
}
