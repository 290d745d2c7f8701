//! What the last change of a set for one owner took out of it, and what it put there, lent until the next change.
ghost use Rattle.std.specs.Prelude.{◌≡◌};
ghost use Rattle.std.specs.Option.{option_copied};

use super::HashSet;
use owner_map::Receiver;
use std::hash::{BuildHasher, Hash};

impl<K: Eq + Hash, S: BuildHasher, R: Receiver<(K, ())>> HashSet<K, S, R> {
    /// Returns the element that the last change took out of the set, where it removed or replaced one. What `clear`, `retain` and `reserve` take out is not
    /// shown.
    pub fn taken(&self) -> Option<&K>
        ensures { option_copied result ≡ self.now.taken }
    {
        match self.map.taken() {
            Some((element, _)) => Some(element),
            None => None,
        }
    }

    /// Returns the element that the last change put in the set.
    pub fn met(&self) -> Option<&K>
        ensures { option_copied result ≡ self.now.met }
    {
        match self.map.met() {
            Some((element, _)) => Some(element),
            None => None,
        }
    }
}
