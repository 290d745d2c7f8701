//! What the last change of a map for one owner took out of it, and what it met at its key, lent until the next change.
ghost use Rattle.std.specs.Prelude.{◌≡◌, option_map};

use crate::map::HashMap;
use owner_rests::shown;
use seize_words::Receiver;
use std::hash::{BuildHasher, Hash};

impl<K: Eq + Hash, V, S: BuildHasher, R: Receiver<(K, V)>> HashMap<K, V, S, R> {
    /// Returns the pair that the last change took out of the map, where it removed or replaced one. What `clear`, `retain` and `reserve` take out is not shown.
    pub fn taken(&self) -> Option<(&K, &V)>
        ensures { option_map (λ x. (x.0.now, x.1.now)) result ≡ self.now.taken }
    {
        shown(&self.resting.memory, self.resting.last.taken)
    }

    /// Returns the pair that the last change found at its key and left, or else put there: with `taken` it says what an update has made of what, and which pair
    /// an insertion found that stored none.
    pub fn met(&self) -> Option<(&K, &V)>
        ensures { option_map (λ x. (x.0.now, x.1.now)) result ≡ self.now.met }
    {
        shown(&self.resting.memory, self.resting.last.met)
    }
}
