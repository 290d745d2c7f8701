//! Walks over the pairs of a map for one owner, its keys and its values. They read words and values, and complete no resize.
ghost use Rattle.std.specs.Prelude.{◌≡◌, length};
ghost use Rattle.std.specs.List.{IsDistinct};
ghost use Rattle.std.specs.Map.{keys_of, values_of};
ghost use Rattle.map_straight.specs.Shown.Columns.{keys_to_come, values_to_come};
ghost use Rattle.map_straight.specs.Shown.Coming.{pairs_to_come, can_go_on};

use crate::map::HashMap;
use map_straight::{Keys, Pairs, Values, pairs_of};
use seize_words::Receiver;
use std::hash::{BuildHasher, Hash};

impl<K: Eq + Hash, V, S: BuildHasher, R: Receiver<(K, V)>> HashMap<K, V, S, R> {
    /// Returns the pairs, each once: every key with its value. In which order is not said, but no two have equal keys.
    pub fn iter(&self) -> Pairs<'_, K, V>
        ensures can { can_go_on result }
        ensures pairs { pairs_to_come result ≡ self.now.pairs }
        ensures apart { IsDistinct K.eq (keys_of self.now.pairs) }
    {
        pairs_of(&self.resting.memory, self.resting.setting)
    }

    /// Returns the keys, each once, in the order of `iter`. No two are equal.
    pub fn keys(&self) -> Keys<'_, K, V>
        ensures can { can_go_on result.pairs }
        ensures keys { keys_to_come result ≡ keys_of self.now.pairs }
        ensures count { length (keys_to_come result) ≡ length self.now.pairs }
        ensures apart { IsDistinct K.eq (keys_of self.now.pairs) }
    {
        Keys { pairs: self.iter() }
    }

    /// Returns the values, in the order of `iter`: that of each pair once, also where they are equal.
    pub fn values(&self) -> Values<'_, K, V>
        ensures can { can_go_on result.pairs }
        ensures values { values_to_come result ≡ values_of self.now.pairs }
        ensures count { length (values_to_come result) ≡ length self.now.pairs }
    {
        Values { pairs: self.iter() }
    }
}

impl<'a, K: Eq + Hash, V, S: BuildHasher, R: Receiver<(K, V)>> IntoIterator
    for &'a HashMap<K, V, S, R> {
    type Item = (&'a K, &'a V);

    type IntoIter = Pairs<'a, K, V>;

    ghost into_iter_gives = { λ map walk. can_go_on walk × (pairs_to_come walk ≡ map.now.pairs) × IsDistinct K.eq (keys_of map.now.pairs) };

    fn into_iter(self) -> Pairs<'a, K, V> {
        self.iter()
    }
}
