//! Lookups in a map for one owner. They read words and values, and take no memory.
ghost use Rattle.std.specs.Prelude.{◌≡◌, IsSome, List, Some, is_some, option_map};
ghost use Rattle.std.specs.List.Sorted.{IsPermutation};
ghost use Rattle.std.specs.Option.{option_copied};
ghost use Rattle.owner_rests.specs.Given.{found_by};

use crate::map::HashMap;
use map_tables::Equivalent;
use owner_rests::pair_of;
use seize_words::Receiver;
use std::hash::{BuildHasher, Hash};
use std::ops::Index;

impl<K: Eq + Hash, V, S: BuildHasher, R: Receiver<(K, V)>> HashMap<K, V, S, R> {
    /// Returns the value of a key, if the key is in the map.
    pub fn get<Q: Equivalent<K>>(&self, asked: &Q) -> Option<&V>
        ensures value { option_copied result ≡ option_map (λ x. x.1) (found_by (Q.Equivalent.equivalent asked.now) self.now.pairs) }
        ensures in_any_order { (xs : List (K × V)) → IsPermutation self.now.pairs xs → option_copied result ≡ option_map (λ x. x.1) (found_by (Q.Equivalent.equivalent asked.now) xs) }
    {
        match self.get_key_value(asked) {
            Some((_, value)) => Some(value),
            None => None,
        }
    }

    /// Returns the stored key and its value, if the key is in the map.
    pub fn get_key_value<Q: Equivalent<K>>(&self, asked: &Q) -> Option<(&K, &V)>
        ensures pair { option_map (λ x. (x.0.now, x.1.now)) result ≡ found_by (Q.Equivalent.equivalent asked.now) self.now.pairs }
        ensures in_any_order { (xs : List (K × V)) → IsPermutation self.now.pairs xs → option_map (λ x. (x.0.now, x.1.now)) result ≡ found_by (Q.Equivalent.equivalent asked.now) xs }
    {
        let memory = &self.resting.memory;
        pair_of(memory, self.resting.setting, &self.hasher, asked)
    }

    /// Returns whether the key is in the map.
    pub fn contains_key<Q: Equivalent<K>>(&self, asked: &Q) -> bool
        ensures there { result ≡ is_some (found_by (Q.Equivalent.equivalent asked.now) self.now.pairs) }
        ensures in_any_order { (xs : List (K × V)) → IsPermutation self.now.pairs xs → result ≡ is_some (found_by (Q.Equivalent.equivalent asked.now) xs) }
    {
        self.get_key_value(asked).is_some()
    }
}

impl<K: Eq + Hash, V, S: BuildHasher, R: Receiver<(K, V)>, Q: Equivalent<K>> Index<&Q>
    for HashMap<K, V, S, R> {
    type Output = V;

    ghost can_index = { λ m q. IsSome (found_by (Q.Equivalent.equivalent q.now) m.pairs) };

    ghost index_gives = { λ m q v. option_map (λ x. x.1) (found_by (Q.Equivalent.equivalent q.now) m.pairs) ≡ Some v };

    fn index(&self, asked: &Q) -> &V {
        self.get(asked).unwrap()
    }
}
