//! What a set for one owner has. Nothing here takes memory, or completes a resize.
ghost use Rattle.std.specs.Prelude.{◌≡◌, ◌==◌, ◌++◌, List, length, is_some, find};
ghost use Rattle.std.specs.List.{IsDistinct};
ghost use Rattle.std.specs.List.Sorted.{IsPermutation};
ghost use Rattle.std.specs.Option.{option_copied};
ghost use Rattle.map_straight.specs.Shown.Coming.{can_go_on};
ghost use Rattle.map_straight.specs.Shown.Columns.{keys_to_come};

use super::HashSet;
use map_straight::Keys;
use map_tables::Equivalent;
use owner_map::Receiver;
use std::hash::{BuildHasher, Hash};

impl<K: Eq + Hash, S: BuildHasher, R: Receiver<(K, ())>> HashSet<K, S, R> {
    /// Returns how many elements it has. No two of them are equal, and all are held, beside those that wait.
    pub fn len(&self) -> u64
        ensures len { result ≡ length self.now.elements }
        ensures apart { IsDistinct K.eq self.now.elements }
        ensures held { (waiting : List K) × IsPermutation self.now.held (self.now.elements ++ waiting) }
    {
        self.map.len()
    }

    /// Returns whether it has no element.
    pub fn is_empty(&self) -> bool
        ensures { result ≡ (length self.now.elements == 0) }
    {
        self.map.is_empty()
    }

    /// Returns whether the element is in the set.
    pub fn contains<Q: Equivalent<K>>(&self, asked: &Q) -> bool
        ensures there { result ≡ is_some (find (Q.Equivalent.equivalent asked.now) self.now.elements) }
        ensures in_any_order { (xs : List K) → IsPermutation self.now.elements xs → result ≡ is_some (find (Q.Equivalent.equivalent asked.now) xs) }
    {
        self.map.contains_key(asked)
    }

    /// Returns the stored element, if it is in the set.
    pub fn get<Q: Equivalent<K>>(&self, asked: &Q) -> Option<&K>
        ensures element { option_copied result ≡ find (Q.Equivalent.equivalent asked.now) self.now.elements }
        ensures in_any_order { (xs : List K) → IsPermutation self.now.elements xs → option_copied result ≡ find (Q.Equivalent.equivalent asked.now) xs }
    {
        match self.map.get_key_value(asked) {
            Some((element, _)) => Some(element),
            None => None,
        }
    }

    /// Returns the elements, each once. In which order is not said, but no two are equal.
    pub fn iter(&self) -> Keys<'_, K, ()>
        ensures can { can_go_on result.pairs }
        ensures elements { keys_to_come result ≡ self.now.elements }
        ensures apart { IsDistinct K.eq self.now.elements }
    {
        self.map.keys()
    }
}

impl<'a, K: Eq + Hash, S: BuildHasher, R: Receiver<(K, ())>> IntoIterator for &'a HashSet<K, S, R> {
    type Item = &'a K;

    type IntoIter = Keys<'a, K, ()>;

    ghost into_iter_gives = { λ set walk. can_go_on walk.pairs × (keys_to_come walk ≡ set.now.elements) × IsDistinct K.eq set.now.elements };

    fn into_iter(self) -> Keys<'a, K, ()> {
        self.iter()
    }
}
