//! How many pairs a map for one owner has.
ghost use Rattle.std.specs.Prelude.{◌≡◌, ◌==◌, ◌++◌, List, length};
ghost use Rattle.std.specs.List.{IsDistinct};
ghost use Rattle.std.specs.List.Sorted.{IsPermutation};
ghost use Rattle.std.specs.Map.{keys_of};

use crate::map::HashMap;
use seize_words::Receiver;
use std::hash::{BuildHasher, Hash};

impl<K: Eq + Hash, V, S: BuildHasher, R: Receiver<(K, V)>> HashMap<K, V, S, R> {
    /// Returns how many pairs it has. No two of them have equal keys, and all are held, beside those that wait.
    pub fn len(&self) -> u64
        ensures len { result ≡ length self.now.pairs }
        ensures apart { IsDistinct K.eq (keys_of self.now.pairs) }
        ensures held { (waiting : List (K × V)) × IsPermutation self.now.held (self.now.pairs ++ waiting) }
    {
        owner_rests::count(&self.resting.memory, self.resting.setting, &self.hasher)
    }

    /// Returns whether it has no pair.
    pub fn is_empty(&self) -> bool
        ensures { result ≡ (length self.now.pairs == 0) }
    {
        self.len() == 0
    }
}
