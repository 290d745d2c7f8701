//! What a map that threads share is asked with in the place of a key.
ghost use Rattle.std.specs.Prelude.{◌≡◌};

use map_tables::{Equivalent, Hashes};
use std::hash::{BuildHasher, Hash};

/// A form of a key, which the hasher of a map hashes as the key for which it stands. Each key is one, and whatever else is equivalent to keys.
pub trait Form<K: Eq + Hash, S: Hashes<K>>: Equivalent<K> {
    /// Returns the hash of the key for which it stands.
    fn hash_by(&self, hasher: &S) -> u64
        ensures { result ≡ S.hash hasher.now (Self.stands_for self.now) };
}

impl<K: Eq + Hash, S: BuildHasher, Q: Equivalent<K>> Form<K, S> for Q {
    fn hash_by(&self, hasher: &S) -> u64 {
        hasher.hash_one(self)
    }
}
