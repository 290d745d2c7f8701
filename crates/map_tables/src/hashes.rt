//! What gives keys their hashes.
ghost use Rattle.std.specs.Prelude.{fold, ◌%◌, ◌^◌};

use std::hash::{BuildHasher, Hash, Hasher};

/// What gives each key its hash.
pub trait Hashes<K> {
    ghost use Rattle.std.specs.Prelude.{◌≡◌, ℕ};

    /// The hash of a key.
    ghost hash: { Self → K → ℕ };

    /// The hash of a key.
    fn hash_of(&self, key: &K) -> u64
        ensures { result ≡ hash self.now key.now };
}

impl<K: Hash, S: BuildHasher> Hashes<K> for S {
    // A hash is a word.
    ghost hash = { λ builder key. S.Hasher.finish (fold S.Hasher.write (S.build_hasher builder) (K.hash_input key)) % 2 ^ 64 };

    fn hash_of(&self, key: &K) -> u64 {
        self.hash_one(key)
    }
}
