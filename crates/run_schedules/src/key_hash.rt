//! How the keys of a run get their hashes.
ghost use Rattle.std.specs.Prelude.{◌≡◌};
ghost use Rattle.run_schedules.specs.Runs.KeyHashes.{word_of, hash_by};

use std::hash::{BuildHasher, Hasher};

/// How the keys of a run get their hashes, where they are numbers.
#[derive(Clone, Copy)]
pub enum KeyHash {
    /// The hash of a key is the key.
    Key,
    /// Each hash is 0.
    Zero,
}

/// Takes in one number, and gives its hash.
#[derive(Clone, Copy)]
pub struct KeyHasher {
    /// How.
    pub by: KeyHash,
    /// The number.
    pub word: u64,
}

/// The number whose bytes these are, the lowest first.
fn word_of(bytes: &[u8]) -> u64
    ensures { result ≡ word_of bytes.now }
{
    match bytes.split_first() {
        None => 0,
        Some((byte, rest)) => word_of(rest)
            .wrapping_mul(256)
            .wrapping_add(u64::from(*byte)),
    }
}

impl Hasher for KeyHasher {
    ghost write = { λ hasher bytes. record hasher { word = word_of bytes } };

    ghost finish = { λ hasher. hash_by hasher.by hasher.word };

    fn finish(&self) -> u64 {
        match self.by {
            KeyHash::Key => self.word,
            KeyHash::Zero => 0,
        }
    }

    fn write(&mut self, bytes: &[u8]) {
        self.word = word_of(bytes);
    }
}

impl BuildHasher for KeyHash {
    type Hasher = KeyHasher;

    ghost build_hasher = { λ by. record { by = by; word = 0 } };

    fn build_hasher(&self) -> KeyHasher {
        KeyHasher { by: *self, word: 0 }
    }
}
