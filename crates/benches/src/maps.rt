//! The maps that are timed, behind one trait.

use std::collections;

/// The map for one owner, with the hasher of std's maps.
pub(crate) type Owned = papaya_seq::HashMap<u64, u64>;

/// The standard library's map.
pub(crate) type Std = collections::HashMap<u64, u64>;

/// A map from numbers to numbers.
pub(crate) trait Numbers {
    /// The value of a key.
    fn value(&self, key: u64) -> Option<u64>;

    /// Stores a pair, and tells whether that was done.
    fn store(&mut self, key: u64, value: u64) -> bool;

    /// Removes a pair, and tells whether that was done.
    fn lose(&mut self, key: u64) -> bool;

    /// The sum of all values.
    fn total(&self) -> u64;
}

impl Numbers for Owned {
    fn value(&self, key: u64) -> Option<u64> {
        self.get(&key).copied()
    }

    fn store(&mut self, key: u64, value: u64) -> bool {
        self.insert(key, value).is_ok()
    }

    fn lose(&mut self, key: u64) -> bool {
        self.remove(&key).is_ok()
    }

    fn total(&self) -> u64 {
        let mut sum: u64 = 0;
        for value in self.values() {
            sum = sum.wrapping_add(*value);
        }
        sum
    }
}

impl Numbers for Std {
    fn value(&self, key: u64) -> Option<u64> {
        self.get(&key).copied()
    }

    fn store(&mut self, key: u64, value: u64) -> bool {
        self.insert(key, value).is_ok()
    }

    fn lose(&mut self, key: u64) -> bool {
        self.remove(&key).is_some()
    }

    fn total(&self) -> u64 {
        let mut sum: u64 = 0;
        for value in self.values() {
            sum = sum.wrapping_add(*value);
        }
        sum
    }
}
