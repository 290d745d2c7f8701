//! How many pairs a map has, counted in shards.
ghost use Rattle.std.specs.Prelude.{◌≡◌, ℕ, ◌+◌, ◌≤◌, ◌^◌, ◌%◌, sum, bit_and};
ghost use Rattle.std.specs.Int.{IsNextPowerOfTwo};
ghost use Rattle.map_tables.specs.Counts.{count_in};

/// How the count of a map's pairs is sharded: a call counts in the shard of its slot, so that calls of different
/// slots seldom meet at one word.
#[derive(Clone, Copy)]
pub struct Counter {
    /// The number of shards, a power of two, less one.
    pub mask: u64,
}

impl Counter {
    /// Makes a counter for so many processors, at most 2^63: its shards are the next power of two.
    pub fn new(processors: u64) -> Counter
        requires { processors ≤ 2 ^ 63 }
        ensures { IsNextPowerOfTwo processors (result.mask + 1) }
    {
        Counter {
            mask: processors.next_power_of_two() - 1,
        }
    }

    /// Returns the number of shards.
    pub fn shards(self) -> u64
        ensures { result ≡ (self.mask + 1) % 2 ^ 64 }
    {
        self.mask.wrapping_add(1)
    }

    /// Returns the shard of a slot: the slot's number masked.
    pub fn get(self, slot: u64) -> u64
        ensures masked { result ≡ bit_and slot self.mask }
        ensures in_words { (bits : ℕ) → self.mask + 1 ≡ 2 ^ bits → result ≡ slot % 2 ^ bits }
    {
        slot & self.mask
    }

    /// Returns the count that the words of all shards give.
    pub fn sum(words: &[u64]) -> u64
        ensures { result ≡ count_in (sum words.now % 2 ^ 64) }
    {
        let mut total: u64 = 0;
        for word in words {
            total = total.wrapping_add(*word);
        }
        Counter::read(total)
    }

    /// Returns the count that a sum of all shards says, as a number with a sign: 0 where it is negative.
    pub fn read(total: u64) -> u64
        ensures { result ≡ count_in total }
    {
        u64::try_from(total.cast_signed()).unwrap_or(0)
    }
}
