//! Where the words of slots lie: in buckets, each twice as long as the one before it.
ghost use Rattle.std.specs.Prelude.{◌≡◌, ◌==◌, ℕ, ◌≤◌, ◌<◌, ◌^◌, ◌-◌, ◌+◌, not, [], length, replicate, IfOk, IsSome, OnOk, OnErr};
ghost use Rattle.seize_words.specs.OneMemory.Place.{capacity, IsPlace, HasOnePlace};
ghost use Rattle.seize_words.specs.OneMemory.SlotWords.{slot_word, with_slot_word, with_bucket};

use crate::words::Words;
use std::alloc::{AllocError, Global};
use std::marker::Model;

/// Returns how many slots a bucket holds.
pub fn bucket_capacity(bucket: u64) -> u64
    requires { bucket ≤ 58 }
    ensures { result ≡ capacity bucket }
{
    32 << bucket
}

/// Returns the bucket that a slot lies in, and its index there.
pub fn place_of(slot: u64) -> (u64, u64)
    requires { slot < 2 ^ 64 - 32 }
    ensures bucket { result.0 ≤ 58 }
    ensures place { IsPlace slot result.0 result.1 }
{
    let number = slot + 32;
    let digits = number.ilog2();
    // Without its first digit the number is the index.
    (u64::from(digits) - 5, number ^ (1 << digits))
}

/// A place is one slot's, and a slot has one place.
pub fn places_are_one_to_one()
    ensures one_slot { (slot other bucket index : ℕ) → IsPlace slot bucket index → IsPlace other bucket index → slot ≡ other }
    ensures one_place { HasOnePlace }
{}

/// How many words a slot has.
pub const SLOT_WORDS: usize = 2;

/// The slots of a bucket, each with its words.
#[derive(Drop)]
struct Bucket {
    slots: Vec<Words<SLOT_WORDS>>,
}

impl Model for Bucket {
    ghost use Rattle.std.specs.Prelude.{List, ℕ};

    ghost Value = { List (List ℕ) };

    ghost view = { λ b. b.slots.items };
}

impl Bucket {
    /// As many slots, each word 0.
    fn zeros(alloc: Global, count: u64) -> Result<Self, AllocError>
        ensures { IfOk result (λ b. b ≡ replicate count (replicate SLOT_WORDS 0)) }
    {
        let mut slots = Vec::with_capacity(alloc, count as usize)?;
        for index in 0..count {
            slots.push(Words::zeros())?;
        }
        Ok(Bucket { slots })
    }

    fn get(&self, index: u64, field: u64) -> u64
        requires { IsSome (slot_word self.now index field) }
        ensures { slot_word self.now index field ≡ Some result }
    {
        self.slots[index as usize].get(field)
    }

    fn set(&mut self, index: u64, field: u64, word: u64)
        requires { IsSome (slot_word self.old index field) }
        ensures { self.new ≡ with_slot_word self.old index field word }
    {
        self.slots[index as usize].set(field, word);
    }
}

/// The words of slots, in a table that grows by one bucket after another. A slot's words never move.
#[derive(Drop)]
pub struct Slots {
    alloc: Global,
    buckets: Vec<Bucket>,
}

impl Model for Slots {
    ghost use Rattle.std.specs.Prelude.{List, ℕ};
    ghost use Rattle.seize_words.specs.OneMemory.Buckets.{all_in, IsBucketed};

    ghost Value = { List (List ℕ) };

    ghost view = { λ s. all_in s.buckets.items };

    ghost invariant = { λ s. IsBucketed s.buckets.items };
}

impl Slots {
    /// Begins with no slot.
    pub fn new(alloc: Global) -> Self
        ensures { result ≡ [] }
    {
        Slots {
            alloc,
            buckets: Vec::new(alloc),
        }
    }

    /// Returns a word of a slot.
    pub fn get(&self, slot: u64, field: u64) -> u64
        requires { IsSome (slot_word self.now slot field) }
        ensures { slot_word self.now slot field ≡ Some result }
    {
        let buckets = &self.buckets;
        let (bucket, index) = place_of(slot);
        buckets[bucket as usize].get(index, field)
    }

    /// Writes a word of a slot.
    pub fn set(&mut self, slot: u64, field: u64, word: u64)
        requires { IsSome (slot_word self.old slot field) }
        ensures { self.new ≡ with_slot_word self.old slot field word }
    {
        let buckets = &mut self.buckets;
        let (bucket, index) = place_of(slot);
        buckets[bucket as usize].set(index, field, word);
    }

    /// Returns whether the words of a bucket are there. No earlier bucket may be missing.
    pub fn has(&self, bucket: u64) -> bool
        requires { capacity bucket ≤ length self.now + 32 }
        ensures { result ≡ not (length self.now + 32 == capacity bucket) }
    {
        bucket as usize != self.buckets.len()
    }

    /// Makes the words of a bucket, each 0, where they are not there yet. No earlier bucket may be missing.
    pub fn room(&mut self, bucket: u64) -> Result<(), AllocError>
        requires last { bucket ≤ 58 }
        requires next { capacity bucket ≤ length self.old + 32 }
        ensures ok { OnOk result (self.new ≡ with_bucket self.old bucket) }
        ensures err { OnErr result (self.new ≡ self.old) }
        ensures grows { OnErr result (length self.old + 32 ≡ capacity bucket) }
    {
        if bucket as usize == self.buckets.len() {
            self.buckets
                .push(Bucket::zeros(self.alloc, bucket_capacity(bucket))?)?;
        }
        Ok(())
    }
}
