//! Blocks by their numbers, and the numbers that are free.
ghost use Rattle.std.specs.Prelude.{◌≡◌, ◌<◌, ◌≤◌, ◌^◌, ◌+◌, ◌-◌, ◌%◌, [], ◌∷◌, ◌++◌, None, Some, IsSome, IfOk, IfErr, OnOk, OnErr, length, slice_index_or, slice_set};
ghost use Rattle.seize_words.specs.OneMemory.Directory.{with_next};
ghost use Rattle.seize_words.specs.OneMemory.Mem.{free_from, value_in, entry_in, word_in, with_entry, with_word_in, with_value_in, values_in, picked, with_made};

use crate::bucket::Bucket;
use crate::free_numbers::FreeNumbers;
use crate::piece::Piece;
use crate::slots::{bucket_capacity, place_of};
use std::alloc::{AllocError, Global};
use std::marker::Model;

/// Block numbers are below this one.
const NUMBERS: u64 = 1 << 53;

/// Blocks by their numbers, in a table that grows by one bucket after another. The block of number n has the place n - 1.
#[derive(Drop)]
pub(crate) struct Directory<T> {
    alloc: Global,
    /// How many places there are.
    count: u64,
    buckets: Vec<Bucket<T>>,
    free: FreeNumbers,
}

impl<T> Model for Directory<T> {
    ghost use Rattle.std.specs.Prelude.{List, Option};
    ghost use Rattle.seize_words.specs.declared.block.Block.{Block};
    ghost use Rattle.seize_words.specs.OneMemory.Buckets.{all_in};
    ghost use Rattle.seize_words.specs.OneMemory.Directory.{IsDirectory};

    ghost Value = { List (Option (Block T)) };

    ghost view = { λ d. all_in d.buckets.items };

    ghost invariant = { λ d. IsDirectory d.count d.buckets.items d.free };
}

/// Makes room for a further number among the free ones, and its bucket where it is not there yet. On an error the buckets are as they were.
fn grow<T>(
    alloc: Global,
    buckets: &mut Vec<Bucket<T>>,
    free: &mut FreeNumbers,
    bucket: u64,
    number: u64,
) -> Result<(), AllocError>
    requires small { bucket ≤ 58 }
    requires room { number ≤ free.old.room + 1 }
    ensures ok { OnOk result (buckets.new.items ≡ with_next buckets.old.items bucket) }
    ensures err { OnErr result (buckets.new.items ≡ buckets.old.items) }
    ensures numbers { free.new.numbers ≡ free.old.numbers }
    ensures room { OnOk result (number ≤ free.new.room) }
    ensures fits { number ≤ free.new.room + 1 }
{
    free.make_room(number)?;
    if bucket as usize == buckets.len() {
        buckets.reserve(1)?;
        match buckets.push(Bucket::empty(alloc, bucket_capacity(bucket))?) {
            Ok(()) => {}
            Err(_) => unreachable!(),
        }
    }
    Ok(())
}

/// Behind how many of so many free numbers the one stands that a choice picks. Behind all of them stands the next number.
fn rank_of(choice: u64, count: u64) -> u64
    requires { count < 2 ^ 53 }
    ensures { result ≡ choice % (count + 1) }
{
    // Where no choice is left it is 0, and a division takes as long as finding the number.
    if choice == 0 { 0 } else { choice % (count + 1) }
}

impl<T> Directory<T> {
    /// No block yet.
    pub(crate) fn new(alloc: Global) -> Self
        ensures { result ≡ [] }
    {
        Directory {
            alloc,
            count: 0,
            buckets: Vec::new(alloc),
            free: FreeNumbers::none(alloc),
        }
    }

    /// How many blocks there are.
    pub(crate) fn held(&self) -> u64
        ensures { result ≡ length (values_in self.now) }
    {
        self.count - self.free.len()
    }

    /// The block at a place.
    #[inline(always)]
    pub(crate) fn piece(&self, place: u64) -> &Piece<T>
        requires { IsSome (slice_index_or self.now place None) }
        ensures { slice_index_or self.now place None ≡ Some result.now }
    {
        let buckets = &self.buckets;
        let (bucket, index) = place_of(place);
        buckets[bucket as usize].piece(index)
    }

    /// Writes a word of the entry of the block at a place.
    #[inline(always)]
    pub(crate) fn set_entry(&mut self, place: u64, field: u64, word: u64)
        requires { IsSome (entry_in (slice_index_or self.old place None) field) }
        ensures { self.new ≡ slice_set self.old place (with_entry (slice_index_or self.old place None) field word) }
    {
        let buckets = &mut self.buckets;
        let (bucket, index) = place_of(place);
        buckets[bucket as usize].set_entry(index, field, word);
    }

    /// Writes a word of the block at a place.
    #[inline(always)]
    pub(crate) fn set_word(&mut self, place: u64, field: u64, word: u64)
        requires { IsSome (word_in (slice_index_or self.old place None) field) }
        ensures { self.new ≡ slice_set self.old place (with_word_in (slice_index_or self.old place None) field word) }
    {
        let buckets = &mut self.buckets;
        let (bucket, index) = place_of(place);
        buckets[bucket as usize].set_word(index, field, word);
    }

    /// Replaces the value of the block at a place, and answers the one before.
    pub(crate) fn rewrite(&mut self, place: u64, value: T) -> T
        requires { IsSome (value_in (slice_index_or self.old place None)) }
        ensures before { value_in (slice_index_or self.old place None) ≡ Some result }
        ensures after { self.new ≡ slice_set self.old place (with_value_in (slice_index_or self.old place None) value) }
    {
        let buckets = &mut self.buckets;
        let (bucket, index) = place_of(place);
        buckets[bucket as usize].rewrite(index, value)
    }

    /// Puts a block at a free number, and answers the number: of the free numbers the one behind as many others.
    fn reuse(&mut self, before: u64, made: Piece<T>) -> u64
        requires { before < length (free_from 1 self.old) }
        ensures number { result ≡ slice_index_or (free_from 1 self.old) before result }
        ensures after { self.new ≡ slice_set self.old (result - 1) (Some made) }
    {
        let number = self.free.take(before);
        let (bucket, index) = place_of(number - 1);
        self.buckets[bucket as usize].put(index, made);
        number
    }

    /// Puts a block behind the table, and answers its number. A block refused gives its value back.
    fn append(&mut self, made: Piece<T>) -> Result<u64, T>
        ensures ok { IfOk result (λ number. (number ≡ length self.old + 1) × (number < 2 ^ 53) × (self.new ≡ self.old ++ Some made ∷ [])) }
        ensures err { IfErr result (λ back. (back ≡ made.value) × (self.new ≡ self.old)) }
    {
        let number = self.count + 1;
        if number >= NUMBERS {
            return Err(made.take());
        }
        let (bucket, _) = place_of(self.count);
        let Ok(()) = grow(
            self.alloc,
            &mut self.buckets,
            &mut self.free,
            bucket,
            number,
        ) else {
            return Err(made.take());
        };
        match self.buckets[bucket as usize].push(made) {
            Ok(()) => {
                self.count = number;
                Ok(number)
            }
            Err(value) => Err(value),
        }
    }

    /// Makes a block at the number that a choice picks, and answers the number. A block refused gives its value back.
    pub(crate) fn make(&mut self, choice: u64, made: Piece<T>) -> Result<u64, T>
        ensures ok { IfOk result (λ number. (number ≡ picked self.old choice) × (number < 2 ^ 53) × (self.new ≡ with_made self.old number made)) }
        ensures err { IfErr result (λ back. (back ≡ made.value) × (self.new ≡ self.old)) }
    {
        let count = self.free.len();
        let before = rank_of(choice, count);
        if before < count {
            Ok(self.reuse(before, made))
        } else {
            self.append(made)
        }
    }

    /// Takes the block at a place away, and answers its value. It takes no memory.
    pub(crate) fn take(&mut self, place: u64) -> T
        requires { IsSome (value_in (slice_index_or self.old place None)) }
        ensures before { value_in (slice_index_or self.old place None) ≡ Some result }
        ensures after { self.new ≡ slice_set self.old place None }
    {
        let buckets = &mut self.buckets;
        let (bucket, index) = place_of(place);
        let piece = buckets[bucket as usize].take(index);
        self.free.give(place + 1);
        piece.take()
    }
}

impl<T: Drop> Directory<T> {
    /// The values of all blocks, by ascending numbers.
    pub(crate) fn into_values(self, alloc: Global) -> Result<Vec<T>, AllocError>
        ensures { IfOk result (λ values. values.items ≡ values_in self) }
    {
        let mut values = Vec::new(alloc);
        for bucket in self.buckets {
            bucket.move_values(&mut values)?;
        }
        Ok(values)
    }
}
