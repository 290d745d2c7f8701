//! The memory of one owner.
ghost use Rattle.std.specs.Prelude.{◌≡◌, ◌∷◌, ◌++◌, [], IsSome, IfOk, OnOk, OnErr, Some, length, replicate};
ghost use Rattle.seize_words.specs.OneMemory.Mem.{word_at, with_word, value_at, values_in, next_number, Can, Took};
ghost use Rattle.seize_words.specs.OneMemory.Op.{Make, Made};

use crate::at::At;
use crate::directory::Directory;
use crate::fault::Fault;
use crate::lent::Lent;
use crate::memory::{Look, Memory, Refuses};
use crate::piece::Piece;
use crate::slots::Slots;
use crate::word_array::WordArray;
use std::alloc::{AllocError, Global};
use std::collections::VecDeque;
use std::marker::Model;

/// The memory of one owner.
#[derive(Drop)]
pub struct Plain<T> {
    alloc: Global,
    roots: WordArray,
    used: WordArray,
    slots: Slots,
    blocks: Directory<T>,
    choices: VecDeque<u64>,
    /// How many more requests for memory are met, where there is a limit.
    left: Option<u64>,
}

impl<T> Model for Plain<T> {
    ghost use Rattle.seize_words.specs.OneMemory.Mem.{Mem};

    ghost Value = { Mem T };

    ghost view = { λ p. record { roots = p.roots; used = p.used; slots = p.slots; blocks = p.blocks; choices = p.choices.items } };
}

impl<T> Plain<T> {
    /// Makes a memory with as many roots, all of them free, no slot and no block.
    pub fn new(alloc: Global, roots: u64) -> Result<Self, AllocError>
        ensures { IfOk result (λ m. m ≡ record { roots = replicate roots 0; used = replicate roots 0; slots = []; blocks = []; choices = [] }) }
    {
        Ok(Plain {
            alloc,
            roots: WordArray::zeros(alloc, roots)?,
            used: WordArray::zeros(alloc, roots)?,
            slots: Slots::new(alloc),
            blocks: Directory::new(alloc),
            choices: VecDeque::new(alloc),
            left: None,
        })
    }

    /// Adds a choice behind those that are left. Each block made takes one: it says which free number the block gets.
    pub fn choose(&mut self, choice: u64) -> Result<(), AllocError>
        ensures ok { OnOk result (self.new ≡ record self.old { choices = self.old.choices ++ choice ∷ [] }) }
        ensures err { OnErr result (self.new ≡ self.old) }
    {
        self.choices.push_back(choice)?;
        Ok(())
    }

    /// Meets so many requests for blocks and for further buckets of slots from now on, and refuses each later one: what is done then can be tried.
    pub fn refuse_after(&mut self, requests: u64)
        ensures { self.new ≡ self.old }
    {
        self.left = Some(requests);
    }

    /// Whether a request for memory is refused. Where it is not, one fewer is left.
    fn refuses(&mut self) -> bool
        ensures { self.new ≡ self.old }
    {
        match self.left {
            None => false,
            Some(0) => true,
            Some(left) => {
                self.left = Some(left - 1);
                false
            }
        }
    }

    /// Returns how many blocks it holds.
    pub fn live(&self) -> u64
        ensures { result ≡ length (values_in self.now.blocks) }
    {
        self.blocks.held()
    }

    /// Lends the memory for reading.
    pub fn look(&self) -> Lent<'_, T>
        ensures { result.memory.now ≡ self.now }
    {
        Lent { memory: self }
    }

    #[inline(always)]
    pub(crate) fn word(&self, at: At) -> u64
        requires { IsSome (word_at self.now at) }
        ensures { word_at self.now at ≡ Some result }
    {
        match at {
            At::Root(root) => self.roots.get(root),
            At::Used(root) => self.used.get(root),
            At::Slot(slot, field) => self.slots.get(slot, field),
            At::Entry(block, place) => self.blocks.piece(block - 1).entry(place),
            At::Word(block, place) => self.blocks.piece(block - 1).word(place),
        }
    }

    #[inline(always)]
    pub(crate) fn value_of(&self, block: u64) -> &T
        requires { IsSome (value_at self.now block) }
        ensures { value_at self.now block ≡ Some result.now }
    {
        self.blocks.piece(block - 1).value()
    }

    #[inline(always)]
    fn set_word(&mut self, at: At, word: u64)
        requires { IsSome (word_at self.old at) }
        ensures { self.new ≡ with_word self.old at word }
    {
        match at {
            At::Root(root) => self.roots.set(root, word),
            At::Used(root) => self.used.set(root, word),
            At::Slot(slot, field) => self.slots.set(slot, field, word),
            At::Entry(block, place) => self.blocks.set_entry(block - 1, place, word),
            At::Word(block, place) => self.blocks.set_word(block - 1, place, word),
        }
    }
}

impl<T: Drop> Plain<T> {
    /// Returns the values of all its blocks, by ascending numbers.
    pub fn into_values(self, alloc: Global) -> Result<Vec<T>, AllocError>
        ensures { IfOk result (λ values. values.items ≡ values_in self.blocks) }
    {
        self.blocks.into_values(alloc)
    }
}

impl<T> Look<T> for Plain<T> {
    ghost can = { Can };

    ghost took = { Took };

    ghost shown = { value_at };

    #[inline(always)]
    fn load(&mut self, at: At) -> u64 {
        self.word(at)
    }

    #[inline(always)]
    fn value(&self, block: u64) -> &T {
        self.value_of(block)
    }
}

impl<T> Memory<T> for Plain<T> {
    #[inline(always)]
    fn store(&mut self, at: At, word: u64) {
        self.set_word(at, word);
    }

    #[inline(always)]
    fn swap(&mut self, at: At, word: u64) -> u64 {
        let found = self.word(at);
        self.set_word(at, word);
        found
    }

    #[inline(always)]
    fn add(&mut self, at: At, by: u64) -> u64 {
        let found = self.word(at);
        self.set_word(at, found.wrapping_add(by));
        found
    }

    #[inline(always)]
    fn or(&mut self, at: At, bits: u64) -> u64 {
        let found = self.word(at);
        self.set_word(at, found | bits);
        found
    }

    #[inline(always)]
    fn exchange(&mut self, at: At, old: u64, new: u64) -> Result<u64, u64> {
        let found = self.word(at);
        if found == old {
            self.set_word(at, new);
            Ok(found)
        } else {
            Err(found)
        }
    }

    /// Its number is the one that the next choice picks.
    fn make(&mut self, value: T, words: u64) -> Result<u64, T>
        ensures took { Took self.old (Make value words) (Made result) self.new }
        ensures next { IfOk result (λ number. number ≡ next_number self.old) }
    {
        if self.refuses() {
            return Err(value);
        }
        let choice = self.choices.front().copied().unwrap_or(0);
        let made = Piece::make(self.alloc, value, words)?;
        let number = self.blocks.make(choice, made)?;
        self.choices.pop_front();
        Ok(number)
    }

    fn take(&mut self, block: u64) -> T {
        self.blocks.take(block - 1)
    }

    fn rewrite(&mut self, block: u64, value: T) -> T {
        self.blocks.rewrite(block - 1, value)
    }

    fn room(&mut self, bucket: u64) -> Result<(), Fault> {
        if self.slots.has(bucket) {
            return Ok(());
        }
        if self.refuses() {
            return Err(Fault::Memory);
        }
        match self.slots.room(bucket) {
            Ok(()) => Ok(()),
            Err(_) => Err(Fault::Memory),
        }
    }
}

impl<T> Refuses<T> for Plain<T> {
    fn refuse(&mut self, value: T, _words: u64) -> T {
        value
    }
}
