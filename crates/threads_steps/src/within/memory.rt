//! A seat on an errand as the memory of the machine that it has under way.
ghost use Rattle.std.specs.Prelude.{◌≡◌, IsSome, Some};
ghost use Rattle.threads_steps.specs.Made.{looked_in};

use crate::within::Within;
use map_tables::{Hashes, Node};
use seize_words::{At, Fault, Look, Memory};

impl<'a, K: Eq, V, S: Hashes<K>> Within<'a, K, V, S> {
    /// Returns the value of a block at which the last step of the end of its map has looked.
    pub fn looked(&self, block: u64) -> &Node<K, V>
        requires { IsSome (looked_in self.now.seat.now.view.work self.now.seat.now.view.looks block) }
        ensures { looked_in self.now.seat.now.view.work self.now.seat.now.view.looks block ≡ Some result.now }
    {
        self.blocks.value(&*self.seat, block)
    }
}

impl<'a, K: Eq, V, S: Hashes<K>> Look<Node<K, V>> for Within<'a, K, V, S> {
    ghost use Rattle.threads_steps.specs.Made.{CanMake, HasMade, shown_of};

    ghost can = { CanMake K.eq S.hash };

    ghost took = { HasMade K.eq S.hash };

    ghost shown = { shown_of };

    #[inline(always)]
    fn load(&mut self, at: At) -> u64 {
        self.made = true;
        self.blocks.load_by(&mut *self.seat, &mut self.place, at)
    }

    #[inline(always)]
    fn value(&self, block: u64) -> &Node<K, V> {
        self.blocks.value(&*self.seat, block)
    }
}

impl<'a, K: Eq, V, S: Hashes<K>> Memory<Node<K, V>> for Within<'a, K, V, S> {
    #[inline(always)]
    fn store(&mut self, at: At, word: u64) {
        self.made = true;
        self.blocks
            .store_by(&mut *self.seat, &mut self.place, at, word);
    }

    #[inline(always)]
    fn swap(&mut self, at: At, word: u64) -> u64 {
        self.made = true;
        self.blocks.swap(&mut *self.seat, at, word)
    }

    #[inline(always)]
    fn add(&mut self, at: At, by: u64) -> u64 {
        self.made = true;
        self.blocks.add(&mut *self.seat, at, by)
    }

    #[inline(always)]
    fn or(&mut self, at: At, bits: u64) -> u64 {
        self.made = true;
        self.blocks
            .or_by(&mut *self.seat, &mut self.place, at, bits)
    }

    #[inline(always)]
    fn exchange(&mut self, at: At, old: u64, new: u64) -> Result<u64, u64> {
        self.made = true;
        self.blocks
            .exchange_by(&mut *self.seat, &mut self.place, at, old, new)
    }

    #[inline(always)]
    fn make(&mut self, value: Node<K, V>, words: u64) -> Result<u64, Node<K, V>> {
        self.made = true;
        self.blocks
            .make(&mut *self.seat, &mut self.near, value, words)
    }

    #[inline(always)]
    fn take(&mut self, block: u64) -> Node<K, V> {
        self.made = true;
        self.blocks.take(&mut *self.seat, block)
    }

    #[inline(always)]
    fn rewrite(&mut self, block: u64, value: Node<K, V>) -> Node<K, V> {
        self.made = true;
        self.blocks.rewrite(&mut *self.seat, block, value)
    }

    #[inline(always)]
    fn room(&mut self, bucket: u64) -> Result<(), Fault> {
        self.made = true;
        self.blocks.room(&mut *self.seat, bucket)
    }
}
