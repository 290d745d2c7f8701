//! A seat on an errand as the memory of code that runs ahead of its machine.
use crate::ahead::Ahead;
use map_tables::{Hashes, Node};
use seize_words::{At, Fault, Look, Memory};

impl<'a, K: Eq, V, S: Hashes<K>> Look<Node<K, V>> for Ahead<'a, K, V, S> {
    ghost use Rattle.threads_errands.specs.Ahead.{CanGo, HasGone, shown_ahead};

    ghost can = { CanGo K.eq S.hash };

    ghost took = { HasGone K.eq S.hash };

    ghost shown = { shown_ahead };

    #[inline(always)]
    fn load(&mut self, at: At) -> u64 {
        self.catches_up();
        self.blocks.load_by(&mut *self.seat, &mut self.place, at)
    }

    #[inline(always)]
    fn value(&self, block: u64) -> &Node<K, V> {
        self.blocks.value(&*self.seat, block)
    }
}

impl<'a, K: Eq, V, S: Hashes<K>> Memory<Node<K, V>> for Ahead<'a, K, V, S> {
    #[inline(always)]
    fn store(&mut self, at: At, word: u64) {
        self.catches_up();
        self.blocks
            .store_by(&mut *self.seat, &mut self.place, at, word);
    }

    #[inline(always)]
    fn swap(&mut self, at: At, word: u64) -> u64 {
        self.catches_up();
        self.blocks.swap(&mut *self.seat, at, word)
    }

    #[inline(always)]
    fn add(&mut self, at: At, by: u64) -> u64 {
        self.catches_up();
        self.blocks.add(&mut *self.seat, at, by)
    }

    #[inline(always)]
    fn or(&mut self, at: At, bits: u64) -> u64 {
        self.catches_up();
        self.blocks
            .or_by(&mut *self.seat, &mut self.place, at, bits)
    }

    #[inline(always)]
    fn exchange(&mut self, at: At, old: u64, new: u64) -> Result<u64, u64> {
        self.catches_up();
        self.blocks
            .exchange_by(&mut *self.seat, &mut self.place, at, old, new)
    }

    #[inline(always)]
    fn make(&mut self, value: Node<K, V>, words: u64) -> Result<u64, Node<K, V>> {
        self.catches_up();
        let mut near = self.near;
        let made = self.blocks.make(&mut *self.seat, &mut near, value, words);
        self.near = near;
        made
    }

    #[inline(always)]
    fn take(&mut self, block: u64) -> Node<K, V> {
        self.catches_up();
        self.blocks.take(&mut *self.seat, block)
    }

    #[inline(always)]
    fn rewrite(&mut self, _block: u64, _value: Node<K, V>) -> Node<K, V> {
        unreachable!()
    }

    #[inline(always)]
    fn room(&mut self, bucket: u64) -> Result<(), Fault> {
        self.catches_up();
        self.blocks.room(&mut *self.seat, bucket)
    }
}
