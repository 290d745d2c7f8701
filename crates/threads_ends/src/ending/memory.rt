//! A seat on an errand that ends its map, as the memory of the machine of that.
use crate::ending::Ender;
use map_tables::{Hashes, Node};
use seize_words::{At, Fault, Look, Memory};

impl<'a, K: Eq, V, S: Hashes<K>> Look<Node<K, V>> for Ender<'a, K, V, S> {
    ghost use Rattle.threads_steps.specs.Made.{CanMake, HasMade, looked_in};

    ghost can = { λ e op. CanMake K.eq S.hash e.within op };

    ghost took = { λ e op out n. HasMade K.eq S.hash e.within op out n.within };

    ghost shown = { λ e b. looked_in e.within.seat.now.view.work e.within.seat.now.view.looks b };

    fn load(&mut self, at: At) -> u64 {
        self.within.load(at)
    }

    fn value(&self, block: u64) -> &Node<K, V> {
        self.within.looked(block)
    }
}

impl<'a, K: Eq, V, S: Hashes<K>> Memory<Node<K, V>> for Ender<'a, K, V, S> {
    fn store(&mut self, at: At, word: u64) {
        self.within.store(at, word)
    }

    fn swap(&mut self, at: At, word: u64) -> u64 {
        self.within.swap(at, word)
    }

    fn add(&mut self, at: At, by: u64) -> u64 {
        self.within.add(at, by)
    }

    fn or(&mut self, at: At, bits: u64) -> u64 {
        self.within.or(at, bits)
    }

    fn exchange(&mut self, at: At, old: u64, new: u64) -> Result<u64, u64> {
        self.within.exchange(at, old, new)
    }

    fn make(&mut self, value: Node<K, V>, words: u64) -> Result<u64, Node<K, V>> {
        self.within.make(value, words)
    }

    fn take(&mut self, block: u64) -> Node<K, V> {
        self.within.take(block)
    }

    fn rewrite(&mut self, block: u64, value: Node<K, V>) -> Node<K, V> {
        self.within.rewrite(block, value)
    }

    fn room(&mut self, bucket: u64) -> Result<(), Fault> {
        self.within.room(bucket)
    }
}
