//! A call puts what it was told into its own block, or gives that block up.
ghost use Rattle.std.specs.Prelude.{None};
ghost use Rattle.map_sweeps.specs.Given.SeizeWordsPlan.{May, Steps};
ghost use Rattle.papaya_raw.specs.CallFills.{putting, fills_with, fills, gives_up};

use crate::machines::answer::{Called, End};
use crate::machines::call::values::link_to;
use crate::machines::call::{Calling, KeyCall};
use map_sweeps::named::marks::TOMBSTONE;
use map_sweeps::named::{Fault, Link, Memory, Node};

impl<K: Drop, V: Drop, Q> KeyCall<K, V, Q> {
    /// Puts the value that it was told into its own block. Where one is there that was not stored, it is taken out first.
    pub(super) fn fills<M: Memory<Node<K, V>>>(
        &mut self,
        memory: &mut M,
        word: u64,
    ) -> Called<Node<K, V>>
        requires { May M.can M.took M.shown memory.old (fills self.old word) }
        ensures { Steps M.took M.shown memory.old (fills self.old word) memory.new (self.new, result) }
    {
        let Some(key) = self.replies.key.take() else {
            return self.empties(memory, word);
        };
        match self.replies.take(word) {
            Some(value) => self.puts(memory, word, key, value),
            None => {
                self.replies.key = Some(key);
                self.go_to(Calling::Probes)
            }
        }
    }

    /// Puts a pair of its key and a value into its own block. A refused make gives the pair back.
    fn puts<M: Memory<Node<K, V>>>(
        &mut self,
        memory: &mut M,
        word: u64,
        key: K,
        value: V,
    ) -> Called<Node<K, V>>
        requires { May M.can M.took M.shown memory.old (putting self.old word key value) }
        ensures { Steps M.took M.shown memory.old (putting self.old word key value) memory.new (self.new, result) }
    {
        let pair = Node::Pair(key, value);
        if self.own != 0 {
            let _none = memory.rewrite(Link::block_of(self.own), pair);
            return self.try_own(word);
        }
        match memory.make(pair, 0) {
            Ok(block) => {
                self.own = link_to(block, self.hash);
                self.try_own(word)
            }
            Err(pair) => {
                self.stands = Calling::Over(End::Refused(Fault::Memory));
                Called::Unstored(pair)
            }
        }
    }

    /// Takes its key and the value that was not stored out of its own block.
    fn empties<M: Memory<Node<K, V>>>(&mut self, memory: &mut M, word: u64) -> Called<Node<K, V>>
        requires { May M.can M.took M.shown memory.old (fills_with None self.old word) }
        ensures { Steps M.took M.shown memory.old (fills_with None self.old word) memory.new (self.new, result) }
    {
        let vacant = Node::Table {
            len: 0,
            limit: 0,
            turn: 0,
        };
        match memory.rewrite(Link::block_of(self.own), vacant) {
            Node::Pair(key, value) => {
                self.replies.take_back(key, value);
                self.fill_for(word)
            }
            Node::Table { .. } | Node::Shards => self.go_to(Calling::Probes),
        }
    }

    /// Gives its own block up, and keeps its key and its value.
    pub(super) fn gives_up<M: Memory<Node<K, V>>>(
        &mut self,
        memory: &mut M,
        word: u64,
    ) -> Called<Node<K, V>>
        requires { May M.can M.took M.shown memory.old (gives_up self.old word) }
        ensures { Steps M.took M.shown memory.old (gives_up self.old word) memory.new (self.new, result) }
    {
        let node = memory.take(Link::block_of(self.own));
        self.own = 0;
        if let Node::Pair(key, value) = node {
            self.replies.take_back(key, value);
        }
        self.go_to(Calling::Tries {
            word,
            new: TOMBSTONE,
        })
    }
}
