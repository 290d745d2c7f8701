//! A call on one key: its points, and its steps.
ghost use Rattle.std.specs.Prelude.{◌≡◌};
ghost use Rattle.map_sweeps.specs.Given.SeizeWordsPlan.{May, Steps};
ghost use Rattle.papaya_raw.specs.CallPoints.{going, over, answered_with, ending, answering};
ghost use Rattle.papaya_raw.specs.Call.{call_plan};

use crate::machines::answer::{Called, End, KeyAnswer, Missing, There};
use crate::machines::asking::{Asking, Replies};
use map_sweeps::named::{Equivalent, Hashes, Memory, Node, Setting, Table, Trial};
use map_sweeps::named_sweeps::{Copier, Dispose, Lookup, NewTable};
use std::hash::Hash;

mod asks;
mod begins;
mod copies;
mod fills;
mod replies;
mod tables;
mod tries;
mod values;

pub use tries::is_same_key;
pub use values::link_to;

/// Where a call on one key stands. A pair is named by the word that links to it.
#[derive(Clone, Copy)]
pub enum Calling {
    /// Makes its own block, with the pair that it may store.
    Makes,
    /// Looks for the key, and changes nothing.
    Looks(Lookup),
    /// Reads the root.
    Roots,
    /// Reads the word of its try.
    Probes,
    /// Replaces that word.
    Tries {
        /// The word that must still be there.
        word: u64,
        /// The word to be written: a link to its own block, or a tombstone.
        new: u64,
    },
    /// Counts the change.
    Counts {
        /// The pair that was removed, or 0 where one was stored.
        removed: u64,
    },
    /// Reads the link to the table after the one that it has tried.
    Nexts,
    /// Makes the map's first table.
    Firsts(NewTable),
    /// Makes the table after the one that it has tried.
    Allocs(NewTable),
    /// Helps a resize, before it goes on to a later table.
    Helps {
        /// The copying.
        copier: Copier,
        /// That table.
        goal: Table,
    },
    /// Copies the whole table that it has tried into the next one.
    Copies(Copier),
    /// Asks, or goes by what it was told.
    Asks(Asking),
    /// Disposes of the pair that was there.
    Disposes {
        /// The disposal.
        dispose: Dispose,
        /// What it answers then.
        answer: KeyAnswer,
    },
    /// Takes its own block away, which it has not stored.
    Drops(End),
    /// It has ended.
    Over(End),
}

/// A call on one key: what it does goes by whether the key is in the map. A call that may store a pair makes its block first,
/// and gives the pair back where it did not store it. One that asks for its value makes its block once it was told one.
#[derive(Drop)]
pub struct KeyCall<K, V, Q = K> {
    /// What it works with.
    pub setting: Setting,
    /// The hash of the key.
    pub hash: u64,
    /// What it does where the key is there.
    pub there: There,
    /// What it does where it is not.
    pub missing: Missing,
    /// What stands for the key, where that is not the key of its own pair.
    pub asked: Option<Q>,
    /// Its own pair, until its block is made, where it has one from the beginning.
    pub unmade: Option<Node<K, V>>,
    /// What it was told, where it asks.
    pub replies: Replies<K, V>,
    /// The word that links to its own block, 0 while there is none.
    pub own: u64,
    /// Its try.
    pub trial: Trial,
    /// Whether it has helped a resize.
    pub helped: bool,
    /// Where it stands.
    pub stands: Calling,
}

impl<K, V, Q> KeyCall<K, V, Q> {
    /// Goes on elsewhere.
    fn go_to(&mut self, stands: Calling) -> Called<Node<K, V>>
        ensures { (self.new, result) ≡ going self.old stands }
    {
        self.stands = stands;
        Called::Goes
    }

    /// Ends.
    fn finish(&mut self, end: End) -> Called<Node<K, V>>
        ensures { (self.new, result) ≡ over self.old end }
    {
        self.stands = Calling::Over(end);
        end.told()
    }

    /// Ends with an answer, after a change of the map.
    fn tell(&mut self, answer: KeyAnswer) -> Called<Node<K, V>>
        ensures { (self.new, result) ≡ answered_with self.old answer }
    {
        self.finish(End::Answered(answer))
    }

    /// Ends, once its own block is given up, if it has one.
    fn end(&mut self, end: End) -> Called<Node<K, V>>
        ensures { (self.new, result) ≡ ending self.old end }
    {
        if self.own == 0 {
            self.finish(end)
        } else {
            self.go_to(Calling::Drops(end))
        }
    }

    /// Answers without a change of the map.
    fn answer(&mut self, answer: KeyAnswer) -> Called<Node<K, V>>
        ensures { (self.new, result) ≡ answering self.old answer }
    {
        self.end(End::Answered(answer))
    }
}

impl<K: Eq + Hash + Drop, V: Drop, Q: Equivalent<K>> KeyCall<K, V, Q> {
    /// Takes one step: at most one operation. The hasher gives the hash of each key that is copied.
    pub fn step<S: Hashes<K>, M: Memory<Node<K, V>>>(
        &mut self,
        memory: &mut M,
        hasher: &S,
    ) -> Called<Node<K, V>>
        requires { May M.can M.took M.shown memory.old (call_plan Q.Equivalent.equivalent K.eq (S.hash hasher.now) self.old) }
        ensures { Steps M.took M.shown memory.old (call_plan Q.Equivalent.equivalent K.eq (S.hash hasher.now) self.old) memory.new (self.new, result) }
    {
        match self.stands {
            Calling::Makes => self.makes(memory),
            Calling::Looks(_) => self.looks(memory),
            Calling::Roots => self.roots(memory),
            Calling::Probes => self.probes(memory),
            Calling::Tries { word, new } => self.tries(memory, word, new),
            Calling::Counts { removed } => self.counts(memory, removed),
            Calling::Nexts => self.nexts(memory),
            Calling::Firsts(_) => self.firsts(memory),
            Calling::Allocs(_) => self.allocs(memory),
            Calling::Helps { .. } => self.helps(memory, hasher),
            Calling::Copies(_) => self.copies(memory, hasher),
            Calling::Asks(asking) => self.asks(memory, asking),
            Calling::Disposes { .. } => self.disposes(memory),
            Calling::Drops(end) => self.drops(memory, end),
            Calling::Over(end) => end.told(),
        }
    }
}
