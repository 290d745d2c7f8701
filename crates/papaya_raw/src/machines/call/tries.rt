//! Tries of the key at a table: what a word says, and its exchange.
ghost use Rattle.std.specs.Prelude.{◌≡◌, true, false};
ghost use Rattle.map_sweeps.specs.Given.SeizeWordsPlan.{May, MaySee, Steps, Ends};
ghost use Rattle.map_sweeps.specs.Given.TablesTrials.{with_met, next_trial};
ghost use Rattle.papaya_raw.specs.CallPoints.{going, at_free, at_pair, having_met, passed, beyond, halted, told, changed, counted, aim_of};
ghost use Rattle.papaya_raw.specs.Call.{have_one_key, word_read, probes, tries, counts};
ghost use Rattle.papaya_raw.specs.declared.machines.call.Calling.TheVariants as at;

use crate::machines::answer::{Called, KeyAnswer, Missing, There};
use crate::machines::asking::Gap;
use crate::machines::call::{Calling, KeyCall};
use map_sweeps::named::marks::TOMBSTONE;
use map_sweeps::named::{Aim, Equivalent, Finding, Link, Memory, Node, may_be, seen};
use map_sweeps::named_sweeps::{Dispose, asks_for, count};
use std::hash::Hash;

/// Returns whether two nodes are pairs of one key.
pub fn is_same_key<K: Eq + Hash, V>(node: &Node<K, V>, other: &Node<K, V>) -> bool
    ensures { result ≡ have_one_key K.eq node.now other.now }
{
    match node {
        Node::Pair(key, _) => asks_for(key, other),
        Node::Table { .. } | Node::Shards => false,
    }
}

impl Missing {
    /// What a call may do in the end.
    fn aim(self) -> Aim
        ensures { result ≡ aim_of self }
    {
        match self {
            Missing::Answers => Aim::Changes,
            Missing::Puts | Missing::Asks => Aim::Stores,
        }
    }
}

impl<K: Eq + Hash, V, Q: Equivalent<K>> KeyCall<K, V, Q> {
    /// Reads the word of the try.
    pub(super) fn probes<M: Memory<Node<K, V>>>(&mut self, memory: &mut M) -> Called<Node<K, V>>
        requires { May M.can M.took M.shown memory.old (probes Q.Equivalent.equivalent K.eq self.old) }
        ensures { Steps M.took M.shown memory.old (probes Q.Equivalent.equivalent K.eq self.old) memory.new (self.new, result) }
    {
        let word = memory.load(self.trial.at());
        self.reads(memory, word, true)
    }

    /// Replaces the word of the try. Where another one is found, it goes on by that.
    pub(super) fn tries<M: Memory<Node<K, V>>>(
        &mut self,
        memory: &mut M,
        word: u64,
        new: u64,
    ) -> Called<Node<K, V>>
        requires { May M.can M.took M.shown memory.old (tries Q.Equivalent.equivalent K.eq self.old word new) }
        ensures { Steps M.took M.shown memory.old (tries Q.Equivalent.equivalent K.eq self.old word new) memory.new (self.new, result) }
    {
        match memory.exchange(self.trial.at(), word, new) {
            Ok(_) => self.change(word, new),
            Err(found) => self.reads(memory, found, false),
        }
    }

    /// Looks at the pair of a word, where it may be one of the key, and goes on by what the word says.
    fn reads<M: Memory<Node<K, V>>>(
        &mut self,
        memory: &M,
        word: u64,
        loaded: bool,
    ) -> Called<Node<K, V>>
        requires { MaySee (M.shown memory.now) (word_read Q.Equivalent.equivalent K.eq loaded self.old word) }
        ensures { Ends (M.shown memory.now) (word_read Q.Equivalent.equivalent K.eq loaded self.old word) (self.new, result) }
    {
        let same = may_be(self.hash, word)
            && match &self.asked {
                Some(asked) => asks_for(asked, memory.value(Link::block_of(word))),
                None => match &self.replies.key {
                    Some(key) => asks_for(key, memory.value(Link::block_of(word))),
                    None => is_same_key(
                        memory.value(Link::block_of(self.own)),
                        memory.value(Link::block_of(word)),
                    ),
                },
            };
        self.told(loaded, word, same)
    }
}

impl<K, V, Q> KeyCall<K, V, Q> {
    /// Goes on by what the word of the try says. `loaded` tells whether it was read by a load.
    fn told(&mut self, loaded: bool, word: u64, same: bool) -> Called<Node<K, V>>
        ensures { (self.new, result) ≡ told loaded self.old word same }
    {
        match seen(self.setting.mode, self.missing.aim(), word, same) {
            Finding::Free => self.is_free(),
            Finding::Passed => self.pass(word),
            Finding::Moved => self.go_to(Calling::Nexts),
            Finding::Copying => self.halt(loaded),
            Finding::There => self.is_there(word),
        }
    }

    /// Goes on from its try, whose word is this one.
    fn pass(&mut self, word: u64) -> Called<Node<K, V>>
        ensures { (self.new, result) ≡ passed (having_met self.old word) (next_trial (with_met self.old.trial word)) }
    {
        self.trial = self.trial.meets(word);
        match self.trial.next() {
            Some(trial) => {
                self.trial = trial;
                self.probe_on()
            }
            None => self.go_beyond(),
        }
    }

    /// Goes on with its try. Where it reads words already, it stays there: writing a point costs more than a look.
    fn probe_on(&mut self) -> Called<Node<K, V>>
        ensures { (self.new, result) ≡ going self.old at.Probes }
    {
        if let Calling::Probes = self.stands {
            return Called::Goes;
        }
        self.go_to(Calling::Probes)
    }

    /// The key is not in the map, and the place of the try is empty.
    fn is_free(&mut self) -> Called<Node<K, V>>
        ensures { (self.new, result) ≡ at_free self.old.missing self.old }
    {
        match self.missing {
            Missing::Answers => self.answer(KeyAnswer::Absent),
            Missing::Puts => self.go_to(Calling::Tries {
                word: 0,
                new: self.own,
            }),
            Missing::Asks => self.asks_absent(Gap::Free),
        }
    }

    /// The key is there, in the pair of a word.
    fn is_there(&mut self, word: u64) -> Called<Node<K, V>>
        ensures { (self.new, result) ≡ at_pair self.old.there self.old word }
    {
        match self.there {
            There::Answers => self.answer(KeyAnswer::Found(word)),
            There::Puts => self.go_to(Calling::Tries {
                word,
                new: self.own,
            }),
            There::Removes => self.go_to(Calling::Tries {
                word,
                new: TOMBSTONE,
            }),
            There::Asks => self.asks_present(word),
        }
    }

    /// All tries at the table are made. In incremental mode, the key may be in the next one.
    fn go_beyond(&mut self) -> Called<Node<K, V>>
        ensures { (self.new, result) ≡ beyond self.old }
    {
        if self.setting.mode.is_incremental() {
            return self.go_to(Calling::Nexts);
        }
        match self.missing {
            Missing::Answers => self.answer(KeyAnswer::Absent),
            Missing::Puts => self.go_to(Calling::Nexts),
            Missing::Asks => self.asks_absent(Gap::Past),
        }
    }

    /// The pair of the key is being copied: its word is read again. Who has just read it waits.
    fn halt(&mut self, loaded: bool) -> Called<Node<K, V>>
        ensures { (self.new, result) ≡ halted loaded self.old }
    {
        self.stands = Calling::Probes;
        if loaded { Called::Waits } else { Called::Goes }
    }

    /// The map was changed: the size has, too, unless a pair was replaced.
    fn change(&mut self, word: u64, new: u64) -> Called<Node<K, V>>
        ensures { (self.new, result) ≡ changed self.old word new }
    {
        if new == TOMBSTONE || word == 0 {
            let removed = if new == TOMBSTONE { word } else { 0 };
            return self.go_to(Calling::Counts { removed });
        }
        self.go_to(Calling::Disposes {
            dispose: Dispose::begin(self.setting, word, self.trial.table),
            answer: KeyAnswer::Replaced {
                old: word,
                new: self.own,
            },
        })
    }

    /// Counts the change.
    pub(super) fn counts<M: Memory<Node<K, V>>>(
        &mut self,
        memory: &mut M,
        removed: u64,
    ) -> Called<Node<K, V>>
        requires { May M.can M.took M.shown memory.old (counts self.old removed) }
        ensures { Steps M.took M.shown memory.old (counts self.old removed) memory.new (self.new, result) }
    {
        count(self.setting, memory, removed);
        self.counted(removed)
    }

    /// The change is counted. A removed pair is disposed of.
    fn counted(&mut self, removed: u64) -> Called<Node<K, V>>
        ensures { (self.new, result) ≡ counted self.old removed }
    {
        if removed == 0 {
            return self.tell(KeyAnswer::Stored(self.own));
        }
        self.go_to(Calling::Disposes {
            dispose: Dispose::begin(self.setting, removed, self.trial.table),
            answer: KeyAnswer::Removed(removed),
        })
    }
}
