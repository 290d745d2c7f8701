//! A place is marked, and its pair is copied by the caller that marked it first.
ghost use Rattle.std.specs.Prelude.{◌≡◌};
ghost use Rattle.map_tables.specs.Given.SeizeWordsPlan.{May, Steps};
ghost use Rattle.map_machines.specs.CopierMarks.{is_mine, is_awaited, probing, key_hash, marks, covers};

use crate::copier::{Copier, Copying};
use crate::yielding::Yielding;
use map_tables::marks::{COPIED, COPYING, has};
use map_tables::named::{Link, Memory};
use map_tables::{Hashes, Node, Probe, Table};

/// Returns the hash of the key of a pair, and 0 of a value of another kind.
#[inline(always)]
pub fn key_hash<K, V, S: Hashes<K>>(value: &Node<K, V>, hasher: &S) -> u64
    ensures { result ≡ key_hash (S.hash hasher.now) value.now }
{
    match value {
        Node::Pair(key, _) => hasher.hash_of(key),
        Node::Table { .. } | Node::Shards => 0,
    }
}

impl Copier {
    /// Whether the word of a place, as it was before the mark, is copied by this caller. In incremental mode the first one that
    /// marks a place copies it. In blocking mode a place may be marked from a copying that was given up.
    #[inline(always)]
    fn is_mine(&self, word: u64) -> bool
        ensures { result ≡ is_mine self.now word }
    {
        !self.setting.mode.is_incremental() || !has(word, COPYING)
    }

    /// Whether another caller is copying the pair, and it is to be waited for.
    #[inline(always)]
    fn is_awaited(&self, word: u64) -> bool
        ensures { result ≡ is_awaited self.now word }
    {
        self.whole && Link::block_of(word) != 0 && !has(word, COPIED)
    }

    /// Begins to look for a place for a pair in a table.
    #[inline(always)]
    pub(super) fn probe(&mut self, word: u64, hash: u64, table: Table)
        ensures { self.new ≡ probing self.old word hash table }
    {
        self.stands = Copying::Probes {
            word,
            hash,
            table,
            probe: Probe::start(hash, table.mask()),
        };
    }

    /// Marks a place.
    #[inline(always)]
    pub(super) fn marks<K, V, S: Hashes<K>, M: Memory<Node<K, V>>>(
        &mut self,
        memory: &mut M,
        hasher: &S,
    ) -> Yielding<Node<K, V>, Table>
        requires { May M.can M.took M.shown memory.old (marks (S.hash hasher.now) self.old) }
        ensures { Steps M.took M.shown memory.old (marks (S.hash hasher.now) self.old) memory.new (self.new, result) }
    {
        let word = memory.or(self.source.at(self.place), COPYING);
        if self.is_mine(word) {
            if Link::block_of(word) == 0 {
                self.place_done();
            } else {
                let hash = key_hash(memory.value(Link::block_of(word)), hasher);
                self.probe(word - word % 2, hash, self.target);
            }
        } else if self.is_awaited(word) {
            return Yielding::Waits;
        } else {
            self.next_place();
        }
        Yielding::Goes
    }

    /// Marks a place as copied.
    #[inline(always)]
    pub(super) fn covers<K, V, M: Memory<Node<K, V>>>(
        &mut self,
        memory: &mut M,
        word: u64,
    ) -> Yielding<Node<K, V>, Table>
        requires { May M.can M.took M.shown memory.old (covers self.old word) }
        ensures { Steps M.took M.shown memory.old (covers self.old word) memory.new (self.new, result) }
    {
        memory.store(self.source.at(self.place), word | COPYING | COPIED);
        self.place_done();
        Yielding::Goes
    }
}
