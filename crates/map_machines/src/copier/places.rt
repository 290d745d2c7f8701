//! A place is looked for, for a pair that is copied.
ghost use Rattle.std.specs.Prelude.{◌≡◌};
ghost use Rattle.map_tables.specs.Given.SeizeWordsPlan.{May, Steps};
ghost use Rattle.map_machines.specs.CopierPlaces.{copied_word, next_try, pair_put, probes, puts};

use crate::copier::{Copier, Copying};
use crate::yielding::Yielding;
use map_tables::marks::{BORROWED, unmarked};
use map_tables::named::Memory;
use map_tables::{Node, Probe, Table};

impl Copier {
    /// The word of a copied pair. In incremental mode it says that the pair stands in an older table, too.
    #[inline(always)]
    fn copied_word(&self, word: u64) -> u64
        ensures { result ≡ copied_word self.now word }
    {
        if self.setting.mode.is_incremental() {
            unmarked(word) + BORROWED
        } else {
            unmarked(word)
        }
    }

    /// Goes on with the next try, if there is one. Without one a further table is looked at, or in blocking mode the copying into
    /// this table is given up.
    #[inline(always)]
    fn next_try(&mut self, word: u64, hash: u64, table: Table, probe: Probe)
        ensures { self.new ≡ next_try self.old word hash table probe }
    {
        if probe.len < table.limit {
            let mut probe = probe;
            probe.next(table.mask());
            self.stands = Copying::Probes {
                word,
                hash,
                table,
                probe,
            };
        } else if self.setting.mode.is_incremental() {
            self.stands = Copying::Passes { word, hash, table };
        } else {
            self.place = 0;
            self.end = 0;
            self.done = 0;
            self.stands = Copying::Aborts;
        }
    }

    /// Goes on once a pair stands in its new place.
    #[inline(always)]
    fn pair_put(&mut self, word: u64)
        ensures { self.new ≡ pair_put self.old word }
    {
        if self.setting.mode.is_incremental() {
            self.stands = Copying::Covers { word };
        } else {
            self.place_done();
        }
    }

    /// Reads a place of the pair's key.
    #[inline(always)]
    pub(super) fn probes<K, V, M: Memory<Node<K, V>>>(
        &mut self,
        memory: &mut M,
        word: u64,
        hash: u64,
        table: Table,
        probe: Probe,
    ) -> Yielding<Node<K, V>, Table>
        requires { May M.can M.took M.shown memory.old (probes self.old word hash table probe) }
        ensures { Steps M.took M.shown memory.old (probes self.old word hash table probe) memory.new (self.new, result) }
    {
        let found = memory.load(table.at(probe.i));
        if found == 0 {
            self.stands = Copying::Puts {
                word,
                hash,
                table,
                probe,
            };
        } else {
            self.next_try(word, hash, table, probe);
        }
        Yielding::Goes
    }

    /// Puts the pair into a place that was empty.
    #[inline(always)]
    pub(super) fn puts<K, V, M: Memory<Node<K, V>>>(
        &mut self,
        memory: &mut M,
        word: u64,
        hash: u64,
        table: Table,
        probe: Probe,
    ) -> Yielding<Node<K, V>, Table>
        requires { May M.can M.took M.shown memory.old (puts self.old word hash table probe) }
        ensures { Steps M.took M.shown memory.old (puts self.old word hash table probe) memory.new (self.new, result) }
    {
        match memory.exchange(table.at(probe.i), 0, self.copied_word(word)) {
            Ok(_) => self.pair_put(word),
            Err(_) => self.next_try(word, hash, table, probe),
        }
        Yielding::Goes
    }
}
