//! A lookup: it reads words and values, and writes nothing.
ghost use Rattle.std.specs.Prelude.{◌≡◌};
ghost use Rattle.map_tables.specs.Given.SeizeWordsPlan.{May, MaySee, Steps, Ends};
ghost use Rattle.map_machines.specs.Lookup.{looking, going, answered, beyond, told, table_read, word_read, roots, probes, nexts, lookup_plan, names_pair};

use map_tables::named::{At, Link, Look};
use map_tables::table_words::NEXT;
use map_tables::{Aim, Equivalent, Finding, Node, Probe, ResizeMode, Table, Trial, may_be, seen};
use seize::Advance;
use std::hash::Hash;

/// Where a lookup stands.
#[derive(Clone, Copy)]
pub enum Looking {
    /// Reads the root.
    Roots,
    /// Reads the word of a try.
    Probes {
        /// The try.
        trial: Trial,
    },
    /// Reads the link to the table after this one.
    Nexts {
        /// The table that it has looked through.
        table: Table,
    },
    /// It has ended.
    Over {
        /// The link of the pair found.
        found: Option<u64>,
    },
}

/// Looks for a key in a map. It never waits, and takes its steps on a memory that can only be read, too. What it is asked
/// with is lent to each step.
#[derive(Clone, Copy)]
pub struct Lookup {
    /// The root of the map.
    pub root: u64,
    /// How the map comes to its next table.
    pub mode: ResizeMode,
    /// The hash of the key.
    pub hash: u64,
    /// Where it stands.
    pub stands: Looking,
}

/// Returns whether a node is a pair whose key this stands for.
pub fn asks_for<K: Eq + Hash, V, Q: Equivalent<K>>(asked: &Q, node: &Node<K, V>) -> bool
    ensures { result ≡ names_pair (Q.Equivalent.equivalent asked.now) node.now }
{
    match node {
        Node::Pair(key, _) => asked.equivalent(key),
        Node::Table { .. } | Node::Shards => false,
    }
}

impl Lookup {
    /// Looks for a key with this hash.
    pub fn new(root: u64, mode: ResizeMode, hash: u64) -> Self
        ensures { result ≡ looking root mode hash }
    {
        Lookup {
            root,
            mode,
            hash,
            stands: Looking::Roots,
        }
    }

    /// Takes one step: at most one operation. It answers the link of the pair found.
    pub fn step<K: Eq + Hash, V, Q: Equivalent<K>, M: Look<Node<K, V>>>(
        &mut self,
        memory: &mut M,
        asked: &Q,
    ) -> Advance<Option<u64>>
        requires { May M.can M.took M.shown memory.old (lookup_plan (Q.Equivalent.equivalent asked.now) self.old) }
        ensures { Steps M.took M.shown memory.old (lookup_plan (Q.Equivalent.equivalent asked.now) self.old) memory.new (self.new, result) }
    {
        match self.stands {
            Looking::Roots => self.roots(memory),
            Looking::Probes { trial } => self.probes(memory, asked, trial),
            Looking::Nexts { table } => self.nexts(memory, table),
            Looking::Over { found } => Advance::Done(found),
        }
    }

    /// Reads the root.
    fn roots<K, V, M: Look<Node<K, V>>>(&mut self, memory: &mut M) -> Advance<Option<u64>>
        requires { May M.can M.took M.shown memory.old (roots self.old) }
        ensures { Steps M.took M.shown memory.old (roots self.old) memory.new (self.new, result) }
    {
        let link = memory.load(At::Root(self.root));
        self.enter(memory, link)
    }

    /// Reads the word of a try.
    fn probes<K: Eq + Hash, V, Q: Equivalent<K>, M: Look<Node<K, V>>>(
        &mut self,
        memory: &mut M,
        asked: &Q,
        trial: Trial,
    ) -> Advance<Option<u64>>
        requires { May M.can M.took M.shown memory.old (probes (Q.Equivalent.equivalent asked.now) self.old trial) }
        ensures { Steps M.took M.shown memory.old (probes (Q.Equivalent.equivalent asked.now) self.old trial) memory.new (self.new, result) }
    {
        let word = memory.load(trial.at());
        let same = may_be(self.hash, word) && asks_for(asked, memory.value(Link::block_of(word)));
        self.told(trial, word, same)
    }

    /// Reads the link to the next table.
    fn nexts<K, V, M: Look<Node<K, V>>>(
        &mut self,
        memory: &mut M,
        table: Table,
    ) -> Advance<Option<u64>>
        requires { May M.can M.took M.shown memory.old (nexts self.old table) }
        ensures { Steps M.took M.shown memory.old (nexts self.old table) memory.new (self.new, result) }
    {
        let link = memory.load(table.word(NEXT));
        self.enter(memory, link)
    }

    /// Enters the table of a link, if there is one.
    fn enter<K, V, M: Look<Node<K, V>>>(&mut self, memory: &M, link: u64) -> Advance<Option<u64>>
        requires { MaySee (M.shown memory.now) (table_read self.old link) }
        ensures { Ends (M.shown memory.now) (table_read self.old link) (self.new, result) }
    {
        if link == 0 {
            return self.answer(None);
        }
        let table = Table::seen(link, memory.value(Link::block_of(link)));
        self.stands = Looking::Probes {
            trial: Trial::first(table, self.hash),
        };
        Advance::Goes
    }

    /// Goes on by what the word of a try says. `same` tells whether it names a pair of the key.
    fn told(&mut self, trial: Trial, word: u64, same: bool) -> Advance<Option<u64>>
        ensures { (self.new, result) ≡ told self.old trial word same }
    {
        match seen(self.mode, Aim::Looks, word, same) {
            Finding::Free => self.answer(None),
            Finding::Passed => match trial.next() {
                Some(trial) => self.go_to(Looking::Probes { trial }),
                None => self.go_beyond(trial.table),
            },
            Finding::Moved => self.go_to(Looking::Nexts { table: trial.table }),
            Finding::Copying | Finding::There => self.answer(Some(word)),
        }
    }

    /// Goes on once all tries at a table are made: with the next one, in incremental mode.
    fn go_beyond(&mut self, table: Table) -> Advance<Option<u64>>
        ensures { (self.new, result) ≡ beyond self.old table }
    {
        if self.mode.is_incremental() {
            self.go_to(Looking::Nexts { table })
        } else {
            self.answer(None)
        }
    }

    /// Goes on elsewhere.
    fn go_to(&mut self, stands: Looking) -> Advance<Option<u64>>
        ensures { (self.new, result) ≡ going self.old stands }
    {
        self.stands = stands;
        Advance::Goes
    }

    /// Ends.
    fn answer(&mut self, found: Option<u64>) -> Advance<Option<u64>>
        ensures { (self.new, result) ≡ answered self.old found }
    {
        self.stands = Looking::Over { found };
        Advance::Done(found)
    }
}
