//! The end of a map.
ghost use Rattle.std.specs.Prelude.{◌≡◌};
ghost use Rattle.papaya_raw.specs.EndMap.{ending, is_current, next_place, reads, words, takes, nexts, carries, joins, follows, gives, afters, drops, shards, sets, frees};
ghost use Rattle.map_sweeps.specs.Given.SeizeWordsPlan.{May, Steps};

use map_sweeps::named::marks::{COPYING, has};
use map_sweeps::named::table_words::{DEFERRED, NEXT, PLACES};
use map_sweeps::named::{At, Link, Memory, Node, Setting, Settled, StepMachine, Table, states};

/// Where the end of a map stands.
#[derive(Clone, Copy)]
pub enum Ending {
    /// Reads the root.
    Reads,
    /// Reads a place of a table.
    Words,
    /// Reclaims a pair of that table.
    Takes { pair: u64 },
    /// Reads which table comes next.
    Nexts,
    /// Reads the list of the pairs that a table carries.
    Carries,
    /// Puts that list behind those of the tables before.
    Joins { pair: u64 },
    /// Reads which pair follows one in the list.
    Follows { pair: u64 },
    /// Reclaims a pair that was deferred.
    Gives { pair: u64, next: u64 },
    /// Reads which table comes after one that is to be reclaimed.
    Afters,
    /// Reclaims the table.
    Drops { next: u64 },
    /// Reclaims the shards.
    Shards,
    /// Writes the list of the pairs that were deferred to the root.
    Sets,
    /// Gives the root up.
    Frees,
    /// It has ended.
    Over,
}

/// A map ends, while no call of it is under way: its pairs are reclaimed, then its tables and its counter. Pairs that its tables
/// carry are reclaimed where it owns its collector, and else wait on its root, which is free only once they are gone.
#[derive(Clone, Copy)]
pub struct EndMap {
    /// What its calls worked with.
    pub setting: Setting,
    /// Whether it owns its collector.
    pub owns: bool,
    /// Its root.
    pub root: Table,
    /// The table that it has come to.
    pub table: Table,
    /// The place that it has come to.
    pub place: u64,
    /// The first of the pairs that were deferred, 0 for none.
    pub first: u64,
    /// The last one of them that it has come to.
    pub last: u64,
    /// Where it stands.
    pub stands: Ending,
}

impl EndMap {
    /// Begins the end of a map.
    pub fn new(setting: Setting, owns: bool) -> Self
        ensures { result ≡ ending setting owns }
    {
        let none = Table {
            link: 0,
            len: 0,
            limit: 0,
            turn: 0,
        };
        EndMap {
            setting,
            owns,
            root: none,
            table: none,
            place: 0,
            first: 0,
            last: 0,
            stands: Ending::Reads,
        }
    }

    /// Whether a word names a pair of the map: one that was not copied into a later table.
    fn is_current(self, word: u64) -> bool
        ensures { result ≡ is_current self word }
    {
        Link::block_of(word) != 0 && !(self.setting.mode.is_incremental() && has(word, COPYING))
    }

    /// Goes on with the next place, or the next table.
    fn next_place(&mut self)
        ensures { self.new ≡ next_place self.old }
    {
        if self.place < self.table.len.saturating_sub(1) {
            self.place += 1;
            self.stands = Ending::Words;
        } else {
            self.stands = Ending::Nexts;
        }
    }

    /// Reads the root. A map with no table has only its counter.
    fn reads<K, V, M: Memory<Node<K, V>>>(&mut self, memory: &mut M) -> Settled<Node<K, V>>
        requires { May M.can M.took M.shown memory.old (reads self.old) }
        ensures { Steps M.took M.shown memory.old (reads self.old) memory.new (self.new, result) }
    {
        let root = memory.load(At::Root(self.setting.root));
        if root == 0 {
            self.stands = Ending::Shards;
        } else {
            let table = Table::seen(root, memory.value(Link::block_of(root)));
            self.root = table;
            self.table = table;
            self.stands = Ending::Words;
        }
        Settled::Goes
    }

    /// Reads a place.
    fn words<T, M: Memory<T>>(&mut self, memory: &mut M) -> Settled<T>
        requires { May M.can M.took M.shown memory.old (words self.old) }
        ensures { Steps M.took M.shown memory.old (words self.old) memory.new (self.new, result) }
    {
        let place = self.place.wrapping_add(PLACES);
        let word = memory.load(At::Word(Link::block_of(self.table.link), place));
        if self.is_current(word) {
            self.stands = Ending::Takes { pair: word };
        } else {
            self.next_place();
        }
        Settled::Goes
    }

    /// Reclaims a pair of the map.
    fn takes<T, M: Memory<T>>(&mut self, memory: &mut M, pair: u64) -> Settled<T>
        requires { May M.can M.took M.shown memory.old (takes self.old pair) }
        ensures { Steps M.took M.shown memory.old (takes self.old pair) memory.new (self.new, result) }
    {
        let value = memory.take(Link::block_of(pair));
        self.next_place();
        Settled::Gave(value)
    }

    /// Reads which table comes next. Where the map grows at once, the root has all its pairs.
    fn nexts<K, V, M: Memory<Node<K, V>>>(&mut self, memory: &mut M) -> Settled<Node<K, V>>
        requires { May M.can M.took M.shown memory.old (nexts self.old) }
        ensures { Steps M.took M.shown memory.old (nexts self.old) memory.new (self.new, result) }
    {
        let link = memory.load(At::Word(Link::block_of(self.table.link), NEXT));
        if link != 0 && self.setting.mode.is_incremental() {
            self.table = Table::seen(link, memory.value(Link::block_of(link)));
            self.place = 0;
            self.stands = Ending::Words;
        } else {
            self.table = self.root;
            self.stands = Ending::Carries;
        }
        Settled::Goes
    }

    /// Reads the list that the table carries.
    fn carries<T, M: Memory<T>>(&mut self, memory: &mut M) -> Settled<T>
        requires { May M.can M.took M.shown memory.old (carries self.old) }
        ensures { Steps M.took M.shown memory.old (carries self.old) memory.new (self.new, result) }
    {
        let pair = memory.load(At::Word(Link::block_of(self.table.link), DEFERRED));
        if pair == 0 {
            self.stands = Ending::Afters;
        } else if self.owns {
            self.stands = Ending::Follows { pair };
        } else if self.first == 0 {
            self.first = pair;
            self.last = pair;
            self.stands = Ending::Follows { pair };
        } else {
            self.stands = Ending::Joins { pair };
        }
        Settled::Goes
    }

    /// Puts the list behind those before.
    fn joins<T, M: Memory<T>>(&mut self, memory: &mut M, pair: u64) -> Settled<T>
        requires { May M.can M.took M.shown memory.old (joins self.old pair) }
        ensures { Steps M.took M.shown memory.old (joins self.old pair) memory.new (self.new, result) }
    {
        memory.store(At::Entry(Link::block_of(self.last), states::NEXT), pair);
        self.last = pair;
        self.stands = Ending::Follows { pair };
        Settled::Goes
    }

    /// Reads which pair follows one of the list.
    fn follows<T, M: Memory<T>>(&mut self, memory: &mut M, pair: u64) -> Settled<T>
        requires { May M.can M.took M.shown memory.old (follows self.old pair) }
        ensures { Steps M.took M.shown memory.old (follows self.old pair) memory.new (self.new, result) }
    {
        let next = memory.load(At::Entry(Link::block_of(pair), states::NEXT));
        if self.owns {
            self.stands = Ending::Gives { pair, next };
        } else if next == 0 {
            self.stands = Ending::Afters;
        } else {
            self.last = next;
            self.stands = Ending::Follows { pair: next };
        }
        Settled::Goes
    }

    /// Reclaims a pair that was deferred.
    fn gives<T, M: Memory<T>>(&mut self, memory: &mut M, pair: u64, next: u64) -> Settled<T>
        requires { May M.can M.took M.shown memory.old (gives self.old pair next) }
        ensures { Steps M.took M.shown memory.old (gives self.old pair next) memory.new (self.new, result) }
    {
        let value = memory.take(Link::block_of(pair));
        self.stands = if next == 0 {
            Ending::Afters
        } else {
            Ending::Follows { pair: next }
        };
        Settled::Gave(value)
    }

    /// Reads which table comes after one.
    fn afters<T, M: Memory<T>>(&mut self, memory: &mut M) -> Settled<T>
        requires { May M.can M.took M.shown memory.old (afters self.old) }
        ensures { Steps M.took M.shown memory.old (afters self.old) memory.new (self.new, result) }
    {
        let next = memory.load(At::Word(Link::block_of(self.table.link), NEXT));
        self.stands = Ending::Drops { next };
        Settled::Goes
    }

    /// Reclaims the table, and looks at the one behind it.
    fn drops<K, V, M: Memory<Node<K, V>>>(
        &mut self,
        memory: &mut M,
        next: u64,
    ) -> Settled<Node<K, V>>
        requires { May M.can M.took M.shown memory.old (drops self.old next) }
        ensures { Steps M.took M.shown memory.old (drops self.old next) memory.new (self.new, result) }
    {
        let value = memory.take(Link::block_of(self.table.link));
        if next == 0 {
            self.stands = Ending::Shards;
        } else {
            self.table = Table::seen(next, memory.value(Link::block_of(next)));
            self.stands = Ending::Carries;
        }
        Settled::Gave(value)
    }

    /// Reclaims the shards.
    fn shards<T, M: Memory<T>>(&mut self, memory: &mut M) -> Settled<T>
        requires { May M.can M.took M.shown memory.old (shards self.old) }
        ensures { Steps M.took M.shown memory.old (shards self.old) memory.new (self.new, result) }
    {
        let value = memory.take(self.setting.counter);
        self.stands = Ending::Sets;
        Settled::Gave(value)
    }

    /// Writes the list of the pairs that were deferred to the root. Without them the root is free.
    fn sets<T, M: Memory<T>>(&mut self, memory: &mut M) -> Settled<T>
        requires { May M.can M.took M.shown memory.old (sets self.old) }
        ensures { Steps M.took M.shown memory.old (sets self.old) memory.new (self.new, result) }
    {
        memory.store(At::Root(self.setting.root), self.first);
        if self.first == 0 {
            self.stands = Ending::Frees;
            Settled::Goes
        } else {
            self.stands = Ending::Over;
            Settled::Done
        }
    }

    /// Gives the root up.
    fn frees<T, M: Memory<T>>(&mut self, memory: &mut M) -> Settled<T>
        requires { May M.can M.took M.shown memory.old (frees self.old) }
        ensures { Steps M.took M.shown memory.old (frees self.old) memory.new (self.new, result) }
    {
        memory.store(At::Used(self.setting.root), 0);
        self.stands = Ending::Over;
        Settled::Done
    }
}

impl<K, V> StepMachine<Node<K, V>> for EndMap {
    ghost use Rattle.papaya_raw.specs.EndMap.{end_map_plan};

    type Progress = Settled<Node<K, V>>;

    ghost plan = { end_map_plan };

    fn step<M: Memory<Node<K, V>>>(&mut self, memory: &mut M) -> Settled<Node<K, V>> {
        match self.stands {
            Ending::Reads => self.reads(memory),
            Ending::Words => self.words(memory),
            Ending::Takes { pair } => self.takes(memory, pair),
            Ending::Nexts => self.nexts(memory),
            Ending::Carries => self.carries(memory),
            Ending::Joins { pair } => self.joins(memory, pair),
            Ending::Follows { pair } => self.follows(memory, pair),
            Ending::Gives { pair, next } => self.gives(memory, pair, next),
            Ending::Afters => self.afters(memory),
            Ending::Drops { next } => self.drops(memory, next),
            Ending::Shards => self.shards(memory),
            Ending::Sets => self.sets(memory),
            Ending::Frees => self.frees(memory),
            Ending::Over => Settled::Done,
        }
    }
}
