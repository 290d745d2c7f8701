//! The disposal of a pair that was taken out of its place.
ghost use Rattle.std.specs.Prelude.{◌≡◌};
ghost use Rattle.map_machines.specs.Dispose.{disposing, standing, settled, deferred, reads, walks, dispose_plan};
ghost use Rattle.map_machines.specs.declared.dispose.Disposing.TheVariants as at;
ghost use Rattle.map_tables.specs.Given.SeizeWordsPlan.{May, Steps};

use map_tables::marks::{BORROWED, has, link_of};
use map_tables::named::{At, Link, Memory};
use map_tables::table_words::{DEFERRED, NEXT};
use map_tables::{Node, ResizeMode, Setting, Table};
use seize::rows::{Defer, Settle, Settled};
use seize::{Advance, StepMachine};

/// Where a disposal stands.
#[derive(Clone, Copy)]
pub enum Disposing {
    /// Retires the pair.
    Settles(Settle),
    /// Reads the root, to see whether the pair's table or a later one is it.
    Reads,
    /// Goes on to the table just before the pair's, from this one.
    Walks {
        /// The link of the table that it has come to.
        table: u64,
    },
    /// Puts the pair in front of the list of that table.
    Defers(Defer),
    /// It has ended.
    Over,
}

/// A pair was taken out of its place: it is retired, or, where older tables may still name it, deferred by the table just before
/// its own until that one is reclaimed.
#[derive(Clone, Copy)]
pub struct Dispose {
    /// What it works with.
    pub setting: Setting,
    /// The link of the pair.
    pub pair: u64,
    /// The table that it was taken out of.
    pub table: Table,
    /// Where it stands.
    pub stands: Disposing,
}

impl Dispose {
    /// Begins the disposal of a pair that a word names which was taken out of a table. The pair is retired at once, unless the map is incremental and the pair
    /// stands in an older table, too.
    #[inline(always)]
    pub fn begin(setting: Setting, word: u64, table: Table) -> Self
        ensures { result ≡ disposing setting word table }
    {
        let pair = link_of(word);
        Dispose {
            setting,
            pair,
            table,
            stands: match setting.mode {
                ResizeMode::Incremental(_) if has(word, BORROWED) => Disposing::Reads,
                _ => Disposing::Settles(Settle::retire(setting.slot, setting.batch_size, pair)),
            },
        }
    }

    /// Takes a step of the retirement, where it stands.
    fn settles<K, V, M: Memory<Node<K, V>>>(&mut self, memory: &mut M) -> Settled<Node<K, V>>
        requires settling { (settle : Settle) × (self.old.stands ≡ at.Settles settle) }
        requires may { May M.can M.took M.shown memory.old (dispose_plan self.old) }
        ensures { Steps M.took M.shown memory.old (dispose_plan self.old) memory.new (self.new, result) }
    {
        let Disposing::Settles(settle) = &mut self.stands else {
            unreachable!()
        };
        let progress = settle.step(memory);
        self.settled(progress)
    }

    /// Goes on after a step of the retirement.
    fn settled<T>(&mut self, progress: Settled<T>) -> Settled<T>
        ensures { (begun : Dispose) (settle : Settle) → self.old ≡ standing begun (at.Settles settle) → (self.new, result) ≡ settled begun (settle, progress) }
    {
        match progress {
            Settled::Goes => Settled::Goes,
            Settled::Waits => Settled::Waits,
            Settled::Gave(value) => Settled::Gave(value),
            Settled::Done => {
                self.stands = Disposing::Over;
                Settled::Done
            }
        }
    }

    /// Reads the root. Where it is the pair's table or a later one, no older table can be reached.
    fn reads<K, V, M: Memory<Node<K, V>>>(&mut self, memory: &mut M) -> Settled<Node<K, V>>
        requires { May M.can M.took M.shown memory.old (reads self.old) }
        ensures { Steps M.took M.shown memory.old (reads self.old) memory.new (self.new, result) }
    {
        let root = memory.load(At::Root(self.setting.root));
        let turn = Table::seen(root, memory.value(Link::block_of(root))).turn;
        self.stands = if turn < self.table.turn {
            Disposing::Walks { table: root }
        } else {
            Disposing::Settles(Settle::retire(
                self.setting.slot,
                self.setting.batch_size,
                self.pair,
            ))
        };
        Settled::Goes
    }

    /// Reads which table comes after one. The table before the pair's own is the one that is to carry it.
    fn walks<T, M: Memory<T>>(&mut self, memory: &mut M, table: u64) -> Settled<T>
        requires { May M.can M.took M.shown memory.old (walks self.old table) }
        ensures { Steps M.took M.shown memory.old (walks self.old table) memory.new (self.new, result) }
    {
        let next = memory.load(At::Word(Link::block_of(table), NEXT));
        self.stands = if Link::block_of(next) == Link::block_of(self.table.link) {
            Disposing::Defers(Defer::defer(self.pair, At::Word(Link::block_of(table), DEFERRED)))
        } else {
            Disposing::Walks { table: next }
        };
        Settled::Goes
    }

    /// Takes a step of the putting, which nothing refuses, where it stands.
    fn defers<K, V, M: Memory<Node<K, V>>>(&mut self, memory: &mut M) -> Settled<Node<K, V>>
        requires deferring { (defer : Defer) × (self.old.stands ≡ at.Defers defer) }
        requires may { May M.can M.took M.shown memory.old (dispose_plan self.old) }
        ensures { Steps M.took M.shown memory.old (dispose_plan self.old) memory.new (self.new, result) }
    {
        let Disposing::Defers(defer) = &mut self.stands else {
            unreachable!()
        };
        let progress = defer.step(memory);
        self.deferred(progress)
    }

    /// Goes on after a step of the putting.
    fn deferred<T>(&mut self, progress: Advance<()>) -> Settled<T>
        ensures { (begun : Dispose) (defer : Defer) → self.old ≡ standing begun (at.Defers defer) → (self.new, result) ≡ deferred begun (defer, progress) }
    {
        match progress {
            Advance::Goes => Settled::Goes,
            Advance::Waits => Settled::Waits,
            Advance::Done(()) | Advance::Refused(_) => {
                self.stands = Disposing::Over;
                Settled::Done
            }
        }
    }
}

impl<K, V> StepMachine<Node<K, V>> for Dispose {
    type Progress = Settled<Node<K, V>>;

    ghost plan = { dispose_plan };

    fn step<M: Memory<Node<K, V>>>(&mut self, memory: &mut M) -> Settled<Node<K, V>> {
        match self.stands {
            Disposing::Settles(_) => self.settles(memory),
            Disposing::Reads => self.reads(memory),
            Disposing::Walks { table } => self.walks(memory, table),
            Disposing::Defers(_) => self.defers(memory),
            Disposing::Over => Settled::Done,
        }
    }
}
