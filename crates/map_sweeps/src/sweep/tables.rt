//! The table that a sweep goes over: the root, once no pair moves into a later one.
ghost use Rattle.std.specs.Prelude.{◌≡◌};
ghost use Rattle.map_machines.specs.Copier.{copier_plan};
ghost use Rattle.map_sweeps.specs.Sweeps.Sweep.{reads, follows, copied};
ghost use Rattle.map_sweeps.specs.Sweeps.SweepPoints.{beginning, tableless, entering};
ghost use Rattle.map_machines.specs.Given.SeizeWordsPlan.{May, Steps, plan_as};

use crate::named_reserves::table_words::NEXT;
use crate::named_reserves::{At, Copier, Hashes, Link, Memory, Node, Table, Yielding};
use crate::sweep::{Sweep, Sweeping, Swept};

impl Sweep {
    /// Goes over its table from the first place on. A walk waits until it is asked for a pair.
    fn begin(&mut self)
        ensures { self.new ≡ beginning self.old }
    {
        self.place = 0;
        self.met = false;
        self.stands = if self.purpose.removes() {
            Sweeping::Words
        } else {
            Sweeping::Ready
        };
    }

    /// Comes to the root.
    fn enter(&mut self, table: Table)
        ensures { self.new ≡ entering self.old table }
    {
        self.table = table;
        if self.setting.mode.is_incremental() {
            self.stands = Sweeping::Follows;
        } else {
            self.begin();
        }
    }

    /// Finds that the map has no table.
    fn find_none(&mut self)
        ensures { self.new ≡ tableless self.old }
    {
        self.stands = if self.purpose.removes() {
            Sweeping::Over
        } else {
            Sweeping::Ready
        };
    }

    /// Reads the root.
    pub(super) fn reads<K, V, M: Memory<Node<K, V>>>(&mut self, memory: &mut M) -> Swept<Node<K, V>>
        requires { May M.can M.took M.shown memory.old (reads self.old) }
        ensures { Steps M.took M.shown memory.old (reads self.old) memory.new (self.new, result) }
    {
        let root = memory.load(At::Root(self.setting.root));
        if root == 0 {
            self.find_none();
        } else {
            let table = Table::seen(root, memory.value(Link::block_of(root)));
            self.enter(table);
        }
        self.tell()
    }

    /// Reads which table follows its own. Where one does, all pairs are copied into it first.
    pub(super) fn follows<K, V, M: Memory<Node<K, V>>>(
        &mut self,
        memory: &mut M,
    ) -> Swept<Node<K, V>>
        requires { May M.can M.took M.shown memory.old (follows self.old) }
        ensures { Steps M.took M.shown memory.old (follows self.old) memory.new (self.new, result) }
    {
        let link = memory.load(self.table.word(NEXT));
        if link == 0 {
            self.begin();
            return self.tell();
        }
        let next = Table::seen(link, memory.value(Link::block_of(link)));
        self.go_to(Sweeping::Copies(Copier::all(self.setting, self.table, next)))
    }

    /// Takes a step of the copying. It answers the table that is the root now.
    pub(super) fn copies<K: Drop, V: Drop, S: Hashes<K>, M: Memory<Node<K, V>>>(
        &mut self,
        memory: &mut M,
        hasher: &S,
        mut copier: Copier,
    ) -> Swept<Node<K, V>>
        requires { May M.can M.took M.shown memory.old (plan_as (copied {K = K} {V = V} self.old) (copier_plan (S.hash hasher.now) copier)) }
        ensures { Steps M.took M.shown memory.old (plan_as (copied {K = K} {V = V} self.old) (copier_plan (S.hash hasher.now) copier)) memory.new (self.new, result) }
    {
        let outcome = copier.step(memory, hasher);
        self.copied(copier, outcome)
    }

    /// Goes on after a step of the copying.
    fn copied<K, V>(
        &mut self,
        copier: Copier,
        outcome: Yielding<Node<K, V>, Table>,
    ) -> Swept<Node<K, V>>
        ensures { (self.new, result) ≡ copied self.old (copier, outcome) }
    {
        self.stands = Sweeping::Copies(copier);
        match outcome {
            Yielding::Goes => Swept::Goes,
            Yielding::Waits => Swept::Waits,
            Yielding::Gave(value) => Swept::Gave(value),
            Yielding::Done(root) => {
                self.enter(root);
                self.tell()
            }
            Yielding::Refused(fault) => {
                self.stands = Sweeping::Refused(fault);
                self.tell()
            }
        }
    }
}
