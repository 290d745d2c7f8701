//! From table to table.
ghost use Rattle.std.specs.Prelude.{◌≡◌, ℕ};
ghost use Rattle.map_sweeps.specs.Given.SeizeWordsPlan.{May, MaySee, Steps, Ends};
ghost use Rattle.papaya_raw.specs.CallPoints.{tableless, at_last, entering, continued_in, standing};
ghost use Rattle.papaya_raw.specs.Call.{roots, nexts, first_made, next_made, call_plan};
ghost use Rattle.papaya_raw.specs.declared.machines.call.Calling.TheVariants as at;

use crate::machines::answer::{Called, End, KeyAnswer, Missing};
use crate::machines::asking::Gap;
use crate::machines::call::{Calling, KeyCall};
use map_sweeps::named::lengths::FIRST_LEN;
use map_sweeps::named::table_words::NEXT;
use map_sweeps::named::{Advance, At, Equivalent, Link, Memory, Node, StepMachine, Table};
use map_sweeps::named_sweeps::{Copier, NewTable};
use std::hash::Hash;

impl<K, V, Q> KeyCall<K, V, Q> {
    /// Reads the root.
    pub(super) fn roots<M: Memory<Node<K, V>>>(&mut self, memory: &mut M) -> Called<Node<K, V>>
        requires { May M.can M.took M.shown memory.old (roots self.old) }
        ensures { Steps M.took M.shown memory.old (roots self.old) memory.new (self.new, result) }
    {
        let link = memory.load(At::Root(self.setting.root));
        if link == 0 {
            return self.has_no_table();
        }
        let table = Table::seen(link, memory.value(Link::block_of(link)));
        self.enter(table)
    }

    /// Reads the link to the next table.
    pub(super) fn nexts<M: Memory<Node<K, V>>>(&mut self, memory: &mut M) -> Called<Node<K, V>>
        requires { May M.can M.took M.shown memory.old (nexts self.old) }
        ensures { Steps M.took M.shown memory.old (nexts self.old) memory.new (self.new, result) }
    {
        let link = memory.load(self.trial.table.word(NEXT));
        if link == 0 {
            return self.has_no_next();
        }
        let table = Table::seen(link, memory.value(Link::block_of(link)));
        self.go_on(table)
    }

    /// The map has no table yet.
    fn has_no_table(&mut self) -> Called<Node<K, V>>
        ensures { (self.new, result) ≡ tableless self.old.missing self.old }
    {
        match self.missing {
            Missing::Answers => self.answer(KeyAnswer::Absent),
            Missing::Puts => {
                self.go_to(Calling::Firsts(NewTable::first(self.setting, FIRST_LEN)))
            }
            Missing::Asks => self.asks_absent(Gap::NoTable),
        }
    }

    /// No table follows the one that was tried. In incremental mode, the key is not in the map then.
    fn has_no_next(&mut self) -> Called<Node<K, V>>
        ensures { (self.new, result) ≡ at_last self.old.missing self.old }
    {
        let incremental = self.setting.mode.is_incremental();
        match self.missing {
            Missing::Answers if incremental => self.answer(KeyAnswer::Absent),
            Missing::Asks if incremental => self.asks_absent(Gap::Last),
            Missing::Answers | Missing::Puts | Missing::Asks => self.make_next(),
        }
    }

    /// Enters a table.
    pub(super) fn enter(&mut self, table: Table) -> Called<Node<K, V>>
        ensures { (self.new, result) ≡ entering self.old table }
    {
        self.trial = self.trial.on(table, self.hash);
        self.go_to(Calling::Probes)
    }

    /// Goes on to the table that follows the one that was tried. In incremental mode, it helps once before; else the whole
    /// table is copied first.
    fn go_on(&mut self, table: Table) -> Called<Node<K, V>>
        ensures { (self.new, result) ≡ continued_in self.old table }
    {
        if !self.setting.mode.is_incremental() {
            let copier = Copier::all(self.setting, self.trial.table, table);
            return self.go_to(Calling::Copies(copier));
        }
        if self.helped {
            return self.enter(table);
        }
        self.helped = true;
        self.go_to(Calling::Helps {
            copier: Copier::help(self.setting),
            goal: table,
        })
    }
}

impl<K: Eq + Hash + Drop, V: Drop, Q: Equivalent<K>> KeyCall<K, V, Q> {
    /// Takes a step of the making of the first table, where it stands.
    pub(super) fn firsts<M: Memory<Node<K, V>>>(&mut self, memory: &mut M) -> Called<Node<K, V>>
        requires making { (making : NewTable) × (self.old.stands ≡ at.Firsts making) }
        requires may { (hashes : K → ℕ) × May M.can M.took M.shown memory.old (call_plan Q.Equivalent.equivalent K.eq hashes self.old) }
        ensures { (hashes : K → ℕ) → Steps M.took M.shown memory.old (call_plan Q.Equivalent.equivalent K.eq hashes self.old) memory.new (self.new, result) }
    {
        let Calling::Firsts(making) = &mut self.stands else {
            unreachable!()
        };
        let progress = making.step(memory);
        self.first_made(progress)
    }

    /// Takes a step of the making of the next table, where it stands.
    pub(super) fn allocs<M: Memory<Node<K, V>>>(&mut self, memory: &mut M) -> Called<Node<K, V>>
        requires making { (making : NewTable) × (self.old.stands ≡ at.Allocs making) }
        requires may { (hashes : K → ℕ) × May M.can M.took M.shown memory.old (call_plan Q.Equivalent.equivalent K.eq hashes self.old) }
        ensures { (hashes : K → ℕ) → Steps M.took M.shown memory.old (call_plan Q.Equivalent.equivalent K.eq hashes self.old) memory.new (self.new, result) }
    {
        let Calling::Allocs(making) = &mut self.stands else {
            unreachable!()
        };
        let progress = making.step(memory);
        self.next_made(progress)
    }
}

impl<K: Drop, V: Drop, Q> KeyCall<K, V, Q> {
    /// Goes on after a step of the making of the first table.
    fn first_made(&mut self, progress: Advance<Table>) -> Called<Node<K, V>>
        ensures { (begun : KeyCall K V Q) (making : NewTable) → self.old ≡ standing begun (at.Firsts making) → (self.new, result) ≡ first_made begun (making, progress) }
    {
        match progress {
            Advance::Goes => Called::Goes,
            Advance::Waits => Called::Waits,
            Advance::Done(table) => self.enter(table),
            Advance::Refused(fault) => self.end(End::Refused(fault)),
        }
    }

    /// Goes on after a step of the making of the next table.
    fn next_made(&mut self, progress: Advance<Table>) -> Called<Node<K, V>>
        ensures { (begun : KeyCall K V Q) (making : NewTable) → self.old ≡ standing begun (at.Allocs making) → (self.new, result) ≡ next_made begun (making, progress) }
    {
        match progress {
            Advance::Goes => Called::Goes,
            Advance::Waits => Called::Waits,
            Advance::Done(table) => self.go_on(table),
            Advance::Refused(fault) => self.end(End::Refused(fault)),
        }
    }
}
