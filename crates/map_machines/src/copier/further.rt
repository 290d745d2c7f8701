//! A further table is looked for, where a pair has no place in one.
ghost use Rattle.std.specs.Prelude.{◌≡◌, ℕ};
ghost use Rattle.map_tables.specs.Given.SeizeWordsPlan.{May, Steps};
ghost use Rattle.map_machines.specs.Copier.{copier_plan};
ghost use Rattle.map_machines.specs.CopierStates.{standing};
ghost use Rattle.map_machines.specs.declared.copier.Copying.TheVariants as at;
ghost use Rattle.map_machines.specs.CopierFurther.{anew, passes, grown, aborts, replaces, remade};

use crate::copier::{Copier, Copying};
use crate::new_table::NewTable;
use crate::yielding::Yielding;
use map_tables::lengths::Reason;
use map_tables::named::{Link, Memory};
use map_tables::table_words::{NEXT, STATUS};
use map_tables::{Node, Status, Table};
use seize::{Advance, StepMachine};

impl Copier {
    /// Reads which table follows one that has no place for a pair.
    #[inline(always)]
    pub(super) fn passes<K, V, M: Memory<Node<K, V>>>(
        &mut self,
        memory: &mut M,
        word: u64,
        hash: u64,
        table: Table,
    ) -> Yielding<Node<K, V>, Table>
        requires { May M.can M.took M.shown memory.old (passes self.old word hash table) }
        ensures { Steps M.took M.shown memory.old (passes self.old word hash table) memory.new (self.new, result) }
    {
        let link = memory.load(table.word(NEXT));
        if link == 0 {
            self.stands = Copying::Grows {
                word,
                hash,
                making: NewTable::after(self.setting, table, Reason::NoPlace),
            };
        } else {
            let further = Table::seen(link, memory.value(Link::block_of(link)));
            self.probe(word, hash, further);
        }
        Yielding::Goes
    }

    /// Takes a step of the making of a table for a pair, where it stands. Where it is refused, the pair stays where it is.
    #[inline(always)]
    pub(super) fn grows<K: Drop, V: Drop, M: Memory<Node<K, V>>>(
        &mut self,
        memory: &mut M,
    ) -> Yielding<Node<K, V>, Table>
        requires making { (word : ℕ) × (hash : ℕ) × (making : NewTable) × (self.old.stands ≡ at.Grows word hash making) }
        requires may { (hashes : K → ℕ) × May M.can M.took M.shown memory.old (copier_plan {V = V} hashes self.old) }
        ensures { (hashes : K → ℕ) → Steps M.took M.shown memory.old (copier_plan {V = V} hashes self.old) memory.new (self.new, result) }
    {
        let Copying::Grows { word, hash, making } = &mut self.stands else {
            unreachable!()
        };
        let (word, hash) = (*word, *hash);
        let progress = making.step(memory);
        self.grown(word, hash, progress)
    }

    /// Goes on after a step of that making.
    #[inline(always)]
    fn grown<K, V>(
        &mut self,
        word: u64,
        hash: u64,
        progress: Advance<Table>,
    ) -> Yielding<Node<K, V>, Table>
        ensures { (begun : Copier) (making : NewTable) → self.old ≡ standing begun (at.Grows word hash making) → (self.new, result) ≡ grown begun word hash (making, progress) }
    {
        match progress {
            Advance::Goes => Yielding::Goes,
            Advance::Waits => Yielding::Waits,
            Advance::Done(table) => {
                self.probe(word, hash, table);
                Yielding::Goes
            }
            Advance::Refused(fault) => {
                self.refuse(word, fault);
                Yielding::Goes
            }
        }
    }

    /// Says that a pair has no place in the table that is copied into.
    #[inline(always)]
    pub(super) fn aborts<K, V, M: Memory<Node<K, V>>>(
        &mut self,
        memory: &mut M,
    ) -> Yielding<Node<K, V>, Table>
        requires { May M.can M.took M.shown memory.old (aborts self.old) }
        ensures { Steps M.took M.shown memory.old (aborts self.old) memory.new (self.new, result) }
    {
        memory.store(self.target.word(STATUS), Status::ABORTED);
        self.stands = Copying::Replaces;
        Yielding::Goes
    }

    /// Reads which table follows one that was aborted.
    #[inline(always)]
    pub(super) fn replaces<K, V, M: Memory<Node<K, V>>>(
        &mut self,
        memory: &mut M,
    ) -> Yielding<Node<K, V>, Table>
        requires { May M.can M.took M.shown memory.old (replaces self.old) }
        ensures { Steps M.took M.shown memory.old (replaces self.old) memory.new (self.new, result) }
    {
        let link = memory.load(self.target.word(NEXT));
        if link == 0 {
            self.stands = Copying::Remakes {
                making: NewTable::after(self.setting, self.target, Reason::NoPlace),
            };
        } else {
            let further = Table::seen(link, memory.value(Link::block_of(link)));
            self.begin_anew(further);
        }
        Yielding::Goes
    }

    /// Takes a step of the making of another table to copy into, where it stands. Where it is refused, so is the call.
    #[inline(always)]
    pub(super) fn remakes<K: Drop, V: Drop, M: Memory<Node<K, V>>>(
        &mut self,
        memory: &mut M,
    ) -> Yielding<Node<K, V>, Table>
        requires making { (making : NewTable) × (self.old.stands ≡ at.Remakes making) }
        requires may { (hashes : K → ℕ) × May M.can M.took M.shown memory.old (copier_plan {V = V} hashes self.old) }
        ensures { (hashes : K → ℕ) → Steps M.took M.shown memory.old (copier_plan {V = V} hashes self.old) memory.new (self.new, result) }
    {
        let Copying::Remakes { making } = &mut self.stands else {
            unreachable!()
        };
        let progress = making.step(memory);
        self.remade(progress)
    }

    /// Goes on after a step of that making.
    #[inline(always)]
    fn remade<K, V>(&mut self, progress: Advance<Table>) -> Yielding<Node<K, V>, Table>
        ensures { (begun : Copier) (making : NewTable) → self.old ≡ standing begun (at.Remakes making) → (self.new, result) ≡ remade begun (making, progress) }
    {
        match progress {
            Advance::Goes => Yielding::Goes,
            Advance::Waits => Yielding::Waits,
            Advance::Done(table) => {
                self.begin_anew(table);
                Yielding::Goes
            }
            Advance::Refused(fault) => {
                self.give_up(fault);
                Yielding::Goes
            }
        }
    }

    /// Begins the copying anew, into another table.
    #[inline(always)]
    fn begin_anew(&mut self, table: Table)
        ensures { self.new ≡ anew self.old table }
    {
        self.target = table;
        self.stands = Copying::Asks;
    }
}
