//! The next table becomes the root, and the tables before it are retired.
ghost use Rattle.std.specs.Prelude.{◌≡◌, ℕ};
ghost use Rattle.map_tables.specs.Given.SeizeWordsPlan.{May, Steps};
ghost use Rattle.map_machines.specs.Copier.{copier_plan};
ghost use Rattle.map_machines.specs.CopierStates.{standing};
ghost use Rattle.map_machines.specs.declared.copier.Copying.TheVariants as at;
ghost use Rattle.map_machines.specs.CopierPromotes.{table_retired, promotes, announces, succeeds, retired};

use crate::copier::{Copier, Copying};
use crate::yielding::Yielding;
use map_tables::named::{At, Link, Memory};
use map_tables::table_words::{NEXT, STATUS};
use map_tables::{Node, Status, Table};
use seize::StepMachine;
use seize::rows::{Settle, Settled};

impl Copier {
    /// Makes the next table the root.
    #[inline(always)]
    pub(super) fn promotes<K, V, M: Memory<Node<K, V>>>(
        &mut self,
        memory: &mut M,
    ) -> Yielding<Node<K, V>, Table>
        requires { May M.can M.took M.shown memory.old (promotes self.old) }
        ensures { Steps M.took M.shown memory.old (promotes self.old) memory.new (self.new, result) }
    {
        let root = At::Root(self.setting.root);
        match memory.exchange(root, self.source.link, self.target.link) {
            Ok(_) => self.stands = Copying::Announces,
            Err(_) => self.go_on(),
        }
        Yielding::Goes
    }

    /// Says in its status that the next table is the root.
    #[inline(always)]
    pub(super) fn announces<K, V, M: Memory<Node<K, V>>>(
        &mut self,
        memory: &mut M,
    ) -> Yielding<Node<K, V>, Table>
        requires { May M.can M.took M.shown memory.old (announces self.old) }
        ensures { Steps M.took M.shown memory.old (announces self.old) memory.new (self.new, result) }
    {
        memory.store(self.target.word(STATUS), Status::PROMOTED);
        self.stands = Copying::Succeeds {
            table: self.source.link,
        };
        Yielding::Goes
    }

    /// Reads which table comes after one that is to be retired, before that one is gone.
    #[inline(always)]
    pub(super) fn succeeds<K, V, M: Memory<Node<K, V>>>(
        &mut self,
        memory: &mut M,
        table: u64,
    ) -> Yielding<Node<K, V>, Table>
        requires { May M.can M.took M.shown memory.old (succeeds self.old table) }
        ensures { Steps M.took M.shown memory.old (succeeds self.old table) memory.new (self.new, result) }
    {
        let link = memory.load(At::Word(Link::block_of(table), NEXT));
        let rest = if Link::block_of(link) == Link::block_of(self.target.link) {
            0
        } else {
            link
        };
        self.stands = Copying::Retires {
            settle: Settle::retire(self.setting.slot, self.setting.batch_size, table),
            rest,
        };
        Yielding::Goes
    }

    /// Takes a step of the retirement of a table, where it stands.
    #[inline(always)]
    pub(super) fn retires<K, V, M: Memory<Node<K, V>>>(
        &mut self,
        memory: &mut M,
    ) -> Yielding<Node<K, V>, Table>
        requires retiring { (settle : Settle) × (rest : ℕ) × (self.old.stands ≡ at.Retires settle rest) }
        requires may { (hashes : K → ℕ) × May M.can M.took M.shown memory.old (copier_plan {V = V} hashes self.old) }
        ensures { (hashes : K → ℕ) → Steps M.took M.shown memory.old (copier_plan {V = V} hashes self.old) memory.new (self.new, result) }
    {
        let Copying::Retires { settle, rest } = &mut self.stands else {
            unreachable!()
        };
        let rest = *rest;
        let progress = settle.step(memory);
        self.retired(rest, progress)
    }

    /// Goes on after a step of that retirement.
    #[inline(always)]
    fn retired<K, V>(
        &mut self,
        rest: u64,
        progress: Settled<Node<K, V>>,
    ) -> Yielding<Node<K, V>, Table>
        ensures { (begun : Copier) (settle : Settle) → self.old ≡ standing begun (at.Retires settle rest) → (self.new, result) ≡ retired begun rest (settle, progress) }
    {
        match progress {
            Settled::Goes => Yielding::Goes,
            Settled::Waits => Yielding::Waits,
            Settled::Gave(value) => Yielding::Gave(value),
            Settled::Done => {
                self.go_behind(rest);
                Yielding::Goes
            }
        }
    }

    /// Goes on once a table is retired.
    #[inline(always)]
    fn go_behind(&mut self, rest: u64)
        ensures { self.new ≡ table_retired self.old rest }
    {
        self.stands = if rest == 0 {
            Copying::Over
        } else {
            Copying::Succeeds { table: rest }
        };
    }
}
