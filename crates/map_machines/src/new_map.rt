//! The beginning of a map.
ghost use Rattle.std.specs.Prelude.{◌≡◌};
ghost use Rattle.map_machines.specs.NewMap.{opening, takes, shards, opened, unmakes, frees};
ghost use Rattle.map_machines.specs.NewTable.{new_table_plan};
ghost use Rattle.map_tables.specs.Given.SeizeWordsPlan.{May, Steps, plan_as};

use crate::new_table::NewTable;
use map_tables::named::{At, Fault, Memory};
use map_tables::{Counter, Node, Setting, Table};
use seize::{Advance, StepMachine};

/// Where the beginning of a map stands.
#[derive(Clone, Copy)]
pub enum Opening {
    /// Takes a root, if it is free.
    Takes,
    /// Makes the shards of the counter.
    Shards,
    /// Makes the first table.
    Tables(NewTable),
    /// Takes the shards away again, and is refused then.
    Unmakes(Fault),
    /// Gives the root up again, and is refused then.
    Frees(Fault),
    /// It has ended.
    Over,
    /// It has ended without a map.
    Refused(Fault),
}

/// A map begins: it takes the first root that is free, and makes its counter and, where it is to have one, its first table. It
/// answers what its calls work with. The faults are `Fault::RootsUsedUp`, `Fault::Capacity` and `Fault::Memory`.
#[derive(Clone, Copy)]
pub struct NewMap {
    /// What its calls work with, as far as it is known.
    pub setting: Setting,
    /// How many roots there are.
    pub roots: u64,
    /// How many places the first table has, 0 for no table.
    pub len: u64,
    /// Where it stands.
    pub stands: Opening,
}

impl NewMap {
    /// Begins a map. Root and counter of the setting are not known yet.
    pub fn new(setting: Setting, roots: u64, len: u64) -> Self
        ensures { result ≡ opening setting roots len }
    {
        NewMap {
            setting: Setting { root: 0, ..setting },
            roots,
            len,
            stands: Opening::Takes,
        }
    }

    /// Takes a root, or goes on to the next one.
    fn takes<T, M: Memory<T>>(&mut self, memory: &mut M) -> Advance<Setting>
        requires { May M.can M.took M.shown memory.old (takes self.old) }
        ensures { Steps M.took M.shown memory.old (takes self.old) memory.new (self.new, result) }
    {
        match memory.exchange(At::Used(self.setting.root), 0, 1) {
            Ok(_) => {
                self.stands = Opening::Shards;
                Advance::Goes
            }
            Err(_) => {
                if self.setting.root < self.roots.saturating_sub(1) {
                    self.setting.root += 1;
                    Advance::Goes
                } else {
                    self.stands = Opening::Refused(Fault::RootsUsedUp);
                    Advance::Refused(Fault::RootsUsedUp)
                }
            }
        }
    }

    /// Makes the shards. A map that is to have no table is there then.
    fn shards<K: Drop, V: Drop, M: Memory<Node<K, V>>>(
        &mut self,
        memory: &mut M,
    ) -> Advance<Setting>
        requires { May M.can M.took M.shown memory.old (shards {K = K} {V = V} self.old) }
        ensures { Steps M.took M.shown memory.old (shards {K = K} {V = V} self.old) memory.new (self.new, result) }
    {
        let counter = Counter {
            mask: self.setting.mask,
        };
        match memory.make(Node::Shards, counter.shards()) {
            Ok(block) => {
                self.setting.counter = block;
                if self.len == 0 {
                    self.stands = Opening::Over;
                    Advance::Done(self.setting)
                } else {
                    self.stands = Opening::Tables(NewTable::first(self.setting, self.len));
                    Advance::Goes
                }
            }
            Err(_) => {
                self.stands = Opening::Frees(Fault::Memory);
                Advance::Goes
            }
        }
    }

    /// Takes a step of the making of the first table.
    fn tables<K: Drop, V: Drop, M: Memory<Node<K, V>>>(
        &mut self,
        memory: &mut M,
        mut making: NewTable,
    ) -> Advance<Setting>
        requires { May M.can M.took M.shown memory.old (plan_as (opened self.old) (new_table_plan {K = K} {V = V} making)) }
        ensures { Steps M.took M.shown memory.old (plan_as (opened self.old) (new_table_plan {K = K} {V = V} making)) memory.new (self.new, result) }
    {
        let progress = making.step(memory);
        self.opened(making, progress)
    }

    /// Goes on after a step of that making.
    fn opened(&mut self, making: NewTable, progress: Advance<Table>) -> Advance<Setting>
        ensures { (self.new, result) ≡ opened self.old (making, progress) }
    {
        self.stands = Opening::Tables(making);
        match progress {
            Advance::Goes => Advance::Goes,
            Advance::Waits => Advance::Waits,
            Advance::Done(_) => {
                self.stands = Opening::Over;
                Advance::Done(self.setting)
            }
            Advance::Refused(fault) => {
                self.stands = Opening::Unmakes(fault);
                Advance::Goes
            }
        }
    }

    /// Takes the shards away again.
    fn unmakes<K: Drop, V: Drop, M: Memory<Node<K, V>>>(
        &mut self,
        memory: &mut M,
        fault: Fault,
    ) -> Advance<Setting>
        requires { May M.can M.took M.shown memory.old (unmakes {K = K} {V = V} self.old fault) }
        ensures { Steps M.took M.shown memory.old (unmakes {K = K} {V = V} self.old fault) memory.new (self.new, result) }
    {
        drop(memory.take(self.setting.counter));
        self.stands = Opening::Frees(fault);
        Advance::Goes
    }

    /// Gives the root up again.
    fn frees<T, M: Memory<T>>(&mut self, memory: &mut M, fault: Fault) -> Advance<Setting>
        requires { May M.can M.took M.shown memory.old (frees self.old fault) }
        ensures { Steps M.took M.shown memory.old (frees self.old fault) memory.new (self.new, result) }
    {
        memory.store(At::Used(self.setting.root), 0);
        self.stands = Opening::Refused(fault);
        Advance::Refused(fault)
    }
}

impl<K: Drop, V: Drop> StepMachine<Node<K, V>> for NewMap {
    ghost use Rattle.map_machines.specs.NewMap.{new_map_plan};

    type Progress = Advance<Setting>;

    ghost plan = { new_map_plan };

    fn step<M: Memory<Node<K, V>>>(&mut self, memory: &mut M) -> Advance<Setting> {
        match self.stands {
            Opening::Takes => self.takes(memory),
            Opening::Shards => self.shards(memory),
            Opening::Tables(making) => self.tables(memory, making),
            Opening::Unmakes(fault) => self.unmakes(memory, fault),
            Opening::Frees(fault) => self.frees(memory, fault),
            Opening::Over => Advance::Done(self.setting),
            Opening::Refused(fault) => Advance::Refused(fault),
        }
    }
}
