//! A reservation of room for further pairs.
ghost use Rattle.std.specs.Prelude.{◌≡◌};
ghost use Rattle.map_machines.specs.Copier.{copier_plan};
ghost use Rattle.map_machines.specs.NewTable.{new_table_plan};
ghost use Rattle.map_sweeps.specs.Reserves.Reserve.{reserving, needed, enough, counting, copying, reads, made, summed, follows, grown, copied, reserve_plan};
ghost use Rattle.map_machines.specs.Sum.{sum_plan};
ghost use Rattle.map_machines.specs.Given.SeizeWordsPlan.{May, Steps, plan_as};

use map_machines::named::lengths::{MOST_LEN, Reason, len_after};
use map_machines::named::table_words::NEXT;
use map_machines::named::{
    Advance, At, Fault, Hashes, Link, Memory, Node, Setting, StepMachine, Table,
};
use map_machines::{Copier, NewTable, Sum, Yielding};

/// Where a reservation stands.
#[derive(Clone, Copy)]
pub enum Reserving {
    /// Reads the root.
    Reads,
    /// Makes a first table.
    Makes(NewTable),
    /// Counts the pairs of the map, of which this table is the root.
    Sums {
        /// The root.
        table: Table,
        /// The counting.
        sum: Sum,
    },
    /// Reads which table follows the root, which is too short.
    Follows {
        /// The root.
        table: Table,
        /// How many places are needed.
        need: u64,
    },
    /// Makes a table behind the root.
    Grows {
        /// The root.
        table: Table,
        /// The making.
        making: NewTable,
    },
    /// Copies the root into the table that follows it.
    Copies(Copier),
    /// It has ended.
    Over,
    /// It has ended without room for so many pairs.
    Refused(Fault),
}

/// Makes room for further pairs: it goes on until the root has as many places as the map's pairs and these need. The faults are
/// `Fault::Capacity`, where that is too many, or the map has had too many tables, and `Fault::Memory`. Where that is too many it is refused
/// once the pairs are counted, and no table is looked for, copied or made.
#[derive(Clone, Copy)]
pub struct Reserve {
    /// What it works with.
    pub setting: Setting,
    /// For how many further pairs there is to be room.
    pub additional: u64,
    /// Where it stands.
    pub stands: Reserving,
}

impl Reserve {
    /// Makes a reservation for so many further pairs.
    pub fn new(setting: Setting, additional: u64) -> Self
        ensures { result ≡ reserving setting additional }
    {
        Reserve {
            setting,
            additional,
            stands: Reserving::Reads,
        }
    }

    /// How many places are needed where the map has so many pairs. No table has 2^64 - 1 places, which stands for too many.
    fn need(self, count: u64) -> u64
        ensures { result ≡ needed self.additional count }
    {
        let reason = Reason::Reserved(self.additional);
        match len_after(reason, 0, count, self.setting.initial) {
            Ok(len) => len,
            Err(_) => u64::MAX,
        }
    }

    /// Goes on with the counting of the pairs: this table is the root now.
    fn count(&mut self, table: Table)
        ensures { self.new ≡ counting self.old table }
    {
        self.stands = Reserving::Sums {
            table,
            sum: Sum::new(self.setting),
        };
    }

    /// Goes on with the copying of the root into the table that follows it.
    fn copy(&mut self, table: Table, next: Table)
        ensures { self.new ≡ copying self.old table next }
    {
        self.stands = Reserving::Copies(Copier::all(self.setting, table, next));
    }

    /// Ends where the root is long enough, and else looks for the table behind it. It is refused where no table has so many places.
    fn compare<T>(&mut self, table: Table, need: u64) -> Yielding<T, ()>
        ensures { (self.new, result) ≡ enough self.old table need }
    {
        if need > MOST_LEN {
            self.stands = Reserving::Refused(Fault::Capacity);
            Yielding::Refused(Fault::Capacity)
        } else if table.len < need {
            self.stands = Reserving::Follows { table, need };
            Yielding::Goes
        } else {
            self.stands = Reserving::Over;
            Yielding::Done(())
        }
    }

    /// Reads the root. Where the map has no table, a first one is made.
    fn reads<K, V, M: Memory<Node<K, V>>>(&mut self, memory: &mut M) -> Yielding<Node<K, V>, ()>
        requires { May M.can M.took M.shown memory.old (reads self.old) }
        ensures { Steps M.took M.shown memory.old (reads self.old) memory.new (self.new, result) }
    {
        let root = memory.load(At::Root(self.setting.root));
        if root == 0 {
            self.stands = Reserving::Makes(NewTable::first(self.setting, self.need(0)));
        } else {
            let table = Table::seen(root, memory.value(Link::block_of(root)));
            self.count(table);
        }
        Yielding::Goes
    }

    /// Takes a step of the making of a first table.
    fn makes<K: Drop, V: Drop, M: Memory<Node<K, V>>>(
        &mut self,
        memory: &mut M,
        mut making: NewTable,
    ) -> Yielding<Node<K, V>, ()>
        requires { May M.can M.took M.shown memory.old (plan_as (made {K = K} {V = V} self.old) (new_table_plan making)) }
        ensures { Steps M.took M.shown memory.old (plan_as (made {K = K} {V = V} self.old) (new_table_plan making)) memory.new (self.new, result) }
    {
        let progress = making.step(memory);
        self.made(making, progress)
    }

    /// Goes on after a step of that making.
    fn made<K, V>(&mut self, making: NewTable, progress: Advance<Table>) -> Yielding<Node<K, V>, ()>
        ensures { (self.new, result) ≡ made self.old (making, progress) }
    {
        self.stands = Reserving::Makes(making);
        match progress {
            Advance::Goes => Yielding::Goes,
            Advance::Waits => Yielding::Waits,
            Advance::Done(table) => {
                self.count(table);
                Yielding::Goes
            }
            Advance::Refused(fault) => {
                self.stands = Reserving::Refused(fault);
                Yielding::Refused(fault)
            }
        }
    }

    /// Takes a step of the counting. Once the count is known, so is how many places are needed.
    fn sums<T, M: Memory<T>>(
        &mut self,
        memory: &mut M,
        table: Table,
        mut sum: Sum,
    ) -> Yielding<T, ()>
        requires { May M.can M.took M.shown memory.old (plan_as (summed {T = T} self.old table) (sum_plan sum)) }
        ensures { Steps M.took M.shown memory.old (plan_as (summed {T = T} self.old table) (sum_plan sum)) memory.new (self.new, result) }
    {
        let progress = sum.step(memory);
        self.summed(table, sum, progress)
    }

    /// Goes on after a step of the counting.
    fn summed<T>(&mut self, table: Table, sum: Sum, progress: Advance<u64>) -> Yielding<T, ()>
        ensures { (self.new, result) ≡ summed self.old table (sum, progress) }
    {
        self.stands = Reserving::Sums { table, sum };
        match progress {
            Advance::Goes => Yielding::Goes,
            Advance::Waits => Yielding::Waits,
            Advance::Done(count) => self.compare(table, self.need(count)),
            Advance::Refused(fault) => {
                self.stands = Reserving::Refused(fault);
                Yielding::Refused(fault)
            }
        }
    }

    /// Reads which table follows the root. Where none does, one is made.
    fn follows<K, V, M: Memory<Node<K, V>>>(
        &mut self,
        memory: &mut M,
        table: Table,
        need: u64,
    ) -> Yielding<Node<K, V>, ()>
        requires { May M.can M.took M.shown memory.old (follows self.old table need) }
        ensures { Steps M.took M.shown memory.old (follows self.old table need) memory.new (self.new, result) }
    {
        let link = memory.load(At::Word(Link::block_of(table.link), NEXT));
        if link == 0 {
            self.stands = Reserving::Grows {
                table,
                making: NewTable::reserved(self.setting, table, need),
            };
        } else {
            let next = Table::seen(link, memory.value(Link::block_of(link)));
            self.copy(table, next);
        }
        Yielding::Goes
    }

    /// Takes a step of the making of a table behind the root.
    fn grows<K: Drop, V: Drop, M: Memory<Node<K, V>>>(
        &mut self,
        memory: &mut M,
        table: Table,
        mut making: NewTable,
    ) -> Yielding<Node<K, V>, ()>
        requires { May M.can M.took M.shown memory.old (plan_as (grown {K = K} {V = V} self.old table) (new_table_plan making)) }
        ensures { Steps M.took M.shown memory.old (plan_as (grown {K = K} {V = V} self.old table) (new_table_plan making)) memory.new (self.new, result) }
    {
        let progress = making.step(memory);
        self.grown(table, making, progress)
    }

    /// Goes on after a step of that making.
    fn grown<K, V>(
        &mut self,
        table: Table,
        making: NewTable,
        progress: Advance<Table>,
    ) -> Yielding<Node<K, V>, ()>
        ensures { (self.new, result) ≡ grown self.old table (making, progress) }
    {
        self.stands = Reserving::Grows { table, making };
        match progress {
            Advance::Goes => Yielding::Goes,
            Advance::Waits => Yielding::Waits,
            Advance::Done(next) => {
                self.copy(table, next);
                Yielding::Goes
            }
            Advance::Refused(fault) => {
                self.stands = Reserving::Refused(fault);
                Yielding::Refused(fault)
            }
        }
    }

    /// Takes a step of the copying. It answers the table that is the root now.
    fn copies<K: Drop, V: Drop, S: Hashes<K>, M: Memory<Node<K, V>>>(
        &mut self,
        memory: &mut M,
        hasher: &S,
        mut copier: Copier,
    ) -> Yielding<Node<K, V>, ()>
        requires { May M.can M.took M.shown memory.old (plan_as (copied {K = K} {V = V} self.old) (copier_plan (S.hash hasher.now) copier)) }
        ensures { Steps M.took M.shown memory.old (plan_as (copied {K = K} {V = V} self.old) (copier_plan (S.hash hasher.now) copier)) memory.new (self.new, result) }
    {
        let outcome = copier.step(memory, hasher);
        self.copied(copier, outcome)
    }

    /// Goes on after a step of the copying.
    fn copied<K, V>(
        &mut self,
        copier: Copier,
        outcome: Yielding<Node<K, V>, Table>,
    ) -> Yielding<Node<K, V>, ()>
        ensures { (self.new, result) ≡ copied self.old (copier, outcome) }
    {
        self.stands = Reserving::Copies(copier);
        match outcome {
            Yielding::Goes => Yielding::Goes,
            Yielding::Waits => Yielding::Waits,
            Yielding::Gave(value) => Yielding::Gave(value),
            Yielding::Done(root) => {
                self.count(root);
                Yielding::Goes
            }
            Yielding::Refused(fault) => {
                self.stands = Reserving::Refused(fault);
                Yielding::Refused(fault)
            }
        }
    }

    /// Takes one step: at most one operation. The hasher gives the hash of the key of each pair that is copied.
    pub fn step<K: Drop, V: Drop, S: Hashes<K>, M: Memory<Node<K, V>>>(
        &mut self,
        memory: &mut M,
        hasher: &S,
    ) -> Yielding<Node<K, V>, ()>
        requires { May M.can M.took M.shown memory.old (reserve_plan (S.hash hasher.now) self.old) }
        ensures { Steps M.took M.shown memory.old (reserve_plan (S.hash hasher.now) self.old) memory.new (self.new, result) }
    {
        match self.stands {
            Reserving::Reads => self.reads(memory),
            Reserving::Makes(making) => self.makes(memory, making),
            Reserving::Sums { table, sum } => self.sums(memory, table, sum),
            Reserving::Follows { table, need } => self.follows(memory, table, need),
            Reserving::Grows { table, making } => self.grows(memory, table, making),
            Reserving::Copies(copier) => self.copies(memory, hasher, copier),
            Reserving::Over => Yielding::Done(()),
            Reserving::Refused(fault) => Yielding::Refused(fault),
        }
    }
}
