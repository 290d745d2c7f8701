//! The making of a table: the first one of a map, or one after another.
ghost use Rattle.std.specs.Prelude.{◌≡◌, ◌≤◌};
ghost use Rattle.map_machines.specs.NewTable.{first_table, table_after, table_reserved, making_first, making_of, following, counted, makes, promotes, links, drops};
ghost use Rattle.map_machines.specs.Sum.{sum_plan};
ghost use Rattle.map_tables.specs.Given.SeizeWordsPlan.{May, Steps, plan_as};

use crate::sum::Sum;
use map_tables::lengths::{LEAST_LEN, MOST_LEN, Reason, len_after, limit_after, turn_after};
use map_tables::named::{At, Fault, Link, Memory};
use map_tables::table_words::{NEXT, PLACES, STATUS};
use map_tables::{Node, Setting, Status, Table, limit};
use seize::{Advance, StepMachine};

/// Where a making of a table stands. A table that has no block yet has the link 0.
#[derive(Clone, Copy)]
pub enum Making {
    /// Counts the pairs of the map, which say how long the table after another one is to be.
    Sums {
        /// The table before.
        before: Table,
        /// Why there is to be one after it.
        reason: Reason,
        /// The counting.
        sum: Sum,
    },
    /// Makes the table.
    Makes(Table),
    /// Marks the first table of a map as one that nothing is to be copied into.
    Promotes(Table),
    /// Puts the table where it is to stand, if none stands there.
    Links(Table),
    /// Takes the table away again, since another one stands there.
    Drops {
        /// The table.
        table: Table,
        /// The link of the other one.
        found: u64,
    },
    /// It has ended, and this table stands there.
    Over(Table),
    /// It has ended without a table.
    Refused(Fault),
}

/// A map comes to a table, its first one or one after another: it is made and put where it is to stand. Where another call was
/// faster, it is taken away again, and the other call's table is the answer. The faults are `Fault::Capacity`, where the table
/// had to be too long or has no turn, and `Fault::Memory`.
#[derive(Clone, Copy)]
pub struct NewTable {
    /// What it works with.
    pub setting: Setting,
    /// The link that is to name the table: the map's root, or that of the table before.
    pub link: At,
    /// Where it stands.
    pub stands: Making,
}

impl NewTable {
    /// Returns the first table of a map, with so many places, but eight at least.
    pub fn first(setting: Setting, len: u64) -> Self
        ensures { result ≡ first_table setting len }
    {
        NewTable {
            setting,
            link: At::Root(setting.root),
            stands: Making::first(len.max(LEAST_LEN)),
        }
    }

    /// Returns the table after another one. Where a copied pair found no place there, no count is needed.
    pub fn after(setting: Setting, before: Table, reason: Reason) -> Self
        ensures { result ≡ table_after setting before reason }
    {
        NewTable {
            setting,
            link: At::Word(Link::block_of(before.link), NEXT),
            stands: if reason == Reason::NoPlace {
                Making::of(
                    reason,
                    before,
                    len_after(reason, before.len, 0, setting.initial),
                )
            } else {
                Making::Sums {
                    before,
                    reason,
                    sum: Sum::new(setting),
                }
            },
        }
    }

    /// Returns the table after another one that has so many places, but eight at least.
    pub fn reserved(setting: Setting, before: Table, len: u64) -> Self
        ensures { result ≡ table_reserved setting before len }
    {
        NewTable {
            setting,
            link: At::Word(Link::block_of(before.link), NEXT),
            stands: Making::of(Reason::Reserved(0), before, Ok(len)),
        }
    }

    /// Takes a step of the counting. Once the count is known, so is the table.
    #[tactic(auto, using(crate::proofs::Given::may_as, crate::proofs::Given::steps_as))]
    fn sums<T, M: Memory<T>>(
        &mut self,
        memory: &mut M,
        before: Table,
        reason: Reason,
        mut sum: Sum,
    ) -> Advance<Table>
        requires { May M.can M.took M.shown memory.old (plan_as (counted self.old before reason) (sum_plan sum)) }
        ensures { Steps M.took M.shown memory.old (plan_as (counted self.old before reason) (sum_plan sum)) memory.new (self.new, result) }
    {
        let progress = sum.step(memory);
        self.stands = Making::Sums {
            before,
            reason,
            sum,
        };
        match progress {
            Advance::Goes => Advance::Goes,
            Advance::Waits => Advance::Waits,
            Advance::Done(count) => {
                let len = len_after(reason, before.len, count, self.setting.initial);
                self.stands = Making::of(reason, before, len);
                Advance::Goes
            }
            Advance::Refused(fault) => {
                self.stands = Making::Refused(fault);
                Advance::Refused(fault)
            }
        }
    }

    /// Makes the table.
    fn makes<K: Drop, V: Drop, M: Memory<Node<K, V>>>(
        &mut self,
        memory: &mut M,
        table: Table,
    ) -> Advance<Table>
        requires { May M.can M.took M.shown memory.old (makes {K = K} {V = V} self.old table) }
        ensures { Steps M.took M.shown memory.old (makes {K = K} {V = V} self.old table) memory.new (self.new, result) }
    {
        let node = Node::Table {
            len: table.len,
            limit: table.limit,
            turn: table.turn,
        };
        match memory.make(node, table.len.wrapping_add(PLACES)) {
            Ok(block) => {
                let table = Table {
                    link: Link::to(block),
                    ..table
                };
                self.stands = match self.link {
                    At::Root(_) => Making::Promotes(table),
                    _ => Making::Links(table),
                };
                Advance::Goes
            }
            Err(_) => {
                self.stands = Making::Refused(Fault::Memory);
                Advance::Refused(Fault::Memory)
            }
        }
    }

    /// Marks a first table as promoted.
    fn promotes<T, M: Memory<T>>(&mut self, memory: &mut M, table: Table) -> Advance<Table>
        requires { May M.can M.took M.shown memory.old (promotes self.old table) }
        ensures { Steps M.took M.shown memory.old (promotes self.old table) memory.new (self.new, result) }
    {
        memory.store(
            At::Word(Link::block_of(table.link), STATUS),
            Status::PROMOTED,
        );
        self.stands = Making::Links(table);
        Advance::Goes
    }

    /// Puts the table where none stands.
    fn links<T, M: Memory<T>>(&mut self, memory: &mut M, table: Table) -> Advance<Table>
        requires { May M.can M.took M.shown memory.old (links self.old table) }
        ensures { Steps M.took M.shown memory.old (links self.old table) memory.new (self.new, result) }
    {
        match memory.exchange(self.link, 0, table.link) {
            Ok(_) => {
                self.stands = Making::Over(table);
                Advance::Done(table)
            }
            Err(found) => {
                self.stands = Making::Drops { table, found };
                Advance::Goes
            }
        }
    }

    /// Takes the table away, and looks at the one that stands where it was to stand.
    fn drops<K: Drop, V: Drop, M: Memory<Node<K, V>>>(
        &mut self,
        memory: &mut M,
        table: Table,
        found: u64,
    ) -> Advance<Table>
        requires { May M.can M.took M.shown memory.old (drops {K = K} {V = V} self.old table found) }
        ensures { Steps M.took M.shown memory.old (drops {K = K} {V = V} self.old table found) memory.new (self.new, result) }
    {
        drop(memory.take(Link::block_of(table.link)));
        let other = Table::seen(found, memory.value(Link::block_of(found)));
        self.stands = Making::Over(other);
        Advance::Done(other)
    }
}

impl Making {
    /// The first table, of eight places at least, if it is not too long.
    fn first(len: u64) -> Self
        requires { 8 ≤ len }
        ensures { result ≡ making_first len }
    {
        if len > MOST_LEN {
            return Making::Refused(Fault::Capacity);
        }
        Making::Makes(Table {
            link: 0,
            len,
            limit: limit(len),
            turn: 0,
        })
    }

    /// The table after another one, if there can be one of such a length.
    fn of(reason: Reason, before: Table, len: Result<u64, Fault>) -> Self
        ensures { result ≡ making_of reason before len }
    {
        match len {
            Ok(len) => Making::following(
                reason,
                before,
                len.max(LEAST_LEN),
                turn_after(before.turn),
            ),
            Err(fault) => Making::Refused(fault),
        }
    }

    /// The table after another one, of eight places at least, if it is not too long and has a turn.
    fn following(reason: Reason, before: Table, len: u64, turn: Result<u64, Fault>) -> Self
        requires { 8 ≤ len }
        ensures { result ≡ following reason before len turn }
    {
        match turn {
            Ok(_) if len > MOST_LEN => Making::Refused(Fault::Capacity),
            Ok(turn) => Making::Makes(Table {
                link: 0,
                len,
                limit: limit_after(reason, before.len, before.limit, len),
                turn,
            }),
            Err(fault) => Making::Refused(fault),
        }
    }
}

impl<K: Drop, V: Drop> StepMachine<Node<K, V>> for NewTable {
    ghost use Rattle.map_machines.specs.NewTable.{new_table_plan};

    type Progress = Advance<Table>;

    ghost plan = { new_table_plan };

    fn step<M: Memory<Node<K, V>>>(&mut self, memory: &mut M) -> Advance<Table> {
        match self.stands {
            Making::Sums {
                before,
                reason,
                sum,
            } => self.sums(memory, before, reason, sum),
            Making::Makes(table) => self.makes(memory, table),
            Making::Promotes(table) => self.promotes(memory, table),
            Making::Links(table) => self.links(memory, table),
            Making::Drops { table, found } => self.drops(memory, table, found),
            Making::Over(table) => Advance::Done(table),
            Making::Refused(fault) => Advance::Refused(fault),
        }
    }
}
