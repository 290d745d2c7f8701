//! The copying of a table into the one that follows it, point by point.
ghost use Rattle.std.specs.Prelude.{◌≡◌};
ghost use Rattle.map_tables.specs.Given.SeizeWordsPlan.{May, Steps};
ghost use Rattle.map_machines.specs.Copier.{copier_plan};
ghost use Rattle.map_machines.specs.CopierStates.{helping, copying_all, behind, none_left, next_place, place_done};

use crate::new_table::NewTable;
use crate::yielding::Yielding;
use map_tables::named::{Fault, Memory};
use map_tables::{Hashes, Node, Probe, Setting, Table};
use seize::rows::Settle;

mod claims;
mod counts;
mod further;
mod marks;
mod places;
mod promotes;

pub use marks::key_hash;

/// Where a copying stands.
#[derive(Clone, Copy)]
pub enum Copying {
    /// Reads the root, the table to be copied.
    Begins,
    /// Reads which table follows it.
    Follows,
    /// Reads the status of that table.
    Asks,
    /// Reads how many places are claimed.
    Sees,
    /// Claims a chunk.
    Claims,
    /// Marks a place.
    Marks,
    /// Reads a place of a pair's key in a table. The pair is named by its word as it was before the mark.
    Probes {
        word: u64,
        hash: u64,
        table: Table,
        probe: Probe,
    },
    /// Puts the pair into that place, which was empty.
    Puts {
        word: u64,
        hash: u64,
        table: Table,
        probe: Probe,
    },
    /// Marks the pair's old place as copied.
    Covers {
        word: u64,
    },
    /// Reads which table follows one that has no place for the pair.
    Passes {
        word: u64,
        hash: u64,
        table: Table,
    },
    /// Makes a table behind that one.
    Grows {
        word: u64,
        hash: u64,
        making: NewTable,
    },
    /// Says that a pair has no place in the table that is copied into.
    Aborts,
    /// Reads which table follows the one that was aborted.
    Replaces,
    /// Makes a table behind that one.
    Remakes {
        making: NewTable,
    },
    /// Adds the places done to the count.
    Counts,
    /// Adds them, and is refused then: a further table is.
    Tallies {
        word: u64,
        fault: Fault,
    },
    /// Takes its mark back, and is refused then.
    Unmarks {
        word: u64,
        fault: Fault,
    },
    /// Sets the claim to 0, and is refused then.
    Unclaims {
        fault: Fault,
    },
    /// Makes the next table the root.
    Promotes,
    /// Says so in its status.
    Announces,
    /// Reads which table follows one that is to be retired.
    Succeeds {
        table: u64,
    },
    /// Retires that table. `rest` is the one that is retired after it, 0 for none.
    Retires {
        settle: Settle,
        rest: u64,
    },
    /// It has ended.
    Over,
    /// It has ended, since no further table could be made.
    Refused(Fault),
}

/// Copies the pairs of a table that is the root, or was, into the table that follows it, and makes that one the root once all
/// are copied. It copies a chunk, as a helper that never waits, or the whole table, and then waits for the other callers.
#[derive(Clone, Copy)]
pub struct Copier {
    /// What its call works with.
    pub setting: Setting,
    /// Whether it goes on until the resize is over.
    pub whole: bool,
    /// The table that is copied.
    pub source: Table,
    /// The table that it is copied into.
    pub target: Table,
    /// Whether no place is left to be claimed.
    pub spent: bool,
    /// The place that is copied.
    pub place: u64,
    /// The first place behind its range.
    pub end: u64,
    /// How many places it has done and not yet counted.
    pub done: u64,
    /// Where it stands.
    pub stands: Copying,
}

impl Copier {
    /// Copies a chunk of the root, if a table follows it.
    #[inline(always)]
    pub fn help(setting: Setting) -> Self
        ensures { result ≡ helping setting }
    {
        let none = Table {
            link: 0,
            len: 0,
            limit: 0,
            turn: 0,
        };
        Copier {
            setting,
            whole: false,
            source: none,
            target: none,
            spent: false,
            place: 0,
            end: 0,
            done: 0,
            stands: Copying::Begins,
        }
    }

    /// Copies a whole table into the one that follows it, until that one, or one behind it, is the root. It answers this one.
    #[inline(always)]
    pub fn all(setting: Setting, source: Table, target: Table) -> Self
        ensures { result ≡ copying_all setting source target }
    {
        let mut copier = Copier {
            setting,
            whole: true,
            source,
            target,
            spent: false,
            place: 0,
            end: 0,
            done: 0,
            stands: Copying::Asks,
        };
        if setting.mode.is_incremental() {
            copier.end = source.len;
            copier.stands = Copying::Marks;
        }
        copier
    }

    /// Goes on once its range is counted.
    #[inline(always)]
    fn go_on(&mut self)
        ensures { self.new ≡ behind self.old }
    {
        if self.whole {
            self.place = 0;
            self.end = 0;
            self.spent = self.setting.mode.is_incremental();
            self.stands = Copying::Asks;
        } else {
            self.stands = Copying::Over;
        }
    }

    /// Goes on where each place is claimed.
    #[inline(always)]
    fn none_left(&mut self)
        ensures { self.new ≡ none_left self.old }
    {
        if self.whole {
            self.spent = true;
            self.stands = Copying::Asks;
        } else {
            self.stands = Copying::Over;
        }
    }

    /// Goes on with the next place of its range, if there is one.
    #[inline(always)]
    fn next_place(&mut self)
        ensures { self.new ≡ next_place self.old }
    {
        if self.place < self.end.saturating_sub(1) {
            self.place += 1;
            self.stands = Copying::Marks;
        } else if self.done == 0 {
            self.go_on();
        } else {
            self.stands = Copying::Counts;
        }
    }

    /// Goes on once a place is done.
    #[inline(always)]
    fn place_done(&mut self)
        ensures { self.new ≡ place_done self.old }
    {
        self.done = self.done.wrapping_add(1);
        self.next_place();
    }

    /// Takes one step: at most one operation. The hasher gives the hash of the key of each pair that is copied.
    #[inline(always)]
    pub fn step<K: Drop, V: Drop, S: Hashes<K>, M: Memory<Node<K, V>>>(
        &mut self,
        memory: &mut M,
        hasher: &S,
    ) -> Yielding<Node<K, V>, Table>
        requires { May M.can M.took M.shown memory.old (copier_plan (S.hash hasher.now) self.old) }
        ensures { Steps M.took M.shown memory.old (copier_plan (S.hash hasher.now) self.old) memory.new (self.new, result) }
    {
        match self.stands {
            Copying::Begins => self.begins(memory),
            Copying::Follows => self.follows(memory),
            Copying::Asks => self.asks(memory),
            Copying::Sees => self.sees(memory),
            Copying::Claims => self.claims(memory),
            Copying::Marks => self.marks(memory, hasher),
            Copying::Probes {
                word,
                hash,
                table,
                probe,
            } => self.probes(memory, word, hash, table, probe),
            Copying::Puts {
                word,
                hash,
                table,
                probe,
            } => self.puts(memory, word, hash, table, probe),
            Copying::Covers { word } => self.covers(memory, word),
            Copying::Passes { word, hash, table } => self.passes(memory, word, hash, table),
            Copying::Grows { .. } => self.grows(memory),
            Copying::Aborts => self.aborts(memory),
            Copying::Replaces => self.replaces(memory),
            Copying::Remakes { .. } => self.remakes(memory),
            Copying::Counts => self.counts(memory),
            Copying::Tallies { word, fault } => self.tallies(memory, word, fault),
            Copying::Unmarks { word, fault } => self.unmarks(memory, word, fault),
            Copying::Unclaims { fault } => self.unclaims(memory, fault),
            Copying::Promotes => self.promotes(memory),
            Copying::Announces => self.announces(memory),
            Copying::Succeeds { table } => self.succeeds(memory, table),
            Copying::Retires { .. } => self.retires(memory),
            Copying::Over => Yielding::Done(self.target),
            Copying::Refused(fault) => Yielding::Refused(fault),
        }
    }
}
