//! One try after another at a table.
ghost use Rattle.std.specs.Prelude.{◌≡◌};
ghost use Rattle.map_tables.specs.Trials.{first_trial, trial_on, place_tried, with_met, found_full, next_trial, TriesMeetFew};

use crate::hash::h1;
use crate::probe::Probe;
use crate::table::Table;
use seize_words::{At, Link};

/// A try at a table: the table in which a key is looked for, the place at which it is, and what the tries before it have met.
#[derive(Clone, Copy)]
pub struct Trial {
    /// The table.
    pub table: Table,
    /// The place, and the number of the try.
    pub probe: Probe,
    /// How many tries at the table had words that named a pair, of those that were counted.
    pub met: u64,
    /// The most that tries had at a table which was found full.
    pub most: u64,
}

impl Trial {
    /// Returns the first try for a hash at a table.
    pub fn first(table: Table, hash: u64) -> Trial
        ensures { result ≡ first_trial table hash }
    {
        Trial {
            table,
            probe: Probe::start(h1(hash), table.mask()),
            met: 0,
            most: 0,
        }
    }

    /// Returns the first try for a hash at another table. What was met where all was full is kept.
    pub fn on(self, table: Table, hash: u64) -> Trial
        ensures { result ≡ trial_on self table hash }
    {
        Trial {
            most: self.most,
            ..Trial::first(table, hash)
        }
    }

    /// Returns the name of the word of its place.
    pub fn at(self) -> At
        ensures { result ≡ place_tried self }
    {
        self.table.at(self.probe.i)
    }

    /// Returns the same try, once the word of its place is counted: it has met a pair if that names one.
    pub fn meets(self, word: u64) -> Trial
        ensures { result ≡ with_met self word }
    {
        let met = if Link::block_of(word) == 0 {
            self.met
        } else {
            self.met.wrapping_add(1)
        };
        Trial { met, ..self }
    }

    /// Returns the same try, once its table was found full: what was met there is kept.
    pub fn found_full(self) -> Trial
        ensures { result ≡ found_full self }
    {
        Trial {
            most: self.most.max(self.met),
            ..self
        }
    }

    /// Returns the next try, up to the last one of the table.
    pub fn next(self) -> Option<Trial>
        ensures { result ≡ next_trial self }
    {
        if self.probe.len >= self.table.limit {
            return None;
        }
        let mut probe = self.probe;
        probe.next(self.table.mask());
        Some(Trial { probe, ..self })
    }
}

/// The tries at a table meet no more pairs than they are.
pub fn tries_meet_few()
    ensures { TriesMeetFew }
{}
