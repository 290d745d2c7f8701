//! Sweeps over a map's pairs: a walk, a clearing, a retaining.
ghost use Rattle.std.specs.Prelude.{◌≡◌};
ghost use Rattle.map_sweeps.specs.Sweeps.Sweep.{sweep_plan};
ghost use Rattle.map_sweeps.specs.Sweeps.SweepPoints.{removes, sweeping, after_next, after_reply, told, telling, going};
ghost use Rattle.map_sweeps.specs.declared.sweep.Purpose.TheVariants.{Walks, Clears, Retains};
ghost use Rattle.map_machines.specs.Given.SeizeWordsPlan.{May, Steps};

use crate::named_reserves::{Copier, Dispose, Fault, Hashes, Memory, Node, Setting, Table};

mod places;
mod removals;
mod tables;

/// What a sweep is for.
#[derive(Clone, Copy)]
pub enum Purpose {
    /// It shows each pair, and changes none.
    Walks,
    /// It removes each pair.
    Clears,
    /// It removes each pair that is not to be kept.
    Retains,
}

/// Where a sweep stands. A pair is named by the word that links to it.
#[derive(Clone, Copy)]
pub enum Sweeping {
    /// Reads the root.
    Reads,
    /// Reads which table follows its own.
    Follows,
    /// Copies its table into that one.
    Copies(Copier),
    /// Is ready for the next pair of a walk.
    Ready,
    /// Reads the word of its place.
    Words,
    /// Asks whether a pair is to be kept.
    Asks {
        /// The pair.
        word: u64,
    },
    /// Removes a pair.
    Tries {
        /// The word that must still be there.
        word: u64,
    },
    /// Counts one pair less.
    Counts {
        /// The pair that was removed.
        removed: u64,
    },
    /// Disposes of the pair that was removed.
    Disposes(Dispose),
    /// It has ended.
    Over,
    /// It has ended before it came to all pairs.
    Refused(Fault),
}

/// How far a sweep is.
#[derive(Drop)]
pub enum Swept<T> {
    /// Further steps are needed.
    Goes,
    /// Nothing changed: another call is to go on first. The same step is taken again.
    Waits,
    /// Further steps are needed, and this value was reclaimed.
    Gave(T),
    /// It is to be asked for the next pair of a walk.
    Ready,
    /// The next pair of a walk. It is to be asked for the one after it.
    Pair(u64),
    /// It is to be told whether this pair is to be kept.
    Asks(u64),
    /// It has ended.
    Done,
    /// It has ended without coming to all pairs.
    Refused(Fault),
}

/// Goes over all places of a map's root: a walk shows its pairs, and the others remove all of them, or those that are not to be
/// kept. In incremental mode, it sees the whole resize through first. One that removes pairs passes what is marked for
/// copying, and then sees that resize through, too, and begins anew. The faults are those of a table that this needs:
/// `Fault::Capacity` and `Fault::Memory`. The pairs that it has removed before a fault are gone, and no other pair has changed.
#[derive(Clone, Copy)]
pub struct Sweep {
    /// What it works with.
    pub setting: Setting,
    /// What it is for.
    pub purpose: Purpose,
    /// The table that it goes over.
    pub table: Table,
    /// The place that it has come to.
    pub place: u64,
    /// Whether it has passed a place that was marked for copying.
    pub met: bool,
    /// Where it stands.
    pub stands: Sweeping,
}

impl Purpose {
    /// Whether pairs are removed.
    fn removes(self) -> bool
        ensures { result ≡ removes self }
    {
        match self {
            Purpose::Walks => false,
            Purpose::Clears | Purpose::Retains => true,
        }
    }
}

impl Sweeping {
    /// How far a sweep is that stands there.
    fn told<T>(self) -> Swept<T>
        ensures { result ≡ told self }
    {
        match self {
            Sweeping::Ready => Swept::Ready,
            Sweeping::Asks { word } => Swept::Asks(word),
            Sweeping::Over => Swept::Done,
            Sweeping::Refused(fault) => Swept::Refused(fault),
            Sweeping::Reads
            | Sweeping::Follows
            | Sweeping::Copies(_)
            | Sweeping::Words
            | Sweeping::Tries { .. }
            | Sweeping::Counts { .. }
            | Sweeping::Disposes(_) => Swept::Goes,
        }
    }
}

impl Sweep {
    /// Shows the pairs of a map, one each time it is asked for the next one.
    pub fn walk(setting: Setting) -> Self
        ensures { result ≡ sweeping setting Walks }
    {
        Sweep::new(setting, Purpose::Walks)
    }

    /// Removes the pairs of a map.
    pub fn clear(setting: Setting) -> Self
        ensures { result ≡ sweeping setting Clears }
    {
        Sweep::new(setting, Purpose::Clears)
    }

    /// Asks for each pair of a map whether it is to be kept, and removes it if it is not.
    pub fn retain(setting: Setting) -> Self
        ensures { result ≡ sweeping setting Retains }
    {
        Sweep::new(setting, Purpose::Retains)
    }

    /// A sweep that has come to no table yet.
    fn new(setting: Setting, purpose: Purpose) -> Self
        ensures { result ≡ sweeping setting purpose }
    {
        let table = Table {
            link: 0,
            len: 0,
            limit: 0,
            turn: 0,
        };
        Sweep {
            setting,
            purpose,
            table,
            place: 0,
            met: false,
            stands: Sweeping::Reads,
        }
    }

    /// Tells how far it is.
    fn tell<T>(self) -> Swept<T>
        ensures { (self, result) ≡ telling self }
    {
        self.stands.told()
    }

    /// Goes on elsewhere.
    fn go_to<T>(&mut self, stands: Sweeping) -> Swept<T>
        ensures { (self.new, result) ≡ going self.old stands }
    {
        self.stands = stands;
        Swept::Goes
    }

    /// Asks a walk that is ready for the next pair. Its next steps come to that pair, or say that there is none. Nothing changes
    /// where it is not ready.
    pub fn next(&mut self)
        ensures { self.new ≡ after_next self.old }
    {
        if let Sweeping::Ready = self.stands {
            self.stands = if self.place < self.table.len {
                Sweeping::Words
            } else {
                Sweeping::Over
            };
        }
    }

    /// Tells whether the pair that it asks for is to be kept. Its next steps go on from there. Nothing changes where it does not
    /// ask.
    pub fn reply(&mut self, keeps: bool)
        ensures { self.new ≡ after_reply self.old keeps }
    {
        if let Sweeping::Asks { word } = self.stands {
            if keeps {
                self.go_on();
            } else {
                self.stands = Sweeping::Tries { word };
            }
        }
    }

    /// Takes one step: at most one operation. The hasher gives the hash of the key of each pair that is copied.
    pub fn step<K: Drop, V: Drop, S: Hashes<K>, M: Memory<Node<K, V>>>(
        &mut self,
        memory: &mut M,
        hasher: &S,
    ) -> Swept<Node<K, V>>
        requires { May M.can M.took M.shown memory.old (sweep_plan (S.hash hasher.now) self.old) }
        ensures { Steps M.took M.shown memory.old (sweep_plan (S.hash hasher.now) self.old) memory.new (self.new, result) }
    {
        match self.stands {
            Sweeping::Reads => self.reads(memory),
            Sweeping::Follows => self.follows(memory),
            Sweeping::Copies(copier) => self.copies(memory, hasher, copier),
            Sweeping::Words => self.words(memory),
            Sweeping::Tries { word } => self.tries(memory, word),
            Sweeping::Counts { removed } => self.counts(memory, removed),
            Sweeping::Disposes(dispose) => self.disposes(memory, dispose),
            Sweeping::Ready | Sweeping::Asks { .. } | Sweeping::Over | Sweeping::Refused(_) =>
                self.tell(),
        }
    }
}
