//! The places of a table, one after another: what the word of each says.
ghost use Rattle.std.specs.Prelude.{◌≡◌};
ghost use Rattle.map_sweeps.specs.Sweeps.Sweep.{words};
ghost use Rattle.map_sweeps.specs.Sweeps.SweepPoints.{past, further, at_pair, seen};
ghost use Rattle.map_machines.specs.Given.SeizeWordsPlan.{May, Steps};

use crate::named_reserves::marks::{COPYING, has};
use crate::named_reserves::{Link, Memory};
use crate::sweep::{Purpose, Sweep, Sweeping, Swept};

impl Sweep {
    /// Has its place behind it.
    fn pass(&mut self)
        ensures { self.new ≡ past self.old }
    {
        self.place = self.place.wrapping_add(1);
    }

    /// Goes on with the next place. Behind the last one it ends, or begins anew once the pairs are copied that it has passed.
    pub(super) fn go_on(&mut self)
        ensures { self.new ≡ further self.old }
    {
        self.pass();
        self.stands = if self.place < self.table.len {
            Sweeping::Words
        } else if self.purpose.removes() && self.met {
            Sweeping::Follows
        } else {
            Sweeping::Over
        };
    }

    /// Reads the word of its place.
    pub(super) fn words<T, M: Memory<T>>(&mut self, memory: &mut M) -> Swept<T>
        requires { May M.can M.took M.shown memory.old (words self.old) }
        ensures { Steps M.took M.shown memory.old (words self.old) memory.new (self.new, result) }
    {
        let word = memory.load(self.table.at(self.place));
        self.see(word)
    }

    /// Goes on by what the word of its place says. A marked one is passed where pairs are removed, and remembered.
    pub(super) fn see<T>(&mut self, word: u64) -> Swept<T>
        ensures { (self.new, result) ≡ seen self.old word }
    {
        if self.purpose.removes() && has(word, COPYING) {
            self.met = true;
            self.go_on();
            self.tell()
        } else if Link::block_of(word) == 0 {
            self.go_on();
            self.tell()
        } else {
            self.find(word)
        }
    }

    /// Comes to a pair.
    fn find<T>(&mut self, word: u64) -> Swept<T>
        ensures { (self.new, result) ≡ at_pair self.old.purpose self.old word }
    {
        match self.purpose {
            Purpose::Walks => {
                self.pass();
                self.stands = Sweeping::Ready;
                Swept::Pair(word)
            }
            Purpose::Clears => self.go_to(Sweeping::Tries { word }),
            Purpose::Retains => {
                self.stands = Sweeping::Asks { word };
                Swept::Asks(word)
            }
        }
    }
}
