//! What is done is counted, and what can't be done is taken back.
ghost use Rattle.std.specs.Prelude.{◌≡◌};
ghost use Rattle.map_tables.specs.Given.SeizeWordsPlan.{May, Steps};
ghost use Rattle.map_machines.specs.CopierCounts.{refusing, given_up, counts, tallies, unmarks, unclaims};

use crate::copier::{Copier, Copying};
use crate::yielding::Yielding;
use map_tables::named::{Fault, Memory};
use map_tables::table_words::{CLAIM, COPIED};
use map_tables::{Node, Table};

impl Copier {
    /// Adds the places done to the count. Where that makes it full, the next table is promoted.
    #[inline(always)]
    pub(super) fn counts<K, V, M: Memory<Node<K, V>>>(
        &mut self,
        memory: &mut M,
    ) -> Yielding<Node<K, V>, Table>
        requires { May M.can M.took M.shown memory.old (counts self.old) }
        ensures { Steps M.took M.shown memory.old (counts self.old) memory.new (self.new, result) }
    {
        let count = memory.add(self.target.word(COPIED), self.done);
        let total = count.wrapping_add(self.done);
        self.done = 0;
        if total == self.source.len {
            self.place = 0;
            self.end = 0;
            self.stands = Copying::Promotes;
        } else {
            self.go_on();
        }
        Yielding::Goes
    }

    /// Goes on where a pair could have no place: what is done is counted first, since a marked place is never counted again.
    #[inline(always)]
    pub(super) fn refuse(&mut self, word: u64, fault: Fault)
        ensures { self.new ≡ refusing self.old word fault }
    {
        self.stands = if self.done == 0 {
            Copying::Unmarks { word, fault }
        } else {
            Copying::Tallies { word, fault }
        };
    }

    /// Adds the places done to the count, which can't be full: the place of the pair is not done.
    #[inline(always)]
    pub(super) fn tallies<K, V, M: Memory<Node<K, V>>>(
        &mut self,
        memory: &mut M,
        word: u64,
        fault: Fault,
    ) -> Yielding<Node<K, V>, Table>
        requires { May M.can M.took M.shown memory.old (tallies self.old word fault) }
        ensures { Steps M.took M.shown memory.old (tallies self.old word fault) memory.new (self.new, result) }
    {
        memory.add(self.target.word(COPIED), self.done);
        self.tallied(word, fault);
        Yielding::Goes
    }

    /// Goes on once they are counted.
    #[inline(always)]
    fn tallied(&mut self, word: u64, fault: Fault)
        ensures { self.new ≡ record self.old { done = 0; stands = Copying.Unmarks word fault } }
    {
        self.done = 0;
        self.stands = Copying::Unmarks { word, fault };
    }

    /// Takes the mark back.
    #[inline(always)]
    pub(super) fn unmarks<K, V, M: Memory<Node<K, V>>>(
        &mut self,
        memory: &mut M,
        word: u64,
        fault: Fault,
    ) -> Yielding<Node<K, V>, Table>
        requires { May M.can M.took M.shown memory.old (unmarks self.old word fault) }
        ensures { Steps M.took M.shown memory.old (unmarks self.old word fault) memory.new (self.new, result) }
    {
        memory.store(self.source.at(self.place), word);
        self.stands = Copying::Unclaims { fault };
        Yielding::Goes
    }

    /// Sets the claim to 0: another caller comes to the place, whose mark is gone.
    #[inline(always)]
    pub(super) fn unclaims<K, V, M: Memory<Node<K, V>>>(
        &mut self,
        memory: &mut M,
        fault: Fault,
    ) -> Yielding<Node<K, V>, Table>
        requires { May M.can M.took M.shown memory.old (unclaims self.old fault) }
        ensures { Steps M.took M.shown memory.old (unclaims self.old fault) memory.new (self.new, result) }
    {
        memory.store(self.target.word(CLAIM), 0);
        self.give_up(fault);
        Yielding::Goes
    }

    /// Ends without its copy.
    #[inline(always)]
    pub(super) fn give_up(&mut self, fault: Fault)
        ensures { self.new ≡ given_up self.old fault }
    {
        self.stands = Copying::Refused(fault);
    }
}
