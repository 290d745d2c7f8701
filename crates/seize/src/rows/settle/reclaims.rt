//! Lists of entries are counted down, and batches that nobody holds any longer are reclaimed.
ghost use Rattle.seize_words.specs.OneMemory.Plan.{May, Steps};
ghost use Rattle.seize.specs.Settle.{nexts, drains, joins, tails, takes, puts, lists, owns, downs};

use crate::rows::settle::{Settle, Settled, Settling};
use crate::states::{COUNT, FIRST, LINK, NEXT};
use seize_words::{At, Defers, Link, Memory};

impl Settle {
    /// Reads which block comes after the one that is reclaimed, and whether that one holds further values.
    #[inline(always)]
    pub(super) fn nexts<T: Defers, M: Memory<T>>(&mut self, memory: &mut M) -> Settled<T>
        requires { May M.can M.took M.shown memory.old (nexts T.defers self.old) }
        ensures { Steps M.took M.shown memory.old (nexts T.defers self.old) memory.new (self.new, result) }
    {
        let next = memory.load(At::Entry(Link::block_of(self.reclaiming), NEXT));
        self.stands = match memory.value(Link::block_of(self.reclaiming)).deferred() {
            Some(word) => Settling::Drains { next, word },
            None => Settling::Takes { next },
        };
        Settled::Goes
    }

    /// Reads the head of the block's further values.
    #[inline(always)]
    pub(super) fn drains<T, M: Memory<T>>(
        &mut self,
        memory: &mut M,
        next: u64,
        word: u64,
    ) -> Settled<T>
        requires { May M.can M.took M.shown memory.old (drains self.old next word) }
        ensures { Steps M.took M.shown memory.old (drains self.old next word) memory.new (self.new, result) }
    {
        let head = memory.load(At::Word(Link::block_of(self.reclaiming), word));
        if head == 0 {
            self.stands = Settling::Takes { next };
        } else if self.put_first == 0 {
            self.put_first = head;
            self.put_last = head;
            self.stands = Settling::Tails { next };
        } else {
            self.stands = Settling::Joins { next, more: head };
        }
        Settled::Goes
    }

    /// Puts further values behind those that the batch has put so far.
    #[inline(always)]
    pub(super) fn joins<T, M: Memory<T>>(
        &mut self,
        memory: &mut M,
        next: u64,
        more: u64,
    ) -> Settled<T>
        requires { May M.can M.took M.shown memory.old (joins self.old next more) }
        ensures { Steps M.took M.shown memory.old (joins self.old next more) memory.new (self.new, result) }
    {
        memory.store(At::Entry(Link::block_of(self.put_last), NEXT), more);
        self.put_last = more;
        self.stands = Settling::Tails { next };
        Settled::Goes
    }

    /// Goes on to the last of the values put.
    #[inline(always)]
    pub(super) fn tails<T, M: Memory<T>>(&mut self, memory: &mut M, next: u64) -> Settled<T>
        requires { May M.can M.took M.shown memory.old (tails self.old next) }
        ensures { Steps M.took M.shown memory.old (tails self.old next) memory.new (self.new, result) }
    {
        let further = memory.load(At::Entry(Link::block_of(self.put_last), NEXT));
        if further == 0 {
            self.stands = Settling::Takes { next };
        } else {
            self.put_last = further;
            self.stands = Settling::Tails { next };
        }
        Settled::Goes
    }

    /// Reclaims the block. What its batch has put is retired once the batch is over.
    #[inline(always)]
    pub(super) fn takes<T, M: Memory<T>>(&mut self, memory: &mut M, next: u64) -> Settled<T>
        requires { May M.can M.took M.shown memory.old (takes self.old next) }
        ensures { Steps M.took M.shown memory.old (takes self.old next) memory.new (self.new, result) }
    {
        let value = memory.take(Link::block_of(self.reclaiming));
        self.reclaiming = next;
        if next != 0 || self.put_first == 0 {
            self.go_on();
        } else if self.pending == 0 {
            self.retire_put();
        } else {
            self.stands = Settling::Puts;
        }
        Settled::Gave(value)
    }

    /// Puts the pending blocks behind the values that the batch has put.
    #[inline(always)]
    pub(super) fn puts<T, M: Memory<T>>(&mut self, memory: &mut M) -> Settled<T>
        requires { May M.can M.took M.shown memory.old (puts self.old) }
        ensures { Steps M.took M.shown memory.old (puts self.old) memory.new (self.new, result) }
    {
        memory.store(At::Entry(Link::block_of(self.put_last), NEXT), self.pending);
        self.retire_put();
        Settled::Goes
    }

    /// Reads the next entry of the list. After the countdown the entry may be gone.
    #[inline(always)]
    pub(super) fn lists<T, M: Memory<T>>(&mut self, memory: &mut M) -> Settled<T>
        requires { May M.can M.took M.shown memory.old (lists self.old) }
        ensures { Steps M.took M.shown memory.old (lists self.old) memory.new (self.new, result) }
    {
        let next = memory.load(At::Entry(Link::block_of(self.list), LINK));
        self.stands = Settling::Owns { next };
        Settled::Goes
    }

    /// Reads the batch of the list's first entry.
    #[inline(always)]
    pub(super) fn owns<T, M: Memory<T>>(&mut self, memory: &mut M, next: u64) -> Settled<T>
        requires { May M.can M.took M.shown memory.old (owns self.old next) }
        ensures { Steps M.took M.shown memory.old (owns self.old next) memory.new (self.new, result) }
    {
        let batch = memory.load(At::Entry(Link::block_of(self.list), FIRST));
        self.stands = Settling::Downs { next, batch };
        Settled::Goes
    }

    /// Counts a batch down. Where that makes its counter 0 it is reclaimed.
    #[inline(always)]
    pub(super) fn downs<T, M: Memory<T>>(
        &mut self,
        memory: &mut M,
        next: u64,
        batch: u64,
    ) -> Settled<T>
        requires { May M.can M.took M.shown memory.old (downs self.old next batch) }
        ensures { Steps M.took M.shown memory.old (downs self.old next batch) memory.new (self.new, result) }
    {
        let count = memory.add(At::Entry(Link::block_of(batch), COUNT), u64::MAX);
        self.list = next;
        if count == 1 {
            self.reclaiming = batch;
        }
        self.go_on();
        Settled::Goes
    }
}
