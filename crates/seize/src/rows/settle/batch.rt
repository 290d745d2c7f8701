//! The slot's batch is held, grows by a block, and is given up.
ghost use Rattle.seize_words.specs.OneMemory.Plan.{May, Steps};
ghost use Rattle.seize.specs.Settle.{sees, holds, pops, firsts, batches, ends, appends, counts, gives};

use crate::rows::settle::{Settle, Settled, Settling};
use crate::states::{BATCH, COUNT, FIRST, HELD, NEXT};
use seize_words::{At, Link, Memory};

impl Settle {
    /// Reads the slot's batch word, and waits where another row holds the batch.
    #[inline(always)]
    pub(super) fn sees<T, M: Memory<T>>(&mut self, memory: &mut M) -> Settled<T>
        requires { May M.can M.took M.shown memory.old (sees self.old) }
        ensures { Steps M.took M.shown memory.old (sees self.old) memory.new (self.new, result) }
    {
        let word = memory.load(At::Slot(self.slot, BATCH));
        if word == HELD {
            return Settled::Waits;
        }
        self.last = word;
        self.stands = Settling::Holds;
        Settled::Goes
    }

    /// Takes hold of the batch.
    #[inline(always)]
    pub(super) fn holds<T, M: Memory<T>>(&mut self, memory: &mut M) -> Settled<T>
        requires { May M.can M.took M.shown memory.old (holds self.old) }
        ensures { Steps M.took M.shown memory.old (holds self.old) memory.new (self.new, result) }
    {
        match memory.exchange(At::Slot(self.slot, BATCH), self.last, HELD) {
            Ok(_) => {
                self.held = true;
                self.go_on();
            }
            Err(_) => {
                self.last = 0;
                self.stands = Settling::Sees;
            }
        }
        Settled::Goes
    }

    /// Takes the first of the pending blocks. Where no batch is open it is the first of one.
    #[inline(always)]
    pub(super) fn pops<T, M: Memory<T>>(&mut self, memory: &mut M) -> Settled<T>
        requires { May M.can M.took M.shown memory.old (pops self.old) }
        ensures { Steps M.took M.shown memory.old (pops self.old) memory.new (self.new, result) }
    {
        let block = self.pending;
        self.pending = memory.load(At::Entry(Link::block_of(block), NEXT));
        if self.last == 0 {
            self.first = block;
            self.stands = Settling::Batches { block };
        } else {
            self.stands = Settling::Firsts { block };
        }
        Settled::Goes
    }

    /// Reads the first block of the open batch.
    #[inline(always)]
    pub(super) fn firsts<T, M: Memory<T>>(&mut self, memory: &mut M, block: u64) -> Settled<T>
        requires { May M.can M.took M.shown memory.old (firsts self.old block) }
        ensures { Steps M.took M.shown memory.old (firsts self.old block) memory.new (self.new, result) }
    {
        self.first = memory.load(At::Entry(Link::block_of(self.last), FIRST));
        if block == 0 {
            self.scan();
        } else {
            self.stands = Settling::Batches { block };
        }
        Settled::Goes
    }

    /// Writes into a block which batch it is of.
    #[inline(always)]
    pub(super) fn batches<T, M: Memory<T>>(&mut self, memory: &mut M, block: u64) -> Settled<T>
        requires { May M.can M.took M.shown memory.old (batches self.old block) }
        ensures { Steps M.took M.shown memory.old (batches self.old block) memory.new (self.new, result) }
    {
        memory.store(At::Entry(Link::block_of(block), FIRST), self.first);
        self.stands = Settling::Ends { block };
        Settled::Goes
    }

    /// Makes a block the end of its batch.
    #[inline(always)]
    pub(super) fn ends<T, M: Memory<T>>(&mut self, memory: &mut M, block: u64) -> Settled<T>
        requires { May M.can M.took M.shown memory.old (ends self.old block) }
        ensures { Steps M.took M.shown memory.old (ends self.old block) memory.new (self.new, result) }
    {
        memory.store(At::Entry(Link::block_of(block), NEXT), 0);
        self.stands = if self.last == 0 {
            Settling::Counts { block }
        } else {
            Settling::Appends { block }
        };
        Settled::Goes
    }

    /// Puts a block behind the last one.
    #[inline(always)]
    pub(super) fn appends<T, M: Memory<T>>(&mut self, memory: &mut M, block: u64) -> Settled<T>
        requires { May M.can M.took M.shown memory.old (appends self.old block) }
        ensures { Steps M.took M.shown memory.old (appends self.old block) memory.new (self.new, result) }
    {
        memory.store(At::Entry(Link::block_of(self.last), NEXT), block);
        self.stands = Settling::Counts { block };
        Settled::Goes
    }

    /// Counts a block into the batch, and tries the batch where it is long enough.
    #[inline(always)]
    pub(super) fn counts<T, M: Memory<T>>(&mut self, memory: &mut M, block: u64) -> Settled<T>
        requires { May M.can M.took M.shown memory.old (counts self.old block) }
        ensures { Steps M.took M.shown memory.old (counts self.old block) memory.new (self.new, result) }
    {
        let count = memory.add(At::Entry(Link::block_of(self.first), COUNT), 1);
        self.last = block;
        if count.wrapping_add(1) < self.batch_size {
            self.go_on();
        } else {
            self.scan();
        }
        Settled::Goes
    }

    /// Gives the batch up.
    #[inline(always)]
    pub(super) fn gives<T, M: Memory<T>>(&mut self, memory: &mut M) -> Settled<T>
        requires { May M.can M.took M.shown memory.old (gives self.old) }
        ensures { Steps M.took M.shown memory.old (gives self.old) memory.new (self.new, result) }
    {
        memory.store(At::Slot(self.slot, BATCH), self.last);
        self.held = false;
        self.stands = Settling::Over;
        Settled::Goes
    }
}
