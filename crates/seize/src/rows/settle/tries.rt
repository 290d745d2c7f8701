//! A try of the batch: each active slot gets one of its entries, or none does.
ghost use Rattle.seize_words.specs.OneMemory.Plan.{May, Steps};
ghost use Rattle.seize.specs.Settle.{scans, marks_block, marked, closes, reads, links, pushes, pushed_next, sums};

use crate::rows::settle::{Settle, Settled, Settling};
use crate::states::{ACTIVE, COUNT, HEAD, LAST_SLOT, LINK, MOST_LOST, NEVER, NEXT};
use seize_words::{At, Link, Memory};

impl Settle {
    /// Reads the head of a slot. Where more slots are active than the batch has entries the try is given up.
    /// Slots are taken in ascending order, so none was taken behind one that never was.
    #[inline(always)]
    pub(super) fn scans<T, M: Memory<T>>(
        &mut self,
        memory: &mut M,
        slot: u64,
        block: u64,
        marks: u64,
    ) -> Settled<T>
        requires { May M.can M.took M.shown memory.old (scans self.old slot block marks) }
        ensures { Steps M.took M.shown memory.old (scans self.old slot block marks) memory.new (self.new, result) }
    {
        let head = memory.load(At::Slot(slot, HEAD));
        if head == NEVER {
            self.stands = Settling::Closes { marks };
        } else if head < ACTIVE {
            self.stands = Settling::behind(slot, block, marks);
        } else if block == 0 {
            self.go_on();
        } else {
            self.stands = Settling::Marks { slot, block, marks };
        }
        Settled::Goes
    }

    /// Marks a block with an active slot.
    #[inline(always)]
    pub(super) fn marks<T, M: Memory<T>>(
        &mut self,
        memory: &mut M,
        slot: u64,
        block: u64,
        marks: u64,
    ) -> Settled<T>
        requires { May M.can M.took M.shown memory.old (marks_block self.old slot block marks) }
        ensures { Steps M.took M.shown memory.old (marks_block self.old slot block marks) memory.new (self.new, result) }
    {
        memory.store(At::Entry(Link::block_of(block), LINK), slot);
        self.stands = Settling::Marked { slot, block, marks };
        Settled::Goes
    }

    /// Goes on to the next block that can be marked, and the next slot.
    #[inline(always)]
    pub(super) fn marked<T, M: Memory<T>>(
        &mut self,
        memory: &mut M,
        slot: u64,
        block: u64,
        marks: u64,
    ) -> Settled<T>
        requires { May M.can M.took M.shown memory.old (marked self.old slot block marks) }
        ensures { Steps M.took M.shown memory.old (marked self.old slot block marks) memory.new (self.new, result) }
    {
        let next = memory.load(At::Entry(Link::block_of(block), NEXT));
        self.stands = Settling::behind(slot, next, marks.wrapping_add(1));
        Settled::Goes
    }

    /// Closes the batch: each active slot has a mark.
    #[inline(always)]
    pub(super) fn closes<T, M: Memory<T>>(&mut self, memory: &mut M, marks: u64) -> Settled<T>
        requires { May M.can M.took M.shown memory.old (closes self.old marks) }
        ensures { Steps M.took M.shown memory.old (closes self.old marks) memory.new (self.new, result) }
    {
        memory.store(At::Entry(Link::block_of(self.first), COUNT), 0);
        self.last = 0;
        self.stands = if marks == 0 {
            Settling::Sums { pushed: 0 }
        } else {
            Settling::Reads {
                block: self.first,
                left: marks,
                pushed: 0,
            }
        };
        Settled::Goes
    }

    /// Reads the slot that a block is marked with.
    #[inline(always)]
    pub(super) fn reads<T, M: Memory<T>>(
        &mut self,
        memory: &mut M,
        block: u64,
        left: u64,
        pushed: u64,
    ) -> Settled<T>
        requires { May M.can M.took M.shown memory.old (reads self.old block left pushed) }
        ensures { Steps M.took M.shown memory.old (reads self.old block left pushed) memory.new (self.new, result) }
    {
        let slot = memory.load(At::Entry(Link::block_of(block), LINK));
        self.lost = 0;
        self.stands = Settling::Links {
            block,
            left,
            pushed,
            slot,
            head: ACTIVE,
        };
        Settled::Goes
    }

    /// Links a block to the head that it is to follow.
    #[inline(always)]
    pub(super) fn links<T, M: Memory<T>>(
        &mut self,
        memory: &mut M,
        block: u64,
        left: u64,
        pushed: u64,
        slot: u64,
        head: u64,
    ) -> Settled<T>
        requires { May M.can M.took M.shown memory.old (links self.old block left pushed slot head) }
        ensures { Steps M.took M.shown memory.old (links self.old block left pushed slot head) memory.new (self.new, result) }
    {
        memory.store(At::Entry(Link::block_of(block), LINK), head);
        self.stands = Settling::Pushes {
            block,
            left,
            pushed,
            slot,
            head,
        };
        Settled::Goes
    }

    /// Pushes a block on a slot's list. A slot that is no longer active needs none, nor does one whose list has changed as often as there are
    /// numbers of blocks: each change has put a further block on it, so it was taken since the try found the slot active.
    #[inline(always)]
    pub(super) fn pushes<T, M: Memory<T>>(
        &mut self,
        memory: &mut M,
        block: u64,
        left: u64,
        pushed: u64,
        slot: u64,
        head: u64,
    ) -> Settled<T>
        requires { May M.can M.took M.shown memory.old (pushes self.old block left pushed slot head) }
        ensures { Steps M.took M.shown memory.old (pushes self.old block left pushed slot head) memory.new (self.new, result) }
    {
        match memory.exchange(At::Slot(slot, HEAD), head, block) {
            Ok(_) => self.stands = Settling::pushed(block, left, pushed.wrapping_add(1)),
            Err(found) => {
                if found < ACTIVE || self.lost >= MOST_LOST {
                    self.stands = Settling::pushed(block, left, pushed);
                } else {
                    self.lost += 1;
                    self.stands = Settling::Links {
                        block,
                        left,
                        pushed,
                        slot,
                        head: found,
                    };
                }
            }
        }
        Settled::Goes
    }

    /// Goes on to the next block that is to be pushed.
    #[inline(always)]
    pub(super) fn pushed<T, M: Memory<T>>(
        &mut self,
        memory: &mut M,
        block: u64,
        left: u64,
        pushed: u64,
    ) -> Settled<T>
        requires { May M.can M.took M.shown memory.old (pushed_next self.old block left pushed) }
        ensures { Steps M.took M.shown memory.old (pushed_next self.old block left pushed) memory.new (self.new, result) }
    {
        let next = memory.load(At::Entry(Link::block_of(block), NEXT));
        self.stands = Settling::Reads {
            block: next,
            left,
            pushed,
        };
        Settled::Goes
    }

    /// Adds the number of blocks pushed to the counter. Where that makes it 0 each slot has counted down, or none had to.
    #[inline(always)]
    pub(super) fn sums<T, M: Memory<T>>(&mut self, memory: &mut M, pushed: u64) -> Settled<T>
        requires { May M.can M.took M.shown memory.old (sums self.old pushed) }
        ensures { Steps M.took M.shown memory.old (sums self.old pushed) memory.new (self.new, result) }
    {
        let count = memory.add(At::Entry(Link::block_of(self.first), COUNT), pushed);
        if count.wrapping_add(pushed) == 0 {
            self.reclaiming = self.first;
        }
        self.first = 0;
        self.go_on();
        Settled::Goes
    }
}
