//! What was left over at roots is reclaimed.
ghost use Rattle.seize_words.specs.OneMemory.Plan.{May, Steps};
ghost use Rattle.seize.specs.ReclaimAll.{roots, nexts, takes, empties, unuses};

use crate::rows::reclaim_all::{Leftovers, ReclaimAll, Reclaiming};
use crate::rows::settle::Settled;
use crate::states::NEXT;
use seize_words::{At, Link, Memory};

impl ReclaimAll {
    /// Reads the link of a root, and whether it names what was left over.
    pub(super) fn roots<T, L: Leftovers<T>, M: Memory<T>>(
        &mut self,
        memory: &mut M,
        root: u64,
    ) -> Settled<T>
        requires { May M.can M.took M.shown memory.old (roots L.left self.old root) }
        ensures { Steps M.took M.shown memory.old (roots L.left self.old root) memory.new (self.new, result) }
    {
        let block = memory.load(At::Root(root));
        if block == 0 {
            self.next_root(root);
        } else if L::is_left(memory.value(Link::block_of(block))) {
            self.stands = Reclaiming::Nexts { root, block };
        } else {
            self.next_root(root);
        }
        Settled::Goes
    }

    /// Reads which block comes after one that was left over.
    pub(super) fn nexts<T, M: Memory<T>>(
        &mut self,
        memory: &mut M,
        root: u64,
        block: u64,
    ) -> Settled<T>
        requires { May M.can M.took M.shown memory.old (nexts self.old root block) }
        ensures { Steps M.took M.shown memory.old (nexts self.old root block) memory.new (self.new, result) }
    {
        let next = memory.load(At::Entry(Link::block_of(block), NEXT));
        self.stands = Reclaiming::Takes { root, block, next };
        Settled::Goes
    }

    /// Reclaims a block that was left over.
    pub(super) fn takes<T, M: Memory<T>>(
        &mut self,
        memory: &mut M,
        root: u64,
        block: u64,
        next: u64,
    ) -> Settled<T>
        requires { May M.can M.took M.shown memory.old (takes self.old root block next) }
        ensures { Steps M.took M.shown memory.old (takes self.old root block next) memory.new (self.new, result) }
    {
        let value = memory.take(Link::block_of(block));
        self.stands = if next == 0 {
            Reclaiming::Empties { root }
        } else {
            Reclaiming::Nexts { root, block: next }
        };
        Settled::Gave(value)
    }

    /// Takes the list that was left over out of its root.
    pub(super) fn empties<T, M: Memory<T>>(&mut self, memory: &mut M, root: u64) -> Settled<T>
        requires { May M.can M.took M.shown memory.old (empties self.old root) }
        ensures { Steps M.took M.shown memory.old (empties self.old root) memory.new (self.new, result) }
    {
        memory.store(At::Root(root), 0);
        self.stands = Reclaiming::Unuses { root };
        Settled::Goes
    }

    /// Makes the root free.
    pub(super) fn unuses<T, M: Memory<T>>(&mut self, memory: &mut M, root: u64) -> Settled<T>
        requires { May M.can M.took M.shown memory.old (unuses self.old root) }
        ensures { Steps M.took M.shown memory.old (unuses self.old root) memory.new (self.new, result) }
    {
        memory.store(At::Used(root), 0);
        self.next_root(root);
        Settled::Goes
    }
}
