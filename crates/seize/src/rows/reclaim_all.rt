//! Everything that waits is reclaimed.
ghost use Rattle.std.specs.Prelude.{◌≡◌};
ghost use Rattle.seize_words.specs.OneMemory.Plan.{May, Steps};
ghost use Rattle.seize.specs.ReclaimAll.{reclaiming_all, clearing, first_root, next_root, first_batch, next_head, next_batch, next_free, reclaim_all_plan};

use crate::machine::StepMachine;
use crate::rows::leave::Leave;
use crate::rows::settle::{Settle, Settled};
use crate::states::LAST_SLOT;
use seize_words::{Defers, LeftOver, Memory};

mod roots;
mod slots;

/// What tells of a value whether a root that names its block holds what was left over there.
pub trait Leftovers<T> {
    ghost use Rattle.std.specs.Prelude.{Bool};

    /// It does.
    ghost left: { T → Bool };

    /// Whether it does.
    fn is_left(value: &T) -> bool
        ensures { result ≡ left value.now };
}

/// Each value tells it itself.
pub(crate) struct ByValue;

impl<T: LeftOver> Leftovers<T> for ByValue {
    ghost left = { T.left_over };

    fn is_left(value: &T) -> bool {
        value.is_left_over()
    }
}

/// Nothing is left over at roots.
pub struct NoneLeft;

impl<T> Leftovers<T> for NoneLeft {
    ghost use Rattle.seize.specs.ReclaimAll.{none_left};

    ghost left = { none_left };

    fn is_left(_value: &T) -> bool {
        false
    }
}

/// Where it stands with reclaiming everything.
#[derive(Clone, Copy)]
pub enum Reclaiming {
    /// Reads the head of a slot.
    Heads { slot: u64 },
    /// Takes a slot again that was given up.
    Retakes { slot: u64 },
    /// Makes an active slot leave.
    Leaves { slot: u64, leave: Leave },
    /// Reads the last block of a slot's open batch.
    Batches { slot: u64 },
    /// Flushes the batch.
    Flushes { slot: u64, settle: Settle },
    /// Gives a slot up.
    Frees { slot: u64 },
    /// Reads the link of a root, and whether it names what was left over.
    Roots { root: u64 },
    /// Reads which block comes after one that was left over.
    Nexts { root: u64, block: u64 },
    /// Reclaims a block that was left over.
    Takes { root: u64, block: u64, next: u64 },
    /// Takes the list that was left over out of its root.
    Empties { root: u64 },
    /// Makes the root free.
    Unuses { root: u64 },
    /// It has ended.
    Over,
}

/// Reclaims everything that waits. No call, no registration and no living guard is there. By ascending slot, each one that
/// was given up is taken again, and each active one leaves; then each slot's batch is flushed, in rounds until one has found
/// none: with no slot active a flush reclaims the batch. Then every slot is given up, and last what was left over at roots is
/// reclaimed, by ascending root.
#[derive(Clone, Copy)]
pub struct ReclaimAll {
    /// The length from which on a batch is tried.
    pub batch_size: u64,
    /// How many roots there are.
    pub roots: u64,
    /// How many slots were ever taken, once their heads are read.
    pub slots: u64,
    /// Whether this round has found a batch.
    pub again: bool,
    /// Where it stands.
    pub stands: Reclaiming,
}

impl ReclaimAll {
    /// Reclaims everything, with a batch size and as many roots.
    pub fn reclaim_all(batch_size: u64, roots: u64) -> Self
        ensures { result ≡ reclaiming_all batch_size roots }
    {
        ReclaimAll {
            batch_size,
            roots,
            slots: 0,
            again: false,
            stands: Reclaiming::Heads { slot: 0 },
        }
    }

    /// Reclaims only what was left over at roots, with as many roots.
    pub fn clearing(roots: u64) -> Self
        ensures { result ≡ clearing roots }
    {
        let mut all = ReclaimAll::reclaim_all(0, roots);
        all.first_root();
        all
    }

    /// Goes on with the slot behind one, if there is one.
    fn next_head(&mut self, slot: u64)
        ensures { self.new ≡ next_head self.old slot }
    {
        if slot < LAST_SLOT {
            self.stands = Reclaiming::Heads { slot: slot + 1 };
        } else {
            self.slots = LAST_SLOT + 1;
            self.first_batch();
        }
    }

    /// Goes on with the batches, if a slot was ever taken.
    fn first_batch(&mut self)
        ensures { self.new ≡ first_batch self.old }
    {
        if self.slots == 0 {
            self.first_root();
        } else {
            self.stands = Reclaiming::Batches { slot: 0 };
        }
    }

    /// Goes on with the batch of the slot behind one. A round that has found a batch is followed by another.
    fn next_batch(&mut self, slot: u64)
        ensures { self.new ≡ next_batch self.old slot }
    {
        if slot < self.slots.saturating_sub(1) {
            self.stands = Reclaiming::Batches { slot: slot + 1 };
        } else if self.again {
            self.again = false;
            self.stands = Reclaiming::Batches { slot: 0 };
        } else {
            self.stands = Reclaiming::Frees { slot: 0 };
        }
    }

    /// Goes on with giving up the slot behind one, if there is one.
    fn next_free(&mut self, slot: u64)
        ensures { self.new ≡ next_free self.old slot }
    {
        if slot < self.slots.saturating_sub(1) {
            self.stands = Reclaiming::Frees { slot: slot + 1 };
        } else {
            self.first_root();
        }
    }

    /// Goes on with the roots, if there are any.
    fn first_root(&mut self)
        ensures { self.new ≡ first_root self.old }
    {
        self.stands = if self.roots == 0 {
            Reclaiming::Over
        } else {
            Reclaiming::Roots { root: 0 }
        };
    }

    /// Goes on with the root behind one, if there is one.
    fn next_root(&mut self, root: u64)
        ensures { self.new ≡ next_root self.old root }
    {
        self.stands = if root < self.roots.saturating_sub(1) {
            Reclaiming::Roots { root: root + 1 }
        } else {
            Reclaiming::Over
        };
    }
}

impl ReclaimAll {
    /// Returns one step, where this tells what was left over at roots.
    pub fn step_by<T: Defers, L: Leftovers<T>, M: Memory<T>>(
        &mut self,
        memory: &mut M,
    ) -> Settled<T>
        requires { May M.can M.took M.shown memory.old (reclaim_all_plan T.defers L.left self.old) }
        ensures { Steps M.took M.shown memory.old (reclaim_all_plan T.defers L.left self.old) memory.new (self.new, result) }
    {
        match self.stands {
            Reclaiming::Heads { slot } => self.heads(memory, slot),
            Reclaiming::Retakes { slot } => self.retakes(memory, slot),
            Reclaiming::Leaves { .. } => self.leaves(memory),
            Reclaiming::Batches { slot } => self.batches(memory, slot),
            Reclaiming::Flushes { .. } => self.flushes(memory),
            Reclaiming::Frees { slot } => self.frees(memory, slot),
            Reclaiming::Roots { root } => self.roots::<T, L, M>(memory, root),
            Reclaiming::Nexts { root, block } => self.nexts(memory, root, block),
            Reclaiming::Takes { root, block, next } => self.takes(memory, root, block, next),
            Reclaiming::Empties { root } => self.empties(memory, root),
            Reclaiming::Unuses { root } => self.unuses(memory, root),
            Reclaiming::Over => Settled::Done,
        }
    }
}

impl<T: Defers + LeftOver> StepMachine<T> for ReclaimAll {
    type Progress = Settled<T>;

    ghost plan = { reclaim_all_plan T.defers T.left_over };

    fn step<M: Memory<T>>(&mut self, memory: &mut M) -> Settled<T> {
        self.step_by::<T, ByValue, M>(memory)
    }
}
