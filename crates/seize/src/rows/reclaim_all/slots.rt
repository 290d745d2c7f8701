//! Each slot is taken and leaves, each batch is flushed, and each slot is given up.
ghost use Rattle.std.specs.Prelude.{◌≡◌, ℕ, Bool, true};
ghost use Rattle.seize_words.specs.OneMemory.Plan.{May, Steps};
ghost use Rattle.seize.specs.ReclaimAll.{standing, next_head, next_batch, within, heads, retakes, batches, frees, reclaim_all_plan};
ghost use Rattle.seize.specs.declared.rows.reclaim_all.Reclaiming.TheVariants as at;

use crate::machine::StepMachine;
use crate::rows::enter::Unregister;
use crate::rows::leave::Leave;
use crate::rows::reclaim_all::{ReclaimAll, Reclaiming};
use crate::rows::settle::{Settle, Settled};
use crate::states::{ACTIVE, BATCH, FREE, HEAD, IDLE, NEVER};
use seize_words::{At, Defers, Memory};

impl ReclaimAll {
    /// Reads the head of a slot. The first one that was never taken ends the slots. One that was given up is taken again, and an
    /// active one leaves: the guard that kept it active was forgotten.
    pub(super) fn heads<T, M: Memory<T>>(&mut self, memory: &mut M, slot: u64) -> Settled<T>
        requires { May M.can M.took M.shown memory.old (heads self.old slot) }
        ensures { Steps M.took M.shown memory.old (heads self.old slot) memory.new (self.new, result) }
    {
        let head = memory.load(At::Slot(slot, HEAD));
        if head == NEVER {
            self.slots = slot;
            self.first_batch();
        } else if head == FREE {
            self.stands = Reclaiming::Retakes { slot };
        } else if head < ACTIVE {
            self.next_head(slot);
        } else {
            self.stands = Reclaiming::Leaves {
                slot,
                leave: Leave::leave(slot, self.batch_size),
            };
        }
        Settled::Goes
    }

    /// Takes a slot again that was given up: a batch is flushed by a slot that is taken.
    pub(super) fn retakes<T, M: Memory<T>>(&mut self, memory: &mut M, slot: u64) -> Settled<T>
        requires { May M.can M.took M.shown memory.old (retakes self.old slot) }
        ensures { Steps M.took M.shown memory.old (retakes self.old slot) memory.new (self.new, result) }
    {
        memory.store(At::Slot(slot, HEAD), IDLE);
        self.next_head(slot);
        Settled::Goes
    }

    /// Takes a step of the leaving of a slot, where it stands.
    pub(super) fn leaves<T: Defers, M: Memory<T>>(&mut self, memory: &mut M) -> Settled<T>
        requires leaving { (slot : ℕ) × (leave : Leave) × (self.old.stands ≡ at.Leaves slot leave) }
        requires may { (left_over : T → Bool) × May M.can M.took M.shown memory.old (reclaim_all_plan T.defers left_over self.old) }
        ensures { (left_over : T → Bool) → Steps M.took M.shown memory.old (reclaim_all_plan T.defers left_over self.old) memory.new (self.new, result) }
    {
        let Reclaiming::Leaves { slot, leave } = &mut self.stands else {
            unreachable!()
        };
        let slot = *slot;
        let progress = leave.step(memory);
        self.left(slot, progress)
    }

    /// Goes on after a step of the leaving.
    fn left<T>(&mut self, slot: u64, progress: Settled<T>) -> Settled<T>
        ensures { (begun : ReclaimAll) (leave : Leave) → self.old ≡ standing begun (at.Leaves slot leave)
            → (self.new, result) ≡ within (λ row. standing begun (at.Leaves slot row)) (next_head begun slot) (leave, progress) }
    {
        match progress {
            Settled::Goes => Settled::Goes,
            Settled::Waits => Settled::Waits,
            Settled::Gave(value) => Settled::Gave(value),
            Settled::Done => {
                self.next_head(slot);
                Settled::Goes
            }
        }
    }

    /// Reads the last block of a slot's open batch.
    pub(super) fn batches<T, M: Memory<T>>(&mut self, memory: &mut M, slot: u64) -> Settled<T>
        requires { May M.can M.took M.shown memory.old (batches self.old slot) }
        ensures { Steps M.took M.shown memory.old (batches self.old slot) memory.new (self.new, result) }
    {
        let last = memory.load(At::Slot(slot, BATCH));
        if last == 0 {
            self.next_batch(slot);
        } else {
            self.stands = Reclaiming::Flushes {
                slot,
                settle: Settle::flush(slot, self.batch_size),
            };
        }
        Settled::Goes
    }

    /// Takes a step of the flush of a batch, where it stands.
    pub(super) fn flushes<T: Defers, M: Memory<T>>(&mut self, memory: &mut M) -> Settled<T>
        requires flushing { (slot : ℕ) × (settle : Settle) × (self.old.stands ≡ at.Flushes slot settle) }
        requires may { (left_over : T → Bool) × May M.can M.took M.shown memory.old (reclaim_all_plan T.defers left_over self.old) }
        ensures { (left_over : T → Bool) → Steps M.took M.shown memory.old (reclaim_all_plan T.defers left_over self.old) memory.new (self.new, result) }
    {
        let Reclaiming::Flushes { slot, settle } = &mut self.stands else {
            unreachable!()
        };
        let slot = *slot;
        let progress = settle.step(memory);
        self.flushed(slot, progress)
    }

    /// Goes on after a step of the flush: behind it another round is needed.
    fn flushed<T>(&mut self, slot: u64, progress: Settled<T>) -> Settled<T>
        ensures { (begun : ReclaimAll) (settle : Settle) → self.old ≡ standing begun (at.Flushes slot settle)
            → (self.new, result) ≡ within (λ row. standing begun (at.Flushes slot row)) (next_batch (record begun { again = true }) slot) (settle, progress) }
    {
        match progress {
            Settled::Goes => Settled::Goes,
            Settled::Waits => Settled::Waits,
            Settled::Gave(value) => Settled::Gave(value),
            Settled::Done => {
                self.again = true;
                self.next_batch(slot);
                Settled::Goes
            }
        }
    }

    /// Gives a slot up.
    #[tactic(auto, using(seize_words::proofs::OneMemory::Plans::may_as, seize_words::proofs::OneMemory::Plans::steps_as))]
    pub(super) fn frees<T, M: Memory<T>>(&mut self, memory: &mut M, slot: u64) -> Settled<T>
        requires { May M.can M.took M.shown memory.old (frees self.old slot) }
        ensures { Steps M.took M.shown memory.old (frees self.old slot) memory.new (self.new, result) }
    {
        Unregister { slot }.step(memory);
        self.next_free(slot);
        Settled::Goes
    }
}
