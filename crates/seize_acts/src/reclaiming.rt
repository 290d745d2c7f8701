//! Everything that waits is reclaimed, over a memory that has one owner.
ghost use Rattle.std.specs.Prelude.{◌≡◌, ◌≢◌, ℕ, ◌<◌, ◌≤◌, List, [], IsSome, None, false};
ghost use Rattle.seize_words.specs.OneMemory.Mem.{Mem, word_at};
ghost use Rattle.seize_words.specs.declared.at.At.TheVariants.{Slot};
ghost use Rattle.seize.specs.declared.states.TheConstants.{HEAD};
ghost use Rattle.seize.specs.declared.rows.reclaim_all.Reclaiming.TheVariants.{Flushes};
ghost use Rattle.seize.specs.declared.rows.settle.Settle.{Settle};
ghost use Rattle.seize.specs.World.{Vacant, Flush, Settles};
ghost use Rattle.seize_model.specs.Alone.Alone.{History, IsMidway, blocks_in, given_back};
ghost use Rattle.seize_acts.specs.Reclaims.AllReclaimed.{IsReclaiming, MayReclaimAll, ReclaimsOn, RowEnds, is_flushing, is_within, sets_in, weight_at};

use seize::StepMachine;
use seize::rows::{Defers, LeftOver, ReclaimAll, Reclaiming, Settled};
use seize_words::Plain;

/// Reclaims everything that waits, and gives every slot up, while no call is under way and no guard lives. By ascending slot, each
/// active one leaves; then each slot's batch is flushed, in rounds until none is left. Last comes what was left over at the roots, by
/// ascending root, and those roots are free then. A root whose value says that its map lives is left alone.
#[derive(Clone, Copy)]
pub struct ReclaimingAll {
    /// Where it stands.
    pub all: ReclaimAll,
}

impl ReclaimingAll {
    /// Begins with the slots, where one was ever taken.
    pub fn new<T: Defers + LeftOver>(_memory: &Plain<T>, batch_size: u64, roots: u64) -> Self
        ensures { (h : History) (lists : ℕ → List ℕ) → MayReclaimAll T.defers T.left_over batch_size roots _memory.now h lists → IsSome (word_at _memory.now (Slot 0 HEAD))
            → IsReclaiming T.defers T.left_over batch_size roots _memory.now h lists result.all _memory.now [] }
    {
        ReclaimingAll {
            all: ReclaimAll::reclaim_all(batch_size, roots),
        }
    }

    /// Begins with the roots, where no slot is in use and none has a batch.
    pub fn of_roots<T: Defers + LeftOver>(_memory: &Plain<T>, roots: u64) -> Self
        ensures { (batch_size : ℕ) (h : History) (lists : ℕ → List ℕ) → MayReclaimAll T.defers T.left_over batch_size roots _memory.now h lists → ((s : ℕ) → h.uses s ≡ Vacant)
            → ((s : ℕ) → (sets_in batch_size h).open_batch s ≡ []) → IsReclaiming T.defers T.left_over batch_size roots _memory.now h lists result.all _memory.now [] }
    {
        ReclaimingAll {
            all: ReclaimAll::clearing(roots),
        }
    }

    /// Goes on until a value is reclaimed, and answers it, or until all is.
    pub fn next<T: Defers + LeftOver>(&mut self, memory: &mut Plain<T>) -> Option<T>
        requires { (batch_size : ℕ) × (roots : ℕ) × (m : Mem T) × (h : History) × (lists : ℕ → List ℕ) × (given : List T) × IsReclaiming T.defers T.left_over batch_size roots m h lists self.old.all memory.old given }
        ensures fewer { IsSome result → blocks_in memory.new < blocks_in memory.old }
        ensures goes { (batch_size roots : ℕ) (m : Mem T) (h : History) (lists : ℕ → List ℕ) (given : List T) → IsReclaiming T.defers T.left_over batch_size roots m h lists self.old.all memory.old given
            → ReclaimsOn T.defers T.left_over batch_size roots m h lists given self.new.all memory.new result }
    {
        if let Some(value) = self.finish_row(memory) {
            return Some(value);
        }
        'points: loop {
            match self.all.step(memory) {
                Settled::Goes | Settled::Waits => {}
                Settled::Gave(value) => return Some(value),
                Settled::Done => return None,
            }
            if let Some(value) = self.finish_row(memory) {
                return Some(value);
            }
        }
    }

    /// Goes on with the row under way, if there is one, until it reclaims a value or has ended.
    fn finish_row<T: Defers + LeftOver>(&mut self, memory: &mut Plain<T>) -> Option<T>
        requires { (batch_size : ℕ) × (roots : ℕ) × (m : Mem T) × (h : History) × (lists : ℕ → List ℕ) × (given : List T) × IsReclaiming T.defers T.left_over batch_size roots m h lists self.old.all memory.old given }
        ensures fewer { IsSome result → blocks_in memory.new < blocks_in memory.old }
        ensures no_more { blocks_in memory.new ≤ blocks_in memory.old }
        ensures goes { (batch_size roots : ℕ) (m : Mem T) (h : History) (lists : ℕ → List ℕ) (given : List T) → IsReclaiming T.defers T.left_over batch_size roots m h lists self.old.all memory.old given
            → RowEnds T.defers T.left_over batch_size roots m h lists given self.new.all memory.new result }
        ensures less { result ≡ None → is_flushing self.old.all.stands ≡ false → weight_at self.new.all self.new.all.stands ≤ weight_at self.old.all self.old.all.stands }
        ensures gives { (batch_size roots : ℕ) (m : Mem T) (h : History) (s : ℕ) (settle : Settle) → self.old.all.stands ≡ Flushes s settle
            → IsMidway T.defers batch_size roots m h (Flush s) (Settles settle) memory.old [] → given_back batch_size (Flush s) h ≢ [] → result ≢ None }
    {
        'steps: while self.is_within() {
            match self.all.step(memory) {
                Settled::Goes | Settled::Waits => {}
                Settled::Gave(value) => return Some(value),
                Settled::Done => unreachable!(),
            }
        }
        None
    }

    /// Whether a row is under way.
    fn is_within(&self) -> bool
        ensures { result ≡ is_within self.now.all.stands }
    {
        matches!(
            self.all.stands,
            Reclaiming::Leaves { .. } | Reclaiming::Flushes { .. }
        )
    }
}
