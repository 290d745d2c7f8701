//! What is promised where all that waits is reclaimed, beside the contract of the call.
ghost use Rattle.std.specs.Prelude.{ℕ, Bool, Option};
ghost use Rattle.seize_acts.specs.Reclaims.Laws.{ReclaimingEnds, ReclaimedInOrder, ListsStay, OneListARoot, ClearingLeavesSetsAndSlots};

/// Wherever it is under way it can come to its end. Then it has given back the values of what the waiting sets reclaim, and those of what was
/// behind the roots. The lists behind these stay until they are reclaimed themselves, and there is one list behind each.
pub fn all_is_reclaimed_in_order<T>()
    ensures ends { (defers : T → Option ℕ) (left_over : T → Bool) (batch_size : ℕ) → ReclaimingEnds T defers left_over batch_size }
    ensures order { (defers : T → Option ℕ) (left_over : T → Bool) (batch_size : ℕ) → ReclaimedInOrder T defers left_over batch_size }
    ensures lists { (defers : T → Option ℕ) (left_over : T → Bool) (batch_size : ℕ) → ListsStay T defers left_over batch_size }
    ensures one { (left_over : T → Bool) → OneListARoot T left_over }
    ensures cleared { ClearingLeavesSetsAndSlots }
{}
