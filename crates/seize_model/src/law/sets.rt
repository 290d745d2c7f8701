//! What is promised of rows one after another: what they reclaim, and in which order.
ghost use Rattle.std.specs.Prelude.{Option, ℕ, Bool};
ghost use Rattle.seize.specs.Sequence.{RowsFollowTheSets, NewSlotsAreLeast, FurtherWeighLess};
ghost use Rattle.seize_model.specs.Sets.Reclaims.{ReclaimsByCalls, ReclaimsAsTheSetsSay};

/// Callers begin their rows one after another, each row takes its steps until it rests, and users make, link and unlink blocks
/// between them. Then each row reclaims what the waiting sets say of what it does, and in that order, and a slot that is taken is
/// the least that was vacant. A block weighs one, and one more for each that is behind it: what it puts when it is reclaimed weighs
/// together less than it.
pub fn rows_follow_the_sets<T>()
    ensures order { (defers : T → Option ℕ) → RowsFollowTheSets defers }
    ensures slots { (defers : T → Option ℕ) → NewSlotsAreLeast defers }
    ensures weights { (defers : T → Option ℕ) → FurtherWeighLess defers }
{}

/// Everything is reclaimed after any such turns, while nothing else happens. Then what is done with slots is one whole row after
/// another: slots that were given up are taken again and active ones leave, all flush until none has a batch, and all are given up.
/// They reclaim what the waiting sets say, in that order, and leave nothing that waits and no slot in use.
pub fn everything_is_reclaimed_by_rows<T>()
    ensures calls { (defers : T → Option ℕ) (left_over : T → Bool) → ReclaimsByCalls defers left_over }
    ensures sets { (defers : T → Option ℕ) (left_over : T → Bool) → ReclaimsAsTheSetsSay defers left_over }
{}
