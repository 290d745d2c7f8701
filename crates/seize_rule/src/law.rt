//! What is promised of reclamation, whoever takes a step when.
ghost use Rattle.std.specs.Prelude.{Option, ℕ, Bool};
ghost use Rattle.seize_moves.specs.Given.SeizeWorld.{RowsAreSound, RowsMayStep, GarbageIsBounded};

/// Any number of callers register, enter, retire, defer, flush, leave and refresh, one operation after another in any order, and users make, link and unlink
/// blocks meanwhile, and take blocks away as what they are of ends. A block is retired once and only while it can't be reached; it is reclaimed once, after
/// that, and only when no critical section that could reach it is open, and what it is of has not ended. And no row asks for a word that isn't there. Where all
/// is quiescent, what is retired and not yet reclaimed is bounded by the numbers of slots and of blocks in a batch.
pub fn rows_are_sound<T>()
    ensures sound { (defers : T → Option ℕ) → RowsAreSound defers }
    ensures steps { (defers : T → Option ℕ) → RowsMayStep defers }
    ensures bound { (defers : T → Option ℕ) → GarbageIsBounded defers }
{}
