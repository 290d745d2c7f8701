//! What is promised of a caller that reclaims all that waits, whatever others did before it.
ghost use Rattle.std.specs.Prelude.{ℕ, Bool, Option};
ghost use Rattle.seize_acts.specs.Quiet.Promises.{SlotsBegin, SlotsLead, NothingWaits, SlotsEnd};

/// While no other row is under way a caller gives up all slots: it takes those again that were given up, leaves those that are active, flushes each until none
/// has a batch, and gives all up. It may take each step of that, whatever the memory answers, and never waits; a step is one of a row on slots, as any caller
/// may make it, or begins such a row, and hands out a value at most, of a block that was retired. It ends within a number of steps; then no block is retired, no
/// slot is in use, and none has a batch.
pub fn slots_are_given_up<T>()
    ensures begins { (defers : T → Option ℕ) → SlotsBegin defers }
    ensures leads { (defers : T → Option ℕ) (left_over : T → Bool) → SlotsLead defers left_over }
    ensures nothing { (defers : T → Option ℕ) → NothingWaits defers }
    ensures ends { (defers : T → Option ℕ) (left_over : T → Bool) → SlotsEnd defers left_over }
{}
