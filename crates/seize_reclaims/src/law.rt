//! What is promised of the rule while one seat alone acts.
ghost use Rattle.std.specs.Prelude.{ℕ, Bool, Option};
ghost use Rattle.seize_reclaims.specs.Renews.One.{OneBegins, OneContinues, OneTurns, OneIsShown, OneEnds, OneEmpties};
ghost use Rattle.seize_reclaims.specs.Renews.Promises.{IdleRenew, RegisteringContinues, ReclaimingContinues, ReclaimingTurns, LookedIsShown, OverIsQuiescent, OverRenews};

/// Where each seat is quiescent, one may act alone, and takes a slot first. It reclaims all: each of its operations on slots may be made, whatever is answered,
/// and a step of its machine that makes none is a turn; what it is about to look at is there, with its value. Each step leaves fewer of them. Where its machine
/// is over no row is under way, nothing is retired, no slot is in use, and none has a batch; and the rule of all holds again, with no seat.
pub fn one_reclaims_all<T>()
    ensures idle { (defers : T → Option ℕ) (left_over : T → Bool) → IdleRenew defers left_over }
    ensures seeks { (defers : T → Option ℕ) (left_over : T → Bool) → RegisteringContinues defers left_over }
    ensures on { (defers : T → Option ℕ) (left_over : T → Bool) → ReclaimingContinues defers left_over }
    ensures turn { (defers : T → Option ℕ) (left_over : T → Bool) → ReclaimingTurns defers left_over }
    ensures looked { (defers : T → Option ℕ) (left_over : T → Bool) → LookedIsShown defers left_over }
    ensures over { (defers : T → Option ℕ) (left_over : T → Bool) → OverIsQuiescent defers left_over }
    ensures renews { (defers : T → Option ℕ) (left_over : T → Bool) → OverRenews defers left_over }
{}

/// By the rule of one seat that acts alone: where each seat that shares the memory has nothing under way, the memory may go under this rule. Each operation of the one that acts may
/// be made, whatever is answered, a step of its machine that makes none is a turn, and what it is about to look at is there. Where its machine is over the
/// memory goes back, and nothing waits in it.
pub fn one_acts_alone<T>()
    ensures begins { (defers : T → Option ℕ) (left_over : T → Bool) → OneBegins defers left_over }
    ensures goes { (defers : T → Option ℕ) (left_over : T → Bool) → OneContinues defers left_over }
    ensures turns { (defers : T → Option ℕ) (left_over : T → Bool) → OneTurns defers left_over }
    ensures shown { (defers : T → Option ℕ) (left_over : T → Bool) → OneIsShown defers left_over }
    ensures ends { (defers : T → Option ℕ) (left_over : T → Bool) → OneEnds defers left_over }
    ensures empties { (defers : T → Option ℕ) (left_over : T → Bool) → OneEmpties defers left_over }
{}
