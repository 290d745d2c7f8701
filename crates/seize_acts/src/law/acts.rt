//! What is promised of every list of acts, whoever makes which one when.
ghost use Rattle.std.specs.Prelude.{Option, ℕ};
ghost use Rattle.seize_acts.specs.Acts.Laws.{ActsAreSound, ActsMayStep, StepsAreActs, SlotsAreFirst, NothingIsLost, ActsAreBounded};
ghost use Rattle.seize_acts.specs.Acts.Ends.{LoneRowsEnd, RowsRestOrWait, RowsFall};
ghost use Rattle.seize_acts.specs.Acts.Reclaimed.{EverythingCanBeReclaimed};
ghost use Rattle.seize_acts.specs.Acts.Refused.{UsedUpIfAllAreHad, NoMemoryIfNoRoom, OnlyTwoFaults};
ghost use Rattle.seize_acts.specs.Acts.Stays.{HeldAreThere, HeldStay};
ghost use Rattle.seize_acts.specs.Acts.Waits.{RowsWaitForAHolder, SettlingWaitsForAHolder, DeferringNeverWaits};

/// Any number of callers make acts, one after another in any order: each is one operation on the memory, of a row of the collector or of a user, and determines
/// the world after it. A block is retired once and only while it can't be reached; it is reclaimed once, after that, and only when no critical section that
/// could reach it is open, and what it is of has not ended. No row asks for a word that isn't there, and no step that a row can take is left out. The slots
/// taken at some time are the first ones, and where all is quiescent what is retired and not yet reclaimed is bounded by their number.
pub fn acts_are_sound<T>()
    ensures sound { (defers : T → Option ℕ) → ActsAreSound defers }
    ensures may { (defers : T → Option ℕ) → ActsMayStep defers }
    ensures all { (defers : T → Option ℕ) → StepsAreActs defers }
    ensures slots { (defers : T → Option ℕ) → SlotsAreFirst defers }
    ensures bound { (defers : T → Option ℕ) → ActsAreBounded defers }
{}

/// Nothing that was handed to the collector is lost, after any acts: where no row is under way, each such block is retired and not yet
/// reclaimed, or it waits behind a block that is there.
pub fn nothing_is_lost<T>()
    ensures at_rest { (defers : T → Option ℕ) → NothingIsLost defers }
{}

/// What a critical section holds is there, after any acts: a block that could be reached since the section began, or was retired within it,
/// unless it was taken away after its owner had ended. Until the section or the owner ends it stays, with its value, and no other block
/// gets its number.
pub fn held_blocks_stay<T>()
    ensures there { (defers : T → Option ℕ) → HeldAreThere defers }
    ensures stay { (defers : T → Option ℕ) → HeldStay defers }
{}

/// A row waits only where it retires, flushes, refreshes or leaves, and only while just one row, and that another one, has the batch of
/// its slot in hand. So it is in every world that came about from the start, also with a row that is about to begin. One that defers never waits.
pub fn rows_wait_only_for_a_holder<T>()
    ensures waits { (defers : T → Option ℕ) → RowsWaitForAHolder defers }
    ensures settles { (defers : T → Option ℕ) → SettlingWaitsForAHolder defers }
    ensures defers { (defers : T → Option ℕ) → DeferringNeverWaits defers }
{}

/// A row is refused only where it registers, and only for one of two reasons. There is no slot left: then each of the 65,536 was somebody's at
/// some time since the row began. Or there is no memory: then the memory said so as the row asked it for the words of a bucket that was not
/// there.
pub fn registrations_are_refused_for_a_reason<T>()
    ensures faults { (defers : T → Option ℕ) → OnlyTwoFaults defers }
    ensures used_up { (defers : T → Option ℕ) → UsedUpIfAllAreHad defers }
    ensures no_memory { (defers : T → Option ℕ) → NoMemoryIfNoRoom defers }
{}

/// A row that is alone under way terminates, after any acts: it has a next step until then, and rests after so many of them, whatever the memory chooses.
pub fn lone_rows_end<T>()
    ensures ends { (defers : T → Option ℕ) → LoneRowsEnd defers }
{}

/// While nobody else steps, a row comes to its end by its own steps, or to one that waits, whatever rows others have stopped in the midst of. Each
/// step that does not wait lowers a number of the row and the memory, whatever others have done before it.
pub fn rows_rest_or_wait<T>()
    ensures rests { (defers : T → Option ℕ) → RowsRestOrWait defers }
    ensures falls { (defers : T → Option ℕ) → RowsFall defers }
{}

/// Everything can be reclaimed, after any acts at whose end no row is under way: any caller can do so, by whole rows that take slots again,
/// leave them, where a section is open still, flush them and give them up. Then no block is retired, no slot is in use or has a batch, and
/// what the collector still has is put behind a block that is there.
pub fn everything_can_be_reclaimed<T>()
    ensures ends { (defers : T → Option ℕ) → EverythingCanBeReclaimed defers }
{}
