//! What is promised of the calls of many callers on one map.
ghost use Rattle.std.specs.Prelude.{ℕ, Bool};
ghost use Rattle.many_calls.specs.Sweeps.{SweepsBeginTogether, SweepsPreserveTheInvariant, SweepRepliesPreserveTheInvariant, SweepRowsPreserveTheInvariant, WalksStopTogether};
ghost use Rattle.many_calls.specs.Together.{MapBeginsTogether, BeginsTogether, CallsPreserveTheInvariant, RowsPreserveTheInvariant, GuardsPreserveTheInvariant, RepliesPreserveTheInvariant, RoomsBeginTogether, RoomsPreserveTheInvariant, RoomRowsPreserveTheInvariant, CountingsBeginTogether, CountingsPreserveTheInvariant};
ghost use Rattle.map_facts_late.specs.Given.TablesDeclared.setting.Setting.{Setting};

/// The invariant of all holds where a map has no table yet. Callers, any number of them, each within a critical section of its slot, have calls on one key of
/// one map under way, in either mode, and take their steps in any order, those of the collector's rows within the calls among them. Whichever caller takes the
/// next step of its call may take it; the map stands by its rule, and its history is kept; what each caller looks at is there, with its value; each other call
/// still knows what its program point is to know, and a caller that has no call may begin one. A call that answers tells its one change of the map, which was
/// made from one moment to the next since it began, and what it stored is the pair that it was begun with, if with one; or it tells what was so at a moment
/// since then. A call may ask: what it asks was so at such a moment, and it may be told what to do at any later one. It asks about one pair, or where its key
/// is missing: the latter once at most, and not where it was begun with what to store there, and about no pair twice, but where it only chooses whether to
/// remove it. What it changes is what it was told last: it replaces or removes the very pair that it asked about, and what it stores is the key that it was
/// begun with, and the value that it was told for that pair, or for a missing key where there was none. What it leaves so is what it was told last, too: the
/// very pair that it has found, or that there is none, it was told to leave, where a call of its kind asks there; where it does not, it was told nothing. Each
/// answer is one of the call's kind, and so is each refusal: one to remove what is not there comes where the call was told last to remove that, and the map had
/// none of its keys at a moment since it began. A refused call has changed nothing. What a call hands back, which it has not stored, is the pair that it was
/// begun with, if with one. In blocking mode a call may go on in a table that the root has left since it began, and at most 2^32 calls that may write are
/// under way at a time: lookups and countings are not counted. What a row gives back was in a block that no open section held. Who has no call may register,
/// enter, leave, refresh, flush and give up a slot, but for ending a section in which a call is under way.
pub fn calls_stand_together<K, V, Q>()
    ensures starts { (same : K → K → Bool) (hash : K → ℕ) (asks : Q → K → Bool) (setting : Setting) (slot : ℕ → ℕ) → MapBeginsTogether V same hash asks setting slot }
    ensures begins { (same : K → K → Bool) (hash : K → ℕ) (asks : Q → K → Bool) (setting : Setting) (slot : ℕ → ℕ) → BeginsTogether V same hash asks setting slot }
    ensures steps { (same : K → K → Bool) (hash : K → ℕ) (asks : Q → K → Bool) (setting : Setting) (slot : ℕ → ℕ) → CallsPreserveTheInvariant V same hash asks setting slot }
    ensures replies { (same : K → K → Bool) (hash : K → ℕ) (asks : Q → K → Bool) (setting : Setting) (slot : ℕ → ℕ) → RepliesPreserveTheInvariant V same hash asks setting slot }
    ensures rows { (same : K → K → Bool) (hash : K → ℕ) (asks : Q → K → Bool) (setting : Setting) (slot : ℕ → ℕ) → RowsPreserveTheInvariant V same hash asks setting slot }
    ensures guards { (same : K → K → Bool) (hash : K → ℕ) (asks : Q → K → Bool) (setting : Setting) (slot : ℕ → ℕ) → GuardsPreserveTheInvariant V same hash asks setting slot }
{}

/// Reservations stand among them. A caller that has no call may begin one within its section. Whichever caller takes the next step of its reservation may
/// take it, that of a row of the collector within it, too. It changes no pair of the map; the map stands by its rule, and all calls and reservations
/// stand together again, with what each knows. What a row gives back was in a block that no open section held.
pub fn reservations_stand_together<K, V, Q>()
    ensures begins { (same : K → K → Bool) (hash : K → ℕ) (asks : Q → K → Bool) (setting : Setting) (slot : ℕ → ℕ) → RoomsBeginTogether V same hash asks setting slot }
    ensures steps { (same : K → K → Bool) (hash : K → ℕ) (asks : Q → K → Bool) (setting : Setting) (slot : ℕ → ℕ) → RoomsPreserveTheInvariant V same hash asks setting slot }
    ensures rows { (same : K → K → Bool) (hash : K → ℕ) (asks : Q → K → Bool) (setting : Setting) (slot : ℕ → ℕ) → RoomRowsPreserveTheInvariant V same hash asks setting slot }
{}

/// And so do countings of the pairs. A caller that has no call may begin one, outside of any section too, and may take each of its steps: it reads a shard of
/// the counter, changes nothing, never waits, and is never refused.
pub fn countings_stand_together<K, V, Q>()
    ensures begins { (same : K → K → Bool) (hash : K → ℕ) (asks : Q → K → Bool) (setting : Setting) (slot : ℕ → ℕ) → CountingsBeginTogether V same hash asks setting slot }
    ensures steps { (same : K → K → Bool) (hash : K → ℕ) (asks : Q → K → Bool) (setting : Setting) (slot : ℕ → ℕ) → CountingsPreserveTheInvariant V same hash asks setting slot }
{}

/// And so do walks, clearings and retainings. A caller that has no call may begin one within its section, may take each of its steps, those of the rows of the
/// collector within it, too, and may ask it for the next pair, or tell it whether to keep a pair, at any later moment, whatever others did meanwhile. It makes
/// one move at a time at most, and removes no pair that the map has not: a walk removes none, and a retaining just the pair that it was told last not to keep.
/// What it shows, or asks about, the map had at a moment since it began. At its end each pair that the map had at every moment since it came to its table was
/// shown by a walk, or told to be kept by a retaining, and a clearing leaves none; each was shown once at most, and so told to be kept. The invariant of all
/// holds after each step, with what each knows. What a row gives back was in a block that no open section held. A walk that is ready may be given up at any
/// moment.
pub fn sweeps_stand_together<K, V, Q>()
    ensures begins { (same : K → K → Bool) (hash : K → ℕ) (asks : Q → K → Bool) (setting : Setting) (slot : ℕ → ℕ) → SweepsBeginTogether V same hash asks setting slot }
    ensures steps { (same : K → K → Bool) (hash : K → ℕ) (asks : Q → K → Bool) (setting : Setting) (slot : ℕ → ℕ) → SweepsPreserveTheInvariant V same hash asks setting slot }
    ensures told { (same : K → K → Bool) (hash : K → ℕ) (asks : Q → K → Bool) (setting : Setting) (slot : ℕ → ℕ) → SweepRepliesPreserveTheInvariant V same hash asks setting slot }
    ensures rows { (same : K → K → Bool) (hash : K → ℕ) (asks : Q → K → Bool) (setting : Setting) (slot : ℕ → ℕ) → SweepRowsPreserveTheInvariant V same hash asks setting slot }
    ensures stops { (same : K → K → Bool) (hash : K → ℕ) (asks : Q → K → Bool) (setting : Setting) (slot : ℕ → ℕ) → WalksStopTogether V same hash asks setting slot }
{}
