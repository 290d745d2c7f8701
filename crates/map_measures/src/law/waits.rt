//! What is promised of each step of a call that answers that it waits.
ghost use Rattle.std.specs.Prelude.{ℕ, Bool};
ghost use Rattle.map_tables.specs.declared.setting.Setting.{Setting};
ghost use Rattle.map_measures.specs.Waits.Others.{PairsAreCopiedByCalls, AskersHaveOthers, CallsPreserveEnds, RoomsPreserveEnds, SweepsPreserveEnds};
ghost use Rattle.map_measures.specs.Waits.Promises.{CallsWaitForACopying, RoomsWaitForACopying, SweepsWaitForACopying, LookupsNeverWait, CallRowsWaitForAHolder, RoomRowsWaitForAHolder, SweepRowsWaitForAHolder};

/// Where calls of many callers stand together on one map, a call waits only for a copying. One on one key waits in incremental mode while the pair that
/// it has come to is being copied and is not yet copied, and in blocking mode within its copying of a whole table. A reservation or a sweep waits within
/// such a copying alone, in both modes. In a copying it waits only while the table that it copies into is neither promoted nor given up: at a place whose
/// pair is being copied, or where it has found each place claimed. No lookup waits. What waits stands where it stood.
pub fn calls_wait_only_for_a_copying<K, V, Q>()
    ensures calls { (same : K → K → Bool) (hash : K → ℕ) (asks : Q → K → Bool) (setting : Setting) (slot : ℕ → ℕ) → CallsWaitForACopying V same hash asks setting slot }
    ensures rooms { (same : K → K → Bool) (hash : K → ℕ) (asks : Q → K → Bool) (setting : Setting) (slot : ℕ → ℕ) → RoomsWaitForACopying V same hash asks setting slot }
    ensures sweeps { (same : K → K → Bool) (hash : K → ℕ) → SweepsWaitForACopying V same hash }
    ensures lookups { (same : K → K → Bool) (hash : K → ℕ) (asks : Q → K → Bool) → LookupsNeverWait V same hash asks }
{}

/// A row of the collector within a call waits only while just one row, and that another caller's, has the batch of its slot in hand.
pub fn rows_within_calls_wait_only_for_a_holder<K, V, Q>()
    ensures calls { (same : K → K → Bool) (hash : K → ℕ) (asks : Q → K → Bool) (setting : Setting) (slot : ℕ → ℕ) → CallRowsWaitForAHolder V same hash asks setting slot }
    ensures rooms { (same : K → K → Bool) (hash : K → ℕ) (asks : Q → K → Bool) (setting : Setting) (slot : ℕ → ℕ) → RoomRowsWaitForAHolder V same hash asks setting slot }
    ensures sweeps { (hash : K → ℕ) (slot : ℕ → ℕ) → SweepRowsWaitForAHolder V hash slot }
{}

/// In incremental mode a pair that is being copied, for which calls wait, stands in the root, behind which another table is linked; and a caller that has a call on the map has
/// claimed its place.
pub fn pairs_are_copied_by_calls<K, V, Q>()
    ensures copied { (same : K → K → Bool) (hash : K → ℕ) (asks : Q → K → Bool) (setting : Setting) (slot : ℕ → ℕ) → PairsAreCopiedByCalls V same hash asks setting slot }
{}

/// In incremental mode, let each copying that is not over have a place that is not counted, or a call that is to end it. If the copier within which a call
/// stands has found each place claimed, and asks how the copying stands, which is not over, then another caller has a call that has copied a place and has
/// not counted it, or is to end the copying. After each step of a call on one key, of a reservation or of a sweep, none of a row, each copying that is not
/// over has such a place or call again.
pub fn who_asks_how_a_copying_stands_has_others<K, V, Q>()
    ensures asked { (same : K → K → Bool) (hash : K → ℕ) (asks : Q → K → Bool) (setting : Setting) (slot : ℕ → ℕ) → AskersHaveOthers V same hash asks setting slot }
    ensures calls { (same : K → K → Bool) (hash : K → ℕ) (asks : Q → K → Bool) (setting : Setting) (slot : ℕ → ℕ) → CallsPreserveEnds V same hash asks setting slot }
    ensures rooms { (same : K → K → Bool) (hash : K → ℕ) (asks : Q → K → Bool) (setting : Setting) (slot : ℕ → ℕ) → RoomsPreserveEnds V same hash asks setting slot }
    ensures sweeps { (same : K → K → Bool) (hash : K → ℕ) (asks : Q → K → Bool) (setting : Setting) (slot : ℕ → ℕ) → SweepsPreserveEnds V same hash asks setting slot }
{}
