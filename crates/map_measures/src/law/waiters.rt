//! What is promised of calls that wait for a copying where all pairs are copied at once.
ghost use Rattle.std.specs.Prelude.{ℕ, Bool};
ghost use Rattle.map_tables.specs.declared.setting.Setting.{Setting};
ghost use Rattle.map_measures.specs.Waiters.Blocking.{AskersHaveOthersBlocking, CallsPreserveEndsBlocking, RoomsPreserveEndsBlocking, SweepsPreserveEndsBlocking};

/// In blocking mode, let each copying that is not over have a place that is not counted, or a call that is to end it, and, if a place of it was given up, a call that is to give
/// it up; and let each place be claimed where a copier asks how its copying stands, having found that. If the copier within which a call stands so asks, and the
/// copying is not over, then another caller has a call: it is to copy a place for that table, or has and has not counted it; or it is to end the copying, or to give it up.
/// After each step of a call on one key, of a reservation or of a sweep, none of a row, all that is so again.
pub fn who_waits_for_a_copying_at_once_has_others<K, V, Q>()
    ensures asked { (same : K → K → Bool) (hash : K → ℕ) (asks : Q → K → Bool) (setting : Setting) (slot : ℕ → ℕ) → AskersHaveOthersBlocking V same hash asks setting slot }
    ensures calls { (same : K → K → Bool) (hash : K → ℕ) (asks : Q → K → Bool) (setting : Setting) (slot : ℕ → ℕ) → CallsPreserveEndsBlocking V same hash asks setting slot }
    ensures rooms { (same : K → K → Bool) (hash : K → ℕ) (asks : Q → K → Bool) (setting : Setting) (slot : ℕ → ℕ) → RoomsPreserveEndsBlocking V same hash asks setting slot }
    ensures sweeps { (same : K → K → Bool) (hash : K → ℕ) (asks : Q → K → Bool) (setting : Setting) (slot : ℕ → ℕ) → SweepsPreserveEndsBlocking V same hash asks setting slot }
{}
