//! What is promised of the rule of a memory of maps while one seat alone acts.
ghost use Rattle.std.specs.Prelude.{ℕ, Bool};
ghost use Rattle.threads_reclaims.specs.Reclaims.Promises.{OneBegins, OneEnds, OneEmpties};

/// Where each seat has nothing under way, one may have the memory to himself, and where he has reclaimed all, the memory goes back: each seat knows what it knew,
/// but of slots, which are free; and nothing waits in it.
pub fn one_reclaims_maps<K, V, S>()
    ensures begins { (same : K → K → Bool) (hash : S → K → ℕ) → OneBegins V same hash }
    ensures ends { (same : K → K → Bool) (hash : S → K → ℕ) → OneEnds V same hash }
    ensures empties { (same : K → K → Bool) (hash : S → K → ℕ) → OneEmpties V same hash }
{}
