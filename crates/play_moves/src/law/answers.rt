//! What is promised of the history of a memory that threads share, and of what they are answered.
ghost use Rattle.std.specs.Prelude.{ℕ, Bool};
ghost use Rattle.run_schedules.specs.Schedules.Terms.{Terms};
ghost use Rattle.play_moves.specs.OneHistory.Legal.{HistoriesAreLegal, HistoriesKeepAll};
ghost use Rattle.play_moves.specs.OneHistory.Answered.{SeatsAreAnswered};
ghost use Rattle.play_moves.specs.OneHistory.Lookups.{LookupsWereSo};
ghost use Rattle.play_moves.specs.OneHistory.Order.{CallsAreInOrder};

/// Whatever threads have done by the rule of maps, between any two steps the list of that is played to a history of which each entry is linearizable, and reclaims nothing
/// that an open section may look at. Where all makings ask for one number of shards, and for places that a capacity without a fault asks for, it keeps all that is promised of histories.
pub fn histories_are_legal<K, V, S>()
    ensures legal { (same : K → K → Bool) (hash : S → K → ℕ) → HistoriesAreLegal V same hash }
    ensures all { (same : K → K → Bool) (hash : S → K → ℕ) (terms : Terms) → HistoriesKeepAll V same hash terms }
{}

/// A call that a seat knows to have ended stands in that history: the seat has called this on this map, in its slot, and it has come to what the seat was told, as the finite
/// map of that map says. What it was told of a key that it has looked up was so at a moment since it began to look: there was no pair for the key, or there was one.
/// The answers that it has got in a slot are those of its calls there, one for one and in order.
pub fn seats_are_answered<K, V, S>()
    ensures answered { (same : K → K → Bool) (hash : S → K → ℕ) → SeatsAreAnswered V same hash }
    ensures lookups { (same : K → K → Bool) (hash : S → K → ℕ) → LookupsWereSo V same hash }
    ensures order { (same : K → K → Bool) (hash : S → K → ℕ) → CallsAreInOrder V same hash }
{}
