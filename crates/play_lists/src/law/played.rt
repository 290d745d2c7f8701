//! What is promised of lists of acts that are played.
ghost use Rattle.std.specs.Prelude.{ℕ, Bool};
ghost use Rattle.play_lists.specs.Played.Reached.{ListsArePlayed};

/// A list of acts is played by computation: from memory and machines each act, with what the memory was free to choose, computes the next ones, the entry of the
/// history that it is, and what its caller is told. Wherever a list has led, there it comes as it is played, and the same was told: so what a list of acts was is
/// said by the list alone.
pub fn lists_are_played<K, V, S>()
    ensures played { (same : K → K → Bool) (hash : S → K → ℕ) (batch_size roots : ℕ) (aborts : ℕ → V) → ListsArePlayed V same hash batch_size roots aborts }
{}
