//! What is promised of the histories of lists of acts.
ghost use Rattle.std.specs.Prelude.{ℕ, Bool};
ghost use Rattle.play_linear.specs.Linear.Linear.{ListsAreLinearizable};

/// Wherever a list of acts has led, each entry of the history that it comes to as it is played is linearizable: each call has an answer that was so at a moment since
/// it began, by the finite map of its map and the replies that it was told, and changes that map at one step, as it says; and nothing else changes one. So it is for
/// any callers, maps, modes and hashes, whatever the memory chose and refused, if no number is given to two maps.
pub fn lists_are_linearizable<K, V, S>()
    ensures linearizable { (same : K → K → Bool) (by_hasher : S → K → ℕ) (hash : ℕ → K → ℕ) (batch_size roots : ℕ) → ListsAreLinearizable V same by_hasher hash batch_size roots }
{}
