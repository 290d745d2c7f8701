//! What is promised of the histories of lists of acts.
ghost use Rattle.std.specs.Prelude.{ℕ, Bool};
ghost use Rattle.play_linear.specs.Endings.InOrder.{MapsEndInOrder};

/// Wherever a list of acts has led, by the history that it comes to as it is played each map ends in order: a step of its end gives back the pair of the map that lies
/// first, or, once none is left, takes the first table that is left, from the root's on; and after the last step neither a pair of the map is there nor a table. So
/// it is for any callers, maps, modes and hashes, whatever others do meanwhile and the memory chose and refused, if no number is given to two maps.
pub fn maps_end_in_order<K, V, S>()
    ensures order { (same : K → K → Bool) (by_hasher : S → K → ℕ) (hash : ℕ → K → ℕ) (batch_size roots : ℕ) → MapsEndInOrder V same by_hasher hash batch_size roots }
{}
