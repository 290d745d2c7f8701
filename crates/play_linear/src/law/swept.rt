//! What is promised of the histories of lists of acts.
ghost use Rattle.std.specs.Prelude.{ℕ, Bool};
ghost use Rattle.run_schedules.specs.Schedules.Terms.{Terms};
ghost use Rattle.play_linear.specs.Swept.Swept.{ListsAreSwept};

/// Wherever a list of acts has led, by each entry of the history that it comes to as it is played a call on a whole map does what it is for: a walk shows pairs that
/// were in its map at a moment of it, none twice, and at its end one of each key that had one all the time; a clearing has left no pair that was there all the time,
/// and a retaining those alone that it was told to keep; a counting answers a sum of shards, each as it was at a moment of it; and a reservation has met a table with
/// room for as many more as it has counted. Each call answers as its kind does. So it is for any callers, maps, modes and hashes, whatever others do meanwhile and
/// the memory chose and refused, if each map is made with as many shards as the terms say, and no number is given to two maps.
pub fn lists_are_swept<K, V, S>()
    ensures swept { (same : K → K → Bool) (by_hasher : S → K → ℕ) (hash : ℕ → K → ℕ) (batch_size roots : ℕ) (terms : Terms) → ListsAreSwept V same by_hasher hash batch_size roots terms }
{}
