//! What is promised of the histories of lists of acts.
ghost use Rattle.std.specs.Prelude.{ℕ, Bool};
ghost use Rattle.play_linear.specs.Protects.Protected.{ListsAreProtected};

/// Wherever a list of acts has led, no entry of the history that it comes to as it is played reclaims a pair or a table that left its map while a section was open
/// which the entry does not end. A section is that of a slot, from the last step of the row that begins it to the first of the one that ends it; who reclaims all
/// ends each. So it is for any callers, maps, modes and hashes, whatever the memory chose and refused, if no number is given to two maps.
pub fn lists_are_protected<K, V, S>()
    ensures protected { (same : K → K → Bool) (by_hasher : S → K → ℕ) (hash : ℕ → K → ℕ) (batch_size roots : ℕ) → ListsAreProtected V same by_hasher hash batch_size roots }
{}
