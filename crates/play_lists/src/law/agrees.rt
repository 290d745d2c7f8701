//! What is promised of the histories of lists of acts.
ghost use Rattle.std.specs.Prelude.{ℕ, Bool};
ghost use Rattle.play_lists.specs.Agrees.Agree.{ListsAgree};
ghost use Rattle.play_lists.specs.Agrees.Fresh.{OnceIsNew};

/// Wherever a list of acts has led, the history that it comes to as it is played agrees with what is so there: each map has as many shards as its making was asked
/// for with, where all makings ask for as many; the guards that are there are the slots within sections, each by the name of its slot, up to the step that ends a
/// section; each call under way has the guard of its caller's slot; what was refused a growth has asked for it, and made nothing; and of a number with which no map
/// has come nothing is there: no map, no table, no pair, no count and no call; nor of one with which a map has come, once its making was refused, where each map is made
/// with a number that no map has, or had. A list in which no number is given to two maps makes each with such a number.
pub fn lists_agree<K, V, S>()
    ensures agrees { (same : K → K → Bool) (by_hasher : S → K → ℕ) (hash : ℕ → K → ℕ) (batch_size roots shards : ℕ) → ListsAgree V same by_hasher hash batch_size roots shards }
    ensures new { (same : K → K → Bool) (by_hasher : S → K → ℕ) (batch_size roots : ℕ) (aborts : ℕ → V) → OnceIsNew same by_hasher batch_size roots aborts }
{}
