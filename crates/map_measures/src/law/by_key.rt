//! What is promised of calls by other forms of keys.
ghost use Rattle.std.specs.Prelude.{Bool};
ghost use Rattle.map_measures.specs.ByKey.ByKey.{StepsByKey, RepliesByKey};

/// A call that is asked with another form of a key is the call that is asked with the key for which the form stands: at each point its step has the plan of
/// that call's, with the same operation, answer and look, and comes to that call's next point; and it goes on so by a reply, and as it is asked for a pair.
/// So whatever steps of calls by keys come to, those by other forms come to, with the forms' keys in their place.
pub fn forms_stand_for_keys<K, V, Q>()
    ensures steps { (same : K → K → Bool) (asks : Q → K → Bool) (stands_for : Q → K) → StepsByKey V same asks stands_for }
    ensures told { (stands_for : Q → K) → RepliesByKey V stands_for }
{}
