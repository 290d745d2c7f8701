//! What is promised of how much is left of the end of a map.
ghost use Rattle.std.specs.Prelude.{ℕ, Bool};
ghost use Rattle.many_acts.specs.Lefts.{EndsGetOn};

/// Whatever others have under way, each step of the end of a map that is not its last leaves less to be done: along a list that a table carries there is less left of that
/// list, and else of all the rest. Both numbers are read off what its caller has under way, so nothing that others do changes them.
pub fn ends_get_on<K, V>()
    ensures { (same : K → K → Bool) (batch_size : ℕ) → EndsGetOn V same batch_size }
{}
