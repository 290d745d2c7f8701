//! What is promised of the numbers of a walk, a clearing and a retaining.
ghost use Rattle.std.specs.Prelude.{ℕ, Bool};
ghost use Rattle.many_calls.specs.Given.PointsMeasures.{DescentsEnd};
ghost use Rattle.map_measures.specs.Passes.FallsSweeps.{SweepsFall, RepliesLowerTheVariant, SweepRowsFall, SweepNumbersAreAsMany};

/// In any state of a map that the rule allows, in both modes, and whatever other callers have under way, also once the root has left its table: a step of a
/// sweep which goes on and is none of a row of the collector leads to lower numbers, of the sweep and of the tables that the memory shows then. So does a step
/// that shows a pair, or comes to be asked or told, and so it is with what it is asked for and told: no reply raises them. Steps of a row within a sweep, those
/// that hand out what they have reclaimed, too, leave its numbers as they are, and the last one, where the sweep goes on with it, lowers them. They are always
/// as many, and each descent of as many numbers terminates.
pub fn sweeps_lower_the_number<K, V>()
    ensures steps { (same : K → K → Bool) (hash : K → ℕ) → SweepsFall V same hash }
    ensures told { (same : K → K → Bool) (hash : K → ℕ) → RepliesLowerTheVariant V same hash }
    ensures rows { (same : K → K → Bool) (hash : K → ℕ) → SweepRowsFall V same hash }
    ensures many { SweepNumbersAreAsMany K }
    ensures ends { DescentsEnd }
{}
