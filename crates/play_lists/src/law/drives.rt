//! What is promised of an executor, in the words of lists of acts.
ghost use Rattle.std.specs.Prelude.{ℕ, Bool};
ghost use Rattle.play_lists.specs.Drives.Executors.{ExecutorsAct};

/// An executor, which drives calls, makings, ends of maps and rows of many callers step by step, does so by acts: where it was in a scene, and does what it
/// promises, it is then in the one to which an act leads, and tells what that tells.
pub fn executors_act<K, V, S>()
    ensures acts { (same : K → K → Bool) (hash : S → K → ℕ) → ExecutorsAct V same hash }
{}
