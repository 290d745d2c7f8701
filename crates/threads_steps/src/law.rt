//! What is promised of whom others wait for.
ghost use Rattle.std.specs.Prelude.{ℕ};
ghost use Rattle.threads_steps.specs.Waiting.{HoldersLetOn};

/// A copying that holds others up does so after its next step, too, or has let them on by it, whatever it has found.
pub fn who_holds_others_up_lets_them_on<K, V>()
    ensures { (hash : K → ℕ) → HoldersLetOn V hash }
{}
