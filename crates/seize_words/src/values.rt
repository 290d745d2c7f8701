//! What a value says of the blocks that it has to do with: the list of blocks that wait behind its own, and what a root that names its block holds.
ghost use Rattle.std.specs.Prelude.{◌≡◌};

/// A value whose block may hold further values, which are retired once it is reclaimed.
pub trait Defers {
    ghost use Rattle.std.specs.Prelude.{Option, ℕ};

    /// The number of the word of its block that holds the head of the list of blocks to be retired then.
    ghost defers: { Self → Option ℕ };

    /// The number of that word, if its block has one.
    fn deferred(&self) -> Option<u64>
        ensures { result ≡ defers self.now };
}

/// A value that says whether a root that names its block holds what was left over there.
pub trait LeftOver {
    ghost use Rattle.std.specs.Prelude.{Bool};

    /// A root that names its block names the first of a list of blocks that nobody can reach any longer.
    ghost left_over: { Self → Bool };

    /// Whether a root that names its block names such a list.
    fn is_left_over(&self) -> bool
        ensures { result ≡ left_over self.now };
}
