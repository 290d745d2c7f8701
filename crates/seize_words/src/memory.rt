//! The operations of a memory, as traits.
use crate::at::At;
use crate::fault::Fault;

/// A memory that can be read: words by name, and the values of blocks.
pub trait Look<T> {
    ghost use Rattle.std.specs.Prelude.{ℕ, ◌≡◌, Option, Some, IsSome};
    ghost use Rattle.seize_words.specs.OneMemory.Op.{Op, Out, Load, Found};

    /// The operation may be made now.
    ghost can: { Self → Op T → Type 0 };

    /// The operation was made, with this answer, and left this memory.
    ghost took: { Self → Op T → Out T → Self → Type 0 };

    /// The value of each block that may be looked at now.
    ghost shown: { Self → ℕ → Option T };

    /// The word of a name.
    fn load(&mut self, at: At) -> u64
        requires { can self.old (Load at) }
        ensures { took self.old (Load at) (Found result) self.new };

    /// The value of a block.
    fn value(&self, block: u64) -> &T
        requires { IsSome (shown self.now block) }
        ensures { shown self.now block ≡ Some result.now };
}

/// A memory whose words change and whose blocks come and go, each operation by itself. It keeps its allocator.
pub trait Memory<T>: Look<T> {
    ghost use Rattle.seize_words.specs.OneMemory.Op.{Store, Swap, Add, Or, Exchange, Make, Take, Rewrite, Room, Found, Stored, Exchanged, Made, Taken, Roomed};

    /// Writes the word of a name.
    fn store(&mut self, at: At, word: u64)
        requires { Self.can self.old (Store at word) }
        ensures { Self.took self.old (Store at word) Stored self.new };

    /// Writes the word of a name, and answers the one before.
    fn swap(&mut self, at: At, word: u64) -> u64
        requires { Self.can self.old (Swap at word) }
        ensures { Self.took self.old (Swap at word) (Found result) self.new };

    /// Adds to the word of a name, round at 2^64, and answers the one before.
    fn add(&mut self, at: At, by: u64) -> u64
        requires { Self.can self.old (Add at by) }
        ensures { Self.took self.old (Add at by) (Found result) self.new };

    /// Sets bits of the word of a name, and answers the one before.
    fn or(&mut self, at: At, bits: u64) -> u64
        requires { Self.can self.old (Or at bits) }
        ensures { Self.took self.old (Or at bits) (Found result) self.new };

    /// Writes a new word where the old one, the whole word, is found, and answers the word found: `Ok` where it was written.
    fn exchange(&mut self, at: At, old: u64, new: u64) -> Result<u64, u64>
        requires { Self.can self.old (Exchange at old new) }
        ensures { Self.took self.old (Exchange at old new) (Exchanged result) self.new };

    /// Makes a block of a value and as many words, each 0, and answers its number. A refused make gives the value back.
    fn make(&mut self, value: T, words: u64) -> Result<u64, T>
        requires { Self.can self.old (Make value words) }
        ensures { Self.took self.old (Make value words) (Made result) self.new };

    /// Takes a block away, and answers its value. Its number is free from then on.
    fn take(&mut self, block: u64) -> T
        requires { Self.can self.old (Take block) }
        ensures { Self.took self.old (Take block) (Taken result) self.new };

    /// Replaces the value of a block that nobody else can see yet, and answers the one before.
    fn rewrite(&mut self, block: u64, value: T) -> T
        requires { Self.can self.old (Rewrite block value) }
        ensures { Self.took self.old (Rewrite block value) (Taken result) self.new };

    /// Makes the words of a bucket of slots where they are not there yet. The only fault is `Memory`. Where they are there it asks for
    /// nothing, and so is not refused.
    fn room(&mut self, bucket: u64) -> Result<(), Fault>
        requires { Self.can self.old (Room bucket) }
        ensures { Self.took self.old (Room bucket) (Roomed result) self.new };
}

/// A memory that can be told to refuse a block, as a run tells its own. One that callers share has no such operation.
pub trait Refuses<T>: Memory<T> {
    ghost use Rattle.std.specs.Prelude.{Err};
    ghost use Rattle.seize_words.specs.OneMemory.Op.{Make, Made};

    /// Refuses to make a block of a value and as many words, as a memory may at any time, and gives the value back.
    fn refuse(&mut self, value: T, words: u64) -> T
        requires { Self.can self.old (Make value words) }
        ensures { Self.took self.old (Make value words) (Made (Err result)) self.new };
}
