//! A memory of one owner, lent for reading.
use crate::at::At;
use crate::memory::Look;
use crate::plain::Plain;

/// A memory of one owner, lent for reading.
#[derive(Drop)]
pub struct Lent<'a, T> {
    /// The memory that is read.
    pub memory: &'a Plain<T>,
}

impl<T> Look<T> for Lent<'_, T> {
    ghost use Rattle.std.specs.Prelude.{◌≡◌};
    ghost use Rattle.seize_words.specs.OneMemory.Mem.{Can, Gives, value_at};

    ghost can = { λ lent op. Can lent.memory.now op };

    ghost took = { λ lent op out n. Gives lent.memory.now op out × (n ≡ lent) };

    ghost shown = { λ lent. value_at lent.memory.now };

    fn load(&mut self, at: At) -> u64 {
        self.memory.word(at)
    }

    fn value(&self, block: u64) -> &T {
        self.memory.value_of(block)
    }
}
