//! What a guard does with links, each link a whole word: a machine of one operation each, which ends with its step.

use crate::advance::Advance;
use crate::machine::StepMachine;
use seize_words::{At, Memory};

/// Reads a link. The block that it names stays as long as the critical section lasts.
#[derive(Drop)]
pub struct Protect {
    /// The link's name.
    pub link: At,
}

impl<T> StepMachine<T> for Protect {
    ghost use Rattle.seize.specs.Links.{protect_plan};

    type Progress = Advance<u64>;

    ghost plan = { protect_plan };

    fn step<M: Memory<T>>(&mut self, memory: &mut M) -> Advance<u64> {
        Advance::Done(memory.load(self.link))
    }
}

/// Writes a link, and answers the one before.
#[derive(Drop)]
pub struct Swap {
    /// The link's name.
    pub link: At,
    /// The word to be written.
    pub new: u64,
}

impl<T> StepMachine<T> for Swap {
    ghost use Rattle.seize.specs.Links.{swap_plan};

    type Progress = Advance<u64>;

    ghost plan = { swap_plan };

    fn step<M: Memory<T>>(&mut self, memory: &mut M) -> Advance<u64> {
        Advance::Done(memory.swap(self.link, self.new))
    }
}

/// Writes a link where the old word, its block, tag and marks, is still there. It answers the word found: `Ok` where the new
/// one was written, and `Err` where nothing changed.
#[derive(Drop)]
pub struct CompareExchange {
    /// The link's name.
    pub link: At,
    /// The whole word that must still be there.
    pub old: u64,
    /// The word to be written.
    pub new: u64,
}

impl<T> StepMachine<T> for CompareExchange {
    ghost use Rattle.seize.specs.Links.{compare_exchange_plan};

    type Progress = Advance<Result<u64, u64>>;

    ghost plan = { compare_exchange_plan };

    fn step<M: Memory<T>>(&mut self, memory: &mut M) -> Advance<Result<u64, u64>> {
        Advance::Done(memory.exchange(self.link, self.old, self.new))
    }
}

/// Sets marks in a link, and answers the link before.
#[derive(Drop)]
pub struct Mark {
    /// The link's name.
    pub link: At,
    /// The marks to be set.
    pub marks: u64,
}

impl<T> StepMachine<T> for Mark {
    ghost use Rattle.seize.specs.Links.{mark_plan};

    type Progress = Advance<u64>;

    ghost plan = { mark_plan };

    fn step<M: Memory<T>>(&mut self, memory: &mut M) -> Advance<u64> {
        Advance::Done(memory.or(self.link, self.marks))
    }
}

/// Puts a link to a block that is held into a second link, which must be empty. It answers the word found: `Ok` where the
/// link was put, and `Err` where nothing changed.
#[derive(Drop)]
pub struct Copy {
    /// The second link's name.
    pub link: At,
    /// The link's word.
    pub word: u64,
}

impl<T> StepMachine<T> for Copy {
    ghost use Rattle.seize.specs.Links.{copy_plan};

    type Progress = Advance<Result<u64, u64>>;

    ghost plan = { copy_plan };

    fn step<M: Memory<T>>(&mut self, memory: &mut M) -> Advance<Result<u64, u64>> {
        Advance::Done(memory.exchange(self.link, 0, self.word))
    }
}
