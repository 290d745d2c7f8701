//! A block is put in front of the further values of another block.
ghost use Rattle.std.specs.Prelude.{◌≡◌};
ghost use Rattle.seize.specs.Defer.{deferring};

use crate::advance::Advance;
use crate::machine::StepMachine;
use crate::states::NEXT;
use seize_words::{At, Link, Memory};

/// Where a deferral stands.
#[derive(Clone, Copy)]
pub enum Deferring {
    /// Reads the head of the list.
    Reads,
    /// Links the block to the head that it is to follow.
    Links { head: u64 },
    /// Puts the block in front of that head.
    Pushes { head: u64 },
    /// It has ended.
    Over,
}

/// Puts a block in front of the further values of another block: it is retired once that one is reclaimed.
#[derive(Clone, Copy)]
pub struct Defer {
    /// The link of the block that is put.
    pub block: u64,
    /// The other block's word that holds the head of its list.
    pub table_word: At,
    /// Where it stands.
    pub stands: Deferring,
}

impl Defer {
    /// Puts a block, by its link, in front of the list whose head stands in a word.
    pub fn defer(block: u64, table_word: At) -> Self
        ensures { result ≡ deferring block table_word }
    {
        Defer {
            block,
            table_word,
            stands: Deferring::Reads,
        }
    }
}

impl<T> StepMachine<T> for Defer {
    ghost use Rattle.seize.specs.Defer.{defer_plan};

    type Progress = Advance<()>;

    ghost plan = { defer_plan };

    fn step<M: Memory<T>>(&mut self, memory: &mut M) -> Advance<()> {
        match self.stands {
            Deferring::Reads => {
                let head = memory.load(self.table_word);
                self.stands = Deferring::Links { head };
                Advance::Goes
            }
            Deferring::Links { head } => {
                memory.store(At::Entry(Link::block_of(self.block), NEXT), head);
                self.stands = Deferring::Pushes { head };
                Advance::Goes
            }
            Deferring::Pushes { head } => {
                self.stands = match memory.exchange(self.table_word, head, self.block) {
                    Ok(_) => Deferring::Over,
                    Err(found) => Deferring::Links { head: found },
                };
                Advance::Goes
            }
            Deferring::Over => Advance::Done(()),
        }
    }
}
