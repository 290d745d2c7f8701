//! What a slot does with its batch: blocks are retired, the batch is tried, and lists are counted down.
ghost use Rattle.std.specs.Prelude.{◌≡◌, Option};
ghost use Rattle.seize.specs.Settle.{resting, retiring, flushing, counting_down, with_batch, onward, scanning, with_put, behind, pushed_of};

use crate::machine::StepMachine;
use crate::states::{ACTIVE, LAST_SLOT};
use seize_words::{Defers, Memory};

mod batch;
mod reclaims;
mod tries;

/// Where a settling stands. A block is named by its link, 0 where there is none.
#[derive(Clone, Copy)]
pub enum Settling {
    /// Reads the slot's batch word, to take hold of the batch.
    Sees,
    /// Takes hold of the batch that it saw.
    Holds,
    /// Takes the first of the pending blocks.
    Pops,
    /// Reads the first block of the open batch: before it appends a block, or before it scans where there is none.
    Firsts {
        block: u64,
    },
    /// Writes into the block which batch it is of.
    Batches {
        block: u64,
    },
    /// Makes the block the end of its batch.
    Ends {
        block: u64,
    },
    /// Puts the block behind the last one.
    Appends {
        block: u64,
    },
    /// Counts the block into the batch.
    Counts {
        block: u64,
    },
    /// Reads the head of a slot. `block` is the next one that can be marked with a slot, and as many as `marks` were.
    Scans {
        slot: u64,
        block: u64,
        marks: u64,
    },
    /// Marks the block with an active slot.
    Marks {
        slot: u64,
        block: u64,
        marks: u64,
    },
    /// Goes on to the next block that can be marked.
    Marked {
        slot: u64,
        block: u64,
        marks: u64,
    },
    /// Closes the batch: from now on its count is a counter.
    Closes {
        marks: u64,
    },
    /// Reads the slot that the block is marked with. `left` blocks are to be pushed, this one with them, and `pushed` were.
    Reads {
        block: u64,
        left: u64,
        pushed: u64,
    },
    /// Links the block to the head that it is to follow.
    Links {
        block: u64,
        left: u64,
        pushed: u64,
        slot: u64,
        head: u64,
    },
    /// Pushes the block on the slot's list.
    Pushes {
        block: u64,
        left: u64,
        pushed: u64,
        slot: u64,
        head: u64,
    },
    /// Goes on to the next block that is to be pushed.
    Pushed {
        block: u64,
        left: u64,
        pushed: u64,
    },
    /// Adds the number of blocks pushed to the counter.
    Sums {
        pushed: u64,
    },
    /// Reads which block comes after the one that is reclaimed, and whether that one holds further values.
    Nexts,
    /// Reads the head of its further values, in its word of this number.
    Drains {
        next: u64,
        word: u64,
    },
    /// Puts further values behind those that the batch has put so far.
    Joins {
        next: u64,
        more: u64,
    },
    /// Goes on to the last of the values put.
    Tails {
        next: u64,
    },
    /// Reclaims the block.
    Takes {
        next: u64,
    },
    /// Puts the pending blocks behind the values that the batch has put.
    Puts,
    /// Reads the next entry of the list that is counted down.
    Lists,
    /// Reads the batch of the list's first entry.
    Owns {
        next: u64,
    },
    /// Counts that batch down.
    Downs {
        next: u64,
        batch: u64,
    },
    /// Gives the slot's batch up.
    Gives,
    /// It has ended.
    Over,
}

/// All that a slot does with its batch: blocks are retired to it, it is tried, lists of entries are counted down, and batches
/// that nobody holds any longer are reclaimed. What is being reclaimed comes before what is to be retired, and this before
/// the list.
#[derive(Clone, Copy)]
pub struct Settle {
    /// The slot.
    pub slot: u64,
    /// The length from which on a batch is tried.
    pub batch_size: u64,
    /// The list still to be counted down: a head, which names an entry where it is above `ACTIVE`.
    pub list: u64,
    /// The first of the blocks to be retired.
    pub pending: u64,
    /// The first of the blocks being reclaimed.
    pub reclaiming: u64,
    /// Whether the batch is to be tried at any length.
    pub flushing: bool,
    /// Whether it holds the slot's batch.
    pub held: bool,
    /// The last block of the open batch, while it is held.
    pub last: u64,
    /// The first block of that batch, from its reading on, and then of the batch being closed.
    pub first: u64,
    /// The first of the further values that the batch being reclaimed has put.
    pub put_first: u64,
    /// The last of those that were joined.
    pub put_last: u64,
    /// How many exchanges the present push has lost to others.
    pub lost: u64,
    /// Where it stands.
    pub stands: Settling,
}

/// How far a settling is.
#[derive(Debug, Drop, PartialEq, Eq)]
pub enum Settled<T> {
    /// Further steps are needed.
    Goes,
    /// Nothing changed: another row holds the slot's batch. The same step is taken again.
    Waits,
    /// Further steps are needed, and this value was reclaimed.
    Gave(T),
    /// It has ended.
    Done,
}

impl Settle {
    /// Retires a block to the slot's batch. The next link of the block is 0.
    #[inline(always)]
    pub fn retire(slot: u64, batch_size: u64, block: u64) -> Self
        ensures { result ≡ retiring slot batch_size block }
    {
        let mut settle = Settle::rest(slot, batch_size, Settling::Sees);
        settle.pending = block;
        settle
    }

    /// Tries the slot's batch, at any length above 0.
    #[inline(always)]
    pub fn flush(slot: u64, batch_size: u64) -> Self
        ensures { result ≡ flushing slot batch_size }
    {
        let mut settle = Settle::rest(slot, batch_size, Settling::Sees);
        settle.flushing = true;
        settle
    }

    /// Counts down a list that was taken from the slot: a head that names an entry.
    #[inline(always)]
    pub fn count_down(slot: u64, batch_size: u64, list: u64) -> Self
        ensures { result ≡ counting_down slot batch_size list }
    {
        let mut settle = Settle::rest(slot, batch_size, Settling::Lists);
        settle.list = list;
        settle
    }

    /// Nothing to do.
    #[inline(always)]
    fn rest(slot: u64, batch_size: u64, stands: Settling) -> Self
        ensures { result ≡ resting slot batch_size stands }
    {
        Settle {
            slot,
            batch_size,
            list: 0,
            pending: 0,
            reclaiming: 0,
            flushing: false,
            held: false,
            last: 0,
            first: 0,
            put_first: 0,
            put_last: 0,
            lost: 0,
            stands,
        }
    }

    /// Goes on after a piece of work.
    #[inline(always)]
    fn go_on(&mut self)
        ensures { self.new ≡ onward self.old }
    {
        if self.reclaiming != 0 {
            self.stands = Settling::Nexts;
        } else if self.pending != 0 || self.flushing {
            self.go_on_with_batch();
        } else if self.list > ACTIVE {
            self.stands = Settling::Lists;
        } else if self.held {
            self.stands = Settling::Gives;
        } else {
            self.stands = Settling::Over;
        }
    }

    /// Goes on with the slot's batch: there is a block to be retired, or the batch is to be tried.
    #[inline(always)]
    fn go_on_with_batch(&mut self)
        ensures { self.new ≡ with_batch self.old }
    {
        if !self.held {
            self.stands = Settling::Sees;
        } else if !self.flushing {
            self.stands = Settling::Pops;
        } else {
            self.flushing = false;
            self.stands = if self.last == 0 {
                Settling::Gives
            } else {
                Settling::Firsts { block: 0 }
            };
        }
    }

    /// Begins a try of the batch.
    #[inline(always)]
    fn scan(&mut self)
        ensures { self.new ≡ scanning self.old }
    {
        self.stands = Settling::Scans {
            slot: 0,
            block: self.first,
            marks: 0,
        };
    }

    /// The values that a batch has put are to be retired, and whatever was pending stands behind them.
    #[inline(always)]
    fn retire_put(&mut self)
        ensures { self.new ≡ with_put self.old }
    {
        self.pending = self.put_first;
        self.put_first = 0;
        self.put_last = 0;
        self.go_on();
    }
}

impl Settling {
    /// The scan of the slot behind one, if there is one.
    #[inline(always)]
    fn behind(slot: u64, block: u64, marks: u64) -> Self
        ensures { result ≡ behind slot block marks }
    {
        if slot < LAST_SLOT {
            Settling::Scans {
                slot: slot + 1,
                block,
                marks,
            }
        } else {
            Settling::Closes { marks }
        }
    }

    /// The push of the next block, if one is left behind this one.
    #[inline(always)]
    fn pushed(block: u64, left: u64, pushed: u64) -> Self
        ensures { result ≡ pushed_of block left pushed }
    {
        if left > 1 {
            Settling::Pushed {
                block,
                left: left - 1,
                pushed,
            }
        } else {
            Settling::Sums { pushed }
        }
    }
}

impl<T: Defers> StepMachine<T> for Settle {
    ghost use Rattle.seize.specs.Settle.{settle_plan};

    type Progress = Settled<T>;

    ghost plan = { settle_plan T.defers };

    #[inline(always)]
    fn step<M: Memory<T>>(&mut self, memory: &mut M) -> Settled<T> {
        match self.stands {
            Settling::Sees => self.sees(memory),
            Settling::Holds => self.holds(memory),
            Settling::Pops => self.pops(memory),
            Settling::Firsts { block } => self.firsts(memory, block),
            Settling::Batches { block } => self.batches(memory, block),
            Settling::Ends { block } => self.ends(memory, block),
            Settling::Appends { block } => self.appends(memory, block),
            Settling::Counts { block } => self.counts(memory, block),
            Settling::Scans { slot, block, marks } => self.scans(memory, slot, block, marks),
            Settling::Marks { slot, block, marks } => self.marks(memory, slot, block, marks),
            Settling::Marked { slot, block, marks } => self.marked(memory, slot, block, marks),
            Settling::Closes { marks } => self.closes(memory, marks),
            Settling::Reads {
                block,
                left,
                pushed,
            } => self.reads(memory, block, left, pushed),
            Settling::Links {
                block,
                left,
                pushed,
                slot,
                head,
            } => self.links(memory, block, left, pushed, slot, head),
            Settling::Pushes {
                block,
                left,
                pushed,
                slot,
                head,
            } => self.pushes(memory, block, left, pushed, slot, head),
            Settling::Pushed {
                block,
                left,
                pushed,
            } => self.pushed(memory, block, left, pushed),
            Settling::Sums { pushed } => self.sums(memory, pushed),
            Settling::Nexts => self.nexts(memory),
            Settling::Drains { next, word } => self.drains(memory, next, word),
            Settling::Joins { next, more } => self.joins(memory, next, more),
            Settling::Tails { next } => self.tails(memory, next),
            Settling::Takes { next } => self.takes(memory, next),
            Settling::Puts => self.puts(memory),
            Settling::Lists => self.lists(memory),
            Settling::Owns { next } => self.owns(memory, next),
            Settling::Downs { next, batch } => self.downs(memory, next, batch),
            Settling::Gives => self.gives(memory),
            Settling::Over => Settled::Done,
        }
    }
}
