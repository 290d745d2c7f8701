//! The retirement of one block, up to a batch that is full.
ghost use Rattle.std.specs.Prelude.{◌≡◌, ◌≢◌};
ghost use Rattle.seize.specs.Settle.{retiring};
ghost use Rattle.seize.specs.declared.rows.settle.Settling.TheVariants as at;
ghost use Rattle.seize_straight.specs.Going.{MaySettle, SettleReaches};
ghost use Rattle.seize_straight.specs.Retiring.{grown, holding, retired, settle_at};

use seize::rows::{Defers, Settle, Settling};
use seize::states::{BATCH, COUNT, FIRST, HELD, NEXT};
use seize_words::{At, Link, Memory};

/// Where the retirement of a block has come to. A block is named by its link, 0 where there is none.
#[derive(Clone, Copy)]
pub enum Retired {
    /// The block is retired.
    Ended,
    /// Another row holds the slot's batch, or was faster: all is still to be done.
    Sees,
    /// The batch is held, and `pending` is to be put into it: it has no block yet, or one was put there, and further ones follow it.
    Pops {
        /// The first of the blocks that are to be retired.
        pending: u64,
        /// The last block of the batch.
        last: u64,
        /// Its first one.
        first: u64,
    },
    /// The block is in the batch, which is held and long enough to be tried.
    Scans {
        /// The first of the blocks that are to be retired.
        pending: u64,
        /// The last block of the batch.
        last: u64,
        /// Its first one.
        first: u64,
    },
}

/// Retires a block to the slot's batch: all operations up to a try of the batch.
#[inline(always)]
pub fn retire<T: Defers, M: Memory<T>>(
    memory: &mut M,
    slot: u64,
    batch_size: u64,
    block: u64,
) -> Retired
    requires { MaySettle T.defers M.took M.shown M.can (retiring slot batch_size block) memory.old }
    ensures { SettleReaches T.defers M.took M.shown (retiring slot batch_size block) memory.old memory.new (retired slot batch_size block result) }
{
    if block == 0 {
        return Retired::Sees;
    }
    let word = memory.load(At::Slot(slot, BATCH));
    if word == HELD {
        return Retired::Sees;
    }
    match memory.exchange(At::Slot(slot, BATCH), word, HELD) {
        Ok(_) => {}
        Err(_) => return Retired::Sees,
    }
    if word == 0 {
        return open(memory, slot, batch_size, block);
    }
    append(memory, slot, batch_size, block, word)
}

/// Opens a batch with a block, while the slot's batch is held, and gives it up.
#[inline(always)]
fn open<T: Defers, M: Memory<T>>(memory: &mut M, slot: u64, batch_size: u64, block: u64) -> Retired
    requires { MaySettle T.defers M.took M.shown M.can (holding slot batch_size block 0 0 at.Pops) memory.old }
    ensures { SettleReaches T.defers M.took M.shown (holding slot batch_size block 0 0 at.Pops)
        memory.old memory.new (retired slot batch_size block result) }
{
    let pending = memory.load(At::Entry(Link::block_of(block), NEXT));
    memory.store(At::Entry(Link::block_of(block), FIRST), block);
    memory.store(At::Entry(Link::block_of(block), NEXT), 0);
    let count = memory.add(At::Entry(Link::block_of(block), COUNT), 1);
    give(memory, slot, batch_size, pending, block, block, count)
}

/// Puts a block behind the last one of the batch, which is held, and gives the batch up.
#[inline(always)]
fn append<T: Defers, M: Memory<T>>(
    memory: &mut M,
    slot: u64,
    batch_size: u64,
    block: u64,
    last: u64,
) -> Retired
    requires block { block ≢ 0 }
    requires last { last ≢ 0 }
    requires may { MaySettle T.defers M.took M.shown M.can (holding slot batch_size block last 0 at.Pops) memory.old }
    ensures { SettleReaches T.defers M.took M.shown (holding slot batch_size block last 0 at.Pops)
        memory.old memory.new (retired slot batch_size block result) }
{
    let pending = memory.load(At::Entry(Link::block_of(block), NEXT));
    let first = memory.load(At::Entry(Link::block_of(last), FIRST));
    memory.store(At::Entry(Link::block_of(block), FIRST), first);
    memory.store(At::Entry(Link::block_of(block), NEXT), 0);
    memory.store(At::Entry(Link::block_of(last), NEXT), block);
    let count = memory.add(At::Entry(Link::block_of(first), COUNT), 1);
    give(memory, slot, batch_size, pending, block, first, count)
}

/// Goes on once a block was counted into the batch: gives the batch up, where it is too short to be tried and no further block is pending.
#[inline(always)]
fn give<T: Defers, M: Memory<T>>(
    memory: &mut M,
    slot: u64,
    batch_size: u64,
    pending: u64,
    block: u64,
    first: u64,
    count: u64,
) -> Retired
    requires { MaySettle T.defers M.took M.shown M.can (grown slot batch_size pending block first count) memory.old }
    ensures { SettleReaches T.defers M.took M.shown (grown slot batch_size pending block first count)
        memory.old memory.new (retired slot batch_size block result) }
{
    if count.wrapping_add(1) >= batch_size {
        return Retired::Scans {
            pending,
            last: block,
            first,
        };
    }
    if pending != 0 {
        return Retired::Pops {
            pending,
            last: block,
            first,
        };
    }
    memory.store(At::Slot(slot, BATCH), block);
    Retired::Ended
}

/// Returns the settling at the point where the retirement of a block has stopped.
pub fn settle_of(slot: u64, batch_size: u64, block: u64, retired: Retired) -> Settle
    ensures { result ≡ settle_at slot batch_size block retired }
{
    let mut settle = Settle::retire(slot, batch_size, block);
    match retired {
        Retired::Sees => {}
        Retired::Ended => {
            settle.pending = 0;
            settle.stands = Settling::Over;
        }
        Retired::Pops {
            pending,
            last,
            first,
        } => {
            settle.pending = pending;
            settle.held = true;
            settle.last = last;
            settle.first = first;
            settle.stands = Settling::Pops;
        }
        Retired::Scans {
            pending,
            last,
            first,
        } => {
            settle.pending = pending;
            settle.held = true;
            settle.last = last;
            settle.first = first;
            settle.stands = Settling::Scans {
                slot: 0,
                block: first,
                marks: 0,
            };
        }
    }
    settle
}
