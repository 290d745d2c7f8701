//! The end of a slot's section that finds no list.
ghost use Rattle.std.specs.Prelude.{◌≡◌};
ghost use Rattle.seize.specs.Leave.{leave_plan, leaving};
ghost use Rattle.seize_straight.specs.Going.{SettleGoes};
ghost use Rattle.seize_straight.specs.Leaving.{leave_at, left};
ghost use Rattle.seize_straight.specs.Reaches.{Reaches};
ghost use Rattle.seize_straight.specs.Runs.{MayRun};

use seize::rows::{Defers, Leave, Leaving, Settle};
use seize::states::{ACTIVE, FREE, HEAD};
use seize_words::{At, Memory};

/// Where the end of a section has come to.
#[derive(Clone, Copy)]
pub enum Left {
    /// The section has ended, and the slot is free again, where its number was to be given up.
    Ended,
    /// The section has ended, and the list with this head is to be counted down.
    List(u64),
}

/// Ends the section of a slot: takes its list, and has ended where there is none.
#[inline(always)]
pub fn leave<T: Defers, M: Memory<T>>(
    memory: &mut M,
    slot: u64,
    batch_size: u64,
    becomes: u64,
    frees: bool,
) -> Left
    requires { MayRun SettleGoes M.took M.shown (leave_plan T.defers) M.can (leaving slot batch_size becomes frees) memory.old }
    ensures { Reaches SettleGoes M.took M.shown (leave_plan T.defers) (leaving slot batch_size becomes frees)
        memory.old memory.new (left slot batch_size becomes frees result) }
{
    let head = memory.swap(At::Slot(slot, HEAD), becomes);
    if head > ACTIVE {
        return Left::List(head);
    }
    if !frees {
        return Left::Ended;
    }
    memory.store(At::Slot(slot, HEAD), FREE);
    Left::Ended
}

/// Returns the leaving that is to count down the list with this head.
pub fn leave_of(slot: u64, batch_size: u64, becomes: u64, frees: bool, head: u64) -> Leave
    ensures { result ≡ leave_at slot batch_size becomes frees head }
{
    Leave {
        slot,
        batch_size,
        becomes,
        frees,
        stands: Leaving::Settles(Settle::count_down(slot, batch_size, head)),
    }
}
