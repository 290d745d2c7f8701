//! The reclaiming of blocks of a batch that hold no further values.
ghost use Rattle.std.specs.Prelude.{◌≡◌, true};
ghost use Rattle.seize.specs.declared.rows.settle.Settling.TheVariants as at;
ghost use Rattle.seize_straight.specs.Going.{DropLeads, MayDrop, MaySettle};
ghost use Rattle.seize_straight.specs.Reclaiming.{Reclaims};

use seize::rows::{Defers, Settle, Settling};
use seize::states::NEXT;
use seize_words::{At, Link, Look, Memory};

/// How many blocks are reclaimed at once at most.
const MANY: u64 = 1_000;

/// Whether a settling is to reclaim a block.
#[inline(always)]
fn is_reclaiming(settle: &Settle) -> bool
    ensures { result ≡ true → settle.now.stands ≡ at.Nexts }
{
    match settle.stands {
        Settling::Nexts => true,
        _ => false,
    }
}

/// Reclaims the next block of a batch, if it holds no further values and is not the last one, and answers its value.
#[inline(always)]
pub fn reclaim<T: Defers, M: Memory<T>>(settle: &mut Settle, memory: &mut M) -> Option<T>
    requires { MaySettle T.defers M.took M.shown M.can settle.old memory.old }
    ensures { Reclaims T.defers M.took M.shown settle.old memory.old settle.new memory.new result }
{
    if !is_reclaiming(settle) {
        return None;
    }
    let block = Link::block_of(settle.reclaiming);
    let next = memory.load(At::Entry(block, NEXT));
    if let Some(word) = memory.value(block).deferred() {
        settle.stands = Settling::Drains { next, word };
        return None;
    }
    if next == 0 {
        settle.stands = Settling::Takes { next };
        return None;
    }
    let value = memory.take(block);
    settle.reclaiming = next;
    Some(value)
}

/// Reclaims blocks of a batch, one after another, and drops their values.
#[inline(always)]
pub fn reclaims<T: Defers + Drop, M: Memory<T>>(settle: &mut Settle, memory: &mut M)
    requires { MayDrop T.defers M.took M.shown M.can settle.old memory.old }
    ensures { DropLeads T.defers M.took M.shown settle.old memory.old settle.new memory.new }
{
    for _ in 0..MANY {
        match reclaim(settle, memory) {
            Some(_) => {}
            None => return,
        }
    }
}
