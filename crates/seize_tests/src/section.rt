//! Values are retired and reclaimed by whole calls in one section, over a memory that has one owner.
ghost use Rattle.std.specs.Prelude.{◌≡◌, ℕ, List, None, IfOk};
ghost use Rattle.seize_words.specs.OneMemory.Mem.{Mem};
ghost use Rattle.seize_tests.specs.declared.leaf.Leaf.{Leaf};
ghost use Rattle.seize_tests.specs.Tests.Section.{IsInside};
ghost use Rattle.seize.specs.World.{Request};
ghost use Rattle.seize_model.specs.Alone.Alone.{History, IsMidway, SlotsAre, row_of, uses_after};

use crate::leaf::Leaf;
use seize_model::{WholeCall, register};
use seize_words::{Memory, Plain};
use std::alloc::{AllocError, Global};

/// The call runs to its end, and what it reclaims goes behind what was reclaimed before.
fn ended(
    mut call: WholeCall,
    memory: &mut Plain<Leaf>,
    back: &mut Vec<u64>,
) -> Result<(), AllocError>
    requires { (size : ℕ) × (m : Mem Leaf) × (h : History) × (request : Request) × (given : List Leaf)
        × IsMidway (λ _. None) size 0 m h request (row_of call) memory.old given }
    ensures { (size : ℕ) (m : Mem Leaf) (h : History) (request : Request) (given : List Leaf)
        → IsMidway (λ _. None) size 0 m h request (row_of call) memory.old given
        → IfOk result (λ _. SlotsAre (λ _. None) size 0 memory.new (uses_after request h.uses)) }
{
    while let Some(value) = call.next(memory) {
        back.push(value.0)?;
    }
    Ok(())
}

/// A block of this number is made, linked, unlinked, and retired.
fn retired(
    memory: &mut Plain<Leaf>,
    slot: u64,
    size: u64,
    number: u64,
    back: &mut Vec<u64>,
) -> Result<(), AllocError>
    requires { IsInside size memory.old slot }
    ensures { IfOk result (λ _. IsInside size memory.new slot) }
{
    let Ok(block) = memory.make(Leaf(number), 0) else {
        return Err(AllocError);
    };
    ended(WholeCall::retire(memory, slot, size, block), memory, back)
}

/// The slot's batch is tried.
fn flushed(
    memory: &mut Plain<Leaf>,
    slot: u64,
    size: u64,
    back: &mut Vec<u64>,
) -> Result<(), AllocError>
    requires { IsInside size memory.old slot }
    ensures { IfOk result (λ _. IsInside size memory.new slot) }
{
    ended(WholeCall::flush(memory, slot, size), memory, back)
}

/// The slot's section ends.
fn left(
    memory: &mut Plain<Leaf>,
    slot: u64,
    size: u64,
    back: &mut Vec<u64>,
) -> Result<(), AllocError>
    requires { IsInside size memory.old slot }
{
    ended(WholeCall::leave(memory, slot, size), memory, back)
}

/// Whether each of 30 values is retired and the batch tried at once, none is reclaimed while the section lasts, and its end reclaims all, the last one
/// first.
fn goes_so(memory: &mut Plain<Leaf>, slot: u64, back: &mut Vec<u64>) -> Result<bool, AllocError>
    requires { IsInside 5 memory.old slot }
{
    for number in 0..30 {
        retired(memory, slot, 5, number, back)?;
        flushed(memory, slot, 5, back)?;
    }
    let none = back.is_empty();
    left(memory, slot, 5, back)?;
    Ok(none && back.iter().copied().eq((0u64..30).rev()))
}

/// Whether a section of the first slot goes so.
fn is_reclaimed_backwards(alloc: Global) -> Result<bool, AllocError> {
    let mut memory = Plain::new(alloc, 0)?;
    let mut back = Vec::new(alloc);
    match register(&mut memory, true) {
        Ok(slot) => goes_so(&mut memory, slot, &mut back),
        Err(_) => Err(AllocError),
    }
}

#[test]
fn values_that_were_flushed_wait_for_the_section_and_come_back_last_first(
    rt: HostRuntime,
) -> Result<(), AllocError> {
    assert!(rt; is_reclaimed_backwards(rt.alloc())?);
    Ok(())
}
