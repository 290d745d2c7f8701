//! Slots whose registrations need memory, which is refused and then met.
ghost use Rattle.std.specs.Prelude.{None};
ghost use Rattle.seize_model.specs.Alone.Alone.{History, IsHistory};

use crate::leaf::Leaf;
use seize_model::register;
use seize_words::{Fault, Plain};
use std::alloc::{AllocError, Global};

/// Registers, or is refused.
fn asked(memory: &mut Plain<Leaf>) -> Result<u64, Fault>
    requires { (h : History) × IsHistory (λ _. None) 0 0 memory.old h }
    ensures { (h : History) × IsHistory (λ _. None) 0 0 memory.new h }
{
    register(memory, true)
}

/// Whether the slot behind so many is not taken while a request is refused, and is taken once it is met.
fn asks_once(memory: &mut Plain<Leaf>, slots: u64) -> bool
    requires { (h : History) × IsHistory (λ _. None) 0 0 memory.old h }
{
    for slot in 0..slots {
        if asked(memory) != Ok(slot) {
            return false;
        }
    }
    memory.refuse_after(0);
    if asked(memory) != Err(Fault::Memory) {
        return false;
    }
    memory.refuse_after(1);
    asked(memory) == Ok(slots)
}

/// Whether it is so where nothing else has happened.
fn needs_memory(slots: u64, alloc: Global) -> Result<bool, AllocError> {
    let mut memory = Plain::new(alloc, 0)?;
    Ok(asks_once(&mut memory, slots))
}

#[test]
fn a_registration_is_refused_memory_and_made_again(rt: HostRuntime) -> Result<(), AllocError> {
    for slots in [0, 31] {
        assert!(rt; needs_memory(slots, rt.alloc())?, "slots {slots}");
    }
    Ok(())
}
