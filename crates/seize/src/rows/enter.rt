//! A slot is made active, or given up: one store each.
use crate::advance::Advance;
use crate::machine::StepMachine;
use crate::states::{ACTIVE, FREE, HEAD};
use seize_words::{At, Memory};

/// The first guard of a registration is entered: its slot becomes active, with an empty list. The critical section begins
/// with its one step.
#[derive(Drop)]
pub struct Enter {
    /// The registration's slot.
    pub slot: u64,
}

impl<T> StepMachine<T> for Enter {
    ghost use Rattle.seize.specs.Enter.{enter_plan};

    type Progress = Advance<()>;

    ghost plan = { enter_plan };

    fn step<M: Memory<T>>(&mut self, memory: &mut M) -> Advance<()> {
        memory.store(At::Slot(self.slot, HEAD), ACTIVE);
        Advance::Done(())
    }
}

/// A registration ends: its slot, which is not active, is free again with its one step.
#[derive(Drop)]
pub struct Unregister {
    /// The registration's slot.
    pub slot: u64,
}

impl<T> StepMachine<T> for Unregister {
    ghost use Rattle.seize.specs.Enter.{unregister_plan};

    type Progress = Advance<()>;

    ghost plan = { unregister_plan };

    fn step<M: Memory<T>>(&mut self, memory: &mut M) -> Advance<()> {
        memory.store(At::Slot(self.slot, HEAD), FREE);
        Advance::Done(())
    }
}
