//! What a machine is: one step after another, each at most one operation.
use seize_words::Memory;

/// What takes one step after another, each at most one operation on a memory.
pub trait StepMachine<T> {
    ghost use Rattle.seize_words.specs.OneMemory.Plan.{May, Steps, Plan};

    /// How far it is after a step.
    type Progress;

    /// What its next step does.
    ghost plan: { Self → Plan T (Self × Self.Progress) };

    /// One step: at most one operation.
    fn step<M: Memory<T>>(&mut self, memory: &mut M) -> Self::Progress
        requires { May M.can M.took M.shown memory.old (plan self.old) }
        ensures { Steps M.took M.shown memory.old (plan self.old) memory.new (self.new, result) };
}
