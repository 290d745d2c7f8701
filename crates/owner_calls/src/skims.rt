//! What takes several steps at once.
use seize::{Advance, StepMachine};
use seize_words::Plain;

/// A machine that takes some of its steps at once, over the memory of one owner.
pub trait Skims<T, A>: StepMachine<T, Progress = Advance<A>> {
    ghost use Rattle.owner_whole.specs.Strides.Ending.{Ends, Strides};

    /// Takes one step or several: all but the last one go on, and it answers what the last one tells.
    fn skim(&mut self, memory: &mut Plain<T>) -> Advance<A>
        requires { Ends Self.plan self.old memory.old }
        ensures { Strides Self.plan self.old memory.old memory.new (self.new, result) };
}
