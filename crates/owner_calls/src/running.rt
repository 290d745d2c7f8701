//! Machines that one owner runs to their ends.
ghost use Rattle.std.specs.Prelude.{◌≡◌};
ghost use Rattle.owner_whole.specs.Strides.Ending.{Ends, RunsTo};

use crate::most::Most;
use crate::skims::Skims;
use seize::{Advance, StepMachine};
use seize_words::{Fault, Plain};
use std::marker::PhantomData;
use std::snapshot::Snapshot;

/// How many steps there are still at most, where each run terminates.
fn most<T, A, M: StepMachine<T, Progress = Advance<A>>>(
    machine: &M,
    memory: &Plain<T>,
) -> Most<T, A, M>
    requires { Ends M.StepMachine.plan machine.now memory.now }
    ensures machine { result.machine.value ≡ machine.now }
    ensures memory { result.memory.value ≡ memory.now }
{
    let machine = Snapshot::of(machine);
    let memory = Snapshot::of(memory);
    Most {
        machine,
        memory,
        answers: PhantomData,
    }
}

/// Takes the steps of a machine until it has ended.
pub fn run<T, A, M: StepMachine<T, Progress = Advance<A>>>(
    machine: &mut M,
    memory: &mut Plain<T>,
) -> Result<A, Fault>
    requires { Ends M.StepMachine.plan machine.old memory.old }
    ensures { RunsTo M.StepMachine.plan machine.old memory.old machine.new memory.new result }
{
    let mut left = most(machine, memory);
    loop {
        match machine.step(memory) {
            Advance::Goes | Advance::Waits => {}
            Advance::Done(answer) => return Ok(answer),
            Advance::Refused(fault) => return Err(fault),
        }
        left = most(machine, memory);
    }
}

/// Takes the steps of a machine until it has ended, several at once where it can.
pub fn run_skimming<T, A, M: StepMachine<T, Progress = Advance<A>> + Skims<T, A>>(
    machine: &mut M,
    memory: &mut Plain<T>,
) -> Result<A, Fault>
    requires { Ends M.StepMachine.plan machine.old memory.old }
    ensures { RunsTo M.StepMachine.plan machine.old memory.old machine.new memory.new result }
{
    let mut left = most(machine, memory);
    loop {
        match machine.skim(memory) {
            Advance::Goes | Advance::Waits => {}
            Advance::Done(answer) => return Ok(answer),
            Advance::Refused(fault) => return Err(fault),
        }
        left = most(machine, memory);
    }
}
