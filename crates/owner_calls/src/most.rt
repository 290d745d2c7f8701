//! How many steps a machine may still take. Only proofs read it.
ghost use Rattle.owner_whole.specs.Strides.Within.{HasLeast, has_least_prop, within};

use seize::{Advance, StepMachine};
use seize_words::Plain;
use std::marker::PhantomData;
use std::snapshot::Snapshot;

/// A machine and a memory, as they are, and the least number of steps that no run from there goes past. It takes no memory.
#[derive(Drop)]
pub(crate) struct Most<T, A, M: StepMachine<T, Progress = Advance<A>>> {
    pub(crate) machine: Snapshot<M>,
    pub(crate) memory: Snapshot<Plain<T>>,
    pub(crate) answers: PhantomData<A>,
    ghost least: { HasLeast (λ n. within M.StepMachine.plan n machine.value memory.value) } by { has_least_prop (λ n. within M.StepMachine.plan n machine.value memory.value) },
}
