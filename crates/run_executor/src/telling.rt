//! A step of a row, or of the making or the end of a map, in the memory that tells.
ghost use Rattle.std.specs.Prelude.{◌≡◌};
ghost use Rattle.seize_words.specs.OneMemory.Mem.{Can, Took, value_at};
ghost use Rattle.seize_words.specs.OneMemory.Plan.{May};
ghost use Rattle.run_places.specs.Given.TellerTells.{StepsObserved};
ghost use Rattle.run_places.specs.Given.EffectsDeclared.changed.Changed.TheVariants.{Nothing};

use crate::executor::Executor;
use papaya_raw::Node;
use run_places::Teller;
use seize::StepMachine;
use seize_words::Plain;

/// Takes a step, and tells what it has changed.
pub(crate) fn step_telling<K, V, R: StepMachine<Node<K, V>>>(
    memory: &mut Teller<Plain<Node<K, V>>>,
    row: &mut R,
) -> R::Progress
    requires { May Can Took value_at memory.old.memory (R.plan row.old) }
    ensures { StepsObserved K V (R × R.Progress) memory.old.memory Nothing (R.plan row.old) memory.new.memory memory.new.changed (row.new, result) }
{
    memory.forget();
    row.step(memory)
}

impl<K, V, S> Executor<K, V, S> {
    /// Takes a step of what is no caller's, and tells what it has changed.
    pub fn step_nobodys<R: StepMachine<Node<K, V>>>(&mut self, row: &mut R) -> R::Progress
        requires { May Can Took value_at self.old.memory.memory (R.plan row.old) }
        ensures told { StepsObserved K V (R × R.Progress) self.old.memory.memory Nothing (R.plan row.old) self.new.memory.memory self.new.memory.changed (row.new, result) }
        ensures rest { self.new ≡ record self.old { memory = self.new.memory } }
    {
        step_telling(&mut self.memory, row)
    }
}
