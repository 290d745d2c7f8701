//! The removal of a pair: its word is exchanged, it is counted, and disposed of.
ghost use Rattle.std.specs.Prelude.{◌≡◌};
ghost use Rattle.map_machines.specs.Dispose.{dispose_plan};
ghost use Rattle.map_sweeps.specs.Sweeps.Sweep.{tries, counts, disposed};
ghost use Rattle.map_machines.specs.Given.SeizeWordsPlan.{May, Steps, plan_as};

use crate::named_reserves::marks::TOMBSTONE;
use crate::named_reserves::{Dispose, Memory, Node, Settled, StepMachine, count};
use crate::sweep::{Sweep, Sweeping, Swept};

impl Sweep {
    /// Removes the pair of a word. Where another word is found, it goes on by that.
    pub(super) fn tries<T, M: Memory<T>>(&mut self, memory: &mut M, word: u64) -> Swept<T>
        requires { May M.can M.took M.shown memory.old (tries self.old word) }
        ensures { Steps M.took M.shown memory.old (tries self.old word) memory.new (self.new, result) }
    {
        match memory.exchange(self.table.at(self.place), word, TOMBSTONE) {
            Ok(_) => self.go_to(Sweeping::Counts { removed: word }),
            Err(found) => self.see(found),
        }
    }

    /// Counts one pair less.
    pub(super) fn counts<T, M: Memory<T>>(&mut self, memory: &mut M, removed: u64) -> Swept<T>
        requires { May M.can M.took M.shown memory.old (counts self.old removed) }
        ensures { Steps M.took M.shown memory.old (counts self.old removed) memory.new (self.new, result) }
    {
        count(self.setting, memory, removed);
        self.go_to(Sweeping::Disposes(Dispose::begin(self.setting, removed, self.table)))
    }

    /// Takes a step of the disposal of the pair. Then it goes on with the next place.
    pub(super) fn disposes<K, V, M: Memory<Node<K, V>>>(
        &mut self,
        memory: &mut M,
        mut dispose: Dispose,
    ) -> Swept<Node<K, V>>
        requires { May M.can M.took M.shown memory.old (plan_as (disposed self.old) (dispose_plan {K = K} {V = V} dispose)) }
        ensures { Steps M.took M.shown memory.old (plan_as (disposed self.old) (dispose_plan {K = K} {V = V} dispose)) memory.new (self.new, result) }
    {
        let progress = dispose.step(memory);
        self.disposed(dispose, progress)
    }

    /// Goes on after a step of the disposal.
    fn disposed<T>(&mut self, dispose: Dispose, progress: Settled<T>) -> Swept<T>
        ensures { (self.new, result) ≡ disposed self.old (dispose, progress) }
    {
        self.stands = Sweeping::Disposes(dispose);
        match progress {
            Settled::Goes => Swept::Goes,
            Settled::Waits => Swept::Waits,
            Settled::Gave(value) => Swept::Gave(value),
            Settled::Done => {
                self.go_on();
                self.tell()
            }
        }
    }
}
