//! A call helps a resize, or sees it through.
ghost use Rattle.std.specs.Prelude.{◌≡◌};
ghost use Rattle.map_sweeps.specs.Given.SeizeWordsPlan.{May, Steps};
ghost use Rattle.papaya_raw.specs.CallPoints.{standing};
ghost use Rattle.papaya_raw.specs.Call.{call_plan, helped, copied};
ghost use Rattle.papaya_raw.specs.declared.machines.call.Calling.TheVariants as at;

use crate::machines::answer::{Called, End};
use crate::machines::call::{Calling, KeyCall};
use map_sweeps::named::{Equivalent, Hashes, Memory, Node, Table};
use map_sweeps::named_sweeps::{Copier, Yielding};
use std::hash::Hash;

impl<K: Eq + Hash + Drop, V: Drop, Q: Equivalent<K>> KeyCall<K, V, Q> {
    /// Takes a step of the help with a resize, where it stands.
    pub(super) fn helps<S: Hashes<K>, M: Memory<Node<K, V>>>(
        &mut self,
        memory: &mut M,
        hasher: &S,
    ) -> Called<Node<K, V>>
        requires helping { (copier : Copier) × (goal : Table) × (self.old.stands ≡ at.Helps copier goal) }
        requires may { May M.can M.took M.shown memory.old (call_plan Q.Equivalent.equivalent K.eq (S.hash hasher.now) self.old) }
        ensures { Steps M.took M.shown memory.old (call_plan Q.Equivalent.equivalent K.eq (S.hash hasher.now) self.old) memory.new (self.new, result) }
    {
        let Calling::Helps { copier, goal } = &mut self.stands else {
            unreachable!()
        };
        let goal = *goal;
        let progress = copier.step(memory, hasher);
        self.after_help(goal, progress)
    }

    /// Takes a step of the copying of a whole table, where it stands.
    pub(super) fn copies<S: Hashes<K>, M: Memory<Node<K, V>>>(
        &mut self,
        memory: &mut M,
        hasher: &S,
    ) -> Called<Node<K, V>>
        requires copying { (copier : Copier) × (self.old.stands ≡ at.Copies copier) }
        requires may { May M.can M.took M.shown memory.old (call_plan Q.Equivalent.equivalent K.eq (S.hash hasher.now) self.old) }
        ensures { Steps M.took M.shown memory.old (call_plan Q.Equivalent.equivalent K.eq (S.hash hasher.now) self.old) memory.new (self.new, result) }
    {
        let Calling::Copies(copier) = &mut self.stands else {
            unreachable!()
        };
        let progress = copier.step(memory, hasher);
        self.copied(progress)
    }
}

impl<K: Drop, V: Drop, Q> KeyCall<K, V, Q> {
    /// Goes on after a step of the help.
    fn after_help(
        &mut self,
        goal: Table,
        progress: Yielding<Node<K, V>, Table>,
    ) -> Called<Node<K, V>>
        ensures { (begun : KeyCall K V Q) (copier : Copier) → self.old ≡ standing begun (at.Helps copier goal) → (self.new, result) ≡ helped begun goal (copier, progress) }
    {
        match progress {
            Yielding::Goes => Called::Goes,
            Yielding::Waits => Called::Waits,
            Yielding::Gave(value) => Called::Gave(value),
            Yielding::Done(_) => self.enter(goal),
            Yielding::Refused(fault) => self.end(End::Refused(fault)),
        }
    }

    /// Goes on after a step of the copying.
    fn copied(&mut self, progress: Yielding<Node<K, V>, Table>) -> Called<Node<K, V>>
        ensures { (begun : KeyCall K V Q) (copier : Copier) → self.old ≡ standing begun (at.Copies copier) → (self.new, result) ≡ copied begun (copier, progress) }
    {
        match progress {
            Yielding::Goes => Called::Goes,
            Yielding::Waits => Called::Waits,
            Yielding::Gave(value) => Called::Gave(value),
            Yielding::Done(table) => self.enter(table),
            Yielding::Refused(fault) => self.end(End::Refused(fault)),
        }
    }
}
