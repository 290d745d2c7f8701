//! The call's own pair, the pairs that it disposes of, and lookups.
ghost use Rattle.std.specs.Prelude.{◌≡◌, ℕ};
ghost use Rattle.map_sweeps.specs.Given.SeizeWordsPlan.{May, Steps};
ghost use Rattle.papaya_raw.specs.CallPoints.{word_to, standing};
ghost use Rattle.papaya_raw.specs.Call.{makes, drops, looked, disposed, call_plan};
ghost use Rattle.papaya_raw.specs.declared.machines.call.Calling.TheVariants as at;

use crate::machines::answer::{Called, End, KeyAnswer};
use crate::machines::call::{Calling, KeyCall};
use map_sweeps::named::{Advance, Equivalent, Fault, Link, Memory, Node, Settled, StepMachine, h2};
use map_sweeps::named_sweeps::{Dispose, Lookup};
use std::hash::Hash;

/// Returns the word that links to a block of this number, by a hash.
pub fn link_to(block: u64, hash: u64) -> u64
    ensures { result ≡ word_to block hash }
{
    Link::to(block).wrapping_add(u64::from(h2(hash)) * 8)
}

impl<K, V, Q> KeyCall<K, V, Q> {
    /// Makes its own block. A refused make gives the pair back.
    pub(super) fn makes<M: Memory<Node<K, V>>>(&mut self, memory: &mut M) -> Called<Node<K, V>>
        requires { May M.can M.took M.shown memory.old (makes self.old) }
        ensures { Steps M.took M.shown memory.old (makes self.old) memory.new (self.new, result) }
    {
        let Some(pair) = self.unmade.take() else {
            return self.go_to(Calling::Roots);
        };
        match memory.make(pair, 0) {
            Ok(block) => {
                self.own = link_to(block, self.hash);
                self.go_to(Calling::Roots)
            }
            Err(pair) => {
                self.stands = Calling::Over(End::Refused(Fault::Memory));
                Called::Unstored(pair)
            }
        }
    }

    /// Takes its own block away, and hands its pair out.
    pub(super) fn drops<M: Memory<Node<K, V>>>(
        &mut self,
        memory: &mut M,
        end: End,
    ) -> Called<Node<K, V>>
        requires { May M.can M.took M.shown memory.old (drops self.old end) }
        ensures { Steps M.took M.shown memory.old (drops self.old end) memory.new (self.new, result) }
    {
        let pair = memory.take(Link::block_of(self.own));
        self.own = 0;
        self.stands = Calling::Over(end);
        Called::Unstored(pair)
    }

    /// Goes on after a step of the disposal.
    fn disposed(&mut self, answer: KeyAnswer, progress: Settled<Node<K, V>>) -> Called<Node<K, V>>
        ensures { (begun : KeyCall K V Q) (dispose : Dispose) → self.old ≡ standing begun (at.Disposes dispose answer) → (self.new, result) ≡ disposed begun answer (dispose, progress) }
    {
        match progress {
            Settled::Goes => Called::Goes,
            Settled::Waits => Called::Waits,
            Settled::Gave(value) => Called::Gave(value),
            Settled::Done => self.tell(answer),
        }
    }
}

impl<K: Eq + Hash, V, Q: Equivalent<K>> KeyCall<K, V, Q> {
    /// Takes a step of the disposal of the pair that was there, where it stands.
    pub(super) fn disposes<M: Memory<Node<K, V>>>(&mut self, memory: &mut M) -> Called<Node<K, V>>
        requires disposing { (dispose : Dispose) × (answer : KeyAnswer) × (self.old.stands ≡ at.Disposes dispose answer) }
        requires may { (hashes : K → ℕ) × May M.can M.took M.shown memory.old (call_plan Q.Equivalent.equivalent K.eq hashes self.old) }
        ensures { (hashes : K → ℕ) → Steps M.took M.shown memory.old (call_plan Q.Equivalent.equivalent K.eq hashes self.old) memory.new (self.new, result) }
    {
        let Calling::Disposes { dispose, answer } = &mut self.stands else {
            unreachable!()
        };
        let answer = *answer;
        let progress = dispose.step(memory);
        self.disposed(answer, progress)
    }

    /// Takes a step of the lookup, where it stands.
    pub(super) fn looks<M: Memory<Node<K, V>>>(&mut self, memory: &mut M) -> Called<Node<K, V>>
        requires looking { (lookup : Lookup) × (self.old.stands ≡ at.Looks lookup) }
        requires may { (hashes : K → ℕ) × May M.can M.took M.shown memory.old (call_plan Q.Equivalent.equivalent K.eq hashes self.old) }
        ensures { (hashes : K → ℕ) → Steps M.took M.shown memory.old (call_plan Q.Equivalent.equivalent K.eq hashes self.old) memory.new (self.new, result) }
    {
        let Some(asked) = &self.asked else {
            return self.tell(KeyAnswer::Absent);
        };
        let Calling::Looks(lookup) = &mut self.stands else {
            unreachable!()
        };
        let progress = lookup.step(memory, asked);
        self.looked(progress)
    }

    /// Goes on after a step of the lookup.
    fn looked(&mut self, progress: Advance<Option<u64>>) -> Called<Node<K, V>>
        ensures { (begun : KeyCall K V Q) (lookup : Lookup) → self.old ≡ standing begun (at.Looks lookup) → (self.new, result) ≡ looked begun (lookup, progress) }
    {
        match progress {
            Advance::Goes => Called::Goes,
            Advance::Waits => Called::Waits,
            Advance::Done(Some(found)) => self.tell(KeyAnswer::Found(found)),
            Advance::Done(None) => self.tell(KeyAnswer::Absent),
            Advance::Refused(fault) => self.finish(End::Refused(fault)),
        }
    }
}
