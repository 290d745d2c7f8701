//! Steps of the machines within a call on a key, several at once.
ghost use Rattle.std.specs.Prelude.{◌≡◌, true, false};
ghost use Rattle.seize_words.specs.OneMemory.Mem.{Mem, Took, value_at};
ghost use Rattle.seize_words.specs.OneMemory.Plan.{Steps};
ghost use Rattle.seize.specs.declared.advance.Advance.TheVariants as progress;
ghost use Rattle.map_straight.specs.Given.ResizeCopier.{copier_plan};
ghost use Rattle.map_straight.specs.Given.ResizeDeclared.copier.Copier.{Copier};
ghost use Rattle.map_straight.specs.Given.ResizeDeclared.dispose.Dispose.{Dispose};
ghost use Rattle.map_straight.specs.Given.ResizeDeclared.dispose.Disposing.TheVariants as disposal;
ghost use Rattle.map_tables.specs.declared.table.Table.{Table};
ghost use Rattle.papaya_raw.specs.Call.{helped};
ghost use Rattle.papaya_raw.specs.declared.machines.answer.KeyAnswer.{KeyAnswer};
ghost use Rattle.papaya_raw.specs.declared.machines.call.Calling.TheVariants as at;
ghost use Rattle.owner_whole.specs.Strides.Ending.{Ends, Leads, Strides};
ghost use Rattle.owner_calls.specs.Owned.Inside.{answered, has_ended, helping, retiring, takes_more};
ghost use Rattle.owner_calls.specs.Owned.Machines.{on_key_after, on_key_plan};
ghost use Rattle.owner_calls.specs.declared.machines.OnKey.{OnKey};
ghost use Rattle.owner_calls.specs.declared.machines.Stop.TheVariants as stop;

use crate::machines::{OnKey, Stop};
use map_straight::copy_places;
use map_tables::{Equivalent, Hashes, Node, Table};
use papaya_raw::Yielding;
use papaya_raw::machines::{Calling, Copier, Dispose, Disposing, End, KeyAnswer};
use seize::rows::{Settle, Settled};
use seize::{Advance, StepMachine};
use seize_straight::reclaims;
use seize_words::Plain;
use std::hash::Hash;

/// How many steps of a machine within a call are taken at once at most.
const MANY: u64 = 1_000;

/// Whether a settling has ended that tells this. A value that was reclaimed is dropped.
fn has_ended<T: Drop>(told: Settled<T>) -> bool
    ensures { result ≡ has_ended told }
{
    match told {
        Settled::Done => true,
        Settled::Goes | Settled::Waits | Settled::Gave(_) => false,
    }
}

/// Takes steps of the retirement of a pair, up to its end, or so many, and answers whether it has ended.
#[inline(always)]
fn retires<K: Eq + Hash + Drop, V: Drop, Q: Equivalent<K>, S: Hashes<K>>(
    settle: &mut Settle,
    memory: &mut Plain<Node<K, V>>,
) -> bool
    requires { (u : OnKey K V Q S) × (answer : KeyAnswer) × (dispose : Dispose) × Ends (on_key_plan Q.Equivalent.equivalent K.eq S.hash) (retiring u answer dispose settle.old) memory.old }
    ensures over { (u : OnKey K V Q S) (answer : KeyAnswer) (dispose : Dispose) → result ≡ true
        → Strides (on_key_plan Q.Equivalent.equivalent K.eq S.hash) (retiring u answer dispose settle.old) memory.old memory.new (answered u answer, progress.Done (stop.Answered answer)) }
    ensures on { (u : OnKey K V Q S) (answer : KeyAnswer) (dispose : Dispose) → result ≡ false
        → Strides (on_key_plan Q.Equivalent.equivalent K.eq S.hash) (retiring u answer dispose settle.old) memory.old memory.new (retiring u answer dispose settle.new, progress.Goes) }
{
    for _ in 0..MANY {
        reclaims(settle, memory);
        let told = settle.step(memory);
        if has_ended(told) {
            return true;
        }
    }
    let last = settle.step(memory);
    has_ended(last)
}

/// Whether a copying that tells this takes a further step.
fn takes_more<T, A>(told: &Yielding<T, A>) -> bool
    ensures { result ≡ takes_more told.now }
{
    match told {
        Yielding::Goes | Yielding::Waits | Yielding::Gave(_) => true,
        Yielding::Done(_) | Yielding::Refused(_) => false,
    }
}

/// Takes steps of a copying, up to its end, or so many, and answers what the last one tells. Places of a chunk are copied by straight code.
#[inline(always)]
fn copies<K: Eq + Hash + Drop, V: Drop, Q: Equivalent<K>, S: Hashes<K>>(
    copier: &mut Copier,
    memory: &mut Plain<Node<K, V>>,
    hasher: &S,
) -> Yielding<Node<K, V>, Table>
    requires { (u : OnKey K V Q S) × (goal : Table) × (u.hasher.now ≡ hasher.now) × Ends (on_key_plan Q.Equivalent.equivalent K.eq S.hash) (helping u goal copier.old) memory.old }
    ensures { (u : OnKey K V Q S) (goal : Table) → u.hasher.now ≡ hasher.now
        → (c : Copier) × (m : Mem (Node K V)) × Leads (on_key_plan Q.Equivalent.equivalent K.eq S.hash) (helping u goal copier.old) memory.old (helping u goal c) m
        × Steps Took value_at m (copier_plan (S.hash hasher.now) c) memory.new (copier.new, result) }
{
    for _ in 0..MANY {
        copy_places::<K, V, S, Plain<Node<K, V>>>(copier, memory, hasher);
        let told = copier.step(memory, hasher);
        if !takes_more(&told) {
            return told;
        }
    }
    copier.step(memory, hasher)
}

impl<K: Eq + Hash + Drop, V: Drop, Q: Equivalent<K>, S: Hashes<K>> OnKey<'_, K, V, Q, S> {
    /// Goes on after steps of its help with a resize, by what the last one told.
    fn helped(&mut self, goal: Table, told: Yielding<Node<K, V>, Table>) -> Advance<Stop>
        ensures { (begun : OnKey K V Q S) (copier : Copier) → self.old ≡ helping begun goal copier → (self.new, result) ≡ on_key_after begun (helped begun.call goal (copier, told)) }
    {
        match told {
            Yielding::Goes | Yielding::Waits | Yielding::Gave(_) => Advance::Goes,
            Yielding::Done(_) => {
                self.call.trial = self.call.trial.on(goal, self.call.hash);
                self.call.stands = Calling::Probes;
                Advance::Goes
            }
            Yielding::Refused(fault) => {
                if self.call.own == 0 {
                    self.call.stands = Calling::Over(End::Refused(fault));
                    return Advance::Refused(fault);
                }
                self.call.stands = Calling::Drops(End::Refused(fault));
                Advance::Goes
            }
        }
    }

    /// Takes steps of its help with a resize.
    #[inline(always)]
    pub(crate) fn helps(&mut self, memory: &mut Plain<Node<K, V>>) -> Advance<Stop>
        requires helping { (copier : Copier) × (goal : Table) × (self.old.call.stands ≡ at.Helps copier goal) }
        requires ends { Ends (on_key_plan Q.Equivalent.equivalent K.eq S.hash) self.old memory.old }
        ensures { Strides (on_key_plan Q.Equivalent.equivalent K.eq S.hash) self.old memory.old memory.new (self.new, result) }
    {
        let hasher = self.hasher;
        let Calling::Helps { copier, goal } = &mut self.call.stands else {
            unreachable!()
        };
        let goal = *goal;
        let told = copies::<K, V, Q, S>(copier, memory, hasher);
        self.helped(goal, told)
    }

    /// Takes steps of the retirement of the pair that was there, where its disposal stands there.
    #[inline(always)]
    pub(crate) fn disposes(
        &mut self,
        memory: &mut Plain<Node<K, V>>,
        dispose: Dispose,
        answer: KeyAnswer,
        mut settle: Settle,
    ) -> Advance<Stop>
        requires disposing { self.old.call.stands ≡ at.Disposes dispose answer }
        requires retiring { dispose.stands ≡ disposal.Settles settle }
        requires ends { Ends (on_key_plan Q.Equivalent.equivalent K.eq S.hash) self.old memory.old }
        ensures { Strides (on_key_plan Q.Equivalent.equivalent K.eq S.hash) self.old memory.old memory.new (self.new, result) }
    {
        if retires::<K, V, Q, S>(&mut settle, memory) {
            self.call.stands = Calling::Over(End::Answered(answer));
            return Advance::Done(Stop::Answered(answer));
        }
        let dispose = Dispose {
            setting: dispose.setting,
            pair: dispose.pair,
            table: dispose.table,
            stands: Disposing::Settles(settle),
        };
        self.call.stands = Calling::Disposes { dispose, answer };
        Advance::Goes
    }
}
