//! A call of a map under way, whichever it is.
ghost use Rattle.std.specs.Prelude.{◌≡◌};
ghost use Rattle.papaya_raw.specs.Call.{call_plan};
ghost use Rattle.map_sweeps.specs.Reserves.Reserve.{reserve_plan};
ghost use Rattle.papaya_raw.specs.Machine.{called, reserved, swept, counted, machine_plan, sweep_replied, sweep_asked, machine_replied, machine_asked};
ghost use Rattle.papaya_raw.specs.declared.machines.machine.Machine.TheVariants as kinds;
ghost use Rattle.map_sweeps.specs.Given.ResizeSum.{sum_plan};
ghost use Rattle.map_sweeps.specs.Sweeps.Sweep.{sweep_plan};
ghost use Rattle.map_sweeps.specs.Given.SeizeWordsPlan.{May, Steps, plan_as};

use crate::machines::asking::MachineReply;
use crate::machines::call::KeyCall;
use crate::machines::progress::Progress;
use map_sweeps::named::{Equivalent, Hashes, Memory, Node};
use map_sweeps::named_sweeps::{Reserve, Sum};
use map_sweeps::{Sweep, Sweeping};
use std::hash::Hash;

/// A call of a map under way, whichever it is. It begins as the machine of its kind: `Machine::Key(KeyCall::get(setting, hash, key))`, or
/// `Machine::Sweep(Sweep::walk(setting))`.
#[derive(Drop)]
pub enum Machine<K, V, Q = K> {
    /// A call on one key.
    Key(KeyCall<K, V, Q>),
    /// A reservation of room for further pairs.
    Reserve(Reserve),
    /// A walk, a clearing or a retaining.
    Sweep(Sweep),
    /// A counting of the pairs, for `len` and `is_empty`.
    Count(Sum),
}

/// Tells a sweep that asks whether the pair is to be kept: yes keeps it. Any other reply is handed back.
fn reply_to<V: Drop>(sweep: &mut Sweep, reply: MachineReply<V>) -> Result<(), MachineReply<V>>
    ensures { (sweep.new, result) ≡ sweep_replied sweep.old reply }
{
    match (sweep.stands, reply) {
        (Sweeping::Asks { .. }, MachineReply::Yes) => sweep.reply(true),
        (Sweeping::Asks { .. }, MachineReply::No) => sweep.reply(false),
        (_, reply) => return Err(reply),
    }
    Ok(())
}

/// Asks a walk that is ready for its next pair, and answers whether it was.
fn ask(sweep: &mut Sweep) -> bool
    ensures { (sweep.new, result) ≡ sweep_asked sweep.old }
{
    let ready = matches!(sweep.stands, Sweeping::Ready);
    sweep.next();
    ready
}

impl<K, V, Q> Machine<K, V, Q> {
    /// Takes a step of a counting.
    fn counts<M: Memory<Node<K, V>>>(sum: &mut Sum, memory: &mut M) -> Progress<Node<K, V>>
        requires { May M.can M.took M.shown memory.old (plan_as (counted {K = K} {V = V} {Q = Q}) (sum_plan sum.old)) }
        ensures { Steps M.took M.shown memory.old (plan_as (counted {K = K} {V = V} {Q = Q}) (sum_plan sum.old)) memory.new (kinds.Count sum.new, result) }
    {
        let progress = map_sweeps::named::StepMachine::step(sum, memory);
        Progress::of_counting(progress)
    }

    /// Asks a walk that is ready for its next pair: its next steps come to that pair, or say that there is none. It answers whether
    /// it was asked. Nothing changes where it is no walk, or is not ready.
    pub fn next(&mut self) -> bool
        ensures { (self.new, result) ≡ machine_asked self.old }
    {
        match self {
            Machine::Sweep(sweep) => ask(sweep),
            Machine::Key(_) | Machine::Reserve(_) | Machine::Count(_) => false,
        }
    }
}

impl<K: Drop, V: Drop, Q> Machine<K, V, Q> {
    /// Takes a step of a reservation.
    fn reserves<S: Hashes<K>, M: Memory<Node<K, V>>>(
        reserve: &mut Reserve,
        memory: &mut M,
        hasher: &S,
    ) -> Progress<Node<K, V>>
        requires { May M.can M.took M.shown memory.old (plan_as (reserved {K = K} {V = V} {Q = Q}) (reserve_plan (S.hash hasher.now) reserve.old)) }
        ensures { Steps M.took M.shown memory.old (plan_as (reserved {K = K} {V = V} {Q = Q}) (reserve_plan (S.hash hasher.now) reserve.old)) memory.new (kinds.Reserve reserve.new, result) }
    {
        let outcome = reserve.step(memory, hasher);
        Progress::of_outcome(outcome)
    }

    /// Takes a step of a sweep.
    fn sweeps<S: Hashes<K>, M: Memory<Node<K, V>>>(
        sweep: &mut Sweep,
        memory: &mut M,
        hasher: &S,
    ) -> Progress<Node<K, V>>
        requires { May M.can M.took M.shown memory.old (plan_as (swept {K = K} {V = V} {Q = Q}) (sweep_plan (S.hash hasher.now) sweep.old)) }
        ensures { Steps M.took M.shown memory.old (plan_as (swept {K = K} {V = V} {Q = Q}) (sweep_plan (S.hash hasher.now) sweep.old)) memory.new (kinds.Sweep sweep.new, result) }
    {
        let swept = sweep.step(memory, hasher);
        Progress::of_swept(swept)
    }

    /// Tells it what it asks for. Its next steps go on from there. It hands back a reply that it does not take: where it asks for
    /// nothing, or for a reply of another kind. Nothing changes then.
    pub fn reply(&mut self, reply: MachineReply<V>) -> Result<(), MachineReply<V>>
        ensures { (self.new, result) ≡ machine_replied self.old reply }
    {
        match self {
            Machine::Key(call) => call.reply(reply),
            Machine::Sweep(sweep) => reply_to(sweep, reply),
            Machine::Reserve(_) | Machine::Count(_) => Err(reply),
        }
    }
}

impl<K: Eq + Hash + Drop, V: Drop, Q: Equivalent<K>> Machine<K, V, Q> {
    /// Takes a step of a call on one key.
    fn calls<S: Hashes<K>, M: Memory<Node<K, V>>>(
        call: &mut KeyCall<K, V, Q>,
        memory: &mut M,
        hasher: &S,
    ) -> Progress<Node<K, V>>
        requires { May M.can M.took M.shown memory.old (plan_as called (call_plan Q.Equivalent.equivalent K.eq (S.hash hasher.now) call.old)) }
        ensures { Steps M.took M.shown memory.old (plan_as called (call_plan Q.Equivalent.equivalent K.eq (S.hash hasher.now) call.old)) memory.new (kinds.Key call.new, result) }
    {
        let told = call.step(memory, hasher);
        Progress::of_called(told)
    }

    /// Takes one step: at most one operation. The hasher gives the hash of each key that is copied. A call that has ended says again how. Whatever others have
    /// under way, a step that goes on lowers the call's numbers, and one that waits does so for a reason: `law` of owner_whole. What it looks at is there and
    /// held: `law` of many_acts.
    pub fn step<S: Hashes<K>, M: Memory<Node<K, V>>>(
        &mut self,
        memory: &mut M,
        hasher: &S,
    ) -> Progress<Node<K, V>>
        requires { May M.can M.took M.shown memory.old (machine_plan Q.Equivalent.equivalent K.eq (S.hash hasher.now) self.old) }
        ensures { Steps M.took M.shown memory.old (machine_plan Q.Equivalent.equivalent K.eq (S.hash hasher.now) self.old) memory.new (self.new, result) }
    {
        match self {
            Machine::Key(call) => Self::calls(call, memory, hasher),
            Machine::Reserve(reserve) => Self::reserves(reserve, memory, hasher),
            Machine::Sweep(sweep) => Self::sweeps(sweep, memory, hasher),
            Machine::Count(sum) => Self::counts(sum, memory),
        }
    }
}
