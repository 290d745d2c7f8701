//! The machines that one owner runs: a call on one key, a reservation, a refresh of its section.
ghost use Rattle.std.specs.Prelude.{◌≡◌};
ghost use Rattle.owner_calls.specs.Owned.Machines.{on_key_settled, for_room_settled, refreshes_settled};

use map_tables::{Equivalent, Hashes, Node};
use papaya_raw::Yielding;
use papaya_raw::machines::{Called, KeyAnswer, KeyCall, Reserve};
use seize::rows::{Defers, Leave, Settled};
use seize::{Advance, StepMachine};
use seize_words::Memory;
use std::hash::Hash;

/// How a call on one key stops.
#[derive(Clone, Copy)]
pub enum Stop {
    /// It has ended with this answer.
    Answered(KeyAnswer),
    /// It is to be told what to do with this pair, or where the key is missing.
    Asks(Option<u64>),
}

/// A call on one key, with the hasher of its map.
#[derive(Drop)]
pub struct OnKey<'a, K, V, Q, S> {
    /// The call.
    pub call: KeyCall<K, V, Q>,
    /// The hasher.
    pub hasher: &'a S,
    /// Its own pair, where it was not stored.
    pub unstored: Option<Node<K, V>>,
}

impl<K: Drop, V: Drop, Q, S> OnKey<'_, K, V, Q, S> {
    /// Goes on after a step of the call, by what that told. Within a section nothing is given back to a call.
    fn settled(&mut self, told: Called<Node<K, V>>) -> Advance<Stop>
        ensures { (self.new, result) ≡ on_key_settled self.old told }
    {
        match told {
            Called::Goes | Called::Waits | Called::Gave(_) => Advance::Goes,
            Called::Unstored(pair) => {
                self.unstored = Some(pair);
                Advance::Goes
            }
            Called::Asks(asked) => Advance::Done(Stop::Asks(asked)),
            Called::Done(answer) => Advance::Done(Stop::Answered(answer)),
            Called::Refused(fault) => Advance::Refused(fault),
        }
    }
}

impl<K: Eq + Hash + Drop, V: Drop, Q: Equivalent<K>, S: Hashes<K>> StepMachine<Node<K, V>>
    for OnKey<'_, K, V, Q, S> {
    ghost use Rattle.owner_calls.specs.Owned.Machines.{on_key_plan};

    type Progress = Advance<Stop>;

    ghost plan = { on_key_plan Q.Equivalent.equivalent K.eq S.hash };

    fn step<M: Memory<Node<K, V>>>(&mut self, memory: &mut M) -> Advance<Stop> {
        let told = self.call.step(memory, self.hasher);
        self.settled(told)
    }
}

/// A reservation, with the hasher of its map.
#[derive(Drop)]
pub struct ForRoom<'a, S> {
    /// The reservation.
    pub reserve: Reserve,
    /// The hasher.
    pub hasher: &'a S,
}

impl<S> ForRoom<'_, S> {
    /// Goes on after a step of the reservation, by what that told.
    fn settled<T: Drop>(&mut self, told: Yielding<T, ()>) -> Advance<()>
        ensures { (self.new, result) ≡ for_room_settled self.old told }
    {
        match told {
            Yielding::Goes | Yielding::Waits | Yielding::Gave(_) => Advance::Goes,
            Yielding::Done(()) => Advance::Done(()),
            Yielding::Refused(fault) => Advance::Refused(fault),
        }
    }
}

impl<K: Hash + Drop, V: Drop, S: Hashes<K>> StepMachine<Node<K, V>> for ForRoom<'_, S> {
    ghost use Rattle.owner_calls.specs.Owned.Machines.{for_room_plan};

    type Progress = Advance<()>;

    ghost plan = { for_room_plan S.hash };

    fn step<M: Memory<Node<K, V>>>(&mut self, memory: &mut M) -> Advance<()> {
        let told = self.reserve.step(memory, self.hasher);
        self.settled(told)
    }
}

/// A refresh of the owner's section. What it reclaims is dropped.
#[derive(Clone, Copy)]
pub struct OwnerRefresh {
    /// The refresh.
    pub leave: Leave,
}

impl OwnerRefresh {
    /// Goes on after a step of the row, by what that told.
    fn settled<T: Drop>(&mut self, told: Settled<T>) -> Advance<()>
        ensures { (self.new, result) ≡ refreshes_settled self.old told }
    {
        match told {
            Settled::Goes | Settled::Waits | Settled::Gave(_) => Advance::Goes,
            Settled::Done => Advance::Done(()),
        }
    }
}

impl<T: Defers + Drop> StepMachine<T> for OwnerRefresh {
    ghost use Rattle.owner_calls.specs.Owned.Machines.{refreshes_plan};

    type Progress = Advance<()>;

    ghost plan = { refreshes_plan T.defers };

    fn step<M: Memory<T>>(&mut self, memory: &mut M) -> Advance<()> {
        let told = self.leave.step(memory);
        self.settled(told)
    }
}
