//! A sweep over all pairs of a map, as a machine that one owner runs.
ghost use Rattle.std.specs.Prelude.{◌≡◌};
ghost use Rattle.owner_calls.specs.Sifts.Sweeping.{over_pairs_settled};

use map_tables::{Hashes, Node};
use papaya_raw::machines::{Sweep, Swept};
use seize::{Advance, StepMachine};
use seize_words::Memory;
use std::hash::Hash;

/// How a sweep stops.
#[derive(Clone, Copy)]
pub enum Pause {
    /// It has ended.
    Ended,
    /// It is to be asked for the next pair of a walk.
    Ready,
    /// This is the next pair of a walk.
    Shows(u64),
    /// It is to be told whether this pair is to be kept.
    Asks(u64),
}

/// A sweep over all pairs, with the hasher of its map.
#[derive(Drop)]
pub struct OverPairs<'a, S> {
    /// The sweep.
    pub sweep: Sweep,
    /// The hasher.
    pub hasher: &'a S,
}

impl<S> OverPairs<'_, S> {
    /// Goes on after a step of the sweep, by what that told. What it gives back is dropped.
    fn settled<T: Drop>(&mut self, told: Swept<T>) -> Advance<Pause>
        ensures { (self.new, result) ≡ over_pairs_settled self.old told }
    {
        match told {
            Swept::Goes | Swept::Waits | Swept::Gave(_) => Advance::Goes,
            Swept::Ready => Advance::Done(Pause::Ready),
            Swept::Pair(word) => Advance::Done(Pause::Shows(word)),
            Swept::Asks(word) => Advance::Done(Pause::Asks(word)),
            Swept::Done => Advance::Done(Pause::Ended),
            Swept::Refused(fault) => Advance::Refused(fault),
        }
    }
}

impl<K: Hash + Drop, V: Drop, S: Hashes<K>> StepMachine<Node<K, V>> for OverPairs<'_, S> {
    ghost use Rattle.owner_calls.specs.Sifts.Sweeping.{over_pairs_plan};

    type Progress = Advance<Pause>;

    ghost plan = { over_pairs_plan S.hash };

    fn step<M: Memory<Node<K, V>>>(&mut self, memory: &mut M) -> Advance<Pause> {
        let told = self.sweep.step(memory, self.hasher);
        self.settled(told)
    }
}
