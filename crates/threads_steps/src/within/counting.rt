//! A seat on an errand counts the pairs of a map.
ghost use Rattle.std.specs.Prelude.{◌≡◌, IfNone, IfSome, Ok};
ghost use Rattle.threads_rule.specs.Errands.Calling.{HasEnded, StepsTo};
ghost use Rattle.threads_rule.specs.Errands.Counting.{CountedSo, HasCounted, IsCounting, IsOfCounting, MayCount};
ghost use Rattle.threads_rule.specs.Errands.Looking.{StaysThere};
ghost use Rattle.threads_steps.specs.Made.{IsSameSeat};
ghost use Rattle.papaya_raw.specs.declared.machines.progress.Answer.TheVariants.{Count as Counted};
ghost use Rattle.papaya_raw.specs.declared.machines.progress.Progress.TheVariants.{Done, Goes};

use crate::within::Within;
use map_tables::{Hashes, Node};
use papaya_raw::machines::{Answer, Machine, Progress};
use std::hash::Hash;

/// Returns how many pairs were counted, if the counting has ended, by what its step tells.
fn counted<T: Drop>(told: Progress<T>) -> Option<u64>
    requires plain { IsOfCounting told }
    ensures ended { IfSome result (λ count. told ≡ Done (Counted count)) }
    ensures goes { IfNone result (told ≡ Goes) }
{
    match told {
        Progress::Goes => None,
        Progress::Done(Answer::Count(count)) => Some(count),
        Progress::Done(Answer::Key(_) | Answer::Reserved | Answer::Swept)
        | Progress::Asks(_)
        | Progress::Waits
        | Progress::Ready
        | Progress::Pair(_)
        | Progress::Gave(_)
        | Progress::Unstored(_)
        | Progress::Refused(_) => unreachable!(),
    }
}

impl<'a, K: Eq + Hash + Drop, V: Drop, S: Hashes<K>> Within<'a, K, V, S> {
    /// Adds the next shard of its counting.
    fn adds(&mut self, machine: &mut Machine<K, V>, hasher: &S) -> Progress<Node<K, V>>
        requires counts { IsCounting hasher.now machine.old self.old.seat.now.view }
        ensures told { CountedSo hasher.now machine.old machine.new result self.new.seat.now.view }
        ensures stepped { StepsTo K.eq S.hash hasher.now machine.old machine.new result self.old.seat.now.view self.new.seat.now.view }
        ensures same { IsSameSeat self.old self.new }
    {
        self.steps(machine, hasher)
    }

    /// Adds shards until its counting has ended, one a step, and answers how many pairs it has counted.
    fn adds_all(&mut self, hasher: &S, machine: &mut Machine<K, V>) -> u64
        requires counts { IsCounting hasher.now machine.old self.old.seat.now.view }
        ensures ended { HasEnded (Ok (Counted result)) self.old.seat.now.view self.new.seat.now.view }
        ensures stays { StaysThere self.old.seat.now.view self.new.seat.now.view }
        ensures same { IsSameSeat self.old self.new }
    {
        loop {
            let told = self.adds(machine, hasher);
            if let Some(count) = counted(told) {
                return count;
            }
        }
    }

    /// Counts the pairs of the map that it knows: nobody makes it wait, and it is not refused.
    pub fn counts(&mut self, hasher: &S, machine: &mut Machine<K, V>) -> u64
        requires may { MayCount K.eq S.hash hasher.now machine.old self.old.seat.now.view }
        ensures counted { HasCounted K.eq S.hash result self.old.seat.now.view self.new.seat.now.view }
        ensures same { IsSameSeat self.old self.new }
    {
        self.begins(machine);
        self.adds_all(hasher, machine)
    }
}
