//! A seat on an errand runs a call on one key that asks.
ghost use Rattle.std.specs.Prelude.{◌≡◌, ℕ, Some, Ok, Result, IfNone, IfSome, false};
ghost use Rattle.std.specs.Fn.{FnOnceReturns};
ghost use Rattle.threads_steps.specs.Asking.{HasAnswered, HasGone, IsOfCall, MakingSays, MayTest, NoneSaid, PausedSo, TestSays, WasReplied, makes_pair as kind_that_makes, removes_if as kind_that_tests, reply_of, progress_at};
ghost use Rattle.threads_rule.specs.Errands.Calling.{HasEnded, IsAsking, IsGoing, IsNoQuestion, IsUnderWay, MayDoAs, wanted_of};
ghost use Rattle.threads_kinds.specs.CallKinds.Kinds.{Kind, Stage, IsFit, PairIsVisible, stage_after};
ghost use Rattle.threads_rule.specs.Errands.Looking.{IsOfThem, StaysThere};
ghost use Rattle.threads_steps.specs.Made.{IsSameSeat};
ghost use Rattle.threads_steps.specs.declared.within.asking.Halt.TheVariants.{Ended};
ghost use Rattle.seize_words.specs.declared.fault.Fault.{Fault as AFault};
ghost use Rattle.papaya_raw.specs.declared.machines.progress.Answer.{Answer as AnAnswer};
ghost use Rattle.seize_words.specs.OneMemory.Word.{block_in};
ghost use Rattle.map_measures.specs.ByKey.ByKey.{by_key};
ghost use Rattle.map_tables.specs.declared.node.Node.TheVariants.{Pair};
ghost use Rattle.threads_rule.specs.Views.Looks.{shown_in};
ghost use Rattle.threads_rule.specs.Views.Begun.{replied};
ghost use Rattle.threads_rule.specs.declared.view.Map.{Map};
ghost use Rattle.threads_rule.specs.declared.view.SeatWork.TheVariants.{Calls};

use crate::turns::{Says, Telling};
use crate::waiting::{Sleepers, Waiter};
use crate::within::{Ran, Within};
use map_tables::{Equivalent, Hashes, Node};
use papaya_raw::machines::{Answer, Machine, MachineReply, Progress};
use seize_words::{Fault, Link, Look};
use std::hash::Hash;
use std::marker::Brand;
use std::sync::Wait;

/// How far a call has come that was run on.
pub enum Halt {
    /// It asks what to do with the pair of this word, or where the key is missing.
    Asks(Option<u64>),
    /// It has ended so.
    Ended(Result<Answer, Fault>),
}

/// Where a call pauses, if it does, by what its step tells. What that hands back is dropped.
fn paused<T: Drop>(told: Progress<T>) -> Option<Halt>
    requires plain { IsOfCall told }
    ensures paused { IfSome result (λ pause. told ≡ progress_at pause) }
    ensures goes { IfNone result (IsGoing told × IsNoQuestion told) }
{
    match told {
        Progress::Goes | Progress::Waits | Progress::Gave(_) | Progress::Unstored(_) => None,
        Progress::Asks(pair) => Some(Halt::Asks(pair)),
        Progress::Done(answer) => Some(Halt::Ended(Ok(answer))),
        Progress::Refused(fault) => Some(Halt::Ended(Err(fault))),
        Progress::Ready | Progress::Pair(_) => unreachable!(),
    }
}

/// Returns how a call has ended that does not ask again.
fn outcome(pause: Halt) -> Result<Answer, Fault>
    requires ended { (answer : Result AnAnswer AFault) × (pause ≡ Ended answer) }
    ensures { pause ≡ Ended result }
{
    match pause {
        Halt::Ended(told) => told,
        Halt::Asks(_) => unreachable!(),
    }
}

/// A reply was taken.
pub(super) fn taken<V: Drop>(back: Result<(), MachineReply<V>>)
    requires taken { back ≡ Ok tt }
{
    match back {
        Ok(()) => {}
        Err(_) => unreachable!(),
    }
}

/// What a call is told by the answer of a test.
pub(super) fn said<V>(yes: bool) -> MachineReply<V>
    ensures { result ≡ reply_of yes }
{
    if yes {
        MachineReply::Yes
    } else {
        MachineReply::No
    }
}

/// Returns the word of the pair that a call asks with.
fn word_of(pair: Option<u64>) -> u64
    requires there { (word : ℕ) × (pair ≡ Some word) }
    ensures { pair ≡ Some result }
{
    match pair {
        Some(word) => word,
        None => unreachable!(),
    }
}

impl<'a, K: Eq + Hash + Drop, V: Drop, S: Hashes<K>> Within<'a, K, V, S> {
    /// Tells its call this, as it is picked by these.
    pub(super) fn tells_as<B: Says<K, V>, Q>(
        &mut self,
        _machine: &Machine<K, V, Q>,
        _reply: &MachineReply<V>,
    )
        requires knows { (map : Map S) × (self.old.seat.now.view.map ≡ Some map) }
        requires works { self.old.seat.now.view.work ≡ Calls B.machine }
        ensures told { self.new.seat.now.view ≡ replied self.old.seat.now.view B.machine B.reply }
        ensures same { IsSameSeat self.old self.new }
    {
        self.blocks.turn::<Telling<B>>(&mut *self.seat);
    }

    /// Tells its call, which asks, something that fits, with whichever form of a key it was asked.
    fn tells_by<Q: Equivalent<K>>(
        &mut self,
        _hasher: &S,
        machine: &mut Machine<K, V, Q>,
        pair: Option<u64>,
        reply: MachineReply<V>,
    )
        requires asks { (k : Kind) × (s : Stage) × IsAsking k s _hasher.now pair (by_key Q.stands_for machine.old) self.old.seat.now.view × IsFit k.takes s.told pair reply }
        ensures goes { (k : Kind) (s : Stage) → IsAsking k s _hasher.now pair (by_key Q.stands_for machine.old) self.old.seat.now.view → IsFit k.takes s.told pair reply
            → IsUnderWay k (stage_after s pair reply) _hasher.now (by_key Q.stands_for machine.new) self.new.seat.now.view }
        ensures told { self.new.seat.now.view ≡ replied self.old.seat.now.view (by_key Q.stands_for machine.old) reply }
        ensures same { IsSameSeat self.old self.new }
    {
        self.tells_as::<Brand, Q>(machine, &reply);
        let back = machine.reply(reply);
        taken(back);
    }

    /// Tells its call, which asks, something that fits.
    pub fn tells(
        &mut self,
        hasher: &S,
        machine: &mut Machine<K, V>,
        pair: Option<u64>,
        reply: MachineReply<V>,
    )
        requires asks { (k : Kind) × (s : Stage) × IsAsking k s hasher.now pair machine.old self.old.seat.now.view × IsFit k.takes s.told pair reply }
        ensures goes { (k : Kind) (s : Stage) → IsAsking k s hasher.now pair machine.old self.old.seat.now.view → IsFit k.takes s.told pair reply → IsUnderWay k (stage_after s pair reply) hasher.now machine.new self.new.seat.now.view }
        ensures told { self.new.seat.now.view ≡ replied self.old.seat.now.view machine.old reply }
        ensures same { IsSameSeat self.old self.new }
    {
        self.tells_by(hasher, machine, pair, reply);
    }

    /// Takes the steps of its call until that asks, or has ended, with whichever form of a key it was asked. How many it takes is up to the others.
    fn runs_on_by<R: Wait, Q: Equivalent<K>>(
        &mut self,
        rt: &R,
        sleepers: &Sleepers,
        hasher: &S,
        machine: &mut Machine<K, V, Q>,
    ) -> Halt
        requires calls { (k : Kind) × (s : Stage) × IsUnderWay k s hasher.now (by_key Q.stands_for machine.old) self.old.seat.now.view }
        ensures paused { (k : Kind) (s : Stage) → IsUnderWay k s hasher.now (by_key Q.stands_for machine.old) self.old.seat.now.view
            → PausedSo k s hasher.now (by_key Q.stands_for machine.new) result self.old.seat.now.view self.new.seat.now.view }
        ensures gone { (n : ℕ) × HasGone K.eq S.hash NoneSaid n self.old.seat.now.view self.new.seat.now.view }
        ensures them { IsOfThem self.old.seat.now.view self.new.seat.now.view }
        ensures stays { StaysThere self.old.seat.now.view self.new.seat.now.view }
        ensures same { IsSameSeat self.old self.new }
    {
        let mut waiter = Waiter::new(sleepers);
        for _ in rt.forever() {
            let told = self.steps_by(machine, hasher);
            waiter.heeds(rt, &told, machine);
            if let Some(pause) = paused(told) {
                return pause;
            }
        }
        unreachable!()
    }

    /// Takes the steps of its call until that asks, or has ended. How many it takes is up to the others.
    pub fn runs_on<R: Wait>(
        &mut self,
        rt: &R,
        sleepers: &Sleepers,
        hasher: &S,
        machine: &mut Machine<K, V>,
    ) -> Halt
        requires calls { (k : Kind) × (s : Stage) × IsUnderWay k s hasher.now machine.old self.old.seat.now.view }
        ensures paused { (k : Kind) (s : Stage) → IsUnderWay k s hasher.now machine.old self.old.seat.now.view → PausedSo k s hasher.now machine.new result self.old.seat.now.view self.new.seat.now.view }
        ensures gone { (n : ℕ) × HasGone K.eq S.hash NoneSaid n self.old.seat.now.view self.new.seat.now.view }
        ensures them { IsOfThem self.old.seat.now.view self.new.seat.now.view }
        ensures stays { StaysThere self.old.seat.now.view self.new.seat.now.view }
        ensures same { IsSameSeat self.old self.new }
    {
        self.runs_on_by(rt, sleepers, hasher, machine)
    }

    /// Tells its call, which asks where the key is missing, the value that was made, and runs it to its end.
    fn stores_made<R: Wait>(
        &mut self,
        rt: &R,
        sleepers: &Sleepers,
        hasher: &S,
        machine: &mut Machine<K, V>,
        pair: Option<u64>,
        value: V,
    ) -> Ran<K, V>
        requires asks { (s : Stage) × (s.told ≡ false) × IsAsking kind_that_makes s hasher.now pair machine.old self.old.seat.now.view }
        ensures ended { HasEnded result.told self.old.seat.now.view self.new.seat.now.view }
        ensures gone { (n : ℕ) × HasGone K.eq S.hash (MakingSays (λ made. made ≡ value)) n self.old.seat.now.view self.new.seat.now.view }
        ensures stays { StaysThere self.old.seat.now.view self.new.seat.now.view }
        ensures same { IsSameSeat self.old self.new }
    {
        self.tells(hasher, machine, pair, MachineReply::Insert(value));
        let pause = self.runs_on(rt, sleepers, hasher, machine);
        let told = outcome(pause);
        self.ran(told, None)
    }

    /// Stores a value that is made where the key is missing. It asks once at most.
    pub fn makes_pair<R: Wait, F: FnOnce() -> V>(
        &mut self,
        rt: &R,
        sleepers: &Sleepers,
        hasher: &S,
        machine: &mut Machine<K, V>,
        make: F,
    ) -> Ran<K, V>
        requires may { (s : Stage) × (s.told ≡ false) × MayDoAs K.eq S.hash kind_that_makes s hasher.now machine.old self.old.seat.now.view }
        requires callable { F.pre make }
        ensures answered { HasAnswered K.eq S.hash (MakingSays (FnOnceReturns F.FnOnce make tt)) (wanted_of machine.old) result.told self.old.seat.now.view self.new.seat.now.view }
        ensures same { IsSameSeat self.old self.new }
    {
        self.begins(machine);
        match self.runs_on(rt, sleepers, hasher, machine) {
            Halt::Ended(told) => self.ran(told, None),
            Halt::Asks(pair) => {
                let value = make();
                self.stores_made(rt, sleepers, hasher, machine, pair, value)
            }
        }
    }

    /// Returns what a test says of the pair of a word that it shows.
    fn tested<F: Fn(&K, &V) -> bool>(&self, word: u64, test: &F) -> bool
        requires callable { F.IsAlwaysCallable test.now }
        requires shown { PairIsVisible (shown_in self.now.seat.now.view.held) word }
        ensures tests { (key : K) (value : V) → shown_in self.now.seat.now.view.held (block_in word) ≡ Some (Pair key value) → MayTest F.Fn test.now key value result }
    {
        match self.value(Link::block_of(word)) {
            Node::Pair(key, value) => test(key, value),
            Node::Table { .. } | Node::Shards => unreachable!(),
        }
    }

    /// Tells its call, which asks, what a test says of the pair that it asks with.
    fn says<Q: Equivalent<K>, F: Fn(&K, &V) -> bool>(
        &mut self,
        hasher: &S,
        machine: &mut Machine<K, V, Q>,
        pair: Option<u64>,
        test: &F,
    )
        requires asks { (s : Stage) × IsAsking kind_that_tests s hasher.now pair (by_key Q.stands_for machine.old) self.old.seat.now.view }
        requires callable { F.IsAlwaysCallable test.now }
        ensures goes { (s : Stage) → IsAsking kind_that_tests s hasher.now pair (by_key Q.stands_for machine.old) self.old.seat.now.view → IsUnderWay kind_that_tests s hasher.now (by_key Q.stands_for machine.new) self.new.seat.now.view }
        ensures told { WasReplied (TestSays (MayTest F.Fn test.now)) self.old.seat.now.view self.new.seat.now.view }
        ensures same { IsSameSeat self.old self.new }
    {
        let word = word_of(pair);
        let yes = self.tested(word, test);
        self.tells_by(hasher, machine, pair, said(yes));
    }

    /// Removes the pair of the key, if this test says yes of it. It asks again for each other pair that it meets.
    pub fn removes_if<R: Wait, Q: Equivalent<K>, F: Fn(&K, &V) -> bool>(
        &mut self,
        rt: &R,
        sleepers: &Sleepers,
        hasher: &S,
        machine: &mut Machine<K, V, Q>,
        test: &F,
    ) -> Ran<K, V>
        requires may { (s : Stage) × MayDoAs K.eq S.hash kind_that_tests s hasher.now (by_key Q.stands_for machine.old) self.old.seat.now.view }
        requires callable { F.IsAlwaysCallable test.now }
        ensures answered { HasAnswered K.eq S.hash (TestSays (MayTest F.Fn test.now)) (wanted_of (by_key Q.stands_for machine.old)) result.told self.old.seat.now.view self.new.seat.now.view }
        ensures same { IsSameSeat self.old self.new }
    {
        self.begins_on_as::<Brand, Machine<K, V, Q>>(machine);
        for _ in rt.forever() {
            match self.runs_on_by(rt, sleepers, hasher, machine) {
                Halt::Ended(told) => return self.ran(told, None),
                Halt::Asks(pair) => self.says(hasher, machine, pair, test),
            }
        }
        unreachable!()
    }
}
