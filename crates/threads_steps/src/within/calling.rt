//! A seat on an errand runs a call, whichever it is.
ghost use Rattle.std.specs.Prelude.{◌≡◌, ℕ, false, Some, IfNone, IfOk, IfSome};
ghost use Rattle.threads_rule.specs.Errands.Calling.{CalledSo, HasCalled, HasEnded, IsAnswerBy, IsBack, IsCalling, IsGoing, IsNoQuestion, MayCall, MayStep, StepsTo, handed_by, outcome_of, sort_of, wanted_of};
ghost use Rattle.threads_rule.specs.Errands.Looking.{Begins, StaysThere};
ghost use Rattle.threads_steps.specs.Made.{IsSameSeat};
ghost use Rattle.threads_steps.specs.Steps.{HasStepped};
ghost use Rattle.threads_steps.specs.Storing.{Since};
ghost use Rattle.map_measures.specs.ByKey.ByKey.{by_key};
ghost use Rattle.map_tables.specs.declared.node.Node.{Node};
ghost use Rattle.threads_rule.specs.Views.Told.{pair_in};
ghost use Rattle.threads_rule.specs.Views.Rule.{MayWant, section_of};
ghost use Rattle.threads_rule.specs.declared.view.Map.{Map};
ghost use Rattle.threads_rule.specs.declared.view.SeatWork.TheVariants.{Nothing as NoWork};

use crate::turns::Stepping;
use crate::waiting::{Sleepers, Waiter};
use crate::within::Within;
use map_tables::{Equivalent, Hashes, Node};
use papaya_raw::machines::{Answer, Machine, Progress};
use seize_words::Fault;
use std::hash::Hash;
use std::marker::Brand;
use std::sync::Wait;

/// What a call has come to.
pub struct Ran<K, V> {
    /// What it has told last.
    pub told: Result<Answer, Fault>,
    /// Its own pair, where that was not stored.
    pub unstored: Option<Node<K, V>>,
    /// Where to look for numbers next.
    pub near: u64,
}

/// Returns how a call has ended, if it has, by what its step tells. What that hands back is kept.
pub fn ended<T: Drop>(told: Progress<T>, unstored: &mut Option<T>) -> Option<Result<Answer, Fault>>
    requires plain { IsNoQuestion told }
    ensures ended { IfSome result (λ answer. told ≡ outcome_of answer) }
    ensures goes { IfNone result (IsGoing told) }
    ensures unstored { unstored.new ≡ handed_by told unstored.old }
{
    match told {
        Progress::Goes | Progress::Waits | Progress::Gave(_) => None,
        Progress::Unstored(pair) => {
            *unstored = Some(pair);
            None
        }
        Progress::Done(answer) => Some(Ok(answer)),
        Progress::Refused(fault) => Some(Err(fault)),
        Progress::Asks(_) | Progress::Ready | Progress::Pair(_) => unreachable!(),
    }
}

impl<'a, K: Eq + Hash + Drop, V: Drop, S: Hashes<K>> Within<'a, K, V, S> {
    /// Begins a step: no operation was made yet.
    fn begins_step(&mut self)
        ensures none { self.new.made ≡ false }
        ensures view { self.new.seat.now.view ≡ self.old.seat.now.view }
        ensures same { IsSameSeat self.old self.new }
    {
        self.made = false;
    }

    /// Takes the next step of its call, whichever that is, and with whichever form of a key it is asked.
    pub(super) fn steps_by<Q: Equivalent<K>>(
        &mut self,
        machine: &mut Machine<K, V, Q>,
        hasher: &S,
    ) -> Progress<Node<K, V>>
        requires may { MayStep hasher.now (by_key Q.stands_for machine.old) self.old.seat.now.view }
        ensures by { HasStepped K.eq S.hash self.old.seat.now.view self.new.seat.now.view }
        ensures stepped { StepsTo K.eq S.hash hasher.now (by_key Q.stands_for machine.old) (by_key Q.stands_for machine.new) result self.old.seat.now.view self.new.seat.now.view }
        ensures same { IsSameSeat self.old self.new }
    {
        self.begins_step();
        let told = machine.step(self, hasher);
        if self.made {
            return told;
        }
        self.blocks.turn::<Stepping>(&mut *self.seat);
        told
    }

    /// Takes the next step of its call, whichever that is.
    pub fn steps(&mut self, machine: &mut Machine<K, V>, hasher: &S) -> Progress<Node<K, V>>
        requires may { MayStep hasher.now machine.old self.old.seat.now.view }
        ensures by { HasStepped K.eq S.hash self.old.seat.now.view self.new.seat.now.view }
        ensures stepped { StepsTo K.eq S.hash hasher.now machine.old machine.new result self.old.seat.now.view self.new.seat.now.view }
        ensures same { IsSameSeat self.old self.new }
    {
        self.steps_by(machine, hasher)
    }

    /// Takes the next step of its call, which asks nothing, with whichever form of a key it is asked.
    pub fn calls_by<Q: Equivalent<K>>(
        &mut self,
        machine: &mut Machine<K, V, Q>,
        hasher: &S,
    ) -> Progress<Node<K, V>>
        requires calls { IsCalling hasher.now (by_key Q.stands_for machine.old) self.old.seat.now.view }
        ensures told { CalledSo hasher.now (by_key Q.stands_for machine.new) result self.new.seat.now.view }
        ensures like { sort_of (by_key Q.stands_for machine.new) ≡ sort_of (by_key Q.stands_for machine.old) }
        ensures stepped { StepsTo K.eq S.hash hasher.now (by_key Q.stands_for machine.old) (by_key Q.stands_for machine.new) result self.old.seat.now.view self.new.seat.now.view }
        ensures same { IsSameSeat self.old self.new }
    {
        self.steps_by(machine, hasher)
    }

    /// Takes the next step of its call, which asks nothing.
    fn calls(&mut self, machine: &mut Machine<K, V>, hasher: &S) -> Progress<Node<K, V>>
        requires calls { IsCalling hasher.now machine.old self.old.seat.now.view }
        ensures told { CalledSo hasher.now machine.new result self.new.seat.now.view }
        ensures like { sort_of machine.new ≡ sort_of machine.old }
        ensures stepped { StepsTo K.eq S.hash hasher.now machine.old machine.new result self.old.seat.now.view self.new.seat.now.view }
        ensures same { IsSameSeat self.old self.new }
    {
        self.steps(machine, hasher)
    }

    /// What its call has come to.
    pub(super) fn ran(&self, told: Result<Answer, Fault>, unstored: Option<Node<K, V>>) -> Ran<K, V>
        ensures told { result.told ≡ told }
        ensures unstored { result.unstored ≡ unstored }
    {
        Ran {
            told,
            unstored,
            near: self.near,
        }
    }

    /// Takes the steps of its call until it has ended, and answers how, and the call's own pair where that was not stored, or was handed back before. How many steps it takes is up to the others.
    pub fn runs<R: Wait>(
        &mut self,
        rt: &R,
        sleepers: &Sleepers,
        hasher: &S,
        machine: &mut Machine<K, V>,
        handed: Option<Node<K, V>>,
    ) -> Ran<K, V>
        requires calls { IsCalling hasher.now machine.old self.old.seat.now.view }
        ensures ended { HasEnded result.told self.old.seat.now.view self.new.seat.now.view }
        ensures fits { IfOk result.told (IsAnswerBy machine.old) }
        ensures back { (pair : Node K V) → Since K.eq (S.hash hasher.now) pair machine.old handed → pair_in self.old.seat.now.view.calls ≡ Some pair
            → IsBack pair result.told result.unstored }
        ensures stays { StaysThere self.old.seat.now.view self.new.seat.now.view }
        ensures same { IsSameSeat self.old self.new }
    {
        let mut unstored = handed;
        let mut waiter = Waiter::new(sleepers);
        for _ in rt.forever() {
            let told = self.calls(machine, hasher);
            waiter.heeds(rt, &told, machine);
            if let Some(answer) = ended(told, &mut unstored) {
                return self.ran(answer, unstored);
            }
        }
        unreachable!()
    }

    /// Begins this call on the map that it knows, within its section.
    pub fn begins(&mut self, machine: &Machine<K, V>)
        requires inside { (t : ℕ) × (section_of self.old.seat.now.view.under self.old.seat.now.view.slot ≡ Some t) }
        requires knows { (map : Map S) × (self.old.seat.now.view.map ≡ Some map) × MayWant K.eq S.hash self.old.seat.now.view.under map (wanted_of machine.now) }
        requires free { self.old.seat.now.view.work ≡ NoWork }
        ensures begins { Begins K.eq S.hash (wanted_of machine.now) self.old.seat.now.view self.new.seat.now.view }
        ensures same { IsSameSeat self.old self.new }
    {
        self.begins_on_as::<Brand, Machine<K, V>>(machine);
    }

    /// Runs this call, which asks nothing, on the map that it knows.
    pub fn does<R: Wait>(
        &mut self,
        rt: &R,
        sleepers: &Sleepers,
        hasher: &S,
        machine: &mut Machine<K, V>,
    ) -> Ran<K, V>
        requires may { MayCall K.eq S.hash hasher.now machine.old self.old.seat.now.view }
        ensures called { HasCalled K.eq S.hash (wanted_of machine.old) result.told result.unstored self.old.seat.now.view self.new.seat.now.view }
        ensures fits { IfOk result.told (IsAnswerBy machine.old) }
        ensures same { IsSameSeat self.old self.new }
    {
        self.begins(machine);
        self.runs(rt, sleepers, hasher, machine, None)
    }
}
