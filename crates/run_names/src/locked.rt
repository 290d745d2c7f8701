//! What lies under the lock of a crew: the kept schedule, and its run.
ghost use Rattle.std.specs.Prelude.{◌≡◌, ◌+◌, ◌-◌, ◌<◌, ◌∷◌, ◌++◌, [], List, length, slice_get, Some, true, false, IfOk, IfErr, OnOk, OnErr, IsErr};
ghost use Rattle.run_schedules.specs.declared.setup.Setup.{Setup};
ghost use Rattle.run_names.specs.Crews.Crew.{events_of};

use crate::finished::FinishedOf;
use crate::kept::{Applied, KeptEvent, events_again};
use crate::name::CrewName;
use crate::runner::Runner;
use run_schedules::setup::Setup;
use seize_words::Fault;
use std::alloc::{AllocError, Global};
use std::marker::Model;
use std::sync::ledger::{Book, Share};

/// The schedule that a crew keeps, and its run. Contracts see the schedule, what its events came to, and whether the run is broken: it found no memory for an event.
#[derive(Drop)]
pub(crate) struct Locked<E, R: Runner<E>, N: CrewName> {
    setup: Setup,
    choices: Vec<u64>,
    schedule: Vec<KeptEvent<E>>,
    runner: R,
    is_broken: bool,
    events: Book<N>,
}

impl<E, R: Runner<E>, N: CrewName> Model for Locked<E, R, N> {
    ghost use Rattle.std.specs.Prelude.{◌≡◌, length, false};
    ghost use Rattle.run_names.specs.Crews.Crew.{Held, events_of};

    ghost Value = { Held E R.Outcome };

    ghost view = { λ l. record { schedule = l.schedule.items; outcomes = R.outcomes l.runner; is_broken = l.is_broken } };

    ghost invariant = { λ l. ((l.setup ≡ N.setup) × R.can_copy) × (length l.schedule.items ≡ l.events.total)
        × (l.is_broken ≡ false → R.has_come N.setup (events_of l.schedule.items) l.runner) };
}

/// Lets the next event of a run happen: what it came to, twice.
fn happens<E, R: Runner<E>>(
    alloc: Global,
    runner: &mut R,
    event: E,
) -> Result<(R::Outcome, R::Outcome), AllocError>
where
    R::Outcome: Drop,
    requires copies { R.can_copy }
    requires come { (setup : Setup) × (events : List E) × R.has_come setup events runner.old }
    ensures come { OnOk result ((setup : Setup) (events : List E) → R.has_come setup events runner.old → R.has_come setup (events ++ event ∷ []) runner.new) }
    ensures told { IfOk result (λ told. (outcome : R.Outcome) × (slice_get (R.outcomes runner.new) (length (R.outcomes runner.new) - 1) ≡ Some outcome) × R.are_alike outcome told.0) }
    ensures twice { IfOk result (λ told. R.are_alike told.0 told.1) }
{
    runner.take_turn(event)?;
    let Some(outcome) = runner.last_outcome() else {
        unreachable!()
    };
    let told = R::copy_of_outcome(alloc, outcome)?;
    let again = R::copy_of_outcome(alloc, &told)?;
    Ok((told, again))
}

/// Lets the next event of a run happen, and keeps it as the driver's of this number: a copy of it with what it came to, and that once more. On an error the schedule is as it was.
fn keep<E: Drop, R: Runner<E>>(
    alloc: Global,
    schedule: &mut Vec<KeptEvent<E>>,
    runner: &mut R,
    number: u64,
    event: E,
) -> Result<(Applied<E, R::Outcome>, R::Outcome), AllocError>
where
    R::Outcome: Drop,
    requires copies { R.can_copy }
    requires come { (setup : Setup) × R.has_come setup (events_of schedule.old.items) runner.old }
    ensures kept { OnOk result (schedule.new.items ≡ schedule.old.items ++ (record { driver = number; event = event }) ∷ []) }
    ensures come { OnOk result ((setup : Setup) → R.has_come setup (events_of schedule.old.items) runner.old → R.has_come setup (events_of schedule.new.items) runner.new) }
    ensures listed { IfOk result (λ told. told.0.event ≡ event) }
    ensures told { IfOk result (λ told. (outcome : R.Outcome) × (slice_get (R.outcomes runner.new) (length (R.outcomes runner.new) - 1) ≡ Some outcome) × R.are_alike outcome told.0.outcome) }
    ensures twice { IfOk result (λ told. R.are_alike told.0.outcome told.1) }
    ensures refused { OnErr result (schedule.new.items ≡ schedule.old.items) }
{
    schedule.reserve(1)?;
    let listed = R::copy_of_event(alloc, &event)?;
    let kept = R::copy_of_event(alloc, &event)?;
    let (outcome, again) = happens(alloc, runner, event)?;
    schedule.push_reserved(KeptEvent {
        driver: number,
        event: kept,
    });
    Ok((
        Applied {
            event: listed,
            outcome,
        },
        again,
    ))
}

/// The run of a kept schedule: what is running terminates, or, if it is broken, the schedule runs anew, by the same hasher.
fn run_of<E: Drop, R: Runner<E>>(
    alloc: Global,
    setup: Setup,
    choices: Vec<u64>,
    schedule: &[KeptEvent<E>],
    runner: R,
    is_broken: bool,
) -> Result<R::Run, Fault>
where
    R::Hasher: Drop,
    requires copies { R.can_copy }
    requires come { is_broken ≡ false → R.has_come setup (events_of schedule.now) runner }
    ensures run { IfOk result (R.is_run setup (events_of schedule.now)) }
    ensures memory { IfErr result (λ fault. fault ≡ Fault.Memory) }
{
    if is_broken {
        let hasher = runner.into_hasher();
        let again = events_again::<E, R>(alloc, schedule)?;
        return R::run_anew(alloc, setup, hasher, choices, again);
    }
    Ok(runner.end(alloc)?)
}

impl<E: Drop, R: Runner<E>, N: CrewName> Locked<E, R, N>
where
    R::Outcome: Drop,
{
    /// Lets the next event happen, and keeps it as the driver's of this number: a copy of it with what it came to, and that once more. If it finds no memory, the kept schedule is as it
    /// was, and no event happens any more.
    pub(crate) fn apply(
        &mut self,
        alloc: Global,
        mine: &mut Share<N>,
        number: u64,
        event: E,
    ) -> Result<(Applied<E, R::Outcome>, R::Outcome), AllocError>
        requires part { 0 < mine.old.parts }
        ensures kept { OnOk result (self.new.schedule ≡ self.old.schedule ++ (record { driver = number; event = event }) ∷ []) }
        ensures listed { IfOk result (λ told. told.0.event ≡ event) }
        ensures told { IfOk result (λ told. (outcome : R.Outcome) × (slice_get self.new.outcomes (length self.new.outcomes - 1) ≡ Some outcome) × R.are_alike outcome told.0.outcome) }
        ensures twice { IfOk result (λ told. R.are_alike told.0.outcome told.1) }
        ensures counted { OnOk result (mine.new.amount ≡ mine.old.amount + 1) }
        ensures refused { OnErr result ((self.new.schedule ≡ self.old.schedule) × (self.new.is_broken ≡ true) × (mine.new.amount ≡ mine.old.amount)) }
        ensures broken { self.old.is_broken ≡ true → IsErr result }
        ensures parts { mine.new.parts ≡ mine.old.parts }
    {
        if self.is_broken {
            return Err(AllocError);
        }
        match keep(alloc, &mut self.schedule, &mut self.runner, number, event) {
            Ok(told) => {
                self.events.add(mine, 1);
                Ok(told)
            }
            Err(error) => {
                self.is_broken = true;
                Err(error)
            }
        }
    }
}

impl<E, R: Runner<E>, N: CrewName> Locked<E, R, N>
where
    R::Hasher: Drop,
{
    /// No event is kept yet.
    pub(crate) fn new(
        alloc: Global,
        setup: Setup,
        hasher: R::Hasher,
        choices: Vec<u64>,
        events: Book<N>,
    ) -> Result<Self, AllocError>
        requires copies { R.can_copy }
        requires setup { setup ≡ N.setup }
        requires none { events.total ≡ 0 }
        ensures { IfOk result (λ locked. locked.schedule ≡ []) }
    {
        let again = Vec::from_slice(alloc, choices.as_slice())?;
        let runner = R::begin(alloc, setup, hasher, choices)?;
        let schedule = Vec::new(alloc);
        Ok(Locked {
            setup,
            choices: again,
            schedule,
            runner,
            is_broken: false,
            events,
        })
    }
}

impl<E: Drop, R: Runner<E>, N: CrewName> Locked<E, R, N>
where
    R::Hasher: Drop,
{
    /// The kept schedule with its run, and the book, whose total is the number of events. A broken run is made anew. The one fault is Memory.
    pub(crate) fn finish(self, alloc: Global) -> Result<(FinishedOf<E, R::Run>, Book<N>), Fault>
        ensures run { IfOk result (λ f. R.is_run N.setup (events_of f.0.schedule.items) f.0.run) }
        ensures schedule { IfOk result (λ f. f.0.schedule.items ≡ self.schedule) }
        ensures counted { IfOk result (λ f. length f.0.schedule.items ≡ f.1.total) }
        ensures memory { IfErr result (λ fault. fault ≡ Fault.Memory) }
    {
        let Self {
            setup,
            choices,
            schedule,
            runner,
            is_broken,
            events,
        } = self;
        let run = run_of(
            alloc,
            setup,
            choices,
            schedule.as_slice(),
            runner,
            is_broken,
        )?;
        Ok((FinishedOf { schedule, run }, events))
    }
}
