//! The run to which a crew applies events.
ghost use Rattle.std.specs.Prelude.{◌≡◌, ◌++◌, ◌∷◌, [], List, IfOk, IfErr, OnOk};
ghost use Rattle.run_schedules.specs.declared.setup.Setup.{Setup};
ghost use Rattle.run_schedules.specs.declared.event.Event.{Event};
ghost use Rattle.play_events.specs.Given.SchedulerPlayed.{terms_given};
ghost use Rattle.papaya_steps.specs.WholeRuns.Run.{HasCome, bounded};
ghost use Rattle.papaya_steps.specs.Steps.Scheduled.{IsWholeRun};

use crate::running::{Running, run};
use papaya_raw::Hashes;
use run_effects::{events, outcomes};
use run_names::runner::Runner;
use run_schedules::event::Event;
use run_schedules::outcome::Outcome;
use run_schedules::record::Run;
use run_schedules::setup::Setup;
use seize_words::Fault;
use std::alloc::{AllocError, Global};
use std::hash::{BuildHasher, Hash};

/// A run as `run` makes it, event by event.
#[derive(Drop)]
pub struct Scheduled<K, V, S> {
    /// What it has come to so far.
    pub running: Running<K, V, S>,
}

impl<K: Eq + Hash + Clone + Drop, V: PartialEq + Clone + Drop, S: BuildHasher + Drop> Runner<
    Event<K, V>,
> for Scheduled<K, V, S> {
    ghost use Rattle.run_effects.specs.Copies.Copies.{AreAlike, ClonesAreSame};
    ghost use Rattle.run_effects.specs.Copies.Same.{same_event as are_same_events, same_outcome as are_same_outcomes};
    ghost use Rattle.play_events.specs.Given.SchedulerPlayed.{terms_given};
    ghost use Rattle.papaya_steps.specs.WholeRuns.Run.{HasCome, bounded};
    ghost use Rattle.papaya_steps.specs.Steps.Scheduled.{IsWholeRun};

    type Outcome = Outcome<V>;

    type Run = Run<K, V>;

    type Hasher = S;

    ghost has_come = { λ setup events r. HasCome K.eq ⟦<S as Hashes<K>>⟧.hash (terms_given (bounded setup)) events r.running };

    ghost is_run = { λ setup events run. IsWholeRun K.eq ⟦<S as Hashes<K>>⟧.hash (terms_given (bounded setup)) events run };

    ghost outcomes = { λ r. r.running.written.outcomes.items };

    ghost told = { λ run. run.outcomes.items };

    ghost can_copy = { ClonesAreSame K.is_clone × ClonesAreSame V.is_clone };

    ghost are_alike = { AreAlike };

    ghost same_event = { are_same_events K.eq V.eq };

    ghost same_outcome = { are_same_outcomes V.eq };

    fn begin(
        alloc: Global,
        setup: Setup,
        hasher: S,
        choices: Vec<u64>,
    ) -> Result<Self, AllocError> {
        let running = Running::begin(alloc, setup, hasher, choices)?;
        Ok(Scheduled { running })
    }

    fn take_turn(&mut self, event: Event<K, V>) -> Result<(), AllocError>
        requires { (setup : Setup) × (events : List (Event K V)) × HasCome K.eq ⟦<S as Hashes<K>>⟧.hash (terms_given (bounded setup)) events self.old.running }
        ensures { OnOk result ((setup : Setup) (events : List (Event K V)) → HasCome K.eq ⟦<S as Hashes<K>>⟧.hash (terms_given (bounded setup)) events self.old.running
            → HasCome K.eq ⟦<S as Hashes<K>>⟧.hash (terms_given (bounded setup)) (events ++ event ∷ []) self.new.running) }
    {
        self.running.take_turn(event)?;
        Ok(())
    }

    fn last_outcome(&self) -> Option<&Outcome<V>> {
        self.running.last_outcome()
    }

    fn end(self, alloc: Global) -> Result<Run<K, V>, AllocError> {
        Ok(self.running.end(alloc)?)
    }

    fn into_hasher(self) -> S {
        self.running.into_hasher()
    }

    fn run_anew(
        alloc: Global,
        setup: Setup,
        hasher: S,
        choices: Vec<u64>,
        schedule: Vec<Event<K, V>>,
    ) -> Result<Run<K, V>, Fault>
        ensures run { IfOk result (IsWholeRun K.eq ⟦<S as Hashes<K>>⟧.hash (terms_given (bounded setup)) schedule.items) }
        ensures memory { IfErr result (λ fault. fault ≡ Fault.Memory) }
    {
        Ok(run(alloc, setup, hasher, schedule, choices)?)
    }

    fn outcomes_of(run: &Run<K, V>) -> &[Outcome<V>] {
        run.outcomes.as_slice()
    }

    fn copy_of_event(alloc: Global, event: &Event<K, V>) -> Result<Event<K, V>, AllocError> {
        events::copy_of(alloc, event)
    }

    fn copy_of_outcome(alloc: Global, outcome: &Outcome<V>) -> Result<Outcome<V>, AllocError> {
        outcomes::copy_of(alloc, outcome)
    }

    fn is_same_event(one: &Event<K, V>, other: &Event<K, V>) -> bool {
        events::same(one, other)
    }

    fn is_same_outcome(one: &Outcome<V>, other: &Outcome<V>) -> bool {
        outcomes::same(one, other)
    }

    ghost counts = { λ setup events r come. come.so_far.outcomes };

    ghost tells = { λ setup events run is. is.whole.outcomes };
}
