//! A schedule runs, event by event.
ghost use Rattle.std.specs.Prelude.{◌≡◌, ◌++◌, ◌∷◌, [], ℕ, ◌-◌, Bool, List, length, slice_get, IfOk, IfErr, OnOk};
ghost use Rattle.std.specs.Option.{option_copied};
ghost use Rattle.run_schedules.specs.Schedules.After.{AtEachEvent};
ghost use Rattle.run_schedules.specs.Schedules.Runs.{IsRunOf, log_of};
ghost use Rattle.run_schedules.specs.Schedules.Terms.{Terms};
ghost use Rattle.run_schedules.specs.declared.event.Event.{Event};
ghost use Rattle.play_events.specs.Given.SchedulerPlayed.{terms_given};
ghost use Rattle.play_events.specs.Given.GroupedByActs.{IsByActs};
ghost use Rattle.papaya_steps.specs.WholeRuns.Run.{HandsOn, HasCome, HoldsBlocks, IsRightRun, bounded};

use crate::acting::{acting_of, traced_as};
use crate::ending::living;
use crate::happening::happen;
use crate::record::Record;
use crate::{Logged, Scheduler};
use papaya_raw::Hashes;
use run_effects::left::pairs_left;
use run_effects::tally::Tally;
use run_schedules::ended::Pair;
use run_schedules::event::Event;
use run_schedules::outcome::Outcome;
use run_schedules::pair_list::PairList;
use run_schedules::record::Run;
use run_schedules::setup::Setup;
use seize_words::Fault;
use std::alloc::{AllocError, Global};
use std::hash::{BuildHasher, Hash};

/// What a run has come to so far.
#[derive(Drop)]
pub struct Running<K, V, S> {
    /// Who is there, and what is under way.
    pub scheduler: Scheduler<K, V, S>,
    /// Where pairs and tables are.
    pub tally: Tally,
    /// What the events came to and did.
    pub written: Record<V>,
    /// The pairs that were reclaimed, in that order.
    pub back: Vec<Pair<K, V>>,
}

impl<K: Eq + Hash + Drop, V: Drop, S: BuildHasher + Drop> Running<K, V, S> {
    /// Begins a run in which nothing has happened yet. The hasher gives each key its hash. The choices say which free block numbers are used again, before
    /// those that events add.
    pub fn begin(
        alloc: Global,
        setup: Setup,
        hasher: S,
        choices: Vec<u64>,
    ) -> Result<Self, AllocError>
        ensures come { IfOk result (HasCome K.eq ⟦<S as Hashes<K>>⟧.hash (terms_given (bounded setup)) []) }
        ensures hasher { IfOk result (λ running. running.scheduler.logged.executor.hasher ≡ hasher) }
    {
        let mut scheduler = Scheduler::new(alloc, bounded(setup), hasher)?;
        for choice in choices {
            scheduler.logged.choose(choice)?;
        }
        let tally = Tally::nothing(alloc);
        let written = Record::nothing(alloc);
        let back = Vec::new(alloc);
        Ok(Running {
            scheduler,
            tally,
            written,
            back,
        })
    }
}

impl<K: Eq + Hash + Drop, V: Drop, S: Hashes<K> + Drop> Running<K, V, S> {
    /// Lets the next event of a schedule happen, and writes down what it came to and what it did. On an error lists or notes of the run found no memory, and nothing is said of
    /// it from then on.
    pub fn take_turn(&mut self, event: Event<K, V>) -> Result<(), AllocError>
        requires { (terms : Terms) × (events : List (Event K V)) × HasCome K.eq S.hash terms events self.old }
        ensures come { OnOk result ((terms : Terms) (events : List (Event K V)) → HasCome K.eq S.hash terms events self.old → HasCome K.eq S.hash terms (events ++ event ∷ []) self.new) }
        ensures hasher { OnOk result (self.new.scheduler.logged.executor.hasher ≡ self.old.scheduler.logged.executor.hasher) }
    {
        let traced = traced_as(&event);
        let acting = acting_of(&self.scheduler, &event)?;
        let is_first = self.written.outcomes.is_empty();
        let played = happen(&mut self.scheduler, is_first, event, &mut self.back)?;
        self.tally
            .note_all(acting.map(&played.outcome), played.effects.as_slice())?;
        self.written.add(traced, played)
    }
}

impl<K: Drop, V: Drop, S: Drop> Running<K, V, S> {
    /// Returns what the last event came to, if there was one.
    pub fn last_outcome(&self) -> Option<&Outcome<V>>
        ensures { option_copied result ≡ slice_get self.now.written.outcomes.items (length self.now.written.outcomes.items - 1) }
    {
        self.written.outcomes.last()
    }

    /// Returns what gave its keys their hashes.
    pub fn into_hasher(self) -> S
        ensures { result ≡ self.scheduler.logged.executor.hasher }
    {
        self.scheduler.logged.executor.hasher
    }

    /// Ends the run, and returns it.
    pub fn end(self, alloc: Global) -> Result<Run<K, V>, AllocError>
        requires { (same : K → K → Bool) × (hashes : S → K → ℕ) × (terms : Terms) × (events : List (Event K V)) × HasCome same hashes terms events self }
        ensures right { IfOk result (λ run. (same : K → K → Bool) (hashes : S → K → ℕ) (terms : Terms) (events : List (Event K V)) → HasCome same hashes terms events self
            → IsRightRun terms events run) }
        ensures whole { IfOk result (λ run. (same : K → K → Bool) (hashes : S → K → ℕ) (terms : Terms) (events : List (Event K V)) → HasCome same hashes terms events self
            → IsRunOf same terms events run) }
        ensures hands { IfOk result (λ run. (same : K → K → Bool) (hashes : S → K → ℕ) (terms : Terms) (events : List (Event K V)) → HasCome same hashes terms events self
            → AtEachEvent HandsOn (log_of events run)) }
        ensures live { IfOk result (λ run. (same : K → K → Bool) (hashes : S → K → ℕ) (terms : Terms) (events : List (Event K V)) → HasCome same hashes terms events self
            → HoldsBlocks same hashes terms events run) }
        ensures acts { IfOk result (λ run. (same : K → K → Bool) (hashes : S → K → ℕ) (terms : Terms) (events : List (Event K V)) → HasCome same hashes terms events self
            → IsByActs same hashes self.scheduler.logged.executor.hasher terms (log_of events run)) }
    {
        let Running {
            scheduler,
            tally,
            written,
            back,
        } = self;
        let Scheduler { logged, maps, .. } = scheduler;
        let Logged { executor, notes } = logged;
        let living = living(alloc, maps, &tally)?;
        let waiting = tally.waiting(alloc)?;
        let live = executor.memory.memory.live();
        let kept = pairs_left(alloc, executor.memory.memory, &notes)?;
        Ok(Run {
            outcomes: written.outcomes,
            steps: written.steps,
            effects: written.effects,
            trace: written.trace,
            maps: living,
            waiting,
            tables: tally.waiting_tables(),
            stored: notes.stored(),
            given_back: PairList::of(alloc, back)?,
            kept: PairList::of(alloc, kept)?,
            live,
        })
    }
}

/// Runs a schedule. The hasher gives each key its hash. The choices say which free block numbers are used again, before those that events of the schedule add. The one fault is
/// Memory, where the lists of the run itself find none: a refused event of the schedule is an outcome.
pub fn run<K: Eq + Hash + Drop, V: Drop, S: BuildHasher + Drop>(
    alloc: Global,
    setup: Setup,
    hasher: S,
    schedule: Vec<Event<K, V>>,
    choices: Vec<u64>,
) -> Result<Run<K, V>, Fault>
    ensures run { IfOk result (λ run. IsRightRun (terms_given (bounded setup)) schedule.items run) }
    ensures whole { IfOk result (λ run. IsRunOf K.eq (terms_given (bounded setup)) schedule.items run) }
    ensures hands { IfOk result (λ run. AtEachEvent HandsOn (log_of schedule.items run)) }
    ensures live { IfOk result (λ run. HoldsBlocks K.eq ⟦<S as Hashes<K>>⟧.hash (terms_given (bounded setup)) schedule.items run) }
    ensures acts { IfOk result (λ run. IsByActs K.eq ⟦<S as Hashes<K>>⟧.hash hasher (terms_given (bounded setup)) (log_of schedule.items run)) }
    ensures memory { IfErr result (λ fault. fault ≡ Fault.Memory) }
{
    run_refusing(alloc, setup, hasher, schedule, choices, &[])
}

/// Runs a schedule whose memory finds no more: before each event, by its place, it is told how many growths it meets from then on, and each later one is refused. Past the end of
/// these numbers nothing is told.
pub fn run_refusing<K: Eq + Hash + Drop, V: Drop, S: BuildHasher + Drop>(
    alloc: Global,
    setup: Setup,
    hasher: S,
    schedule: Vec<Event<K, V>>,
    choices: Vec<u64>,
    growths: &[u64],
) -> Result<Run<K, V>, Fault>
    ensures run { IfOk result (λ run. IsRightRun (terms_given (bounded setup)) schedule.items run) }
    ensures whole { IfOk result (λ run. IsRunOf K.eq (terms_given (bounded setup)) schedule.items run) }
    ensures hands { IfOk result (λ run. AtEachEvent HandsOn (log_of schedule.items run)) }
    ensures live { IfOk result (λ run. HoldsBlocks K.eq ⟦<S as Hashes<K>>⟧.hash (terms_given (bounded setup)) schedule.items run) }
    ensures acts { IfOk result (λ run. IsByActs K.eq ⟦<S as Hashes<K>>⟧.hash hasher (terms_given (bounded setup)) (log_of schedule.items run)) }
    ensures memory { IfErr result (λ fault. fault ≡ Fault.Memory) }
{
    let mut running = Running::begin(alloc, setup, hasher, choices)?;
    for event in schedule {
        refuse_as_told(&mut running, growths);
        running.take_turn(event)?;
    }
    Ok(running.end(alloc)?)
}

/// Tells the memory of a run how many growths it meets from now on, where that is told for the place of the next event.
fn refuse_as_told<K: Drop, V: Drop, S>(running: &mut Running<K, V, S>, growths: &[u64])
    ensures { running.new ≡ running.old }
{
    if let Some(left) = growths.get(running.written.outcomes.len()) {
        running
            .scheduler
            .logged
            .executor
            .memory
            .memory
            .refuse_after(*left);
    }
}

/// More processors than 2^63 count as 2^63.
fn bounded(setup: Setup) -> Setup
    ensures { result ≡ bounded setup }
{
    Setup {
        processors: setup.processors.min(1 << 63),
        ..setup
    }
}
