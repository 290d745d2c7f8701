//! What runs schedules.
use run_schedules::setup::Setup;
use seize_words::Fault;
use std::alloc::{AllocError, Global};

/// A run, event by event.
pub trait Runner<E> {
    ghost use Rattle.std.specs.Prelude.{◌≡◌, ◌++◌, ◌∷◌, ◌-◌, [], ℕ, Bool, List, length, slice_get, IfOk, IfErr, OnOk};
    ghost use Rattle.std.specs.Option.{option_copied};
    ghost use Rattle.run_schedules.specs.declared.setup.Setup.{Setup};
    ghost use Rattle.seize_words.specs.declared.fault.Fault.TheVariants.{Memory};

    /// What an event comes to.
    type Outcome;

    /// What is known of a run when it has ended.
    type Run;

    /// What gives each key its hash.
    type Hasher;

    /// With this setup it has come to this by these events.
    ghost has_come: { Setup → List E → Self → Type 0 };

    /// What is promised of the run of a schedule.
    ghost is_run: { Setup → List E → Self.Run → Type 0 };

    /// What its events have come to so far.
    ghost outcomes: { Self → List Self.Outcome };

    /// What the events of a run came to, as it tells.
    ghost told: { Self.Run → List Self.Outcome };

    /// What is asked of what events have, so that they can be copied.
    ghost can_copy: { Type 0 };

    /// Two outcomes tell the same.
    ghost are_alike: { Self.Outcome → Self.Outcome → Type 0 };

    /// Whether two events are the same, by the tests of what they have.
    ghost same_event: { E → E → Bool };

    /// Whether two outcomes are.
    ghost same_outcome: { Self.Outcome → Self.Outcome → Bool };

    /// Nothing has happened yet. The choices say which free block numbers are used again, before those that events add.
    fn begin(
        alloc: Global,
        setup: Setup,
        hasher: Self::Hasher,
        choices: Vec<u64>,
    ) -> Result<Self, AllocError>
        ensures { IfOk result (has_come setup []) };

    /// Lets the next event happen. On an error nothing is said of the run from then on.
    fn take_turn(&mut self, event: E) -> Result<(), AllocError>
        requires { (setup : Setup) × (events : List E) × has_come setup events self.old }
        ensures { OnOk result ((setup : Setup) (events : List E) → has_come setup events self.old → has_come setup (events ++ event ∷ []) self.new) };

    /// What the last event came to, if there was one.
    fn last_outcome(&self) -> Option<&Self::Outcome>
        ensures { option_copied result ≡ slice_get (outcomes self.now) (length (outcomes self.now) - 1) };

    /// The run that has come to its end.
    fn end(self, alloc: Global) -> Result<Self::Run, AllocError>
        requires { (setup : Setup) × (events : List E) × has_come setup events self }
        ensures { IfOk result (λ run. (setup : Setup) (events : List E) → has_come setup events self → is_run setup events run) };

    /// What gave its keys their hashes.
    fn into_hasher(self) -> Self::Hasher;

    /// The run of a schedule from its first event on. The one fault is Memory.
    fn run_anew(
        alloc: Global,
        setup: Setup,
        hasher: Self::Hasher,
        choices: Vec<u64>,
        schedule: Vec<E>,
    ) -> Result<Self::Run, Fault>
        ensures run { IfOk result (is_run setup schedule.items) }
        ensures memory { IfErr result (λ fault. fault ≡ Memory) };

    /// What the events of a run came to.
    fn outcomes_of(run: &Self::Run) -> &[Self::Outcome]
        ensures { result.now ≡ told run.now };

    /// A copy of an event.
    fn copy_of_event(alloc: Global, event: &E) -> Result<E, AllocError>
        requires { can_copy }
        ensures { IfOk result (λ copy. copy ≡ event.now) };

    /// A copy of an outcome.
    fn copy_of_outcome(alloc: Global, outcome: &Self::Outcome) -> Result<Self::Outcome, AllocError>
        requires { can_copy }
        ensures { IfOk result (are_alike outcome.now) };

    /// Whether two events are the same.
    fn is_same_event(one: &E, other: &E) -> bool
        ensures { result ≡ same_event one.now other.now };

    /// Whether two outcomes are.
    fn is_same_outcome(one: &Self::Outcome, other: &Self::Outcome) -> bool
        ensures { result ≡ same_outcome one.now other.now };

    /// Each event has come to something.
    ghost counts: { (setup : Setup) (events : List E) (r : Self) → has_come setup events r → length (outcomes r) ≡ length events };

    /// A run tells what each event came to.
    ghost tells: { (setup : Setup) (events : List E) (run : Self.Run) → is_run setup events run → length (told run) ≡ length events };
}
