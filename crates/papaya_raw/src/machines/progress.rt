//! How far a call of a map is, whichever call it is, and what it answers. The rows of the collector have `seize::Advance`.
ghost use Rattle.std.specs.Prelude.{◌≡◌};
ghost use Rattle.papaya_raw.specs.Progress.{of_called, of_outcome, of_swept, of_counting};

use crate::machines::answer::{Called, KeyAnswer};
use map_sweeps::Swept;
use map_sweeps::named::Fault;
use map_sweeps::named_sweeps::Yielding;

/// What a call of a map answers.
#[derive(Clone, Copy)]
pub enum Answer {
    /// That of a call on one key.
    Key(KeyAnswer),
    /// There is room for the further pairs.
    Reserved,
    /// The walk has no further pair, or the pairs were removed.
    Swept,
    /// So many pairs were counted.
    Count(u64),
}

/// How far a call of a map is. A pair is named by the word that links to it.
#[derive(Drop)]
pub enum Progress<T> {
    /// Further steps are needed.
    Goes,
    /// It is to be told what to do with this pair, or where the key is missing. Until then, each step says so again.
    Asks(Option<u64>),
    /// Nothing changed: another call is to go on first. The same step is taken again.
    Waits,
    /// It is a walk that is to be asked for its next pair. Until then, each step says so again.
    Ready,
    /// The next pair of a walk, which is ready from now on. This is no answer: only the last step of a call has one, and a walk
    /// shows many pairs.
    Pair(u64),
    /// Further steps are needed, and this value was reclaimed.
    Gave(T),
    /// Further steps are needed. This is the call's own pair, which was not stored.
    Unstored(T),
    /// It has ended, with this answer.
    Done(Answer),
    /// It has ended without one.
    Refused(Fault),
}

impl<T> Progress<T> {
    /// How far a call on one key is.
    pub(super) fn of_called(called: Called<T>) -> Self
        ensures { result ≡ of_called called }
    {
        match called {
            Called::Goes => Progress::Goes,
            Called::Waits => Progress::Waits,
            Called::Gave(value) => Progress::Gave(value),
            Called::Unstored(value) => Progress::Unstored(value),
            Called::Asks(pair) => Progress::Asks(pair),
            Called::Done(answer) => Progress::Done(Answer::Key(answer)),
            Called::Refused(fault) => Progress::Refused(fault),
        }
    }

    /// How far a reservation is.
    pub(super) fn of_outcome(outcome: Yielding<T, ()>) -> Self
        ensures { result ≡ of_outcome outcome }
    {
        match outcome {
            Yielding::Goes => Progress::Goes,
            Yielding::Waits => Progress::Waits,
            Yielding::Gave(value) => Progress::Gave(value),
            Yielding::Done(()) => Progress::Done(Answer::Reserved),
            Yielding::Refused(fault) => Progress::Refused(fault),
        }
    }

    /// How far a sweep is.
    pub(super) fn of_swept(swept: Swept<T>) -> Self
        ensures { result ≡ of_swept swept }
    {
        match swept {
            Swept::Goes => Progress::Goes,
            Swept::Waits => Progress::Waits,
            Swept::Gave(value) => Progress::Gave(value),
            Swept::Ready => Progress::Ready,
            Swept::Pair(pair) => Progress::Pair(pair),
            Swept::Asks(pair) => Progress::Asks(Some(pair)),
            Swept::Done => Progress::Done(Answer::Swept),
            Swept::Refused(fault) => Progress::Refused(fault),
        }
    }

    /// How far a counting is.
    pub(super) fn of_counting(progress: map_sweeps::named::Advance<u64>) -> Self
        ensures { result ≡ of_counting progress }
    {
        match progress {
            map_sweeps::named::Advance::Goes => Progress::Goes,
            map_sweeps::named::Advance::Waits => Progress::Waits,
            map_sweeps::named::Advance::Done(count) => Progress::Done(Answer::Count(count)),
            map_sweeps::named::Advance::Refused(fault) => Progress::Refused(fault),
        }
    }
}
