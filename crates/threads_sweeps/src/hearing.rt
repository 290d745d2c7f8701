//! What a step of a sweep tells, as far as something follows on it.
ghost use Rattle.threads_sweeps.specs.Heard.{IsHeard, IsOfSweep};

use papaya_raw::machines::{Answer, Progress};
use seize_words::Fault;

/// What a step of a sweep has told.
pub(crate) enum Heard {
    /// It goes on.
    Goes,
    /// It is a walk that is ready for its first pair.
    Ready,
    /// It is a walk that shows the pair of this word.
    Shows(u64),
    /// It asks whether the pair of this word is to be kept.
    Asks(u64),
    /// It has ended so.
    Ended(Result<(), Fault>),
}

/// Returns what a step of a sweep has told. What that hands back is dropped.
pub(crate) fn hears<T: Drop>(told: Progress<T>) -> Heard
    requires sweep { IsOfSweep told }
    ensures { IsHeard told result }
{
    match told {
        Progress::Goes | Progress::Waits | Progress::Gave(_) | Progress::Unstored(_) => Heard::Goes,
        Progress::Ready => Heard::Ready,
        Progress::Pair(word) => Heard::Shows(word),
        Progress::Asks(Some(word)) => Heard::Asks(word),
        Progress::Done(Answer::Swept) => Heard::Ended(Ok(())),
        Progress::Refused(fault) => Heard::Ended(Err(fault)),
        Progress::Asks(None) | Progress::Done(_) => unreachable!(),
    }
}
