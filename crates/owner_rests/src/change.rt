//! What calls on a key have done.
ghost use Rattle.std.specs.Prelude.{◌≡◌};
ghost use Rattle.owner_rests.specs.Rests.Asking.{changed_by, ended_by, computing_ended_by};
ghost use Rattle.owner_rests.specs.Rests.Lasts.{words_of_end, words_of_computing};

use crate::last::{Last, told};
use owner_asks::{Computed, RefusedKey};
use papaya_raw::machines::KeyAnswer;

/// What a call has done with the pair of a key.
#[derive(Clone, Copy, Debug, PartialEq, Eq)]
pub enum Change {
    /// Nothing: the key was not there, and is not.
    Missing,
    /// Nothing: the pair that was there stays.
    Kept,
    /// A pair was stored where there was none.
    Stored,
    /// A pair was stored in the place of the one that was there.
    Replaced,
    /// The pair was removed.
    Removed,
}

/// What a computing has come to.
#[derive(Debug, Drop, PartialEq, Eq)]
pub enum ComputedChange<T> {
    /// A pair was stored, replaced or removed.
    Changed(Change),
    /// Nothing has changed, and this was answered.
    Aborted(T),
}

/// What was done, by the answer of a call.
pub(crate) fn changed(answer: KeyAnswer) -> Change
    ensures { result ≡ changed_by answer }
{
    match answer {
        KeyAnswer::Absent => Change::Missing,
        KeyAnswer::Found(_) => Change::Kept,
        KeyAnswer::Stored(_) => Change::Stored,
        KeyAnswer::Replaced { .. } => Change::Replaced,
        KeyAnswer::Removed(_) => Change::Removed,
    }
}

/// What was done, or why nothing was. The words of the pairs are kept.
pub(crate) fn ended<E>(ended: Result<KeyAnswer, E>, last: &mut Last) -> Result<Change, E>
    ensures done { result ≡ ended_by ended }
    ensures words { last.new ≡ words_of_end ended }
{
    match ended {
        Ok(answer) => {
            *last = told(answer);
            Ok(changed(answer))
        }
        Err(refused) => {
            *last = Last::NONE;
            Err(refused)
        }
    }
}

/// What a computing has come to, or why it was refused. The words of the pairs are kept.
pub(crate) fn computed<K, T>(
    ended: Result<Computed<T>, RefusedKey<K>>,
    last: &mut Last,
) -> Result<ComputedChange<T>, RefusedKey<K>>
    ensures done { result ≡ computing_ended_by ended }
    ensures words { last.new ≡ words_of_computing ended }
{
    match ended {
        Ok(Computed::Changed(answer)) => {
            *last = told(answer);
            Ok(ComputedChange::Changed(changed(answer)))
        }
        Ok(Computed::Aborted(end, answer)) => {
            *last = told(answer);
            Ok(ComputedChange::Aborted(end))
        }
        Err(refused) => {
            *last = Last::NONE;
            Err(refused)
        }
    }
}
