//! What a call is told to have come to, by what its machine says.
ghost use Rattle.std.specs.Prelude.{◌≡◌};
ghost use Rattle.run_places.specs.Given.EffectsKnown.{known};
ghost use Rattle.run_executor.specs.Named.Telling.{answer_of, answer_on, aborted_with, number_by, occupied_by};

use crate::kind::CallKind;
use papaya_raw::machines::{Answer as Said, KeyAnswer};
use run_places::{Notes, Role};
use run_schedules::call::Response;
use seize_words::Link;

/// Returns the number of the pair that a word links to.
pub fn number_by(notes: &Notes, word: u64) -> u64
    ensures { result ≡ number_by (known notes.now) word }
{
    match notes.role_of(Link::block_of(word)) {
        Role::Pair(number) => number,
        _ => 0,
    }
}

/// The pair is there, and this value was not stored.
fn occupied_by<V>(there: u64, value: Option<V>) -> Response<V>
    ensures { result ≡ occupied_by there value }
{
    match value {
        Some(value) => Response::Occupied { there, value },
        None => Response::Found(there),
    }
}

/// A closure aborted with this.
fn aborted_with<V>(value: Option<V>) -> Response<V>
    ensures { result ≡ aborted_with value }
{
    match value {
        Some(value) => Response::Aborted(value),
        None => Response::Absent,
    }
}

/// What a call on one key answers.
fn answer_on<V: Drop>(
    notes: &Notes,
    kind: CallKind,
    value: Option<V>,
    said: KeyAnswer,
) -> Response<V>
    ensures { result ≡ answer_on (known notes.now) kind value said }
{
    match said {
        KeyAnswer::Absent => match kind {
            CallKind::Computes => aborted_with(value),
            _ => Response::Absent,
        },
        KeyAnswer::Found(there) => match kind {
            CallKind::Computes => aborted_with(value),
            CallKind::TriesToInsert => occupied_by(number_by(notes, there), value),
            CallKind::TriesToInsertWith | CallKind::RemovesIf => Response::Kept(number_by(
                notes, there,
            )),
            _ => Response::Found(number_by(notes, there)),
        },
        KeyAnswer::Stored(new) => match kind {
            CallKind::Computes => Response::Inserted(number_by(notes, new)),
            CallKind::Inserts => Response::Absent,
            _ => Response::Stored(number_by(notes, new)),
        },
        KeyAnswer::Replaced { old, new } => match kind {
            CallKind::Computes => Response::Updated {
                old: number_by(notes, old),
                new: number_by(notes, new),
            },
            CallKind::Updates => Response::Stored(number_by(notes, new)),
            _ => Response::Found(number_by(notes, old)),
        },
        KeyAnswer::Removed(old) => match kind {
            CallKind::Computes => Response::Removed(number_by(notes, old)),
            _ => Response::Found(number_by(notes, old)),
        },
    }
}

/// Returns what a call answers.
pub fn answer_of<V: Drop>(
    notes: &Notes,
    kind: CallKind,
    value: Option<V>,
    said: Said,
) -> Response<V>
    ensures { result ≡ answer_of (known notes.now) kind value said }
{
    match said {
        Said::Key(said) => answer_on(notes, kind, value, said),
        Said::Reserved => Response::Completed,
        Said::Swept => match kind {
            CallKind::Walks => Response::Absent,
            _ => Response::Completed,
        },
        Said::Count(count) => Response::Counted(count),
    }
}
