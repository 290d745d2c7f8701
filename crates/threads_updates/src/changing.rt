//! A session computes what is to be done with a key: it begins calls that compute until one has changed the map, or is to stop.
ghost use Rattle.std.specs.Prelude.{◌≡◌, IfErr, IfOk, IfNone, IfSome};
ghost use Rattle.threads_calls.specs.Given.SeizeViewsDeclared.view.Has.TheVariants.{Nothing};
ghost use Rattle.threads_calls.specs.Given.SeizeViewsDeclared.view.SlotView.TheVariants.{Inside};
ghost use Rattle.threads_updates.specs.Updated.{EndsSo, HasComputed, HasStopped, HasTriedOnce, IsLeft, IsSo};

use crate::computing::{ComputedOnce, computed};
use crate::deciding::Decides;
use map_tables::Hashes;
use papaya_raw::machines::{Answer, KeyAnswer};
use seize_words::Fault;
use std::hash::Hash;
use std::sync::Wait;
use threads_calls::{Found, SessionBase};

/// What has become of a key by what was said. The pairs that it names are there until the session takes its next step.
#[derive(Drop)]
pub enum ComputedPair<T> {
    /// This pair was stored, where there was none.
    Inserted(Found),
    /// A pair was replaced.
    Updated {
        /// The one that was there.
        old: Found,
        /// The one that took its place.
        new: Found,
    },
    /// This pair was removed.
    Removed(Found),
    /// Nothing has changed, as was said with this.
    Aborted(T),
}

/// Returns what has become of the key, by its call's answer and what was said last to change nothing: nothing yet, where it changed nothing, and none was said.
fn done<E: Drop>(answer: Answer, end: Option<E>) -> Option<ComputedPair<E>>
    ensures done { IfSome result (λ done. IsSo done answer × EndsSo end done) }
    ensures left { IfNone result (IsLeft answer) }
{
    match answer {
        Answer::Key(KeyAnswer::Stored(word)) => Some(ComputedPair::Inserted(Found { word })),
        Answer::Key(KeyAnswer::Replaced { old, new }) => Some(ComputedPair::Updated {
            old: Found { word: old },
            new: Found { word: new },
        }),
        Answer::Key(KeyAnswer::Removed(word)) => Some(ComputedPair::Removed(Found { word })),
        Answer::Key(KeyAnswer::Absent | KeyAnswer::Found(_))
        | Answer::Reserved
        | Answer::Swept
        | Answer::Count(_) => match end {
            Some(end) => Some(ComputedPair::Aborted(end)),
            None => None,
        },
    }
}

/// Runs a call that computes on a clone of a key, and answers what has become of the key, or nothing yet. Where there is no memory for the clone, none begins.
fn tries<R: Wait, K: Eq + Hash + Clone + Drop, V: Drop, S: Hashes<K>, D: Decides<K, V>>(
    session: &mut SessionBase<'_, K, V, S>,
    rt: &R,
    key: &K,
    decider: &D,
) -> Result<Option<ComputedPair<D::End>>, Fault>
    requires inside { session.old.caller.seat.view.slot ≡ Inside session.old.slot Nothing }
    requires may { D.may decider.now }
    ensures inside { session.new.caller.seat.view.slot ≡ Inside session.new.slot Nothing }
    ensures slot { session.new.slot ≡ session.old.slot }
    ensures tried { HasTriedOnce K.eq S.hash (K.is_clone key.now) (D.gives decider.now) result session.old.caller.seat.view session.new.caller.seat.view }
    ensures map { session.new.caller.seat.view.map ≡ session.old.caller.seat.view.map }
    ensures blocks { session.new.caller.blocks ≡ session.old.caller.blocks }
{
    let Ok(its) = key.clone() else {
        return Err(Fault::Memory);
    };
    let ComputedOnce { told, near: _, end } = computed(session, rt, its, decider);
    match told {
        Ok(answer) => Ok(done(answer, end)),
        Err(fault) => Err(fault),
    }
}

/// Does with a key what is said of its pair, or of none, within the section of a session's slot. How many calls that takes is up to the others. The faults are `Memory`,
/// also for a clone of the key, `Capacity`, and `RemoveNothing`: no pair was changed then.
pub(crate) fn changes<
    R: Wait,
    K: Eq + Hash + Clone + Drop,
    V: Drop,
    S: Hashes<K>,
    D: Decides<K, V>,
>(
    session: &mut SessionBase<'_, K, V, S>,
    rt: &R,
    key: &K,
    decider: &D,
) -> Result<ComputedPair<D::End>, Fault>
    requires inside { session.old.caller.seat.view.slot ≡ Inside session.old.slot Nothing }
    requires may { D.may decider.now }
    ensures inside { session.new.caller.seat.view.slot ≡ Inside session.new.slot Nothing }
    ensures slot { session.new.slot ≡ session.old.slot }
    ensures done { IfOk result (λ done. HasComputed K.eq S.hash (K.is_clone key.now) (D.gives decider.now) done session.old.caller.seat.view session.new.caller.seat.view) }
    ensures stopped { IfErr result (λ fault. HasStopped K.eq S.hash (K.is_clone key.now) (D.gives decider.now) fault session.old.caller.seat.view session.new.caller.seat.view) }
    ensures map { session.new.caller.seat.view.map ≡ session.old.caller.seat.view.map }
    ensures blocks { session.new.caller.blocks ≡ session.old.caller.blocks }
{
    for _ in rt.forever() {
        match tries(session, rt, key, decider) {
            Ok(Some(done)) => return Ok(done),
            Ok(None) => {}
            Err(fault) => return Err(fault),
        }
    }
    unreachable!()
}
