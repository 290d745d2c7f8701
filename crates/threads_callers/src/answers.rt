//! What the answers of calls on one key say: which pairs they name, and what has come back.
ghost use Rattle.std.specs.Prelude.{◌≡◌, Some, Ok, IsSome, option_map};
ghost use Rattle.threads_callers.specs.Answers.{IsOutOf, has_stored, removed_by, replaced_by};
ghost use Rattle.threads_errands.specs.Given.ErrandsCalling.{IsBack, is_put as puts, pair_there};
ghost use Rattle.map_tables.specs.declared.node.Node.TheVariants.{Pair};

use map_tables::Node;
use papaya_raw::machines::{Answer, KeyAnswer};
use seize_words::{Fault, Refused};
use threads_errands::Ran;

/// A pair that a call has found, stored, replaced or removed, by the word that links to its block.
#[derive(Clone, Copy)]
pub struct Found {
    /// That word.
    pub word: u64,
}

/// What came of storing a pair only where its key is missing.
#[derive(Drop)]
pub enum Attempt<K, V> {
    /// It was stored.
    Stored,
    /// The key was there, and the pair comes back.
    Present(K, V),
}

/// Returns what a call has told last.
pub fn told_of<K: Drop, V: Drop>(ran: Ran<K, V>) -> Result<Answer, Fault>
    ensures { result ≡ ran.told }
{
    let Ran {
        told,
        unstored,
        near: _,
    } = ran;
    drop(unstored);
    told
}

/// Tells whether the call's own pair is in the map by this answer.
pub fn is_put(answer: &Answer) -> bool
    ensures { result ≡ puts answer.now }
{
    matches!(
        answer,
        Answer::Key(KeyAnswer::Stored(_) | KeyAnswer::Replaced { .. })
    )
}

/// Returns the pair that was removed, if one was.
pub fn removed(answer: &Answer) -> Option<Found>
    ensures { removed_by answer.now ≡ option_map (λ found. found.word) result }
{
    match answer {
        Answer::Key(KeyAnswer::Removed(word)) => Some(Found { word: *word }),
        _ => None,
    }
}

/// Returns the pair that is in the map where a call has answered so that was to store one.
pub fn there(answer: &Answer) -> Found
    requires { IsSome (pair_there answer.now) }
    ensures { pair_there answer.now ≡ Some result.word }
{
    match answer {
        Answer::Key(KeyAnswer::Found(word)) => Found { word: *word },
        Answer::Key(KeyAnswer::Stored(word)) => Found { word: *word },
        Answer::Key(KeyAnswer::Replaced { new, .. }) => Found { word: *new },
        _ => unreachable!(),
    }
}

/// Returns the key and the value of a pair that was not stored.
fn pair_of<K: Drop, V: Drop>(unstored: Option<Node<K, V>>) -> (K, V)
    requires back { (key : K) × (value : V) × (unstored ≡ Some (Pair key value)) }
    ensures { unstored ≡ Some (Pair result.0 result.1) }
{
    match unstored {
        Some(Node::Pair(key, value)) => (key, value),
        _ => unreachable!(),
    }
}

/// Returns what came of it, by what its call has answered.
pub fn came_of<K: Drop, V: Drop>(answer: &Answer, unstored: Option<Node<K, V>>) -> Attempt<K, V>
    requires back { (key : K) × (value : V) × IsBack (Pair key value) (Ok answer.now) unstored }
    ensures stored { has_stored result ≡ puts answer.now }
    ensures back { IsOutOf unstored result }
{
    if is_put(answer) {
        return Attempt::Stored;
    }
    let (key, value) = pair_of(unstored);
    Attempt::Present(key, value)
}

/// Returns the pair that was replaced by another one, if one was.
pub fn replaced(answer: &Answer) -> Option<Found>
    ensures { replaced_by answer.now ≡ option_map (λ found. found.word) result }
{
    match answer {
        Answer::Key(KeyAnswer::Replaced { old, .. }) => Some(Found { word: *old }),
        _ => None,
    }
}

/// Returns that a call was refused so, with its pair, which has come back.
pub fn refused<K: Drop, V: Drop>(fault: Fault, unstored: Option<Node<K, V>>) -> Refused<K, V>
    requires back { (key : K) × (value : V) × (unstored ≡ Some (Pair key value)) }
    ensures fault { result.fault ≡ fault }
    ensures back { unstored ≡ Some (Pair result.key result.value) }
{
    match unstored {
        Some(Node::Pair(key, value)) => Refused { fault, key, value },
        _ => unreachable!(),
    }
}
