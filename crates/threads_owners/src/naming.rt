//! Which pairs the answers of errands name: one that the map has no longer, and one that it has.
ghost use Rattle.std.specs.Prelude.{◌≡◌, None};
ghost use Rattle.threads_owners.specs.Loans.{names_in, names_of};

use papaya_raw::machines::{Answer, KeyAnswer};
use seize_words::Fault;
use threads_errands::Ran;

/// What an errand answers that may name pairs.
pub trait Naming {
    ghost use Rattle.threads_owners.specs.Loans.{Names};

    ghost names: { Self → Names };

    /// Returns the word of the pair that the map has no longer, if one is named, and that of the one that it has.
    fn named(&self) -> (Option<u64>, Option<u64>)
        ensures { result ≡ names self.now };
}

/// Those that the answer of a call names.
fn named_in(answer: &Answer) -> (Option<u64>, Option<u64>)
    ensures { result ≡ names_in answer.now }
{
    match answer {
        Answer::Key(KeyAnswer::Found(word) | KeyAnswer::Stored(word)) => (None, Some(*word)),
        Answer::Key(KeyAnswer::Replaced { old, new }) => (Some(*old), Some(*new)),
        Answer::Key(KeyAnswer::Removed(word)) => (Some(*word), None),
        _ => (None, None),
    }
}

/// A lookup names the pair that it has found.
impl Naming for Option<u64> {
    ghost names = { λ found. (None, found) };

    fn named(&self) -> (Option<u64>, Option<u64>) {
        (None, *self)
    }
}

impl Naming for Result<Answer, Fault> {
    ghost names = { names_of };

    fn named(&self) -> (Option<u64>, Option<u64>) {
        match self {
            Ok(answer) => named_in(answer),
            Err(_) => (None, None),
        }
    }
}

impl<K, V> Naming for Ran<K, V> {
    ghost names = { λ ran. names_of ran.told };

    fn named(&self) -> (Option<u64>, Option<u64>) {
        self.told.named()
    }
}

/// A count names none.
impl Naming for u64 {
    ghost names = { λ count. (None, None) };

    fn named(&self) -> (Option<u64>, Option<u64>) {
        (None, None)
    }
}
