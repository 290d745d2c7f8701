//! What the last change of a map for one owner took out of it, and what it met at its key.
ghost use Rattle.std.specs.Prelude.{◌≡◌, true, option_map};
ghost use Rattle.owner_rests.specs.Rests.Lasts.{is_named, pair_in, words_of, words_of_stop};

use map_tables::Node;
use owner_calls::{Stop, shown_at};
use papaya_raw::machines::KeyAnswer;
use seize_words::Plain;

/// The words of the pair that the last change took out of a map, and of the one that it met at its key, or put there.
#[derive(Clone, Copy)]
pub struct Last {
    /// The pair that was removed or replaced, if one was.
    pub taken: Option<u64>,
    /// The pair that was found and left, or else the one that was stored, if there is one.
    pub met: Option<u64>,
}

impl Last {
    /// Neither pair.
    pub const NONE: Last = Last {
        taken: None,
        met: None,
    };
}

/// The words that an answer tells.
pub(crate) fn told(answer: KeyAnswer) -> Last
    ensures { result ≡ words_of answer }
{
    match answer {
        KeyAnswer::Absent => Last::NONE,
        KeyAnswer::Found(word) | KeyAnswer::Stored(word) => Last {
            taken: None,
            met: Some(word),
        },
        KeyAnswer::Replaced { old, new } => Last {
            taken: Some(old),
            met: Some(new),
        },
        KeyAnswer::Removed(word) => Last {
            taken: Some(word),
            met: None,
        },
    }
}

/// The words that the end of a call tells.
pub(crate) fn told_at(stop: Stop) -> Last
    ensures { result ≡ words_of_stop stop }
{
    match stop {
        Stop::Answered(answer) => told(answer),
        Stop::Asks(_) => Last::NONE,
    }
}

/// Returns the pair of a word, if there is one.
pub fn shown<K, V>(memory: &Plain<Node<K, V>>, word: Option<u64>) -> Option<(&K, &V)>
    requires { is_named memory.now word ≡ true }
    ensures { option_map (λ x. (x.0.now, x.1.now)) result ≡ pair_in memory.now word }
{
    shown_at(memory, word)
}
