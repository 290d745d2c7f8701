//! What calls on one key do, and what they answer. A pair is named by the word that links to its block.
ghost use Rattle.std.specs.Prelude.{◌≡◌};
ghost use Rattle.papaya_raw.specs.Answers.{ended};

use map_sweeps::named::Fault;

/// What a call does where the key is in the map.
#[derive(Clone, Copy)]
pub enum There {
    /// It answers with the pair.
    Answers,
    /// It replaces the pair.
    Puts,
    /// It removes the pair.
    Removes,
    /// It asks what to do with the pair.
    Asks,
}

/// What a call does where the key is not in the map.
#[derive(Clone, Copy)]
pub enum Missing {
    /// It answers so.
    Answers,
    /// It stores a pair.
    Puts,
    /// It asks whether to store a pair, and with which value.
    Asks,
}

/// What a call on one key answers. One that has asked, and was told to change nothing, answers as one that has only looked.
#[derive(Clone, Copy, PartialEq, Eq)]
pub enum KeyAnswer {
    /// The key was not in the map, and nothing changed.
    Absent,
    /// The key was in the map with this pair, and nothing changed.
    Found(u64),
    /// The key was not in the map, and this pair was stored.
    Stored(u64),
    /// A pair was replaced by another one.
    Replaced {
        /// The pair that was there.
        old: u64,
        /// The pair that was stored.
        new: u64,
    },
    /// This pair was removed.
    Removed(u64),
}

/// How a call on one key ends.
#[derive(Clone, Copy, PartialEq, Eq)]
pub enum End {
    /// With an answer.
    Answered(KeyAnswer),
    /// Without one. No pair was changed.
    Refused(Fault),
}

/// How far a call on one key is.
#[derive(Drop)]
pub enum Called<T> {
    /// Further steps are needed.
    Goes,
    /// Nothing changed: another call is to go on first. The same step is taken again.
    Waits,
    /// Further steps are needed, and this value was reclaimed.
    Gave(T),
    /// Further steps are needed. This is the call's own pair, which was not stored.
    Unstored(T),
    /// It is to be told what to do with this pair, or where the key is missing. Until then, each step says so again.
    Asks(Option<u64>),
    /// It has ended, with this answer.
    Done(KeyAnswer),
    /// It has ended without one.
    Refused(Fault),
}

impl End {
    /// Returns what a call that has ended so tells.
    pub fn told<T>(self) -> Called<T>
        ensures { result ≡ ended self }
    {
        match self {
            End::Answered(answer) => Called::Done(answer),
            End::Refused(fault) => Called::Refused(fault),
        }
    }
}
