//! What a call on one key may be told, what it keeps of that, and where it stands meanwhile.
ghost use Rattle.std.specs.Prelude.{◌≡◌};
ghost use Rattle.papaya_raw.specs.Replies.{value_replied, owned, untold, silent, as_own, value_for, with_back};

use std::mem;

/// What a call is told that has asked.
#[derive(Drop)]
pub enum MachineReply<V> {
    /// This value is to be stored.
    Insert(V),
    /// The pair is to be removed.
    Remove,
    /// Nothing is to change.
    Abort,
    /// Yes. What that says goes by what was asked: `remove_if` asks whether the pair is to be removed, `retain` whether it is to be
    /// kept.
    Yes,
    /// No: by `remove_if` the pair is kept, by `retain` it is removed.
    No,
}

/// Which replies a call takes.
#[derive(Clone, Copy)]
pub enum Takes {
    /// None: it never asks.
    Nothing,
    /// A value.
    Values,
    /// A value, that the pair is to be removed, or that nothing is to change.
    Changes,
    /// Yes or no.
    Choices,
}

/// What a call was told.
#[derive(Drop)]
pub enum Told<V> {
    /// Nothing yet.
    Nothing,
    /// This value is to be stored.
    Value(V),
    /// The value in its own block is to be stored.
    Own,
    /// The pair is to be removed.
    Removes,
}

/// What a call keeps of what it was told, and its key, which goes into its own block with a value.
#[derive(Drop)]
pub struct Replies<K, V> {
    /// What it takes.
    pub takes: Takes,
    /// Its key, unless that stands in its own block, or something else stands for it.
    pub key: Option<K>,
    /// What it is to do where the key is missing.
    pub absent: Told<V>,
    /// The block of the pair that it has asked for last, 0 while there is none.
    pub pair: u64,
    /// What it is to do with that pair.
    pub present: Told<V>,
}

/// Where a key was found missing.
#[derive(Clone, Copy)]
pub enum Gap {
    /// The map has no table.
    NoTable,
    /// The place of the try is empty.
    Free,
    /// All tries at the table are made.
    Past,
    /// No table follows the one that was tried.
    Last,
}

/// Where a call stands that asks, or goes by what it was told. A pair is named by the word that links to it.
#[derive(Clone, Copy)]
pub enum Asking {
    /// Asks what to do where the key is missing.
    Absent {
        /// Where it is missing.
        gap: Gap,
    },
    /// Asks what to do with a pair.
    Present {
        /// The pair.
        word: u64,
    },
    /// Puts the value that it was told into its own block.
    Fills {
        /// The word that the block is to replace.
        word: u64,
    },
    /// Gives its own block up, before it removes a pair.
    GivesUp {
        /// The pair.
        word: u64,
    },
}

impl<V: Drop> Told<V> {
    /// Hands out the value, if it is one. Its own block is to have it from now on.
    fn take(&mut self) -> Option<V>
        ensures left { self.new ≡ owned self.old }
        ensures taken { result ≡ value_replied self.old }
    {
        match mem::replace(self, Told::Own) {
            Told::Value(value) => Some(value),
            told => {
                *self = told;
                None
            }
        }
    }
}

impl<K, V> Replies<K, V> {
    /// Nothing was told yet.
    pub(super) fn new(takes: Takes, key: Option<K>, absent: Told<V>) -> Self
        ensures { result ≡ untold takes key absent }
    {
        Replies {
            takes,
            key,
            absent,
            pair: 0,
            present: Told::Nothing,
        }
    }

    /// Those of a call that never asks.
    pub(super) fn silent() -> Self
        ensures { result ≡ silent }
    {
        Replies::new(Takes::Nothing, None, Told::Nothing)
    }
}

impl<K: Drop, V: Drop> Replies<K, V> {
    /// Hands out the value that is to be stored in the place of a word. Its own block is to have it from now on.
    pub(super) fn take(&mut self, word: u64) -> Option<V>
        ensures left { self.new ≡ as_own self.old word }
        ensures taken { result ≡ value_for self.old word }
    {
        if word == 0 {
            self.absent.take()
        } else {
            self.present.take()
        }
    }

    /// Takes the key and the value of its own block back. A value that it needs no longer is dropped.
    pub(super) fn take_back(&mut self, key: K, value: V)
        ensures { self.new ≡ with_back self.old key value }
    {
        self.key = Some(key);
        if let Told::Own = self.absent {
            self.absent = Told::Value(value);
        } else if let Told::Own = self.present {
            self.present = Told::Value(value);
        }
    }
}
