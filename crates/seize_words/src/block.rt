//! A block, as contracts see it: a value, with the words of its retirement entry and its own.
use crate::word_array::WordArray;
use crate::words::Words;

/// How many words a block's retirement entry has.
pub const ENTRY_WORDS: usize = 4;

/// What contracts say of a block. In memory it lies in one piece.
#[derive(Drop)]
pub struct Block<T> {
    /// What the block holds.
    pub value: T,
    /// The words of its retirement entry.
    pub entry: Words<ENTRY_WORDS>,
    /// Its own words.
    pub words: WordArray,
}
