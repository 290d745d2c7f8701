//! The names of words.

/// The name of a word of the memory.
#[derive(Clone, Copy, Debug, PartialEq, Eq)]
pub enum At {
    /// The link of a root.
    Root(u64),
    /// Whether a root is in use: 0 while it is free.
    Used(u64),
    /// A word of a slot: the slot's number, and which of its words.
    Slot(u64, u64),
    /// A word of a block's retirement entry: the block's number, and which word.
    Entry(u64, u64),
    /// A word of a block's own: the block's number, and which word.
    Word(u64, u64),
}
