//! What a seat knows of a word that one seat at a time sets, and others look at.

/// What a seat knows.
pub enum Part {
    /// Nothing.
    Nothing,
    /// It has set the word.
    Keeps,
    /// It is about to clear it.
    Clears,
    /// It looks at it while it leans on the seat of this number.
    Looks(u64),
}
