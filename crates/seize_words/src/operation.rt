//! What a computing says is to be done with a key.

/// What a computing gives, by the pair that is there, or where there is none.
#[derive(Debug, Drop, PartialEq, Eq)]
pub enum Operation<V, T> {
    /// This value is to be stored.
    Insert(V),
    /// The pair is to be removed.
    Remove,
    /// Nothing is to change.
    Abort(T),
}
