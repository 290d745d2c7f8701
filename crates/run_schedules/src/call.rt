//! The calls of a map, what a closure replies, and what is answered.

/// A call on one key.
#[derive(Drop)]
pub enum OneKey<K, V> {
    /// Looks for the pair of a key.
    Get(K),
    /// Looks for the pair of a key, and tells both halves of it.
    GetKeyValue(K),
    /// Looks whether a key has a pair.
    ContainsKey(K),
    /// Stores a pair, also in the place of another one of its key.
    Insert(K, V),
    /// Stores a pair, if its key has none.
    TryInsert(K, V),
    /// Asks for a value and stores it, if the key has no pair.
    TryInsertWith(K),
    /// Stores a pair, if its key has none, and tells the one that is there then.
    GetOrInsert(K, V),
    /// The same, with a value that it asks for.
    GetOrInsertWith(K),
    /// Asks for the next value of a key that has a pair.
    Update(K),
    /// The same, and stores a pair where there is none.
    UpdateOrInsert(K, V),
    /// The same, with a value that it asks for.
    UpdateOrInsertWith(K),
    /// Asks what becomes of the pair of a key, or of none.
    Compute(K),
    /// Removes the pair of a key.
    Remove(K),
    /// Removes the pair of a key, and tells both halves of it.
    RemoveEntry(K),
    /// Asks whether to remove the pair of a key.
    RemoveIf(K),
}

/// A call of a map.
#[derive(Drop)]
pub enum Call<K, V> {
    /// A call on one key.
    On(OneKey<K, V>),
    /// Makes room for so many further pairs.
    Reserve(u64),
    /// Removes all pairs.
    Clear,
    /// Asks of each pair whether it stays.
    Retain,
    /// Counts the pairs.
    Len,
    /// Shows the pairs one after another.
    Walk,
}

/// What a closure replies.
#[derive(Drop)]
pub enum Reply<V> {
    /// A value to be stored.
    Gives(V),
    /// The pair is to be removed.
    Removes,
    /// Nothing is to be done, and this is to be answered.
    Aborts(V),
    /// Yes or no: to `remove_if` whether the pair is removed, to `retain` whether it stays.
    Decides(bool),
}

/// What a call answers. Pairs are told by their numbers.
#[derive(Drop)]
pub enum Response<V> {
    /// The key has no pair; of a walk, that there is no further one.
    Absent,
    /// The pair of the key: found, replaced or removed.
    Found(u64),
    /// The pair that the call stored.
    Stored(u64),
    /// The key has this pair, and the value was not stored.
    Occupied {
        /// The pair that is there.
        there: u64,
        /// The value.
        value: V,
    },
    /// The key has this pair, which stays.
    Kept(u64),
    /// `compute` stored this pair where there was none.
    Inserted(u64),
    /// `compute` stored the second pair in the place of the first.
    Updated {
        /// The pair that was there.
        old: u64,
        /// The pair that is there now.
        new: u64,
    },
    /// `compute` removed this pair.
    Removed(u64),
    /// `compute` did nothing, and its closure gave this.
    Aborted(V),
    /// The call on the whole map is done.
    Completed,
    /// So many pairs.
    Counted(u64),
}
