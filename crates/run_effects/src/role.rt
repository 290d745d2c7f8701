//! What a block of a run's memory is.
use run_schedules::effect::TableId;
use run_schedules::shapes::TableShape;

/// What a block is.
#[derive(Clone, Copy)]
pub enum Role {
    /// There is no such block.
    Free,
    /// A caller's own one for a pair, which is in no map yet.
    OwnPair {
        /// The number of the caller.
        caller: u64,
    },
    /// A table that was made, and is no table of its map yet.
    OwnTable {
        /// Its turn.
        turn: u64,
        /// Its length, and its last try.
        shape: TableShape,
    },
    /// The pair of this number.
    Pair(u64),
    /// A table of a map.
    Table {
        /// Which one it is.
        table: TableId,
        /// How many places it has.
        len: u64,
    },
    /// The shards of the count of the map of this number.
    Counter(u64),
}
