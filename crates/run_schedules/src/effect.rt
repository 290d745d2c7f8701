//! What an event does to pairs, tables and blocks.
use crate::shapes::TableShape;

/// A table. The k-th map that a run makes has the number k, from 0 on, and a map's tables have turns, from 0 on.
#[derive(Clone, Copy, PartialEq, Eq)]
pub struct TableId {
    /// The number of its map.
    pub map: u64,
    /// Its turn.
    pub turn: u64,
}

/// Where a pair lies in its map.
#[derive(Clone, Copy, PartialEq, Eq)]
pub struct Spot {
    /// The turn of the table.
    pub turn: u64,
    /// The place in it.
    pub place: u64,
}

/// What is handed to the collector and reclaimed.
#[derive(Clone, Copy, PartialEq, Eq)]
pub enum Thing {
    /// The pair of this number.
    APair(u64),
    /// A table.
    ATable(TableId),
}

/// What memory is asked for.
#[derive(Clone, Copy, PartialEq, Eq)]
pub enum Growth {
    /// A block: of a pair, of a table, or of the shards of a map's count.
    ABlock,
    /// A bucket of words of slots.
    ABucket,
}

/// What an event did.
#[derive(Clone, Copy, PartialEq, Eq)]
pub enum Effect {
    /// A growth was asked for. It was refused unless what was to be made follows.
    Asked(Growth),
    /// A block for a pair was made, which is in no map yet.
    PairMade,
    /// Such a block was given up.
    PairGivenUp,
    /// A table was made, and is no table of its map yet.
    TableMade(TableId),
    /// Such a table was given up, as another caller's came first.
    TableGivenUp(TableId),
    /// A table that was made became the last one of its map.
    Linked {
        /// The table.
        table: TableId,
        /// Its length, and its last try.
        shape: TableShape,
    },
    /// A table became the root of its map: those before it are passed.
    Promoted(TableId),
    /// A pair was copied into a later table.
    Copied {
        /// The pair.
        pair: u64,
        /// Where it lies there.
        into: Spot,
    },
    /// A new pair came into the map.
    Stored {
        /// The pair.
        pair: u64,
        /// Where it lies.
        at: Spot,
    },
    /// A pair left the map for the one that is stored next.
    Replaced(u64),
    /// A pair left the map by a removal.
    Removed(u64),
    /// The call added what it had stored and removed to this shard of its map's count.
    Counted(u64),
    /// A pair that left its map was put behind a table, to be reclaimed after it.
    Deferred {
        /// The pair.
        pair: u64,
        /// The table.
        behind: TableId,
    },
    /// A pair that left its map, or a table that was passed, was retired.
    Retired(Thing),
    /// What was retired, deferred or left by an ended map was reclaimed.
    Reclaimed(Thing),
    /// A pair was reclaimed that was still in the map as the map ended.
    Ended(u64),
    /// A table ended with its map.
    Taken(TableId),
}
