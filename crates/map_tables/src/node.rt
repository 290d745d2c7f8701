//! The values of a map's blocks.

use crate::table_words::DEFERRED;
use seize_words::{Defers, LeftOver};

/// The value of a block of a map.
#[derive(Drop)]
pub enum Node<K, V> {
    /// A pair that was stored.
    Pair(K, V),
    /// A table of this many places, with its last try of a probe, and its turn in the chain of the map's tables. One of no places stands in
    /// a block whose pair is out.
    Table { len: u64, limit: u64, turn: u64 },
    /// The words of a counter.
    Shards,
}

impl<K, V> Defers for Node<K, V> {
    ghost use Rattle.map_tables.specs.Nodes.{deferred_word};

    ghost defers = { deferred_word };

    /// A table holds the pairs that it carries. One of no places holds nothing, and no other block does.
    fn deferred(&self) -> Option<u64> {
        match self {
            Node::Table { len, .. } => { if *len == 0 { None } else { Some(DEFERRED) } }
            Node::Pair(_, _) | Node::Shards => None,
        }
    }
}

impl<K, V> LeftOver for Node<K, V> {
    ghost use Rattle.map_tables.specs.Nodes.{was_left};

    ghost left_over = { was_left };

    /// A pair behind a root was left by a map that has ended. A table says that its map is there.
    fn is_left_over(&self) -> bool {
        match self {
            Node::Pair(_, _) => true,
            Node::Table { .. } | Node::Shards => false,
        }
    }
}
