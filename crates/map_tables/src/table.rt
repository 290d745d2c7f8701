//! A table that a machine has entered.
ghost use Rattle.std.specs.Prelude.{◌≡◌, ◌-◌};
ghost use Rattle.map_tables.specs.Nodes.{table_seen};

use crate::node::Node;

/// A table that a machine has entered: its link, and what its value says.
#[derive(Clone, Copy)]
pub struct Table {
    /// Its link.
    pub link: u64,
    /// How many places it has.
    pub len: u64,
    /// The number of the last try of a probe.
    pub limit: u64,
    /// Its turn in the chain of the map's tables.
    pub turn: u64,
}

impl Table {
    /// Returns the table of a link to a block with this value. A value of another kind is taken for a table of no places.
    pub fn seen<K, V>(link: u64, value: &Node<K, V>) -> Table
        ensures { result ≡ table_seen link value.now }
    {
        match value {
            Node::Table { len, limit, turn } => Table {
                link,
                len: *len,
                limit: *limit,
                turn: *turn,
            },
            Node::Pair(_, _) | Node::Shards => Table {
                link,
                len: 0,
                limit: 0,
                turn: 0,
            },
        }
    }

    /// Returns the mask of its places: its length less one.
    pub fn mask(self) -> u64
        ensures { result ≡ self.len - 1 }
    {
        self.len.saturating_sub(1)
    }
}
