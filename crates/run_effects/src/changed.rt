//! What an operation has changed, as whoever makes it sees it.
ghost use Rattle.std.specs.Prelude.{◌≡◌};
ghost use Rattle.run_effects.specs.ReportingMemory.Changed.{kind_of};

use run_schedules::{At, Node};

/// What the value of a block is, without what a pair holds. A table of no places stands in a block whose pair is out.
#[derive(Clone, Copy)]
pub enum Kind {
    /// A pair.
    Pair,
    /// A table.
    Table {
        /// How many places it has.
        len: u64,
        /// The number of the last try.
        limit: u64,
        /// Its turn.
        turn: u64,
    },
    /// The shards of a counter.
    Shards,
}

impl Kind {
    /// Returns what a value is.
    pub fn of<K, V>(value: &Node<K, V>) -> Kind
        ensures { result ≡ kind_of value.now }
    {
        match value {
            Node::Pair(_, _) | Node::Table { len: 0, .. } => Kind::Pair,
            Node::Table { len, limit, turn } => Kind::Table {
                len: *len,
                limit: *limit,
                turn: *turn,
            },
            Node::Shards => Kind::Shards,
        }
    }
}

/// What an operation has changed.
#[derive(Clone, Copy)]
pub enum Changed {
    /// Nothing: a load, an exchange that found another word, or no operation. A value that was rewritten in its block is not told.
    Nothing,
    /// The word of a name.
    Wrote {
        /// The name.
        at: At,
        /// The word before.
        old: u64,
        /// The word from then on.
        new: u64,
    },
    /// A block was made.
    Made {
        /// What it holds.
        kind: Kind,
        /// Its number.
        block: u64,
    },
    /// A block was asked for, and refused.
    Unmade {
        /// What it was to hold.
        kind: Kind,
    },
    /// A block was taken away.
    Took {
        /// Its number.
        block: u64,
    },
    /// The words of a bucket of slots were asked for. They are there from then on, unless they were refused.
    Roomed {
        /// The bucket.
        bucket: u64,
        /// Whether they are there.
        had: bool,
    },
}
