//! The calls of a map: on a key, over all pairs, for more room, and the one that ends it; and what crates below give on.
#![tactic(auto)]

pub mod machines;

pub use map_sweeps::named::{
    Counter, Equivalent, Hashes, Node, Probe, ResizeMode, Setting, Status, Table, entries_for,
    every_place_is_tried, h1, h2, lengths, limit, marks, places_are_distinct, table_words,
};
pub use map_sweeps::named_sweeps::Yielding;
