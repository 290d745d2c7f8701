//! What those above name of the crates below.
pub use map_tables::named::{At, Fault, Link, Memory};
pub use map_tables::{
    Aim, Counter, Equivalent, Finding, Hashes, Node, Probe, ResizeMode, Setting, Status, Table,
    Trial, entries_for, every_place_is_tried, h1, h2, lengths, limit, marks, may_be,
    places_are_distinct, seen, table_words,
};
pub use seize::rows::Settled;
pub use seize::{Advance, StepMachine, states};
