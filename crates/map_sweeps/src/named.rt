//! What those above name of the crates below.
pub use map_machines::named::{
    Advance, Aim, At, Counter, Equivalent, Fault, Finding, Hashes, Link, Memory, Node, Probe,
    ResizeMode, Setting, Settled, Status, StepMachine, Table, Trial, entries_for,
    every_place_is_tried, h1, h2, lengths, limit, marks, may_be, places_are_distinct, seen, states,
    table_words,
};
