//! A hash map and a hash set for one owner. The map, texts as keys and JSON forms stand in crates of their own, and are given on.
#![tactic(auto)]

mod json;
mod map;
pub mod read_back;
mod set;

pub use json::{FromJson, ToJson};
pub use map_forms::{JsonFault, JsonForm, JsonKey, Text};
pub use owner_map::{
    Aborted, Compute, Drops, Equivalent, Fault, HashMap, Keys, OccupiedError, Operation, Pairs,
    Present, Receiver, Refused, RefusedKey, Removed, Replaced, Updated, Values, law,
};
pub use set::HashSet;
