//! JSON of maps and sets that threads share; and those, given on.
#![tactic(auto)]

mod forms;
mod maps;
mod sets;

pub use forms::{FromJson, ToJson};
pub use map_forms::{JsonFault, JsonForm, JsonKey, Text};
pub use papaya::{
    Attempt, Fault, HashMap, HashSet, IdSource, Operation, Refused, ResizeMode, Session,
    SetSession, SharedMap, SharedSet,
};
