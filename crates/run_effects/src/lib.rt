//! What each block of a run's memory is, what an operation tells of the change that it made, what it does to pairs and tables, and what is told of them
//! at the end.
#![tactic(auto)]

pub mod acting;
pub mod by_map;
mod calls;
pub mod changed;
pub mod did;
pub mod events;
pub mod left;
pub mod notes;
pub mod outcomes;
pub mod role;
pub mod table_index;
pub mod tally;
pub mod teller;
pub mod telling;
