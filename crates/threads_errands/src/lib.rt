//! Errands of seats of maps: one is sent to make a map, to look a key up there, to run a call there, and to count its pairs. A pair is stored, and one is
//! removed, by code that runs ahead of the machine.
#![tactic(auto)]

mod ahead;
mod errands;
mod helping;
mod memory;
mod removing;
mod running;
mod storing;
mod turns;

pub use errands::{Counts, Does, Finds, Makes, MakesPair, Removes, RemovesIf, Stores};
pub use memory::memory_for;
pub use threads_steps::{
    Halt, OfMaps, Ran, Sleepers, View, Waiter, Within, endings_go_on, leanings_begin,
};
