//! Steps of seats of maps, under the rule of maps: a seat on an errand makes a map, looks a key up there, and runs a call there, by the steps of the machines.
#![tactic(auto)]

mod finding;
pub mod law;
mod turns;
mod waiting;
mod within;

pub use finding::{goes_on, sees};
pub use threads_rule::{OfMaps, View, endings_go_on, leanings_begin};
pub use waiting::{Sleepers, Waiter};
pub use within::{Halt, Ran, Within, ended};
