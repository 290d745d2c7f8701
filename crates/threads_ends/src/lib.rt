//! The seat that owns a map: it is sent to make the map, and to end it, while others go on on other maps of the same memory.
#![tactic(auto)]

mod ending;
mod errands;

pub use errands::{EndsOwn, MakesOwn};
