//! Calls on one key of a map that threads share that store a value made of the one that is there, or do with its pair what a closure says.
#![tactic(auto)]

mod changing;
mod computing;
mod deciding;
mod updating;

pub use changing::ComputedPair;
pub use threads_calls::{
    Attempt, Fixed, Form, Found, MapPassSeat, OfMaps, SessionBase, Sleepers, memory_for, newcomer,
};
pub use updating::{compute, update, update_or_insert, update_or_insert_with};
