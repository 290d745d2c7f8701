//! Those who share a memory, by the collector's rows: each takes a slot, enters, leaves and gives it up, and puts blocks at roots, sees them there, takes
//! them from there and retires them.
#![tactic(auto)]

mod caller;
pub mod errands;
mod within;

pub use caller::{Caller, PassSeat, marked, named, watcher};
