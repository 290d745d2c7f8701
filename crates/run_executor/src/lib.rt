//! Executes calls, makings and ends of maps, one step of one of them at a time, and reclaims all that waits; callers and maps by name.
#![tactic(auto)]

pub mod beginning;
pub mod caller;
pub mod callers;
pub mod ending;
pub mod executor;
pub mod kind;
pub mod machines;
pub mod making;
pub mod named_map;
pub mod on_slots;
pub mod places;
pub mod reclaiming;
pub mod replying;
pub mod saying;
pub mod stepping;
pub mod stopping;
mod taking;
pub mod telling;
pub mod vacating;
pub mod worker;

pub use crate::executor::Executor;
