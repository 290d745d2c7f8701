//! The collector: slots, batches and their reclamation, as machines of single operations, and what is promised of them.
#![tactic(auto)]

mod advance;
mod collector;
pub mod ids;
mod machine;
pub mod named;
pub mod reclaim;
pub mod rows;
pub mod states;

pub use advance::Advance;
pub use collector::Collector;
pub use ids::IdSource;
pub use machine::StepMachine;
pub use seize_words::{At, Fault, Link, Look, Memory, Plain};
