//! Scenes: how callers, maps and a memory stand at a moment, what each kind of step leads to, and how the moment of a run follows.
#![tactic(auto)]

pub mod callers;
pub mod law;
pub mod row;

pub use run_effects::notes::Notes;
pub use run_effects::role::Role;
pub use run_effects::teller::Teller;
