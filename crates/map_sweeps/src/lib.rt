//! Walks over the pairs of a map, the removal of all or some of them, and room for further pairs, made ahead of them.
#![tactic(auto)]

pub mod named;
pub mod named_reserves;
pub mod named_sweeps;
mod reserve;
mod sweep;

pub use reserve::{Reserve, Reserving};
pub use sweep::{Purpose, Sweep, Sweeping, Swept};
