//! The points of the map's machines: what each knows, and what its step does.
#![tactic(auto)]

pub mod law;
