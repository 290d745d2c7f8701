//! Maps beside one another on one collector, makings and ends of maps, each with calls of many callers.
#![tactic(auto)]

pub mod law;
