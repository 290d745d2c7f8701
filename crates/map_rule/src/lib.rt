//! The rule of the map: what holds of its tables between any two single operations.
#![tactic(auto)]

pub mod law;
