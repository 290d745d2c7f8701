//! Calls of many callers on one map, side by side: under every interleaving the invariant of all holds.
#![tactic(auto)]

pub mod law;
