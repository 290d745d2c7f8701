//! A map over a memory that has one owner: calls that never wait, how it begins, and how it terminates.
#![tactic(auto)]

pub mod law;
