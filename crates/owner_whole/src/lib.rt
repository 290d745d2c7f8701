//! Whole calls for one owner of a map's memory, the number that each of their steps lowers, and steps that are taken at once.
#![tactic(auto)]

pub mod law;
