//! The rule of the collector: the words of a memory show its state, and whatever happens, any two operations apart, is sound.
#![tactic(auto)]

pub mod law;
