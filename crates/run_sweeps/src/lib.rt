//! What calls on whole maps are for, in the words of a run, and how many a map has; what makings, ends and rows need, and what steps say.
#![tactic(auto)]

pub mod law;
