//! The collector's state with its lists as lists: its waiting sets, its rule, the moves that keep it, and how the words of a memory show it.
#![tactic(auto)]

pub mod law;
