//! Entries of histories of lists of acts move on, and keep all that is promised; and what threads are answered is of one legal history.
#![tactic(auto)]

pub mod law;
