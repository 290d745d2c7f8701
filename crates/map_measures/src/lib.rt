//! The numbers that each step of a call lowers that goes on, whatever others have under way; when a call may wait, and for whom; and calls by another
//! form of a key.
#![tactic(auto)]

pub mod law;
