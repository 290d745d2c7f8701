//! An executor whose steps are written down as what they do to pairs, tables and blocks; and what callers do with their slots, run to its end.
#![tactic(auto)]

pub mod back;
pub mod calling;
pub mod ends;
pub mod logged;
pub mod makings;
pub mod on_slots;
pub mod reclaims;

pub use crate::logged::Logged;
