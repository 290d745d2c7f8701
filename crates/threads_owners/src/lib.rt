//! The owner of a map lends it: a pass makes calls on it within the section of a guard, and is lent what it has found for as long as guard and owner are.
#![tactic(auto)]

mod lending;
mod loans;
mod naming;
mod owning;

pub use lending::{Done, lends};
pub use naming::Naming;
pub use owning::{ends_own, makes_own};
