//! The end of all that waits in a memory that threads have shared, while one seat has it to itself.
#![tactic(auto)]

mod alone;
mod law;
mod one;
mod reclaim;
mod rule;
mod sole;

pub use alone::Alone;
pub use law::{one_acts_alone, one_reclaims_all};
pub use one::One;
pub use reclaim::{acts, reclaim_all};
pub use rule::{OfOne, Passing};
