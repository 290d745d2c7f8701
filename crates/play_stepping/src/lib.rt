//! Calls of a scheduler take steps, walks show their pairs, and maps are made and end; and what steps say is told as their calls mean.
#![tactic(auto)]

pub mod endings;
pub mod makings;
pub mod reclaims;
pub mod stepping;
pub mod walking;

pub use crate::endings::end_map;
pub use crate::makings::make_map;
pub use crate::reclaims::{close, reclaim_all};
pub use play_scheduler::played::Played;
pub use play_scheduler::scheduler::Scheduler;
pub use play_scheduler::{Logged, NamedMap};
