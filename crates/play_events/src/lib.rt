//! What each kind of event keeps, as the scheduler plays it, what it hands over, and that a run goes on with it.
#![tactic(auto)]

pub mod law;

pub use play_stepping::stepping::{go, one_call, step};
pub use play_stepping::walking::next;
pub use play_stepping::{
    Logged, NamedMap, Played, Scheduler, close, end_map, make_map, reclaim_all,
};
