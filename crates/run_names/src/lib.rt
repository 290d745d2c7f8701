//! Who is there in a run, by name and by slot; and drivers that apply events to one run, under a lock.
#![tactic(auto)]

pub mod counts;
pub mod crew;
pub mod crowd;
pub mod driver;
pub mod finished;
mod holders;
pub mod kept;
mod locked;
pub mod name;
pub mod name_index;
pub mod number_counts;
pub mod runner;

pub use holders::Holders;
