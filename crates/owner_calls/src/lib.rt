//! Machines that the one owner of a memory runs to their ends, walks that remove by closures, and what the memory has beside the pairs of the map.
#![tactic(auto)]

mod calls;
mod inside;
pub mod law;
mod looking;
mod machines;
mod most;
mod most_looks;
mod refreshes;
mod removals;
mod rooms;
mod running;
mod skims;
mod sweeping;
mod sweeps;
mod tries;

pub use calls::last_try;
pub use looking::{find, pair_at, shown_at};
pub use machines::{ForRoom, OnKey, OwnerRefresh, Stop};
pub use removals::run_removal;
pub use rooms::make_room;
pub use running::{run, run_skimming};
pub use skims::Skims;
pub use sweeping::{OverPairs, Pause};
pub use sweeps::{empty, sift};
