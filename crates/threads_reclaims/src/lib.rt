//! All that waits in a memory of maps is reclaimed, while one has it to himself.
#![tactic(auto)]

mod bequests;
mod law;
mod reclaim;
mod rule;
mod sole;

pub use law::one_reclaims_maps;
pub use reclaim::reclaim_all;
pub use rule::OneOfMaps;
pub use sole::Sole;
