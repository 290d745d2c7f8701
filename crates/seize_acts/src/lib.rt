//! The collector as a list of acts, one operation each; how many steps a row takes until it has settled; and the reclaiming of all that waits.
#![tactic(auto)]

pub mod law;
mod reclaiming;

pub use law::bounds::{batches_are_tried, lists_are_counted, lists_are_settled};
pub use law::quiet::slots_are_given_up;
pub use reclaiming::ReclaimingAll;
