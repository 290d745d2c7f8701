//! The collector: a number, and a memory that threads share by its rows.
#![tactic(auto)]

mod collector;
#[cfg(test)]
mod tests;

pub use collector::Collector;
pub use seize::IdSource;
pub use seize_reclaims::reclaim_all;
pub use seize_shared::{
    Before, Content, Guard, LocalGuard, OfRows, Owned, OwnedGuard, Pass, Protected, Registration,
    RootGuard, Shared, Tagged, Unlinked,
};
