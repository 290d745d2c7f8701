//! Guards beside a registration's own: several that have one slot's section open, each by a reference to it; those of chains, blocks that are put above one
//! another at a root; and those that let a value wait behind another one.
#![tactic(auto)]

mod behind;
mod deferring;
mod desk;
mod drawer;
mod guard;
mod joined;
mod joining;
mod walking;

pub use behind::DeferringGuard;
pub use desk::{Desk, DeskGuard, MOST_GUARDS};
pub use guard::{ChainGuard, Unstacked};
pub use joined::Joined;
