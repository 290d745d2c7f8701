//! The rows of the collector: what a slot and its batch go through, each a machine of single operations, with slots and
//! links as plain numbers.

mod defer;
mod enter;
mod leave;
mod links;
mod reclaim_all;
mod register;
mod settle;

pub use defer::{Defer, Deferring};
pub use enter::{Enter, Unregister};
pub use leave::{Leave, Leaving};
pub use links::{CompareExchange, Copy, Mark, Protect, Swap};
pub use reclaim_all::{Leftovers, NoneLeft, ReclaimAll, Reclaiming};
pub use register::{Register, Registering, needed_bucket};
pub use seize_words::{Defers, LeftOver};
pub use settle::{Settle, Settled, Settling};
