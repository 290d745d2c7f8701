//! Those who share a memory of maps: each is a seat that makes a map, comes to know one, takes a slot, and is sent for each call; a seat more may look keys up under it.
#![tactic(auto)]

mod answers;
mod caller;
mod form;
mod showing;

pub use answers::{Attempt, Found, came_of, is_put, refused, removed, replaced, there, told_of};
pub use caller::{MapCaller, MapPassSeat, MapReturning, Resorting};
pub use form::Form;
pub use showing::newcomer;
pub use threads_errands::{Halt, OfMaps, Ran, Sleepers, Waiter, Within, memory_for};
