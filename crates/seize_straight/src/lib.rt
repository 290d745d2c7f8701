//! Operations of the collector's rows as straight code: each function makes the very operations of one row in their order, over any memory, and says
//! at which point of that row it has stopped, or what that has told.
#![tactic(auto)]

mod leaving;
mod reclaiming;
mod retiring;

pub use leaving::{Left, leave, leave_of};
pub use reclaiming::{reclaim, reclaims};
pub use retiring::{Retired, retire, settle_of};
