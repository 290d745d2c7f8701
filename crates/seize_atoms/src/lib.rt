//! Atomic steps of seats, on words that threads share under any rule. Each step owes that the rule holds again.
#![tactic(auto)]

mod alone;
mod claim;
mod lends;
mod rooms;
mod rule;
mod seat;
mod strip;
mod task;
mod words;

pub use claim::Claim;
pub use rule::{Bequest, Lesson, Meeting, Rule, Turn};
pub use seat::Seat;
pub use strip::Strip;
pub use task::{Charge, Task};
pub use words::StripWords;
