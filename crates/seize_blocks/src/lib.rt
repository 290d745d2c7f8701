//! A memory that threads share, under any rule. Each operation on a word is one atomic step, which owes that the rule holds again.
#![tactic(auto)]

mod access;
mod alone;
mod blocks;
mod errand;
mod home;
mod landing;
mod numbers;
mod part;
mod places;
mod reaching;
mod rooms;

pub use blocks::Blocks;
pub use errand::{Errand, ErrandWith, ErrandWithTwo};
pub use home::Home;
pub use part::Place;
pub use seize_atoms::{Bequest, Lesson, Meeting, Rule, Seat, StripWords, Turn};
