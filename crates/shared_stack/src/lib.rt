//! A stack of values at a root of a memory that threads share: who pushes a value, or pops one, puts a pile there in the place of the one that was seen.
#![tactic(auto)]

mod pile;
mod stack;

pub use pile::Pile;
pub use stack::{Popped, pop, push};

#[cfg(test)]
mod linked;
#[cfg(test)]
mod tests;
