//! Calls on a key that go by closures, changes that are never refused, and what is so of lists of pairs and of elements in any order.
#![tactic(auto)]

mod asking;
mod computing;
pub mod law;
mod removals_by_test;
mod updates;

pub use computing::{Computed, compute};
pub use removals_by_test::{remove, remove_if};
pub use seize_words::{Refused, RefusedKey};
pub use updates::{insert_with, update, update_or_insert, update_or_insert_with};
