//! What is promised, by subject.

pub mod by_key;
pub mod falls;
pub mod passes;
pub mod waiters;
pub mod waits;
