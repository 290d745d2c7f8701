//! What is promised, by subject.

pub mod answers;
pub mod moves;
